//! This module reads a kitty image from rows. An error is that memory was refused.
ghost use Rattle.std.specs.Prelude.{◌≡◌, IfOk, OnErr};
ghost use Rattle.flat_values.specs.Found.{after, first, held_form};
ghost use Rattle.flat_values.specs.FoundImages.{compose_in, content_of, deleted_in, frame_in, image_in, look, placement_in, sent_in, transmit_in};
ghost use Rattle.fallible_alloc.specs.Refusals.{Refused};

use crate::field_name::FieldName;
use crate::image_forms::{Deletion, ImageForm, Sending};
use crate::read_numbers::{
    composition, compression, count, flag, format, known, known_order, natural, order, verbosity,
};
use crate::said::{Said, after, first};
use esc_kitty::{
    KittyImage, KittyImageData, KittyImageDelete, KittyImageFrame, KittyImageFrameCompose,
    KittyImagePlacement, KittyImageTransmit,
};
use esc_values::Items;
use std::alloc::{AllocError, Global};

// Reads the image of a form, or none.
pub(crate) fn image(
    alloc: Global,
    form: ImageForm,
    fields: &[Said<'_>],
) -> Result<Option<KittyImage>, AllocError>
    ensures ok { IfOk result (λ i. i ≡ image_in held_form form fields.now) }
    ensures refused { OnErr result (Refused Global) }
{
    match form {
        ImageForm::Nothing => Ok(None),
        ImageForm::Sent(how) => {
            let transmit = transmit(alloc, fields)?;
            Ok(Some(sent(how, transmit, after(fields))))
        }
        ImageForm::Displayed => Ok(Some(KittyImage::Display {
            image_id: count(FieldName::ImageId, fields),
            image_number: count(FieldName::ImageNumber, fields),
            placement: placement(fields),
            verbosity: verbosity(fields),
        })),
        ImageForm::Composed => Ok(Some(KittyImage::ComposeFrame {
            frame: compose(fields),
            verbosity: verbosity(fields),
        })),
        ImageForm::Deleted(what) => Ok(Some(KittyImage::Delete {
            what: deleted(what, fields),
            verbosity: verbosity(fields),
        })),
    }
}

// Reads an image that has a text, by its sending.
fn sent(how: Sending, transmit: KittyImageTransmit, fields: &[Said<'_>]) -> KittyImage
    ensures { result ≡ sent_in held_form how transmit (look fields.now) }
{
    match how {
        Sending::Kept => KittyImage::TransmitData {
            transmit,
            verbosity: verbosity(fields),
        },
        Sending::Shown => KittyImage::TransmitDataAndDisplay {
            transmit,
            placement: placement(fields),
            verbosity: verbosity(fields),
        },
        Sending::Asked => KittyImage::Query { transmit },
        Sending::Frame => KittyImage::TransmitFrame {
            transmit,
            frame: frame(fields),
            verbosity: verbosity(fields),
        },
    }
}

// Reads an image that is sent to the terminal, whose text is the first row.
fn transmit(alloc: Global, fields: &[Said<'_>]) -> Result<KittyImageTransmit, AllocError>
    ensures ok { IfOk result (λ t.
        t ≡ transmit_in held_form (first fields.now) (look (after fields.now))) }
    ensures refused { OnErr result (Refused Global) }
{
    let rest = after(fields);
    let content = content(
        alloc,
        natural(FieldName::Medium, rest),
        &first(fields),
        count(FieldName::DataSize, rest),
        count(FieldName::DataOffset, rest),
    )?;
    Ok(KittyImageTransmit {
        format: format(rest),
        content,
        width: count(FieldName::PixelWidth, rest),
        height: count(FieldName::PixelHeight, rest),
        image_id: count(FieldName::ImageId, rest),
        image_number: count(FieldName::ImageNumber, rest),
        compression: compression(rest),
        more_data_follows: flag(FieldName::MoreDataFollows, rest),
    })
}

// Returns the content of an image: one of five media, and its text.
fn content(
    alloc: Global,
    medium: u64,
    field: &Said<'_>,
    data_size: Option<u32>,
    data_offset: Option<u32>,
) -> Result<KittyImageData, AllocError>
    ensures ok { IfOk result (λ c.
        c ≡ content_of held_form medium field.now.1 data_size data_offset) }
    ensures refused { OnErr result (Refused Global) }
{
    if medium == 1 {
        return Ok(KittyImageData::DirectBin(Items::from_slice(alloc, field.bytes())?));
    }
    let text = field.string(alloc)?;
    match medium {
        0 => Ok(KittyImageData::Direct(text)),
        2 => Ok(KittyImageData::File {
            path: text,
            data_size,
            data_offset,
        }),
        3 => Ok(KittyImageData::TemporaryFile {
            path: text,
            data_size,
            data_offset,
        }),
        _ => Ok(KittyImageData::SharedMem {
            name: text,
            data_size,
            data_offset,
        }),
    }
}

// Reads how an image is shown.
fn placement(fields: &[Said<'_>]) -> KittyImagePlacement
    ensures { result ≡ placement_in held_form (look fields.now) }
{
    KittyImagePlacement {
        x: count(FieldName::X, fields),
        y: count(FieldName::Y, fields),
        w: count(FieldName::Width, fields),
        h: count(FieldName::Height, fields),
        x_offset: count(FieldName::XOffset, fields),
        y_offset: count(FieldName::YOffset, fields),
        columns: count(FieldName::Columns, fields),
        rows: count(FieldName::Rows, fields),
        placement_id: count(FieldName::PlacementId, fields),
        do_not_move_cursor: flag(FieldName::DoNotMoveCursor, fields),
        z_index: order(FieldName::ZIndex, fields),
        unicode_placeholder: flag(FieldName::UnicodePlaceholder, fields),
    }
}

// Reads a frame that is sent.
fn frame(fields: &[Said<'_>]) -> KittyImageFrame
    ensures { result ≡ frame_in held_form (look fields.now) }
{
    KittyImageFrame {
        x: count(FieldName::X, fields),
        y: count(FieldName::Y, fields),
        base_frame: count(FieldName::BaseFrame, fields),
        frame_number: count(FieldName::FrameNumber, fields),
        duration_ms: count(FieldName::Duration, fields),
        composition_mode: composition(fields),
        background_pixel: count(FieldName::BackgroundPixel, fields),
    }
}

// Reads frames that are put over others.
fn compose(fields: &[Said<'_>]) -> KittyImageFrameCompose
    ensures { result ≡ compose_in held_form (look fields.now) }
{
    KittyImageFrameCompose {
        image_id: count(FieldName::ImageId, fields),
        image_number: count(FieldName::ImageNumber, fields),
        target_frame: count(FieldName::TargetFrame, fields),
        source_frame: count(FieldName::SourceFrame, fields),
        x: count(FieldName::X, fields),
        y: count(FieldName::Y, fields),
        w: count(FieldName::Width, fields),
        h: count(FieldName::Height, fields),
        src_x: count(FieldName::SourceX, fields),
        src_y: count(FieldName::SourceY, fields),
        composition_mode: composition(fields),
    }
}

// Reads a deletion.
fn deleted(what: Deletion, fields: &[Said<'_>]) -> KittyImageDelete
    ensures { result ≡ deleted_in held_form what (look fields.now) }
{
    let image_id = known(FieldName::ImageId, fields);
    let image_number = known(FieldName::ImageNumber, fields);
    let placement_id = count(FieldName::PlacementId, fields);
    let x = known(FieldName::X, fields);
    let y = known(FieldName::Y, fields);
    let z = known_order(FieldName::ZIndex, fields);
    let first = known(FieldName::FirstImageId, fields);
    let last = known(FieldName::LastImageId, fields);
    let delete = flag(FieldName::DeletesData, fields);
    match what {
        Deletion::All => KittyImageDelete::All { delete },
        Deletion::ImageId => KittyImageDelete::ByImageId {
            image_id,
            placement_id,
            delete,
        },
        Deletion::ImageNumber => KittyImageDelete::ByImageNumber {
            image_number,
            placement_id,
            delete,
        },
        Deletion::AtCursor => KittyImageDelete::AtCursorPosition { delete },
        Deletion::Frames => KittyImageDelete::AnimationFrames { delete },
        Deletion::At => KittyImageDelete::DeleteAt { x, y, delete },
        Deletion::AtZ => KittyImageDelete::DeleteAtZ { x, y, z, delete },
        Deletion::Column => KittyImageDelete::DeleteColumn { x, delete },
        Deletion::Row => KittyImageDelete::DeleteRow { y, delete },
        Deletion::Z => KittyImageDelete::DeleteZ { z, delete },
        Deletion::Range => KittyImageDelete::ByImageIdRange {
            first,
            last,
            delete,
        },
    }
}
