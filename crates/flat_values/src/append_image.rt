//! This module appends the fields of kitty's images. An error is that memory was refused.
ghost use Rattle.std.specs.Prelude.{◌≡◌, OnOk, OnErr};
ghost use Rattle.flat_values.specs.Fields.{with_fields};
ghost use Rattle.flat_values.specs.Images.{id_numbers, image_fields, number_fields, verbosity_numbers};
ghost use Rattle.esc_kitty.specs.declared.image.KittyImage.TheVariants as image;
ghost use Rattle.fallible_alloc.specs.Refusals.{Refused};

use crate::append_delete::append_delete;
use crate::append_numbers::{append_compose, append_frame, append_placement, append_transmit};
use crate::field_name::FieldName;
use crate::fielded::append_each;
use crate::fields::Fields;
use crate::image_numbers::verbosity_number;
use esc_kitty::{
    KittyImage, KittyImageFrame, KittyImageFrameCompose, KittyImagePlacement, KittyImageTransmit,
    KittyImageVerbosity,
};
use std::alloc::{AllocError, Global};

// Appends the fields of an image.
#[tactic(auto, using(crate::proofs::Images::more_numbers))]
pub(crate) fn append_image(image: &KittyImage, fields: &mut Fields) -> Result<(), AllocError>
    ensures ok { OnOk result (fields.new ≡ with_fields fields.old (image_fields image.now)) }
    ensures refused { OnErr result (Refused Global) }
{
    match image {
        KittyImage::TransmitData {
            transmit,
            verbosity,
        } => append_kept(transmit, *verbosity, fields),
        KittyImage::TransmitDataAndDisplay {
            transmit,
            placement,
            verbosity,
        } => append_shown(transmit, placement, *verbosity, fields),
        KittyImage::Display {
            image_id,
            image_number,
            placement,
            verbosity,
        } => append_display(*image_id, *image_number, placement, *verbosity, fields),
        KittyImage::Delete { what, verbosity } => {
            append_delete(what, fields)?;
            append_verbosity(*verbosity, fields)
        }
        KittyImage::Query { transmit } => append_transmit(transmit, fields),
        KittyImage::TransmitFrame {
            transmit,
            frame,
            verbosity,
        } => append_sent(transmit, frame, *verbosity, fields),
        KittyImage::ComposeFrame { frame, verbosity } => {
            append_composed(frame, *verbosity, fields)
        }
    }
}

// Appends what the terminal reports.
fn append_verbosity(verbosity: KittyImageVerbosity, fields: &mut Fields) -> Result<(), AllocError>
    ensures ok { OnOk result (fields.new
        ≡ with_fields fields.old (number_fields (verbosity_numbers verbosity))) }
    ensures refused { OnErr result (Refused Global) }
{
    let numbers = [(FieldName::Verbosity, verbosity_number(verbosity))];
    append_each(&numbers, fields)
}

// Appends an image that is kept.
fn append_kept(
    transmit: &KittyImageTransmit,
    verbosity: KittyImageVerbosity,
    fields: &mut Fields,
) -> Result<(), AllocError>
    ensures ok { OnOk result (fields.new
        ≡ with_fields fields.old (image_fields (image.TransmitData transmit.now verbosity))) }
    ensures refused { OnErr result (Refused Global) }
{
    append_transmit(transmit, fields)?;
    append_verbosity(verbosity, fields)
}

// Appends an image that is kept and shown.
fn append_shown(
    transmit: &KittyImageTransmit,
    placement: &KittyImagePlacement,
    verbosity: KittyImageVerbosity,
    fields: &mut Fields,
) -> Result<(), AllocError>
    ensures ok { OnOk result (fields.new ≡ with_fields fields.old (image_fields
        (image.TransmitDataAndDisplay transmit.now placement.now verbosity))) }
    ensures refused { OnErr result (Refused Global) }
{
    append_transmit(transmit, fields)?;
    append_placement(placement, fields)?;
    append_verbosity(verbosity, fields)
}

// Appends a kept image that is shown.
fn append_display(
    image_id: Option<u32>,
    image_number: Option<u32>,
    placement: &KittyImagePlacement,
    verbosity: KittyImageVerbosity,
    fields: &mut Fields,
) -> Result<(), AllocError>
    ensures ok { OnOk result (fields.new ≡ with_fields fields.old (image_fields {A = Global}
        (image.Display image_id image_number placement.now verbosity))) }
    ensures refused { OnErr result (Refused Global) }
{
    append_ids(image_id, image_number, fields)?;
    append_placement(placement, fields)?;
    append_verbosity(verbosity, fields)
}

// Appends the id and the number of an image, if they are given.
fn append_ids(
    image_id: Option<u32>,
    image_number: Option<u32>,
    fields: &mut Fields,
) -> Result<(), AllocError>
    ensures ok { OnOk result (fields.new
        ≡ with_fields fields.old (number_fields (id_numbers image_id image_number))) }
    ensures refused { OnErr result (Refused Global) }
{
    let ids = [
        (FieldName::ImageId, image_id),
        (FieldName::ImageNumber, image_number),
    ];
    append_each(&ids, fields)
}

// Appends a frame that is kept.
fn append_sent(
    transmit: &KittyImageTransmit,
    frame: &KittyImageFrame,
    verbosity: KittyImageVerbosity,
    fields: &mut Fields,
) -> Result<(), AllocError>
    ensures ok { OnOk result (fields.new ≡ with_fields fields.old (image_fields
        (image.TransmitFrame transmit.now frame.now verbosity))) }
    ensures refused { OnErr result (Refused Global) }
{
    append_transmit(transmit, fields)?;
    append_frame(frame, fields)?;
    append_verbosity(verbosity, fields)
}

// Appends frames that are put over others.
fn append_composed(
    frame: &KittyImageFrameCompose,
    verbosity: KittyImageVerbosity,
    fields: &mut Fields,
) -> Result<(), AllocError>
    ensures ok { OnOk result (fields.new ≡ with_fields fields.old
        (image_fields {A = Global} (image.ComposeFrame frame.now verbosity))) }
    ensures refused { OnErr result (Refused Global) }
{
    append_compose(frame, fields)?;
    append_verbosity(verbosity, fields)
}
