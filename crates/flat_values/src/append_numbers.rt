//! This module appends the fields of numbers by name, and of the parts of kitty's images. An error
//! is that memory was refused.
ghost use Rattle.std.specs.Prelude.{◌≡◌, [], ◌∷◌, OnOk, OnErr};
ghost use Rattle.flat_values.specs.Fields.{with_fields};
ghost use Rattle.flat_values.specs.Images.{compose_numbers, content_field, counted_field, frame_numbers, number_fields, optional_field, placement_numbers, placement_sizes, transmit_numbers};
ghost use Rattle.flat_values.specs.declared.field_name.FieldName.TheVariants as name;
ghost use Rattle.fallible_alloc.specs.Refusals.{Refused};

use crate::field_name::FieldName;
use crate::fielded::{Fielded, append_each};
use crate::fields::Fields;
use crate::image_numbers::{
    bytes, composition, compression, data_offset, data_size, flagged, format, medium,
};
use esc_kitty::{KittyImageFrame, KittyImageFrameCompose, KittyImagePlacement, KittyImageTransmit};
use std::alloc::{AllocError, Global};

// A number from 0 up has a field by its name, if it is given.
impl Fielded for (FieldName, Option<u32>) {
    ghost parts = { λ s. optional_field s.0 (counted_field s.1) };

    fn append_to(&self, fields: &mut Fields) -> Result<(), AllocError> {
        match self.1 {
            Some(number) => fields.push_number(self.0, i64::from(number)),
            None => Ok(()),
        }
    }
}

// Appends an image that is sent to the terminal.
pub(crate) fn append_transmit(
    transmit: &KittyImageTransmit,
    fields: &mut Fields,
) -> Result<(), AllocError>
    ensures ok { OnOk result (fields.new ≡ with_fields fields.old
        (content_field transmit.now ∷ number_fields (transmit_numbers transmit.now))) }
    ensures refused { OnErr result (Refused Global) }
{
    let content = &transmit.content;
    fields.push_text(FieldName::Content, bytes(content))?;
    let numbers = [
        (FieldName::Medium, medium(content)),
        (FieldName::DataSize, data_size(content)),
        (FieldName::DataOffset, data_offset(content)),
        (FieldName::Format, format(transmit.format)),
        (FieldName::PixelWidth, transmit.width),
        (FieldName::PixelHeight, transmit.height),
        (FieldName::ImageId, transmit.image_id),
        (FieldName::ImageNumber, transmit.image_number),
        (FieldName::Compression, compression(transmit.compression)),
        (
            FieldName::MoreDataFollows,
            flagged(transmit.more_data_follows),
        ),
    ];
    append_each(&numbers, fields)
}

// Appends how an image is shown.
pub(crate) fn append_placement(
    placement: &KittyImagePlacement,
    fields: &mut Fields,
) -> Result<(), AllocError>
    ensures ok { OnOk result (fields.new
        ≡ with_fields fields.old (number_fields (placement_numbers placement.now))) }
    ensures refused { OnErr result (Refused Global) }
{
    append_sizes(placement, fields)?;
    append_order(placement.z_index, fields)?;
    fields.push_flag(FieldName::UnicodePlaceholder, placement.unicode_placeholder)
}

// Appends the place and the size of an image, and whether the cursor stays.
fn append_sizes(placement: &KittyImagePlacement, fields: &mut Fields) -> Result<(), AllocError>
    ensures ok { OnOk result (fields.new
        ≡ with_fields fields.old (number_fields (placement_sizes placement.now))) }
    ensures refused { OnErr result (Refused Global) }
{
    let sizes = [
        (FieldName::X, placement.x),
        (FieldName::Y, placement.y),
        (FieldName::Width, placement.w),
        (FieldName::Height, placement.h),
        (FieldName::XOffset, placement.x_offset),
        (FieldName::YOffset, placement.y_offset),
        (FieldName::Columns, placement.columns),
        (FieldName::Rows, placement.rows),
        (FieldName::PlacementId, placement.placement_id),
        (
            FieldName::DoNotMoveCursor,
            flagged(placement.do_not_move_cursor),
        ),
    ];
    append_each(&sizes, fields)
}

// Appends the order of an image above and below others, if it is given.
pub(crate) fn append_order(order: Option<i32>, fields: &mut Fields) -> Result<(), AllocError>
    ensures ok { OnOk result (fields.new
        ≡ with_fields fields.old (number_fields ((name.ZIndex, order) ∷ []))) }
    ensures refused { OnErr result (Refused Global) }
{
    match order {
        Some(order) => fields.push_number(FieldName::ZIndex, i64::from(order)),
        None => Ok(()),
    }
}

// Appends a frame that is sent.
pub(crate) fn append_frame(frame: &KittyImageFrame, fields: &mut Fields) -> Result<(), AllocError>
    ensures ok { OnOk result (fields.new
        ≡ with_fields fields.old (number_fields (frame_numbers frame.now))) }
    ensures refused { OnErr result (Refused Global) }
{
    let numbers = [
        (FieldName::X, frame.x),
        (FieldName::Y, frame.y),
        (FieldName::BaseFrame, frame.base_frame),
        (FieldName::FrameNumber, frame.frame_number),
        (FieldName::Duration, frame.duration_ms),
        (
            FieldName::CompositionMode,
            composition(frame.composition_mode),
        ),
        (FieldName::BackgroundPixel, frame.background_pixel),
    ];
    append_each(&numbers, fields)
}

// Appends frames that are put over others.
pub(crate) fn append_compose(
    frame: &KittyImageFrameCompose,
    fields: &mut Fields,
) -> Result<(), AllocError>
    ensures ok { OnOk result (fields.new
        ≡ with_fields fields.old (number_fields (compose_numbers frame.now))) }
    ensures refused { OnErr result (Refused Global) }
{
    let numbers = [
        (FieldName::ImageId, frame.image_id),
        (FieldName::ImageNumber, frame.image_number),
        (FieldName::TargetFrame, frame.target_frame),
        (FieldName::SourceFrame, frame.source_frame),
        (FieldName::X, frame.x),
        (FieldName::Y, frame.y),
        (FieldName::Width, frame.w),
        (FieldName::Height, frame.h),
        (FieldName::SourceX, frame.src_x),
        (FieldName::SourceY, frame.src_y),
        (
            FieldName::CompositionMode,
            composition(frame.composition_mode),
        ),
    ];
    append_each(&numbers, fields)
}
