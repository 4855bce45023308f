//! This module appends the fields of deletions of kitty's images. An error is that memory was
//! refused.
ghost use Rattle.std.specs.Prelude.{◌≡◌, OnOk, OnErr};
ghost use Rattle.std.specs.List.{flat_map};
ghost use Rattle.flat_values.specs.Fields.{with_fields};
ghost use Rattle.flat_values.specs.Images.{counted_field, delete_numbers, delete_order, delete_places, deletes_data, number_fields, optional_field};
ghost use Rattle.fallible_alloc.specs.Refusals.{Refused};

use crate::append_numbers::append_order;
use crate::field_name::FieldName;
use crate::fielded::append_each;
use crate::fields::Fields;
use esc_kitty::KittyImageDelete as Delete;
use std::alloc::{AllocError, Global};

// Appends what is deleted.
pub(crate) fn append_delete(what: &Delete, fields: &mut Fields) -> Result<(), AllocError>
    ensures ok { OnOk result (fields.new
        ≡ with_fields fields.old (number_fields (delete_numbers what.now))) }
    ensures refused { OnErr result (Refused Global) }
{
    append_each(&places(what), fields)?;
    append_order(order(what), fields)?;
    fields.push_flag(FieldName::DeletesData, deletes_data(what))
}

// Returns the images, columns or rows.
fn places(what: &Delete) -> [(FieldName, Option<u32>); 2]
    ensures { flat_map (λ s. optional_field s.0 (counted_field s.1)) result
        ≡ number_fields (delete_places what.now) }
{
    let placement = FieldName::PlacementId;
    let none = (FieldName::Y, None);
    match what {
        Delete::All { .. }
        | Delete::AtCursorPosition { .. }
        | Delete::AnimationFrames { .. }
        | Delete::DeleteZ { .. } => [none, none],
        Delete::ByImageId {
            image_id,
            placement_id,
            ..
        } => [
            (FieldName::ImageId, Some(*image_id)),
            (placement, *placement_id),
        ],
        Delete::ByImageNumber {
            image_number,
            placement_id,
            ..
        } => [
            (FieldName::ImageNumber, Some(*image_number)),
            (placement, *placement_id),
        ],
        Delete::DeleteAt { x, y, .. } | Delete::DeleteAtZ { x, y, .. } => {
            [(FieldName::X, Some(*x)), (FieldName::Y, Some(*y))]
        }
        Delete::DeleteColumn { x, .. } => [(FieldName::X, Some(*x)), none],
        Delete::DeleteRow { y, .. } => [(FieldName::Y, Some(*y)), none],
        Delete::ByImageIdRange { first, last, .. } => [
            (FieldName::FirstImageId, Some(*first)),
            (FieldName::LastImageId, Some(*last)),
        ],
    }
}

// Returns the order.
fn order(what: &Delete) -> Option<i32>
    ensures { result ≡ delete_order what.now }
{
    match what {
        Delete::DeleteZ { z, .. } | Delete::DeleteAtZ { z, .. } => Some(*z),
        _ => None,
    }
}

// Returns whether the data is deleted too.
fn deletes_data(what: &Delete) -> bool
    ensures { result ≡ deletes_data what.now }
{
    match what {
        Delete::All { delete }
        | Delete::ByImageId { delete, .. }
        | Delete::ByImageNumber { delete, .. }
        | Delete::AtCursorPosition { delete }
        | Delete::AnimationFrames { delete }
        | Delete::DeleteAt { delete, .. }
        | Delete::DeleteAtZ { delete, .. }
        | Delete::DeleteColumn { delete, .. }
        | Delete::DeleteRow { delete, .. }
        | Delete::DeleteZ { delete, .. }
        | Delete::ByImageIdRange { delete, .. } => *delete,
    }
}
