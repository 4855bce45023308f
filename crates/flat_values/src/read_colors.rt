//! This module reads colours, dynamic colours and the progress of a task from rows. An error is
//! that memory was refused.
ghost use Rattle.std.specs.Prelude.{◌≡◌, IfOk, OnErr};
ghost use Rattle.flat_values.specs.Found.{held_form};
ghost use Rattle.flat_values.specs.FoundItems.{dynamic_of, items_after, known_plus, nothing, placed_pair, progress_in, whole};
ghost use Rattle.fallible_alloc.specs.Refusals.{Refused};

use crate::field_name::FieldName;
use crate::said::{Said, after, first};
use esc_osc_values::{ChangeColorPair, Color16, ColorOrQuery, DynamicColorNumber, Progress};
use esc_values::Items;
use std::alloc::{AllocError, Global};

// The value holds the known parts of an item before its last row.
#[derive(Clone, Copy)]
pub(crate) struct Known {
    place: u8,
    red: u16,
    green: u16,
}

// has no known part
const NOTHING: Known = Known {
    place: 0,
    red: 0,
    green: 0,
};

// Returns the known parts with one more row.
fn known_with(before: Known, field: &Said<'_>) -> Known
    ensures { result ≡ known_plus held_form before field.now }
{
    Known {
        place: if field.is(FieldName::PaletteIndex) {
            field.byte()
        } else {
            before.place
        },
        red: if field.is(FieldName::Red) {
            field.channel()
        } else {
            before.red
        },
        green: if field.is(FieldName::Green) {
            field.channel()
        } else {
            before.green
        },
    }
}

// Returns the colour that is whole with a row.
fn whole(before: Known, field: &Said<'_>) -> Option<ColorOrQuery>
    ensures { result ≡ whole held_form before field.now }
{
    if field.is(FieldName::Blue) {
        Some(ColorOrQuery::Color(Color16 {
            red: before.red,
            green: before.green,
            blue: field.channel(),
        }))
    } else if field.is(FieldName::Query) {
        Some(ColorOrQuery::Query)
    } else {
        None
    }
}

// A colour makes an item, with the place of the palette before it.
pub(crate) trait Colored {
    ghost use Rattle.std.specs.Prelude.{ℕ};
    ghost use Rattle.esc_osc_values.specs.declared.color_or_query.ColorOrQuery.{ColorOrQuery};

    ghost colored: { ℕ → ColorOrQuery → Self };

    // Returns the item.
    fn of(place: u8, color: ColorOrQuery) -> Self
        ensures { result ≡ colored place color };
}

impl Colored for ChangeColorPair {
    ghost colored = { placed_pair };

    fn of(place: u8, color: ColorOrQuery) -> ChangeColorPair {
        ChangeColorPair {
            palette_index: place,
            color,
        }
    }
}

impl Colored for ColorOrQuery {
    ghost colored = { λ n c. c };

    fn of(_place: u8, color: ColorOrQuery) -> ColorOrQuery {
        color
    }
}

// Reads items, each with its colour.
pub(crate) fn colored_items<T: Colored + Drop>(
    alloc: Global,
    fields: &[Said<'_>],
) -> Result<Items<T>, AllocError>
    ensures ok { IfOk result (λ v. v ≡ items_after held_form T.colored nothing fields.now) }
    ensures refused { OnErr result (Refused Global) }
{
    let mut items = Items::new(alloc);
    let mut before = NOTHING;
    for field in fields {
        let item = match whole(before, field) {
            Some(color) => Some(T::of(before.place, color)),
            None => None,
        };
        items.push_optional(item)?;
        before = known_with(before, field);
    }
    Ok(items)
}

// Reads a dynamic colour.
pub(crate) fn dynamic(field: &Said<'_>) -> DynamicColorNumber
    ensures { result ≡ dynamic_of field.now.1 }
{
    match DynamicColorNumber::from_number(field.byte()) {
        Some(number) => number,
        None => DynamicColorNumber::TextForegroundColor,
    }
}

// Reads the progress of a task.
pub(crate) fn progress(fields: &[Said<'_>]) -> Progress
    ensures { result ≡ progress_in held_form fields.now }
{
    let percent = first(after(fields)).byte();
    match first(fields).count() {
        0 => Progress::None,
        1 => Progress::SetPercentage(percent),
        2 => Progress::SetError(percent),
        3 => Progress::SetIndeterminate,
        _ => Progress::Paused,
    }
}
