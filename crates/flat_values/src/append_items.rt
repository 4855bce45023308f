//! This module appends the fields of the items of lists, and of the progress of a task. An error is
//! that memory was refused.
ghost use Rattle.std.specs.Prelude.{◌≡◌, OnOk, OnErr};
ghost use Rattle.flat_values.specs.Commands.{color_fields, index_fields, pair_fields, part_fields, progress_fields};
ghost use Rattle.flat_values.specs.Fields.{with_fields};
ghost use Rattle.fallible_alloc.specs.Refusals.{Refused};

use crate::field_name::FieldName;
use crate::fielded::{Fielded, append_each};
use crate::fields::Fields;
use esc_osc_values::{ChangeColorPair, ColorOrQuery, Progress};
use esc_values::Items;
use std::alloc::{AllocError, Global};

// A colour has fields, and so has the question for one.
impl Fielded for ColorOrQuery {
    ghost parts = { color_fields };

    fn append_to(&self, fields: &mut Fields) -> Result<(), AllocError> {
        match self {
            ColorOrQuery::Color(color) => {
                let numbers = [
                    (FieldName::Red, Some(u32::from(color.red))),
                    (FieldName::Green, Some(u32::from(color.green))),
                    (FieldName::Blue, Some(u32::from(color.blue))),
                ];
                append_each(&numbers, fields)
            }
            ColorOrQuery::Query => fields.push_number(FieldName::Query, 1),
        }
    }
}

// A place of the palette has fields, with its colour.
impl Fielded for ChangeColorPair {
    ghost parts = { pair_fields };

    fn append_to(&self, fields: &mut Fields) -> Result<(), AllocError> {
        fields.push_number(FieldName::PaletteIndex, i64::from(self.palette_index))?;
        self.color.append_to(fields)
    }
}

// A place of the palette has a field.
impl Fielded for u8 {
    ghost parts = { index_fields };

    fn append_to(&self, fields: &mut Fields) -> Result<(), AllocError> {
        fields.push_number(FieldName::PaletteIndex, i64::from(*self))
    }
}

// A part of any bytes has a field.
impl Fielded for Items<u8> {
    ghost parts = { part_fields };

    fn append_to(&self, fields: &mut Fields) -> Result<(), AllocError> {
        fields.push_text(FieldName::Part, self.as_slice())
    }
}

// Appends the progress of a task.
pub(crate) fn append_progress(progress: &Progress, fields: &mut Fields) -> Result<(), AllocError>
    ensures ok { OnOk result (fields.new ≡ with_fields fields.old (progress_fields progress.now)) }
    ensures refused { OnErr result (Refused Global) }
{
    let (state, percent) = match progress {
        Progress::None => (0, None),
        Progress::SetPercentage(percent) => (1, Some(u32::from(*percent))),
        Progress::SetError(percent) => (2, Some(u32::from(*percent))),
        Progress::SetIndeterminate => (3, None),
        Progress::Paused => (4, None),
    };
    let numbers = [
        (FieldName::ProgressState, Some(state)),
        (FieldName::Percent, percent),
    ];
    append_each(&numbers, fields)
}
