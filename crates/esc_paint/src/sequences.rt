//! The sequences and characters that paint.
ghost use Rattle.std.specs.Prelude.{◌≡◌, ◌++◌, ◌<◌, ◌^◌, OnErr, OnOk, string_bytes};
ghost use Rattle.esc_paint.specs.Painting.{look_change, mark_parts, marks_parts, place_change};
ghost use Rattle.esc_paint.specs.Parts.{part_text, parts_text};
ghost use Rattle.esc_paint.specs.Parts.Part.{place};
ghost use Rattle.fallible_alloc.specs.Refusals.{Refused};

use esc_screen::Marks;
use esc_style::Look;
use fallible_alloc::{push_char, push_display, push_str};
use std::alloc::{AllocError, Allocator};

/// Appends CUP, to a row and a column, from 0 on.
pub(crate) fn push_place<A: Allocator>(
    text: &mut String<A>,
    row: u16,
    column: usize,
) -> Result<(), AllocError>
    requires { column < 2 ^ 63 }
    ensures ok { OnOk result (string_bytes text.new
        ≡ string_bytes text.old ++ part_text (place row column)) }
    ensures refused { OnErr result (Refused A) }
{
    let row = row as u64 + 1;
    let column = column as u64 + 1;
    push_str(text, "\x1b[")?;
    push_display(text, &row)?;
    push_str(text, ";")?;
    push_display(text, &column)?;
    push_str(text, "H")
}

/// Appends the same if the cursor is not there.
#[tactic(auto, using(crate::proofs::Writing::one_part))]
pub(crate) fn push_placed<A: Allocator>(
    text: &mut String<A>,
    here: bool,
    row: u16,
    column: usize,
) -> Result<(), AllocError>
    requires { column < 2 ^ 63 }
    ensures ok { OnOk result (string_bytes text.new
        ≡ string_bytes text.old ++ parts_text (place_change here row column)) }
    ensures refused { OnErr result (Refused A) }
{
    if here {
        Ok(())
    } else {
        push_place(text, row, column)
    }
}

/// Appends the text that makes a look when another holds.
#[tactic(auto, using(crate::proofs::Writing::looked_text))]
pub(crate) fn push_looked<A: Allocator>(
    text: &mut String<A>,
    from: &Look,
    to: &Look,
) -> Result<(), AllocError>
    ensures ok { OnOk result (string_bytes text.new
        ≡ string_bytes text.old ++ parts_text (look_change from.now to.now)) }
    ensures refused { OnErr result (Refused A) }
{
    esc_sgr::push_change(text, from, to)
}

// Appends a mark, if there is one.
#[tactic(auto, using(crate::proofs::Writing::mark_is))]
fn push_mark<A: Allocator>(text: &mut String<A>, mark: Option<char>) -> Result<(), AllocError>
    ensures ok { OnOk result (string_bytes text.new
        ≡ string_bytes text.old ++ parts_text (mark_parts mark)) }
    ensures refused { OnErr result (Refused A) }
{
    match mark {
        Some(mark) => push_char(text, mark),
        None => Ok(()),
    }
}

/// Appends the marks on a character: of three or more two are known, and the first stands for the
/// others.
#[tactic(auto, using(crate::proofs::Writing::marks_text))]
pub(crate) fn push_marks<A: Allocator>(text: &mut String<A>, marks: Marks) -> Result<(), AllocError>
    ensures ok { OnOk result (string_bytes text.new
        ≡ string_bytes text.old ++ parts_text (marks_parts marks)) }
    ensures refused { OnErr result (Refused A) }
{
    push_mark(text, marks.first)?;
    push_mark(text, marks.second)?;
    push_mark(text, if marks.others { marks.first } else { None })
}
