//! The text of a row.
ghost use Rattle.std.specs.Prelude.{◌≡◌, ◌++◌, OnErr, OnOk, replicate, string_bytes};
ghost use Rattle.std.specs.Char.{encode_utf8};
ghost use Rattle.esc_terminal.specs.Rows.{mark_text, marks_text, row_text, shown_text};
ghost use Rattle.fallible_alloc.specs.Refusals.{Refused};

use esc_screen::{Cell, Content, Marks};
use fallible_alloc::push_char;
use std::alloc::{AllocError, Allocator};

/// Appends the text of a row: a character with its marks for each that stands there, a space for
/// each blank cell before one, and nothing for those after the last.
pub fn push_row<A: Allocator>(text: &mut String<A>, cells: &[Cell]) -> Result<(), AllocError>
    ensures ok { OnOk result (string_bytes text.new
        ≡ string_bytes text.old ++ row_text cells.now) }
    ensures refused { OnErr result (Refused A) }
{
    let mut blanks = 0;
    for cell in cells {
        match cell.content {
            Content::Blank => blanks += 1,
            Content::Rest => {}
            Content::Narrow(c, marks) | Content::Wide(c, marks) => {
                push_shown(text, blanks, c, marks)?;
                blanks = 0;
            }
        }
    }
    Ok(())
}

// Appends spaces, a character and its marks.
fn push_shown<A: Allocator>(
    text: &mut String<A>,
    blanks: usize,
    c: char,
    marks: Marks,
) -> Result<(), AllocError>
    ensures ok { OnOk result (string_bytes text.new
        ≡ string_bytes text.old ++ shown_text blanks c marks) }
    ensures refused { OnErr result (Refused A) }
{
    push_blanks(text, blanks)?;
    push_char(text, c)?;
    push_mark(text, marks.first)?;
    push_mark(text, marks.second)
}

fn push_blanks<A: Allocator>(text: &mut String<A>, count: usize) -> Result<(), AllocError>
    ensures ok { OnOk result (string_bytes text.new
        ≡ string_bytes text.old ++ replicate count 0x20) }
    ensures refused { OnErr result (Refused A) }
{
    for _ in 0..count {
        push_char(text, ' ')?;
    }
    Ok(())
}

fn push_mark<A: Allocator>(text: &mut String<A>, mark: Option<char>) -> Result<(), AllocError>
    ensures ok { OnOk result (string_bytes text.new ≡ string_bytes text.old ++ mark_text mark) }
    ensures refused { OnErr result (Refused A) }
{
    match mark {
        Some(c) => push_char(text, c),
        None => Ok(()),
    }
}
