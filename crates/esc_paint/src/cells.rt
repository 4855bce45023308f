//! Cells, and rows of them.
ghost use Rattle.std.specs.Prelude.{◌≡◌, ◌++◌, ◌<◌, ◌^◌, OnErr, OnOk, drop, string_bytes};
ghost use Rattle.esc_paint.specs.Painting.{blank_parts, cells_parts, content_parts, drawn_parts, is_blank_content, pen_blank, pen_by, row_parts};
ghost use Rattle.esc_paint.specs.Parts.{parts_text};
ghost use Rattle.esc_terminal.specs.Links.{known_look, known_of};
ghost use Rattle.esc_terminal.specs.Looks.{erased_look};
ghost use Rattle.fallible_alloc.specs.Refusals.{Refused};

use crate::pen::Pen;
use crate::sequences::{push_looked, push_marks, push_placed};
use esc_screen::{Cell, Content, Marks};
use esc_sequences::Underline;
use esc_sgr::is_same;
use esc_style::{Color, Look};
use esc_terminal::Styles;
use fallible_alloc::{push_char, push_str};
use std::alloc::{AllocError, Allocator};

/// Returns the look of a blank cell, if characters look so: it has the background.
pub(crate) fn erased_look(look: &Look) -> Look
    ensures { result ≡ erased_look look.now }
{
    Look {
        bold: false,
        faint: false,
        italic: false,
        underline: Underline::None,
        blink: false,
        inverse: false,
        concealed: false,
        strikethrough: false,
        overline: false,
        foreground: Color::Default,
        background: look.background,
        underline_color: Color::Default,
    }
}

// Appends a character with its marks and its look.
#[tactic(auto, using(crate::proofs::Writing::drawn_text))]
fn push_drawn<A: Allocator>(
    text: &mut String<A>,
    pen: &Pen,
    row: u16,
    column: usize,
    look: &Look,
    character: char,
    marks: Marks,
) -> Result<(), AllocError>
    requires { column < 2 ^ 63 }
    ensures ok { OnOk result (string_bytes text.new ≡ string_bytes text.old
        ++ parts_text (drawn_parts row column pen.now character marks look.now)) }
    ensures refused { OnErr result (Refused A) }
{
    push_placed(text, pen.here, row, column)?;
    push_looked(text, &pen.look, look)?;
    push_char(text, character)?;
    push_marks(text, marks)
}

// Appends the text that makes the rest of a row blank, if it looks otherwise.
#[tactic(auto, using(crate::proofs::Writing::blank_text))]
fn push_blank<A: Allocator>(
    text: &mut String<A>,
    pen: &Pen,
    row: u16,
    column: usize,
    look: &Look,
) -> Result<(), AllocError>
    requires { column < 2 ^ 63 }
    ensures ok { OnOk result (string_bytes text.new ≡ string_bytes text.old
        ++ parts_text (blank_parts row column pen.now look.now)) }
    ensures refused { OnErr result (Refused A) }
{
    if is_same(&pen.back, look) {
        return Ok(());
    }
    push_placed(text, pen.here, row, column)?;
    push_looked(text, &pen.look, look)?;
    push_str(text, "\x1b[K")
}

// Appends the content of a cell.
fn push_content<A: Allocator>(
    text: &mut String<A>,
    pen: &Pen,
    row: u16,
    column: usize,
    look: &Look,
    content: Content,
) -> Result<(), AllocError>
    requires { column < 2 ^ 63 }
    ensures ok { OnOk result (string_bytes text.new ≡ string_bytes text.old
        ++ parts_text (content_parts row column pen.now look.now content)) }
    ensures refused { OnErr result (Refused A) }
{
    match content {
        Content::Blank => push_blank(text, pen, row, column, &erased_look(look)),
        Content::Narrow(c, marks) | Content::Wide(c, marks) => {
            push_drawn(text, pen, row, column, look, c, marks)
        }
        Content::Rest => Ok(()),
    }
}

impl Pen {
    // Returns the pen after a cell.
    fn after(self, look: &Look, content: Content) -> Pen
        ensures { result ≡ pen_by self look.now content }
    {
        match content {
            Content::Blank => self.after_blank(erased_look(look)),
            Content::Narrow(..) | Content::Wide(..) => Pen {
                here: true,
                look: *look,
                back: self.back,
            },
            Content::Rest => self,
        }
    }

    // Returns the pen after a blank cell that looks so.
    fn after_blank(self, look: Look) -> Pen
        ensures { result ≡ pen_blank look self }
    {
        if is_same(&self.back, &look) {
            Pen {
                here: false,
                look: self.look,
                back: self.back,
            }
        } else {
            Pen {
                here: false,
                look,
                back: look,
            }
        }
    }
}

/// Returns whether nothing stands in a cell.
pub(crate) fn is_blank(content: Content) -> bool
    ensures { result ≡ is_blank_content content }
{
    match content {
        Content::Blank => true,
        Content::Narrow(..) | Content::Wide(..) | Content::Rest => false,
    }
}

/// Appends the cells of a row that is blank.
pub(crate) fn push_row<A: Allocator, B: Allocator>(
    text: &mut String<A>,
    row: u16,
    cells: &[Cell],
    styles: &Styles<B>,
) -> Result<(), AllocError>
    ensures ok { OnOk result (string_bytes text.new ≡ string_bytes text.old
        ++ parts_text (row_parts (λ n. known_look n (known_of styles.now)) row cells.now)) }
    ensures refused { OnErr result (Refused A) }
{
    push_cells(text, Pen::first(), row, 0, cells, styles)
}

/// Appends the cells of a row from a column on; from there on the row has to be blank.
pub(crate) fn push_cells<A: Allocator, B: Allocator>(
    text: &mut String<A>,
    mut pen: Pen,
    row: u16,
    first: usize,
    cells: &[Cell],
    styles: &Styles<B>,
) -> Result<(), AllocError>
    ensures ok { OnOk result (string_bytes text.new ≡ string_bytes text.old
        ++ parts_text (cells_parts (λ n. known_look n (known_of styles.now)) row first pen
        (drop first cells.now))) }
    ensures refused { OnErr result (Refused A) }
{
    for column in first..cells.len() {
        let cell = cells[column];
        let look = styles.look_at(cell.look);
        push_content(text, &pen, row, column, &look, cell.content)?;
        pen = pen.after(&look, cell.content);
    }
    push_looked(text, &pen.look, &Look::plain())
}
