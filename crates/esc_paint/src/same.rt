//! Cells that are the same on two screens.
ghost use Rattle.std.specs.Prelude.{◌≡◌};
ghost use Rattle.esc_paint.specs.Differences.{same_narrow, is_other, same_wide, same_cell, same_cells, same_content, same_mark, same_marks, seen};
ghost use Rattle.esc_sgr.specs.Sgr.{same_look};
ghost use Rattle.esc_terminal.specs.Links.{known_look, known_of};

use crate::cells::{erased_look, is_blank};
use esc_screen::{Cell, Content, Marks};
use esc_sgr::is_same;
use esc_style::Look;
use esc_terminal::Styles;
use std::alloc::Allocator;

fn is_same_mark(a: Option<char>, b: Option<char>) -> bool
    ensures { result ≡ same_mark a b }
{
    match a {
        None => match b {
            None => true,
            Some(_) => false,
        },
        Some(c) => match b {
            None => false,
            Some(d) => c == d,
        },
    }
}

fn has_same_marks(a: Marks, b: Marks) -> bool
    ensures { result ≡ same_marks a b }
{
    is_same_mark(a.first, b.first) && is_same_mark(a.second, b.second) && a.others == b.others
}

fn same_narrow(c: char, marks: Marks, content: Content) -> bool
    ensures { result ≡ same_narrow c marks content }
{
    match content {
        Content::Narrow(d, others) => c == d && has_same_marks(marks, others),
        Content::Blank | Content::Wide(..) | Content::Rest => false,
    }
}

fn same_wide(c: char, marks: Marks, content: Content) -> bool
    ensures { result ≡ same_wide c marks content }
{
    match content {
        Content::Wide(d, others) => c == d && has_same_marks(marks, others),
        Content::Blank | Content::Narrow(..) | Content::Rest => false,
    }
}

fn is_same_content(a: Content, b: Content) -> bool
    ensures { result ≡ same_content a b }
{
    match a {
        Content::Blank => is_blank(b),
        Content::Narrow(c, marks) => same_narrow(c, marks, b),
        Content::Wide(c, marks) => same_wide(c, marks, b),
        Content::Rest => b.is_rest(),
    }
}

// Returns the look of a cell as it is seen: a blank one shows its background.
fn seen(look: Look, content: Content) -> Look
    ensures { result ≡ seen look content }
{
    match content {
        Content::Blank => erased_look(&look),
        Content::Narrow(..) | Content::Wide(..) | Content::Rest => look,
    }
}

// Returns whether two cells look the same.
fn looks_same<B: Allocator, C: Allocator>(
    from: Cell,
    from_styles: &Styles<B>,
    to: Cell,
    to_styles: &Styles<C>,
) -> bool
    ensures { result ≡ same_look
        (seen (known_look from.look (known_of from_styles.now)) from.content)
        (seen (known_look to.look (known_of to_styles.now)) to.content) }
{
    let from_look = seen(from_styles.look_at(from.look), from.content);
    let to_look = seen(to_styles.look_at(to.look), to.content);
    is_same(&from_look, &to_look)
}

// Returns whether two cells are the same; the second column of a character looks as the first does.
fn is_same_cell<B: Allocator, C: Allocator>(
    from: Cell,
    from_styles: &Styles<B>,
    to: Cell,
    to_styles: &Styles<C>,
) -> bool
    ensures { result ≡ same_cell (λ n. known_look n (known_of from_styles.now))
        (λ n. known_look n (known_of to_styles.now)) from to }
{
    is_same_content(from.content, to.content)
        && (to.content.is_rest() || looks_same(from, from_styles, to, to_styles))
}

/// Returns how many cells of two rows are the same, from the first one on.
#[tactic(auto, using(crate::proofs::Alike::same_more, crate::proofs::Alike::same_stops, crate::proofs::Alike::same_ends))]
pub(crate) fn same_cells<B: Allocator, C: Allocator>(
    from: &[Cell],
    from_styles: &Styles<B>,
    to: &[Cell],
    to_styles: &Styles<C>,
) -> usize
    ensures { result ≡ same_cells (λ n. known_look n (known_of from_styles.now))
        (λ n. known_look n (known_of to_styles.now)) from.now to.now }
{
    let count = from.len().min(to.len());
    for i in 0..count {
        if !is_same_cell(from[i], from_styles, to[i], to_styles) {
            return i;
        }
    }
    count
}

/// Returns whether a cell of the second row is not the same.
pub(crate) fn is_other<B: Allocator, C: Allocator>(
    from: &[Cell],
    from_styles: &Styles<B>,
    to: &[Cell],
    to_styles: &Styles<C>,
) -> bool
    ensures { result ≡ is_other (λ n. known_look n (known_of from_styles.now))
        (λ n. known_look n (known_of to_styles.now)) from.now to.now }
{
    same_cells(from, from_styles, to, to_styles) < to.len()
}
