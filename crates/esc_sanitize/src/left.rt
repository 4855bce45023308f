//! The rest of the lines of a text.
ghost use Rattle.std.specs.Prelude.{◌≡◌, ◌++◌, ℕ, List, [], IfOk, OnErr, OnOk, Option, string_bytes};
ghost use Rattle.line_collapse.specs.Fed.{HasConsumed};
ghost use Rattle.line_collapse.specs.Streams.{final_of, left_of, values_of};
ghost use Rattle.line_collapse.specs.Windows.{Size};
ghost use Rattle.fallible_alloc.specs.Refusals.{Refused};

use line_collapse::{LineCollapser, Window};
use std::alloc::{AllocError, Allocator, Global};

/// The part of a text that is written.
#[derive(Drop)]
pub enum Left<A: Allocator = Global> {
    /// All of it.
    All,
    /// The rest of its lines.
    Rows(A, LineCollapser<A>),
    /// The same of a text that has ended: the addition of its end, and how much of the printed text
    /// stands in no row, if that is counted.
    Last(String<A>, u64),
    /// Nothing, since memory for its rows was refused.
    Refused,
}

impl<A: Allocator + Copy> Left<A> {
    ghost use Rattle.esc_sanitize.specs.Overwritten.{lost_in};
    ghost use Rattle.esc_sanitize.specs.Rows.{HasLeft, left_added, left_lost};
    ghost use Rattle.esc_sanitize.specs.Written.{final_text, left_text};

    /// The beginning of a text. The rows that this screen leaves of it are written, or without a
    /// screen all of it.
    pub fn new(alloc: A, window: Option<Window>) -> Left<A>
        ensures { HasLeft window [] result }
    {
        match window {
            None => Left::All,
            Some(window) => match LineCollapser::on(alloc, window) {
                Ok(collapse) => Left::Rows(alloc, collapse),
                Err(_) => Left::Refused,
            },
        }
    }

    /// Takes text more.
    pub fn take(&mut self, text: &str) -> Result<(), AllocError>
        ensures given { (r : Option Size) (u : List ℕ) → HasLeft r u self.old
            → OnOk result (HasLeft r (u ++ text.now) self.new
            × (final_text A r (u ++ text.now) ≡ final_text A r u
            ++ left_added self.new text.now)) }
        ensures refused { (r : Option Size) (u : List ℕ) → HasLeft r u self.old
            → OnErr result (Refused A) }
    {
        match self {
            Left::All => Ok(()),
            Left::Rows(_, collapse) => collapse.feed(text.as_bytes()),
            Left::Last(_, _) | Left::Refused => Err(AllocError),
        }
    }

    /// Takes the last text, and ends it.
    pub fn close(&mut self, text: &str) -> Result<(), AllocError>
        ensures ended { (r : Option Size) (u : List ℕ) → HasLeft r u self.old
            → OnOk result (left_text A r (u ++ text.now) ≡ final_text A r u
            ++ left_added self.new text.now) }
        ensures lost { (r : Option Size) (u : List ℕ) → HasLeft r u self.old
            → OnOk result (left_lost self.new ≡ lost_in A r (u ++ text.now)) }
        ensures refused { (r : Option Size) (u : List ℕ) → HasLeft r u self.old
            → OnErr result (Refused A) }
    {
        match self {
            Left::All => Ok(()),
            Left::Rows(alloc, collapse) => {
                let last = last_text(*alloc, collapse, text)?;
                *self = Left::Last(last, collapse.lost());
                Ok(())
            }
            Left::Last(_, _) | Left::Refused => Err(AllocError),
        }
    }

    /// How much of a text that has ended stands in no row, if that is counted.
    pub fn lost(&self) -> u64
        ensures { result ≡ left_lost self.now }
    {
        match self {
            Left::Last(_, lost) => *lost,
            _ => 0,
        }
    }

    /// Returns the text that the last call added, which took this text.
    pub fn added<'b>(&'b self, text: &'b str) -> &'b str
        ensures { result.now ≡ left_added self.now text.now }
    {
        match self {
            Left::All => text,
            Left::Rows(_, collapse) => collapse.output(),
            Left::Last(last, _) => last.as_str(),
            Left::Refused => "",
        }
    }
}

// Takes the last text, and ends it. It returns what that adds to the rows that are final.
fn last_text<A: Allocator + Copy>(
    alloc: A,
    collapse: &mut LineCollapser<A>,
    text: &str,
) -> Result<String<A>, AllocError>
    ensures ended { (z : Size) (u : List ℕ) → HasConsumed z u collapse.old → IfOk result (λ t.
        left_of z (values_of A (u ++ text.now)) ≡ final_of z (values_of A u) ++ string_bytes t) }
    ensures fed { (z : Size) (u : List ℕ) → HasConsumed z u collapse.old
        → OnOk result (HasConsumed z (u ++ text.now) collapse.new) }
    ensures refused { (z : Size) (u : List ℕ) → HasConsumed z u collapse.old
        → OnErr result (Refused A) }
{
    collapse.feed(text.as_bytes())?;
    let mut last = String::new(alloc);
    fallible_alloc::push_str(&mut last, collapse.output())?;
    collapse.finish()?;
    fallible_alloc::push_str(&mut last, collapse.output())?;
    Ok(last)
}
