//! A filter that is fed a stream chunk by chunk.
ghost use Rattle.std.specs.Prelude.{◌≡◌, ◌≤◌, ◌+◌, ◌++◌, Bool, List, [], IfErr, IsTrue, OnErr, OnOk, Some, false, min, string_bytes};
ghost use Rattle.esc_actions.specs.Limited.{data_kept};
ghost use Rattle.esc_actions.specs.Values.{control};
ghost use Rattle.esc_actions.specs.declared.control_code.ControlCode.TheVariants.{CarriageReturn};
ghost use Rattle.esc_frame.specs.Counts.{kept_of_cut};
ghost use Rattle.esc_frame.specs.Limits.{most};
ghost use Rattle.esc_frame.specs.Segments.{IsCut, Segment};
ghost use Rattle.esc_filter.specs.Characters.{of_unicode};
ghost use Rattle.esc_filter.specs.Openings.{opening};
ghost use Rattle.esc_filter.specs.Known.{ArePassedRenditions, IsPassedText};
ghost use Rattle.fallible_alloc.specs.Refusals.{Refused};

use crate::admit::Admit;
use crate::giving_back::keeps_cursor_of;
use crate::guard::Guard;
use crate::passing::Passing;
use crate::pens::push_pen;
use crate::text::emptied;
use crate::unicode::Unicode;
use crate::written::Written;
use esc_actions::{Action, ControlCode, laws};
use esc_frame::ParseError;
use esc_parse::Parser;
use esc_values::Text;
use std::alloc::{AllocError, Allocator, Global};
use std::mem;

/// Takes a stream in any chunks, and gives for each the text that it adds: the text of the actions
/// that pass the policy. At its end it gives the text that undoes the changes that these leave at a
/// terminal.
///
/// It keeps the unfinished segment as a parser does, at most the limit, the text of the part
/// before, whether a string terminator that comes next ends a string that was written already, and
/// the changes that are left.
#[derive(Drop)]
pub struct Filter<P, A: Allocator = Global> {
    parser: Parser<A>,
    written: Written<A>,
    alloc: A,
    policy: P,
}

impl<P: Admit<A>, A: Allocator + Copy> Filter<P, A> {
    ghost use Rattle.esc_filter.specs.Fed.{AfterIn, EndsAs, IsBroken, IsUnchanged, TakesAs, HasConsumed, HasConsumedIn, added_by, policy_of};

    /// Returns a filter at the beginning of a stream, which keeps at most `limit` bytes of a
    /// segment, as [`Parser::with_limit`](esc_parse::Parser::with_limit) does. Takes no memory.
    pub fn new(alloc: A, limit: usize, policy: P) -> Filter<P, A>
        ensures fed { HasConsumed limit (P.admits policy) [] result }
        ensures policy { policy_of result ≡ policy }
        ensures empty { added_by result ≡ [] }
    {
        Filter::with_unicode(alloc, limit, policy, Unicode::Keep)
    }

    /// Does the same; `unicode` says how characters that deceive are written. The text within a
    /// string, as the address of a link, stays as it is, and so do carriage returns.
    pub fn with_unicode(alloc: A, limit: usize, policy: P, unicode: Unicode) -> Filter<P, A>
        ensures fed { HasConsumedIn (of_unicode unicode) false limit (P.admits policy) [] result }
        ensures policy { policy_of result ≡ policy }
        ensures empty { added_by result ≡ [] }
    {
        Filter::with_guard(alloc, limit, policy, Guard::of_unicode(unicode))
    }

    /// Does the same; `guard` says how these are written, and carriage returns.
    pub fn with_guard(alloc: A, limit: usize, policy: P, guard: Guard) -> Filter<P, A>
        ensures fed { HasConsumedIn guard false limit (P.admits policy) [] result }
        ensures policy { policy_of result ≡ policy }
        ensures empty { added_by result ≡ [] }
    {
        Filter::begun(alloc, limit, policy, guard, false)
    }

    /// Does the same; if `by_lines`, for a line, whose line feed it drops.
    pub(crate) fn begun(
        alloc: A,
        limit: usize,
        policy: P,
        guard: Guard,
        by_lines: bool,
    ) -> Filter<P, A>
        ensures fed { HasConsumedIn guard by_lines limit (P.admits policy) [] result }
        ensures policy { policy_of result ≡ policy }
        ensures empty { added_by result ≡ [] }
    {
        Filter {
            parser: Parser::with_limit(alloc, limit),
            written: Written::new(alloc, by_lines, guard),
            alloc,
            policy,
        }
    }

    /// Takes `bytes`. The text that they add to the text of the stream so far is then the
    /// [`output`](Filter::output).
    ///
    /// `ParseError::Memory` says that a request for memory was refused: the text is empty, and from
    /// then on every call returns `ParseError::Failed`.
    pub fn feed(&mut self, bytes: &[u8]) -> Result<(), ParseError>
        ensures given { (by_lines : Bool) → AfterIn by_lines P.Admit self.old (λ u limit admits s.
            OnOk result (TakesAs u by_lines admits limit s bytes.now self.new)) }
        ensures policy { policy_of self.new ≡ policy_of self.old }
        ensures refused { (by_lines : Bool) → AfterIn by_lines P.Admit self.old (λ u limit admits s.
            IfErr result (λ e. (e ≡ ParseError.Memory) × IsBroken self.new
            × (added_by self.new ≡ []) × Refused A)) }
        ensures failed { IsBroken self.old → (result ≡ Err ParseError.Failed) × IsBroken self.new
            × (added_by self.new ≡ []) }
    {
        laws::yield_handed_out::<A>();
        let new = Written::new(self.alloc, self.written.by_lines, self.written.guard);
        let written = mem::replace(&mut self.written, new);
        let sink = Passing {
            written: written.emptied(),
            policy: &self.policy,
        };
        let (result, Passing { written, policy: _ }) = self.parser.parse_into(bytes, sink);
        match result {
            Ok(()) => {
                self.written = written;
                Ok(())
            }
            Err(error) => Err(error),
        }
    }

    /// Ends the stream, and begins the next. The text that undoes the changes that it left at a
    /// terminal is then the [`output`](Filter::output): renditions and links, the main screen,
    /// margins, the origin, that characters are not inserted, the cursor, and the other modes of
    /// the screen. An unfinished segment is dropped.
    ///
    /// The error says that a request for memory was refused: the text is empty, and the stream has
    /// not ended.
    pub fn finish(&mut self) -> Result<(), AllocError>
        ensures ended { (by_lines : Bool) → AfterIn by_lines P.Admit self.old (λ u limit admits s.
            OnOk result (EndsAs u by_lines admits limit s self.new)) }
        ensures policy { policy_of self.new ≡ policy_of self.old }
        ensures refused { OnErr result (Refused A × (added_by self.new ≡ [])
            × ((by_lines : Bool) → AfterIn by_lines P.Admit self.old (λ u limit admits s.
            HasConsumedIn u by_lines limit admits s self.new))) }
        ensures failed { IsBroken self.old → IsBroken self.new }
    {
        let mut text = mem::replace(&mut self.written.spell.text, Text::new(self.alloc));
        text = emptied(text);
        let keeps_cursor = keeps_cursor_of(&self.written.left, &self.policy);
        match self.written.left.give_back(keeps_cursor, &mut text) {
            Ok(()) => {
                self.restart();
                self.written.spell.text = text;
                Ok(())
            }
            Err(error) => Err(error),
        }
    }

    /// Begins a new stream. An unfinished segment is dropped.
    pub(crate) fn restart(&mut self)
        ensures fed { (by_lines : Bool) → AfterIn by_lines P.Admit self.old (λ u limit admits s.
            HasConsumedIn u by_lines limit admits [] self.new) }
        ensures policy { policy_of self.new ≡ policy_of self.old }
        ensures failed { IsBroken self.old → IsBroken self.new }
    {
        self.parser.restart();
        self.written.restart();
    }

    /// Returns whether anything is left changed.
    #[inline]
    pub(crate) fn is_changed(&self) -> bool
        ensures { result ≡ false → IsUnchanged self.now }
    {
        self.written.left.is_changed()
    }

    /// Appends the renditions that are left on, if they are noted.
    pub(crate) fn push_opening(&self, text: &mut String<A>) -> Result<(), AllocError>
        ensures ok { OnOk result (string_bytes text.new
            ≡ string_bytes text.old ++ opening self.now.written.left self.now.written.pen) }
        ensures refused { OnErr result (Refused A) }
    {
        if self.written.left.rendition {
            push_pen(self.written.pen, text)
        } else {
            Ok(())
        }
    }

    /// Returns whether all text passes.
    #[inline]
    pub(crate) fn passes_text(&self) -> bool
        ensures { IsTrue result → IsPassedText (P.admits (policy_of self.now)) }
    {
        self.policy.known().text
    }

    /// Returns whether all renditions pass.
    #[inline]
    pub(crate) fn passes_renditions(&self) -> bool
        ensures { IsTrue result → ArePassedRenditions (P.admits (policy_of self.now)) }
    {
        self.policy.known().renditions
    }

    /// Returns whether a carriage return passes. One that does not is shown to the policy as left
    /// out.
    pub(crate) fn passes_return(&self) -> bool
        ensures { result ≡ P.admits (policy_of self.now) (control CarriageReturn) }
    {
        let action = Action::Control(ControlCode::CarriageReturn);
        let passes = self.policy.admits(&action);
        if !passes {
            self.policy.leaves_out(&action);
        }
        passes
    }

    /// Returns the text that the bytes fed last added.
    pub fn output(&self) -> &str
        ensures { result.now ≡ added_by self.now }
    {
        self.written.spell.text.as_str()
    }

    /// Returns how many bytes are kept of the segment that is unfinished, as
    /// [`Parser::kept`](esc_parse::Parser::kept) counts them: at most the limit.
    pub fn kept(&self) -> usize
        ensures given { AfterIn false P.Admit self.now (λ u limit admits s. (gs : List Segment)
            → IsCut s gs
            → result ≡ min (kept_of_cut (Some limit) gs + data_kept (Some limit) s) most) }
        ensures within { AfterIn false P.Admit self.now (λ u limit admits s. result ≤ limit) }
        ensures failed { IsBroken self.now → result ≡ 0 }
    {
        self.parser.kept()
    }
}
