//! A stream with the actions shown that are not admitted.
ghost use Rattle.std.specs.Prelude.{◌≡◌, ◌++◌, ◌∷◌, ◌<◌, ◌≤◌, ◌&&◌, ℕ, List, [], OnErr, OnOk, length, take, slice_index, IfOk, Some, nat_le, true, false};
ghost use Rattle.esc_actions.specs.Meaning.{meaning_within};
ghost use Rattle.esc_filter.specs.Lines.{is_line_feed};
ghost use Rattle.caret_notation.specs.Revealed.{are_kept, is_kept};
ghost use Rattle.caret_notation.specs.Runs.{IsAdmittedText, IsOpenRun, IsPart, has_line_end};
ghost use Rattle.caret_notation.specs.Visible.{lets_stay, rest_text, shown_text};
ghost use Rattle.caret_notation.specs.declared.reveal.TheConstants.{MOST_BYTES};
ghost use Rattle.fallible_alloc.specs.Refusals.{Refused};

use crate::judge::{judge_span, stays_spelled};
use crate::kept::Kept;
use crate::marking::Marking;
use crate::shown::push_shown;
use crate::silent::frame_some;
use crate::spelled::may_stay;
use crate::text::admitted_run;
use esc_filter::Admit;
use esc_frame::VTParser;
use memchr::memchr;
use std::alloc::{AllocError, Allocator, Global};

// Says how many bytes a character has at most.
const MOST_BYTES: usize = 4;

/// The rule for a stream: the length of the longest span, whether a line feed ends one, and the
/// actions that are admitted.
#[derive(Drop)]
pub(crate) struct Rule<P> {
    /// The policy that admits actions.
    pub policy: P,
    /// Says how many bytes a span that is kept has at most.
    pub limit: usize,
    /// Says whether a line feed ends a span.
    pub by_lines: bool,
    /// The way in which shown text is told from text that stays.
    pub marking: Marking,
}

/// Takes a stream in any chunks, and gives for each the text that it adds: the stream itself, but
/// with visible text for the actions that a policy does not admit, as
/// [`push_visible`](crate::push_visible) writes it.
///
/// The stream is cut at each place with no segment unfinished, so a string and its terminator are
/// one span. A span stays as it is if it means something, each of its actions passes a filter of
/// the policy, and the filter writes for them the span itself, or the same with `ESC \` in the
/// place of the BEL that ends a string. A control sequence with no control in it stays also if its
/// numbers and renditions are spelled otherwise. Any other span is shown whole. One that is longer
/// than the limit is shown as it comes, and so is, at the end of the stream, one that has not
/// ended. If `by_lines`, a line feed always ends a span: it stays, and the unfinished part before
/// it is shown.
///
/// It keeps the span of the stream that has not ended, at most the limit, and as much of a segment
/// that has not ended as a [`VTParser`](esc_frame::VTParser) of this limit.
#[derive(Drop)]
pub struct Reveal<P, A: Allocator = Global> {
    rule: Rule<P>,
    framer: VTParser<A>,
    alloc: A,
    kept: Kept<A>,
    // the text that the last call added
    text: Vec<u8, A>,
    has_failed: bool,
}

impl<P: Admit<A>, A: Allocator + Copy> Reveal<P, A> {
    ghost use Rattle.caret_notation.specs.Fed.{AddsTo, AtSpanEnd, AtRest, EndsAs, FailsForGood, GrowsTo, Holds, IsFramed, TakesSome, HasConsumed, added_by, by_lines_of, closed_text, limit_of, marking_of, policy_of};

    /// Returns a writer at the beginning of a stream, which keeps a span of at most `limit` bytes.
    /// Takes no memory.
    pub fn new(alloc: A, limit: usize, policy: P, by_lines: bool) -> Reveal<P, A>
        ensures fed { HasConsumed [] result }
        ensures limit { limit_of result ≡ limit }
        ensures policy { policy_of result ≡ policy }
        ensures lines { (by_lines_of result ≡ by_lines) × (marking_of result ≡ Marking.Plain) }
    {
        Reveal::with_marking(alloc, limit, policy, by_lines, Marking::Plain)
    }

    /// Returns the same writer, with shown text told from text that stays in this way.
    pub fn with_marking(
        alloc: A,
        limit: usize,
        policy: P,
        by_lines: bool,
        marking: Marking,
    ) -> Reveal<P, A>
        ensures fed { HasConsumed [] result }
        ensures limit { limit_of result ≡ limit }
        ensures policy { policy_of result ≡ policy }
        ensures lines { (by_lines_of result ≡ by_lines) × (marking_of result ≡ marking) }
    {
        Reveal {
            rule: Rule {
                policy,
                limit,
                by_lines,
                marking,
            },
            framer: VTParser::with_limit(alloc, limit),
            alloc,
            kept: Kept::new(alloc),
            text: Vec::new(alloc),
            has_failed: false,
        }
    }

    /// Takes `bytes`. The text that they add to the text of the stream so far is then [`output`].
    ///
    /// The error says that a request for memory was refused: nothing was added, and from then on
    /// every call returns this error.
    ///
    /// [`output`]: Reveal::output
    pub fn feed(&mut self, bytes: &[u8]) -> Result<(), AllocError>
        ensures given { (s : List ℕ) → HasConsumed s self.old → OnOk result
            (HasConsumed (s ++ bytes.now) self.new × AddsTo P.Admit s bytes.now self.old self.new) }
        ensures rule { self.new.rule ≡ self.old.rule }
        ensures refused { (s : List ℕ) → HasConsumed s self.old → OnErr result (Refused A) }
        ensures fails { FailsForGood self.old result self.new }
    {
        self.text.clear();
        if self.has_failed {
            return Err(AllocError);
        }
        match self.take_all(bytes) {
            Ok(()) => Ok(()),
            Err(e) => {
                self.has_failed = true;
                self.text.clear();
                Err(e)
            }
        }
    }

    /// Ends the stream, and begins the next. The visible text of a span that has not ended is then
    /// [`output`].
    ///
    /// The error says that a request for memory was refused: nothing was added, and from then on
    /// every call returns this error.
    ///
    /// [`output`]: Reveal::output
    pub fn finish(&mut self) -> Result<(), AllocError>
        ensures ended { (s : List ℕ) → HasConsumed s self.old → OnOk result
            (HasConsumed [] self.new × EndsAs P.Admit s self.old self.new) }
        ensures rule { self.new.rule ≡ self.old.rule }
        ensures refused { (s : List ℕ) → HasConsumed s self.old → OnErr result (Refused A) }
        ensures fails { FailsForGood self.old result self.new }
    {
        self.text.clear();
        if self.has_failed {
            return Err(AllocError);
        }
        match self.show() {
            Ok(()) => Ok(()),
            Err(e) => {
                self.has_failed = true;
                self.text.clear();
                Err(e)
            }
        }
    }

    /// Returns the bytes that the last call added.
    pub fn output(&self) -> &[u8]
        ensures { result.now ≡ added_by self.now }
    {
        &self.text
    }

    // Takes these bytes. After an error nothing is said of the rest.
    fn take_all(&mut self, bytes: &[u8]) -> Result<(), AllocError>
        ensures given { (r : List ℕ) → AtRest r self.old → OnOk result
            (GrowsTo P.Admit r bytes.now self.old self.new) }
        ensures rule { self.new.rule ≡ self.old.rule }
        ensures refused { (r : List ℕ) → AtRest r self.old → OnErr result (Refused A) }
    {
        let mut at = 0;
        while at < bytes.len() {
            let rest = &bytes[at..];
            let n = self.take_line(rest)?;
            at += n;
        }
        Ok(())
    }

    // Takes the bytes before the first line feed that ends a span, or this line feed, if it comes
    // first, and returns their number.
    fn take_line(&mut self, bytes: &[u8]) -> Result<usize, AllocError>
        requires { 0 < length bytes.now }
        ensures { TakesSome P.Admit AtRest self.old bytes.now result self.new }
    {
        let run = self.open_run(bytes);
        if run == 0 {
            self.end_line(bytes[0])?;
            return Ok(1);
        }
        self.take_open(&bytes[..run])?;
        Ok(run)
    }

    // Returns how many bytes come before the first line feed that ends a span.
    fn open_run(&self, bytes: &[u8]) -> usize
        ensures few { result ≤ length bytes.now }
        ensures lineless { has_line_end (by_lines_of self.now) (take result bytes.now) ≡ false }
        ensures ends { result ≡ 0 → 0 < length bytes.now
            → (by_lines_of self.now && is_line_feed (slice_index bytes.now 0)) ≡ true }
    {
        if !self.rule.by_lines {
            return bytes.len();
        }
        match memchr(b'\n', bytes) {
            Some(at) => at,
            None => bytes.len(),
        }
    }

    // Takes bytes without a line feed that ends a span.
    fn take_open(&mut self, bytes: &[u8]) -> Result<(), AllocError>
        requires { has_line_end (by_lines_of self.old) bytes.now ≡ false }
        ensures given { (r : List ℕ) → AtRest r self.old → OnOk result
            (GrowsTo P.Admit r bytes.now self.old self.new) }
        ensures rule { self.new.rule ≡ self.old.rule }
        ensures refused { (r : List ℕ) → AtRest r self.old → OnErr result (Refused A) }
    {
        let mut at = 0;
        while at < bytes.len() {
            let rest = &bytes[at..];
            let n = self.take_some(rest)?;
            at += n;
        }
        Ok(())
    }

    // Takes some of these bytes, and returns how many: a run of text that stays, or those up to the
    // end of a span or of an event.
    fn take_some(&mut self, bytes: &[u8]) -> Result<usize, AllocError>
        requires { IsOpenRun (by_lines_of self.old) bytes.now }
        ensures { TakesSome P.Admit AtRest self.old bytes.now result self.new }
    {
        if !self.kept.is_empty() {
            return self.take_more(bytes);
        }
        let run = self.text_run(bytes);
        if run == 0 {
            return self.take_first(bytes);
        }
        fallible_alloc::extend(&mut self.text, &bytes[..run])?;
        Ok(run)
    }

    // Returns the length of a run of characters that comes first and stays as it is, if no segment
    // is unfinished; 0 if none is seen at once.
    fn text_run(&self, bytes: &[u8]) -> usize
        requires { 0 < length bytes.now }
        ensures few { result ≤ length bytes.now }
        ensures limit { 0 < result → MOST_BYTES ≤ limit_of self.now }
        ensures text { IsAdmittedText (P.admits (policy_of self.now)) (take result bytes.now)
            × (lets_stay (marking_of self.now) (take result bytes.now) ≡ true) }
    {
        if self.rule.limit < MOST_BYTES {
            return 0;
        }
        admitted_run(&self.rule.policy, self.rule.marking, bytes)
    }

    // Takes bytes up to the end of a span, or all, if no segment is unfinished, and returns their
    // number.
    fn take_first(&mut self, bytes: &[u8]) -> Result<usize, AllocError>
        requires { IsOpenRun (by_lines_of self.old) bytes.now }
        ensures { TakesSome P.Admit AtSpanEnd self.old bytes.now result self.new }
    {
        let (n, passes) = judge_span(
            self.alloc,
            &mut self.framer,
            &self.rule.policy,
            self.rule.limit,
            bytes,
        )?;
        self.put_first(passes, &bytes[..n])?;
        Ok(n)
    }

    // Takes these bytes, which were framed and judged: they are a span, or begin one.
    fn put_first(&mut self, passes: bool, bytes: &[u8]) -> Result<(), AllocError>
        ensures given { IsFramed [] bytes.now self.old → IsPart (by_lines_of self.old) [] bytes.now
            → (passes ≡ are_kept (P.admits (policy_of self.old))
            (meaning_within (Some (limit_of self.old)) bytes.now)) → OnOk result
            (GrowsTo P.Admit [] bytes.now self.old self.new) }
        ensures rule { self.new.rule ≡ self.old.rule }
        ensures refused { OnErr result (Refused A) }
    {
        if !self.framer.is_ground() {
            return self
                .kept
                .extend(self.rule.marking, self.rule.limit, bytes, &mut self.text);
        }
        self.framer.restart();
        let rule = &self.rule;
        let stays = may_stay(self.alloc, rule.marking, rule.limit, passes, bytes)?;
        if stays {
            fallible_alloc::extend(&mut self.text, bytes)
        } else {
            push_shown(&mut self.text, self.rule.marking, bytes)
        }
    }

    // Takes bytes up to the end of a span or of an event, and returns how many.
    fn take_more(&mut self, bytes: &[u8]) -> Result<usize, AllocError>
        requires { IsOpenRun (by_lines_of self.old) bytes.now }
        ensures { TakesSome P.Admit AtRest self.old bytes.now result self.new }
    {
        let n = frame_some(&mut self.framer, bytes)?;
        self.take_span(&bytes[..n])?;
        Ok(n)
    }

    // Takes these bytes, which were framed: they end a span, or are a part of it.
    fn take_span(&mut self, bytes: &[u8]) -> Result<(), AllocError>
        ensures given { (r : List ℕ) → IsFramed r bytes.now self.old
            → IsPart (by_lines_of self.old) r bytes.now → OnOk result
            (GrowsTo P.Admit r bytes.now self.old self.new) }
        ensures rule { self.new.rule ≡ self.old.rule }
        ensures refused { (r : List ℕ) → IsFramed r bytes.now self.old → OnErr result (Refused A) }
    {
        let has_ended = self.framer.is_ground();
        self.kept
            .extend(self.rule.marking, self.rule.limit, bytes, &mut self.text)?;
        if has_ended { self.close() } else { Ok(()) }
    }

    // Takes a line feed that ends a span.
    fn end_line(&mut self, byte: u8) -> Result<(), AllocError>
        requires { (by_lines_of self.old && is_line_feed byte) ≡ true }
        ensures given { (r : List ℕ) → AtRest r self.old → OnOk result
            (GrowsTo P.Admit r (byte ∷ []) self.old self.new) }
        ensures rule { self.new.rule ≡ self.old.rule }
        ensures refused { (r : List ℕ) → AtRest r self.old → OnErr result (Refused A) }
    {
        self.show()?;
        fallible_alloc::extend(&mut self.text, &[byte])
    }

    // Ends a span that no line feed ends.
    fn close(&mut self) -> Result<(), AllocError>
        ensures given { (r : List ℕ) → AtRest r self.old → OnOk result
            (Holds [] (rest_text (marking_of self.old) (limit_of self.old) r)
            (closed_text P.Admit self.old.rule r) self.old self.new) }
        ensures rule { self.new.rule ≡ self.old.rule }
        ensures refused { (r : List ℕ) → AtRest r self.old → OnErr result (Refused A) }
    {
        if self.is_kept()? {
            self.write()
        } else {
            self.show()
        }
    }

    // Returns whether the span stays as it is.
    fn is_kept(&mut self) -> Result<bool, AllocError>
        ensures given { (r : List ℕ) → AtRest r self.old → IfOk result
            (λ k. AtRest r self.new
            × (k ≡ is_kept (marking_of self.old) (limit_of self.old)
            (P.admits (policy_of self.old)) r)) }
        ensures rule { self.new.rule ≡ self.old.rule }
        ensures text { added_by self.new ≡ added_by self.old }
        ensures refused { (r : List ℕ) → AtRest r self.old → OnErr result (Refused A) }
    {
        match self.kept.span() {
            Some(span) => {
                if !self.rule.marking.lets_stay(span) {
                    return Ok(false);
                }
                stays_spelled(
                    self.alloc,
                    &mut self.framer,
                    &self.rule.policy,
                    self.rule.limit,
                    span,
                )
            }
            None => Ok(false),
        }
    }

    // Writes the span, which is within the limit, as it came, and begins anew.
    fn write(&mut self) -> Result<(), AllocError>
        ensures given { (r : List ℕ) → AtRest r self.old
            → nat_le (length r) (limit_of self.old) ≡ true → OnOk result
            (Holds [] (rest_text (marking_of self.old) (limit_of self.old) r) r
            self.old self.new) }
        ensures rule { self.new.rule ≡ self.old.rule }
        ensures refused { OnErr result (Refused A) }
    {
        self.framer.restart();
        self.kept.write(&mut self.text)
    }

    // Shows the part of the span that was not shown yet, and begins anew.
    fn show(&mut self) -> Result<(), AllocError>
        ensures given { (r : List ℕ) → AtRest r self.old → OnOk result
            (Holds [] (rest_text (marking_of self.old) (limit_of self.old) r)
            (shown_text (marking_of self.old) r) self.old self.new) }
        ensures rule { self.new.rule ≡ self.old.rule }
        ensures refused { OnErr result (Refused A) }
    {
        self.framer.restart();
        self.kept.show(self.rule.marking, &mut self.text)
    }
}
