//! A filter to which each line is a stream of its own.
ghost use Rattle.std.specs.Prelude.{◌≡◌, ◌++◌, ◌∷◌, ◌+◌, ◌≤◌, ◌<◌, [], Err, IfErr, IfOk, MatchOption, OnErr, OnOk, length, take, true, false};
ghost use Rattle.esc_filter.specs.Characters.{of_unicode};
ghost use Rattle.esc_filter.specs.Openings.{LeavesNone};
ghost use Rattle.esc_filter.specs.Lines.{content, end_text, ends_line, ends_return, has_line_feed, held, IsLine, body};
ghost use Rattle.fallible_alloc.specs.Refusals.{Refused};

use crate::admit::Admit;
use crate::filter::Filter;
use crate::guard::Guard;
use crate::plain_lines::plain_lines;
use crate::unicode::Unicode;
use esc_frame::ParseError;
use memchr::memchr;
use std::alloc::{AllocError, Allocator, Global};

// The length of a line without its line feed at most, if it is fed from a copy.
const SHORT: usize = 256;

/// Takes a stream in any chunks, and gives for each the text that it adds, as [`Filter`] does; but
/// each line, up to its line feed and with it, is a stream of its own. So a string that nobody ends
/// hides nothing of the lines after it, and each line of the stream has its line in the text: if a
/// string takes the line feed away, one is added. The changes that a line leaves at a terminal are
/// undone before its end.
///
/// A line ends in its line feed, or in a carriage return and that: such a carriage return is
/// written before the line feed if the policy admits it, also if a string would take it away. So
/// one that comes last is held back until the next byte says whether it is one. Each other is bare,
/// and the [`Guard`] says how it is written.
///
/// It keeps the last line as a [`Filter`] does, and the text of the chunk before.
#[derive(Drop)]
pub struct LineFilter<P, A: Allocator = Global> {
    pub(crate) filter: Filter<P, A>,
    // the text that the bytes fed last added
    pub(crate) text: String<A>,
    // says whether a carriage return came last, which may be a part of the end of its line
    holds: bool,
    pub(crate) has_failed: bool,
}

impl<P: Admit<A>, A: Allocator + Copy> LineFilter<P, A> {
    ghost use Rattle.esc_filter.specs.Lines.{AddsText, AfterLines, ClosesLine, EndsBy, EndsLine, EndsLines, FillsLine, GrowsBy, GrowsLine, GrowsRest, OnLine, OnRest, HasConsumedLines, added_by, policy_of_lines};

    /// Returns a filter at the beginning of a stream, which keeps at most `limit` bytes of a
    /// segment, as [`Filter::new`] does. Takes no memory.
    pub fn new(alloc: A, limit: usize, policy: P) -> LineFilter<P, A>
        ensures fed { HasConsumedLines (of_unicode Unicode.Keep) limit (P.admits policy) [] result }
        ensures policy { policy_of_lines result ≡ policy }
        ensures empty { added_by result ≡ [] }
    {
        LineFilter::with_unicode(alloc, limit, policy, Unicode::Keep)
    }

    /// Does the same; `unicode` says how characters that deceive are written, as
    /// [`Filter::with_unicode`] does. Bare carriage returns are kept.
    pub fn with_unicode(alloc: A, limit: usize, policy: P, unicode: Unicode) -> LineFilter<P, A>
        ensures fed { HasConsumedLines (of_unicode unicode) limit (P.admits policy) [] result }
        ensures policy { policy_of_lines result ≡ policy }
        ensures empty { added_by result ≡ [] }
    {
        LineFilter::with_guard(alloc, limit, policy, Guard::of_unicode(unicode))
    }

    /// Does the same; `guard` says how these are written, and bare carriage returns.
    pub fn with_guard(alloc: A, limit: usize, policy: P, guard: Guard) -> LineFilter<P, A>
        ensures fed { HasConsumedLines guard limit (P.admits policy) [] result }
        ensures policy { policy_of_lines result ≡ policy }
        ensures empty { added_by result ≡ [] }
    {
        LineFilter {
            filter: Filter::begun(alloc, limit, policy, guard, true),
            text: String::new(alloc),
            holds: false,
            has_failed: false,
        }
    }

    /// Takes `bytes`. The text that they add to the text of the stream so far is then the
    /// [`output`](LineFilter::output).
    ///
    /// `ParseError::Memory` says that a request for memory was refused: the text is empty, and from
    /// then on every call returns `ParseError::Failed`.
    pub fn feed(&mut self, bytes: &[u8]) -> Result<(), ParseError>
        ensures given { AfterLines P.Admit self.old (λ u limit admits s.
            OnOk result (AddsText u admits limit s bytes.now (added_by self.new) self.new)) }
        ensures policy { policy_of_lines self.new ≡ policy_of_lines self.old }
        ensures refused { AfterLines P.Admit self.old (λ u limit admits s. IfErr result (λ e.
            (e ≡ ParseError.Memory) × (self.new.has_failed ≡ true) × (added_by self.new ≡ [])
            × Refused A)) }
        ensures failed { self.old.has_failed ≡ true → (result ≡ Err ParseError.Failed)
            × (self.new.has_failed ≡ true) × (added_by self.new ≡ []) }
    {
        self.text.clear();
        if self.has_failed {
            return Err(ParseError::Failed);
        }
        match self.feed_lines(bytes) {
            Ok(()) => Ok(()),
            Err(_) => {
                self.has_failed = true;
                self.text.clear();
                Err(ParseError::Memory)
            }
        }
    }

    /// Ends the stream, and begins the next. The text that undoes the changes that its last line
    /// left at a terminal, if that has no line feed, is then the [`output`](LineFilter::output), as
    /// [`Filter::finish`] says, and before it the text of a carriage return that was held back.
    ///
    /// `ParseError::Memory` says that a request for memory was refused: the text is empty, and from
    /// then on every call returns `ParseError::Failed`.
    pub fn finish(&mut self) -> Result<(), ParseError>
        ensures ended { AfterLines P.Admit self.old (λ u limit admits s.
            OnOk result (EndsLines u admits limit s (added_by self.new) self.new)) }
        ensures policy { policy_of_lines self.new ≡ policy_of_lines self.old }
        ensures refused { AfterLines P.Admit self.old (λ u limit admits s. IfErr result (λ e.
            (e ≡ ParseError.Memory) × (self.new.has_failed ≡ true) × (added_by self.new ≡ [])
            × Refused A)) }
        ensures failed { self.old.has_failed ≡ true → (result ≡ Err ParseError.Failed)
            × (self.new.has_failed ≡ true) × (added_by self.new ≡ []) }
    {
        self.text.clear();
        if self.has_failed {
            return Err(ParseError::Failed);
        }
        match self.finish_line() {
            Ok(()) => Ok(()),
            Err(_) => {
                self.has_failed = true;
                self.text.clear();
                Err(ParseError::Memory)
            }
        }
    }

    /// Returns the text that the bytes fed last added.
    pub fn output(&self) -> &str
        ensures { result.now ≡ added_by self.now }
    {
        self.text.as_str()
    }

    // Takes these bytes, a line after another. After an error nothing is said of the filter.
    fn feed_lines(&mut self, bytes: &[u8]) -> Result<(), AllocError>
        ensures given { AfterLines P.Admit self.old (λ u limit admits s.
            OnOk result (GrowsBy u admits limit s bytes.now self.old self.new)) }
        ensures policy { policy_of_lines self.new ≡ policy_of_lines self.old }
        ensures refused { AfterLines P.Admit self.old (λ u limit admits s.
            OnErr result (Refused A)) }
    {
        let mut at = 0;
        while at < bytes.len() {
            let rest = &bytes[at..];
            match line_length(rest) {
                Some(n) => {
                    self.feed_line(&rest[..n])?;
                    at += n;
                    at += self.pass_plain(&bytes[at..])?;
                }
                None => return self.feed_open(rest),
            }
        }
        Ok(())
    }

    // Between lines, appends the first lines as they are, as far as they are written so, if all
    // text passes. It returns their length.
    pub(crate) fn pass_plain(&mut self, bytes: &[u8]) -> Result<usize, AllocError>
        ensures given { AfterLines P.Admit self.old (λ u limit admits s. ends_line true s ≡ true
            → IfOk result (λ n. GrowsBy u admits limit s (take n bytes.now) self.old self.new)) }
        ensures few { IfOk result (λ n. (n ≤ length bytes.now)
            × LeavesNone (P.admits (policy_of_lines self.old)) (take n bytes.now)) }
        ensures policy { policy_of_lines self.new ≡ policy_of_lines self.old }
        ensures refused { OnErr result (Refused A) }
    {
        if !self.filter.passes_text() {
            return Ok(0);
        }
        let lines = plain_lines::<A>(bytes, self.filter.passes_renditions());
        if lines.is_empty() {
            return Ok(0);
        }
        fallible_alloc::push_str(&mut self.text, lines)?;
        Ok(lines.len())
    }

    // Takes bytes that end the last line.
    pub(crate) fn feed_line(&mut self, bytes: &[u8]) -> Result<(), AllocError>
        requires { IsLine bytes.now }
        ensures given { AfterLines P.Admit self.old (λ u limit admits s.
            OnOk result (GrowsBy u admits limit s bytes.now self.old self.new)) }
        ensures policy { policy_of_lines self.new ≡ policy_of_lines self.old }
        ensures refused { AfterLines P.Admit self.old (λ u limit admits s.
            OnErr result (Refused A)) }
    {
        match self.fill_line(bytes) {
            Ok(()) => self.end_line(),
            Err(e) => Err(e),
        }
    }

    // Feeds the filter of the last line the bytes that end it, without a carriage return that is a
    // part of its end.
    pub(crate) fn fill_line(&mut self, bytes: &[u8]) -> Result<(), AllocError>
        requires { IsLine bytes.now }
        ensures given { OnRest P.Admit self.old (λ u limit admits r.
            OnOk result (FillsLine u admits limit r (content bytes.now) self.old self.new)) }
        ensures kept { (policy_of_lines self.new ≡ policy_of_lines self.old)
            × (self.new.has_failed ≡ self.old.has_failed) }
        ensures refused { OnRest P.Admit self.old (λ u limit admits r.
            OnErr result (Refused A)) }
    {
        let before = &bytes[..bytes.len() - 1];
        if self.holds {
            return self.fill_long(before);
        }
        if !ends_return(before) {
            return self.pass(bytes);
        }
        if before.len() > SHORT {
            return self.fill_long(before);
        }
        self.fill_short(&before[..before.len() - 1])
    }

    // Does the same for the bytes before the line feed, in two parts.
    fn fill_long(&mut self, before: &[u8]) -> Result<(), AllocError>
        ensures given { OnRest P.Admit self.old (λ u limit admits r.
            OnOk result (FillsLine u admits limit r before.now self.old self.new)) }
        ensures kept { (policy_of_lines self.new ≡ policy_of_lines self.old)
            × (self.new.has_failed ≡ self.old.has_failed) }
        ensures refused { OnRest P.Admit self.old (λ u limit admits r.
            OnErr result (Refused A)) }
    {
        match self.feed_rest(before) {
            Ok(()) => self.pass(b"\n"),
            Err(e) => Err(e),
        }
    }

    // Feeds the filter of the last line these bytes and its line feed, if a carriage return is
    // between them, and holds that back: one call, over a copy, costs less than two.
    fn fill_short(&mut self, body: &[u8]) -> Result<(), AllocError>
        requires { length body.now < 256 }
        ensures given { OnLine P.Admit self.old (λ u limit admits l. OnOk result
            (GrowsLine u admits limit l (body.now ++ 0x0a ∷ []) self.old self.new)) }
        ensures kept { (policy_of_lines self.new ≡ policy_of_lines self.old)
            × (self.new.has_failed ≡ self.old.has_failed) × (self.new.holds ≡ true) }
        ensures refused { OnLine P.Admit self.old (λ u limit admits l.
            OnErr result (Refused A)) }
    {
        self.holds = true;
        let line = with_feed(body);
        self.pass(&line[..body.len() + 1])
    }

    // Takes bytes without a line feed.
    pub(crate) fn feed_open(&mut self, bytes: &[u8]) -> Result<(), AllocError>
        requires { has_line_feed bytes.now ≡ false }
        ensures given { AfterLines P.Admit self.old (λ u limit admits s.
            OnOk result (GrowsBy u admits limit s bytes.now self.old self.new)) }
        ensures policy { policy_of_lines self.new ≡ policy_of_lines self.old }
        ensures refused { AfterLines P.Admit self.old (λ u limit admits s.
            OnErr result (Refused A)) }
    {
        self.feed_rest(bytes)
    }

    // Feeds the filter of the last line, but for a carriage return that comes last.
    pub(crate) fn feed_rest(&mut self, bytes: &[u8]) -> Result<(), AllocError>
        ensures given { OnRest P.Admit self.old (λ u limit admits r.
            OnOk result (GrowsRest u admits limit r bytes.now self.old self.new)) }
        ensures kept { (policy_of_lines self.new ≡ policy_of_lines self.old)
            × (self.new.has_failed ≡ self.old.has_failed) }
        ensures refused { OnRest P.Admit self.old (λ u limit admits r.
            OnErr result (Refused A)) }
    {
        if bytes.is_empty() {
            return Ok(());
        }
        match self.release() {
            Ok(()) => self.pass_body(bytes),
            Err(e) => Err(e),
        }
    }

    // Feeds the filter of the last line the carriage return that was held back.
    fn release(&mut self) -> Result<(), AllocError>
        ensures given { OnLine P.Admit self.old (λ u limit admits l.
            OnOk result (GrowsLine u admits limit l (held self.old.holds) self.old self.new)) }
        ensures kept { (policy_of_lines self.new ≡ policy_of_lines self.old)
            × (self.new.has_failed ≡ self.old.has_failed) × (self.new.holds ≡ false) }
        ensures refused { OnLine P.Admit self.old (λ u limit admits l.
            OnErr result (Refused A)) }
    {
        if !self.holds {
            return Ok(());
        }
        self.holds = false;
        self.pass(b"\r")
    }

    // Feeds the filter of the last line, and holds a carriage return back that comes last.
    fn pass_body(&mut self, bytes: &[u8]) -> Result<(), AllocError>
        requires { 0 < length bytes.now }
        ensures given { OnLine P.Admit self.old (λ u limit admits l.
            OnOk result (GrowsLine u admits limit l (body bytes.now) self.old self.new)) }
        ensures kept { (policy_of_lines self.new ≡ policy_of_lines self.old)
            × (self.new.has_failed ≡ self.old.has_failed)
            × (self.new.holds ≡ ends_return false bytes.now) }
        ensures refused { OnLine P.Admit self.old (λ u limit admits l.
            OnErr result (Refused A)) }
    {
        self.holds = ends_return(bytes);
        if self.holds {
            self.pass(&bytes[..bytes.len() - 1])
        } else {
            self.pass(bytes)
        }
    }

    // Feeds the filter of the last line, and takes over the text that this adds.
    fn pass(&mut self, bytes: &[u8]) -> Result<(), AllocError>
        ensures given { OnLine P.Admit self.old (λ u limit admits s.
            OnOk result (GrowsLine u admits limit s bytes.now self.old self.new)) }
        ensures kept { (policy_of_lines self.new ≡ policy_of_lines self.old)
            × (self.new.has_failed ≡ self.old.has_failed) × (self.new.holds ≡ self.old.holds) }
        ensures refused { OnLine P.Admit self.old (λ u limit admits s.
            OnErr result (Refused A)) }
    {
        match self.filter.feed(bytes) {
            Ok(()) => fallible_alloc::push_str(&mut self.text, self.filter.output()),
            Err(_) => Err(AllocError),
        }
    }

    // Ends the last line, and its text. The next line is a stream of its own.
    pub(crate) fn end_line(&mut self) -> Result<(), AllocError>
        ensures given { OnLine P.Admit self.old (λ u limit admits l. OnOk result
            (EndsLine u admits limit l self.old self.new)) }
        ensures kept { (policy_of_lines self.new ≡ policy_of_lines self.old)
            × (self.new.has_failed ≡ self.old.has_failed) × (self.new.holds ≡ false) }
        ensures refused { OnErr result (Refused A) }
    {
        let holds = self.holds;
        self.holds = false;
        match self.close() {
            Ok(()) => self.append_end(holds),
            Err(e) => Err(e),
        }
    }

    // Appends the end of a line, in which there is a carriage return or not.
    fn append_end(&mut self, holds: bool) -> Result<(), AllocError>
        ensures end { OnOk result (added_by self.new ≡ added_by self.old
            ++ end_text (P.admits (policy_of_lines self.old)) holds) }
        ensures kept { (self.new.filter ≡ self.old.filter)
            × (self.new.has_failed ≡ self.old.has_failed) × (self.new.holds ≡ self.old.holds) }
        ensures refused { OnErr result (Refused A) }
    {
        if holds && self.filter.passes_return() {
            fallible_alloc::push_str(&mut self.text, "\r\n")
        } else {
            fallible_alloc::push_char(&mut self.text, '\n')
        }
    }

    // Ends the stream.
    fn finish_line(&mut self) -> Result<(), AllocError>
        ensures given { AfterLines P.Admit self.old (λ u limit admits s. OnOk result
            (EndsBy u admits limit s self.old self.new)) }
        ensures policy { policy_of_lines self.new ≡ policy_of_lines self.old }
        ensures refused { AfterLines P.Admit self.old (λ u limit admits s.
            OnErr result (Refused A)) }
    {
        match self.release() {
            Ok(()) => self.close(),
            Err(e) => Err(e),
        }
    }

    // Undoes the changes that the last line left, and begins a new stream.
    fn close(&mut self) -> Result<(), AllocError>
        ensures given { OnLine P.Admit self.old (λ u limit admits l. OnOk result
            (ClosesLine u admits limit l self.old self.new)) }
        ensures kept { (policy_of_lines self.new ≡ policy_of_lines self.old)
            × (self.new.has_failed ≡ self.old.has_failed) × (self.new.holds ≡ self.old.holds) }
        ensures refused { OnErr result (Refused A) }
    {
        if !self.filter.is_changed() {
            self.filter.restart();
            return Ok(());
        }
        match self.filter.finish() {
            Ok(()) => fallible_alloc::push_str(&mut self.text, self.filter.output()),
            Err(e) => Err(e),
        }
    }
}

// Returns these bytes, and a line feed after them.
#[inline(always)]
fn with_feed(bytes: &[u8]) -> [u8; 256]
    requires { length bytes.now < 256 }
    ensures { take (length bytes.now + 1) result ≡ bytes.now ++ 0x0a ∷ [] }
{
    let mut line = [0; SHORT];
    line[..bytes.len()].copy_from_slice(bytes);
    line[bytes.len()] = b'\n';
    line
}

// Returns whether a carriage return comes last.
fn ends_return(bytes: &[u8]) -> bool
    ensures { result ≡ ends_return false bytes.now }
{
    !bytes.is_empty() && bytes[bytes.len() - 1] == b'\r'
}

/// Returns the length of the line that these bytes begin with, with its line feed. None if they
/// have no line feed.
pub fn line_length(bytes: &[u8]) -> Option<usize>
    ensures { MatchOption result (has_line_feed bytes.now ≡ false)
        (λ n. (0 < n) × (n ≤ length bytes.now) × IsLine (take n bytes.now)) }
{
    match memchr(b'\n', bytes) {
        Some(at) => Some(at + 1),
        None => None,
    }
}
