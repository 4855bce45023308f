//! A filter of lines that writes renditions again which go on over a line feed.
ghost use Rattle.std.specs.Prelude.{◌≡◌, ◌≤◌, ◌<◌, ◌++◌, [], Err, IfErr, IfOk, OnErr, OnOk, length, take, true, false, if◌then◌else◌, string_bytes};
ghost use Rattle.esc_filter.specs.Lines.{GrowsBy, IsLine, ends_line, has_line_feed};
ghost use Rattle.esc_filter.specs.Openings.{opening, opening_at};
ghost use Rattle.fallible_alloc.specs.Refusals.{Refused};

use crate::admit::Admit;
use crate::guard::Guard;
use crate::line_filter::{LineFilter, line_length};
use esc_frame::ParseError;
use std::alloc::{AllocError, Allocator, Global};

/// Takes a stream as a [`LineFilter`] does, with each line as a stream of its own, and writes the
/// renditions again that go on over a line feed: each line but a blank one begins with those that
/// the lines before it, as they are written, leave on. So a line looks as it does in the stream,
/// and also by itself.
///
/// It writes the text that a [`LineFilter`] writes for the stream with these renditions in it, and
/// passes the policy as they do. Fonts, frames, and how high and how wide characters are do not go
/// on, and neither does a link.
#[derive(Drop)]
pub struct ResumingFilter<P, A: Allocator = Global> {
    lines: LineFilter<P, A>,
    // the renditions that are on after the lines that have ended
    opening: String<A>,
    // says whether the last line has begun
    is_open: bool,
    // says whether they are written again
    resumes: bool,
}

impl<P: Admit<A>, A: Allocator + Copy> ResumingFilter<P, A> {
    ghost use Rattle.esc_filter.specs.Lines.{AfterLines, OnLine};
    ghost use Rattle.esc_filter.specs.Resumed.{AddsResumed, AfterResumed, ClosesWith, EndsResumed, EndsWith, GrowsResumed, OnStream, ResumedHasConsumed, added_by, policy_of_resuming};

    /// Returns a filter at the beginning of a stream, as [`LineFilter::with_guard`] says.
    /// Renditions are written again if `resumes` is true; else it is a [`LineFilter`]. Takes no
    /// memory.
    pub fn new(
        alloc: A,
        limit: usize,
        policy: P,
        guard: Guard,
        resumes: bool,
    ) -> ResumingFilter<P, A>
        ensures fed { ResumedHasConsumed resumes guard limit (P.admits policy) [] result }
        ensures policy { policy_of_resuming result ≡ policy }
        ensures empty { added_by result ≡ [] }
    {
        ResumingFilter {
            lines: LineFilter::with_guard(alloc, limit, policy, guard),
            opening: String::new(alloc),
            is_open: false,
            resumes,
        }
    }

    /// Takes `bytes`. The text that they add to the text of the stream so far is then the
    /// [`output`](ResumingFilter::output).
    ///
    /// `ParseError::Memory` says that a request for memory was refused: the text is empty, and from
    /// then on every call returns `ParseError::Failed`.
    pub fn feed(&mut self, bytes: &[u8]) -> Result<(), ParseError>
        ensures given { AfterResumed P.Admit self.old (λ k u limit admits s. OnOk result
            (AddsResumed k u admits limit s bytes.now (added_by self.new) self.new)) }
        ensures policy { policy_of_resuming self.new ≡ policy_of_resuming self.old }
        ensures refused { AfterResumed P.Admit self.old (λ k u limit admits s.
            IfErr result (λ e. (e ≡ ParseError.Memory) × (self.new.lines.has_failed ≡ true)
            × (added_by self.new ≡ []) × Refused A)) }
        ensures failed { self.old.lines.has_failed ≡ true → (result ≡ Err ParseError.Failed)
            × (self.new.lines.has_failed ≡ true) × (added_by self.new ≡ []) }
    {
        self.lines.text.clear();
        if self.lines.has_failed {
            return Err(ParseError::Failed);
        }
        match self.feed_lines(bytes) {
            Ok(()) => Ok(()),
            Err(_) => {
                self.lines.has_failed = true;
                self.lines.text.clear();
                Err(ParseError::Memory)
            }
        }
    }

    /// Ends the stream, and begins the next, as [`LineFilter::finish`] does.
    ///
    /// `ParseError::Memory` says that a request for memory was refused: the text is empty, and from
    /// then on every call returns `ParseError::Failed`.
    pub fn finish(&mut self) -> Result<(), ParseError>
        ensures ended { AfterResumed P.Admit self.old (λ k u limit admits s. OnOk result
            (EndsResumed k u admits limit s (added_by self.new) self.new)) }
        ensures policy { policy_of_resuming self.new ≡ policy_of_resuming self.old }
        ensures refused { AfterResumed P.Admit self.old (λ k u limit admits s.
            IfErr result (λ e. (e ≡ ParseError.Memory) × (self.new.lines.has_failed ≡ true)
            × (added_by self.new ≡ []) × Refused A)) }
        ensures failed { self.old.lines.has_failed ≡ true → (result ≡ Err ParseError.Failed)
            × (self.new.lines.has_failed ≡ true) × (added_by self.new ≡ []) }
    {
        self.opening.clear();
        self.is_open = false;
        self.lines.finish()
    }

    /// Returns the text that the bytes fed last added.
    pub fn output(&self) -> &str
        ensures { result.now ≡ added_by self.now }
    {
        self.lines.output()
    }

    // Takes these bytes, a line after another. After an error nothing is said of the filter.
    fn feed_lines(&mut self, bytes: &[u8]) -> Result<(), AllocError>
        ensures given { OnStream P.Admit self.old (λ k u limit admits d.
            OnOk result (GrowsResumed k u admits limit d bytes.now self.old self.new)) }
        ensures policy { policy_of_resuming self.new ≡ policy_of_resuming self.old }
        ensures refused { OnStream P.Admit self.old (λ k u limit admits d.
            OnErr result (Refused A)) }
    {
        let mut at = 0;
        while at < bytes.len() {
            let rest = &bytes[at..];
            match line_length(rest) {
                Some(n) => {
                    self.take_line(&rest[..n])?;
                    at += n;
                    at += self.take_plain(&bytes[at..])?;
                }
                None => return self.take_open(rest),
            }
        }
        Ok(())
    }

    // Between lines, takes those that come first, are written as they are and leave no rendition
    // on. It returns how long they are.
    fn take_plain(&mut self, bytes: &[u8]) -> Result<usize, AllocError>
        ensures given { OnStream P.Admit self.old (λ k u limit admits d. ends_line true d ≡ true
            → IfOk result (λ n. GrowsResumed k u admits limit d (take n bytes.now) self.old
            self.new)) }
        ensures few { IfOk result (λ n. n ≤ length bytes.now) }
        ensures policy { policy_of_resuming self.new ≡ policy_of_resuming self.old }
        ensures refused { OnErr result (Refused A) }
    {
        if self.opening.as_bytes().is_empty() {
            self.lines.pass_plain(bytes)
        } else {
            Ok(0)
        }
    }

    // Takes bytes that end the last line.
    fn take_line(&mut self, bytes: &[u8]) -> Result<(), AllocError>
        requires { IsLine bytes.now }
        ensures given { OnStream P.Admit self.old (λ k u limit admits d.
            OnOk result (GrowsResumed k u admits limit d bytes.now self.old self.new)) }
        ensures policy { policy_of_resuming self.new ≡ policy_of_resuming self.old }
        ensures refused { OnStream P.Admit self.old (λ k u limit admits d.
            OnErr result (Refused A)) }
    {
        if self.is_open {
            return self.end_line(bytes);
        }
        if bytes.len() == 1 {
            return self.lines.feed_line(bytes);
        }
        match self.resume() {
            Ok(()) => self.end_line(bytes),
            Err(e) => Err(e),
        }
    }

    // Takes bytes without a line feed, at least one.
    fn take_open(&mut self, bytes: &[u8]) -> Result<(), AllocError>
        requires { (0 < length bytes.now) × (has_line_feed bytes.now ≡ false) }
        ensures given { OnStream P.Admit self.old (λ k u limit admits d.
            OnOk result (GrowsResumed k u admits limit d bytes.now self.old self.new)) }
        ensures policy { policy_of_resuming self.new ≡ policy_of_resuming self.old }
        ensures refused { OnStream P.Admit self.old (λ k u limit admits d.
            OnErr result (Refused A)) }
    {
        if self.is_open {
            return self.lines.feed_open(bytes);
        }
        match self.resume() {
            Ok(()) => {
                self.is_open = true;
                self.lines.feed_open(bytes)
            }
            Err(e) => Err(e),
        }
    }

    // Feeds the filter of lines the renditions that go on, at the beginning of a line.
    fn resume(&mut self) -> Result<(), AllocError>
        ensures given { OnStream P.Admit self.old (λ k u limit admits d. ends_line true d ≡ true
            → OnOk result (GrowsBy u admits limit d (opening_at k u limit admits d)
            self.old.lines self.new.lines)) }
        ensures kept { (policy_of_resuming self.new ≡ policy_of_resuming self.old)
            × (self.new.resumes ≡ self.old.resumes) }
        ensures refused { OnStream P.Admit self.old (λ k u limit admits d.
            OnErr result (Refused A)) }
    {
        let opening = self.opening.as_bytes();
        if opening.is_empty() {
            return Ok(());
        }
        self.lines.feed_rest(opening)
    }

    // Takes bytes that end the last line, and notes the renditions that it leaves on.
    fn end_line(&mut self, bytes: &[u8]) -> Result<(), AllocError>
        requires { IsLine bytes.now }
        ensures given { AfterLines P.Admit self.old.lines (λ u limit admits d.
            OnOk result (EndsWith u admits limit d bytes.now self.old self.new)) }
        ensures kept { (policy_of_resuming self.new ≡ policy_of_resuming self.old)
            × (self.new.resumes ≡ self.old.resumes) }
        ensures refused { AfterLines P.Admit self.old.lines (λ u limit admits d.
            OnErr result (Refused A)) }
    {
        match self.lines.fill_line(bytes) {
            Ok(()) => self.close_line(),
            Err(e) => Err(e),
        }
    }

    // Ends the last line, which its filter was fed, and notes the renditions that it leaves on.
    fn close_line(&mut self) -> Result<(), AllocError>
        ensures given { OnLine P.Admit self.old.lines (λ u limit admits l.
            OnOk result (ClosesWith u admits limit l self.old self.new)) }
        ensures kept { (policy_of_resuming self.new ≡ policy_of_resuming self.old)
            × (self.new.resumes ≡ self.old.resumes) }
        ensures refused { OnErr result (Refused A) }
    {
        match self.note_opening() {
            Ok(()) => {
                self.is_open = false;
                self.lines.end_line()
            }
            Err(e) => Err(e),
        }
    }

    // Notes the renditions that the last line leaves on, if they are written again.
    fn note_opening(&mut self) -> Result<(), AllocError>
        ensures noted { OnOk result (string_bytes self.new.opening
            ≡ (if self.old.resumes then opening self.old.lines.filter.written.left
            self.old.lines.filter.written.pen else [])) }
        ensures kept { (self.new.lines ≡ self.old.lines)
            × (self.new.resumes ≡ self.old.resumes) }
        ensures refused { OnErr result (Refused A) }
    {
        self.opening.clear();
        if self.resumes {
            self.lines.filter.push_opening(&mut self.opening)
        } else {
            Ok(())
        }
    }
}
