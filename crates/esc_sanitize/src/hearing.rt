//! A filter of the decoded stream, and its auditor.
ghost use Rattle.std.specs.Prelude.{◌≡◌, ◌++◌, ℕ, List, [], OnErr, OnOk};
ghost use Rattle.fallible_alloc.specs.Refusals.{Refused};

use crate::auditor::Auditor;
use crate::options::FilterOptions;
use esc_account::{Book, Tap};
use esc_decode::Decoding;
use esc_filter::{Admit, StreamFilter};
use std::alloc::{AllocError, Allocator, Global};

/// Feeds a filter the form of a stream by options, and tells an auditor of that, and of the text
/// that the filter has.
#[derive(Drop)]
pub struct Hearing<F, P, B, A: Allocator = Global> {
    options: FilterOptions<P>,
    decoding: Decoding<F, A>,
    auditor: Auditor<P, B, A>,
}

impl<F: StreamFilter<A>, P: Admit<A>, B: Book<A>, A: Allocator + Copy> Hearing<F, P, B, A> {
    ghost use Rattle.esc_sanitize.specs.Chains.{Begins};
    ghost use Rattle.esc_sanitize.specs.Audits.{Heard, HasNoted, way_by, way_of};
    ghost use Rattle.esc_sanitize.specs.Hearings.{Follows, HasHeard, heard_added};
    ghost use Rattle.esc_sanitize.specs.Written.{closed_of, opened_of, passed_of, passing_of};

    /// This filter and this auditor, of a stream that is filtered by these options; both are at the
    /// beginning of it. Takes no memory.
    pub fn new(
        alloc: A,
        options: FilterOptions<P>,
        filter: F,
        auditor: Auditor<P, B, A>,
    ) -> Hearing<F, P, B, A>
    where
        P: Copy,
        ensures begins { Begins F.StreamFilter filter (opened_of P.Admit options)
            (closed_of P.Admit options) → Heard P.Admit B.Book auditor [] []
            → way_of P.Admit auditor ≡ way_by P.Admit options
            → Follows F.StreamFilter P.Admit B.Book result [] }
        ensures options { result.options ≡ options }
    {
        Hearing {
            options,
            decoding: Decoding::new(alloc, options.encoding, filter),
            auditor,
        }
    }

    /// Takes bytes more.
    pub fn feed(&mut self, bytes: &[u8]) -> Result<(), AllocError>
        ensures given { (s : List ℕ) → Follows F.StreamFilter P.Admit B.Book self.old s
            → OnOk result (Follows F.StreamFilter P.Admit B.Book self.new (s ++ bytes.now)
            × (passing_of P.Admit self.old.options (s ++ bytes.now)
            ≡ passing_of P.Admit self.old.options s ++ heard_added F.StreamFilter self.new)) }
        ensures refused { (s : List ℕ) → Follows F.StreamFilter P.Admit B.Book self.old s
            → OnErr result (Refused A) }
        ensures options { self.new.options ≡ self.old.options }
    {
        self.decoding.feed(bytes)?;
        self.auditor
            .hear(self.decoding.chunk(bytes), self.decoding.output())
    }

    /// Ends the stream.
    pub fn finish(&mut self) -> Result<(), AllocError>
        ensures ended { (s : List ℕ) → Follows F.StreamFilter P.Admit B.Book self.old s
            → OnOk result (HasHeard P.Admit B.Book self.new s
            × (passed_of P.Admit self.old.options s
            ≡ passing_of P.Admit self.old.options s ++ heard_added F.StreamFilter self.new)) }
        ensures refused { (s : List ℕ) → Follows F.StreamFilter P.Admit B.Book self.old s
            → OnErr result (Refused A) }
        ensures options { self.new.options ≡ self.old.options }
    {
        self.decoding.finish()?;
        self.auditor.hear_end(self.decoding.output())
    }

    /// So many bytes are overwritten.
    pub fn note(&mut self, count: u64)
        ensures heard { (s : List ℕ) → HasHeard P.Admit B.Book self.old s
            → HasHeard P.Admit B.Book self.new s }
        ensures noted { HasNoted count self.new.auditor }
        ensures same { (self.new.options ≡ self.old.options)
            × (self.new.decoding ≡ self.old.decoding) }
    {
        self.auditor.note(count);
    }

    /// The text that the last call added.
    pub fn output(&self) -> &str
        ensures { result.now ≡ heard_added F.StreamFilter self.now }
    {
        self.decoding.output()
    }
}

impl<F, P, B, A: Allocator> Hearing<F, P, B, A> {
    /// How the stream is filtered.
    pub fn options(&self) -> &FilterOptions<P>
        ensures { result.now ≡ self.now.options }
    {
        &self.options
    }

    /// The auditor.
    pub fn auditor(&self) -> &Auditor<P, B, A>
        ensures { result.now ≡ self.now.auditor }
    {
        &self.auditor
    }
}

impl<F: Drop, P: Drop, B: Drop, A: Allocator> Hearing<F, P, B, A> {
    /// The auditor of the whole stream.
    pub fn into_auditor(self) -> Auditor<P, B, A>
        ensures { result ≡ self.auditor }
    {
        let Hearing {
            options: _,
            decoding: _,
            auditor,
        } = self;
        auditor
    }
}
