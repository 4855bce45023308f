//! A filter of the decoded text of a stream.
ghost use Rattle.std.specs.Prelude.{◌≡◌, ◌++◌, if◌then◌else◌, ℕ, List, OnErr, OnOk, []};
ghost use Rattle.esc_decode.specs.Decodings.{Decodes, OnlyAdds, decoded_after, through};
ghost use Rattle.esc_frame.specs.Machine.Prefixes.{prefix_of};
ghost use Rattle.fallible_alloc.specs.Refusals.{Refused};

use crate::decode::decode;
use crate::encoding::Encoding;
use esc_frame::utf8::sequence::Pending;
use esc_normal::StreamFilter;
use std::alloc::{AllocError, Allocator, Global};

/// Takes a stream, and gives a filter its decoded text by its encoding. A chunk that stays as it is
/// goes to the filter from its place. So the filter's text is its own, for that text, and nothing
/// is written that it would not write.
///
/// It keeps which bytes have begun a character, and the last chunk that does not stay as it is.
#[derive(Drop)]
pub struct Decoding<F, A: Allocator = Global> {
    encoding: Encoding,
    // the begun bytes of a character
    begun: Pending,
    filter: F,
    // the decoded text of the last chunk that did not stay
    chunk: Vec<u8, A>,
    // whether the last chunk stays
    stays: bool,
}

impl<F: StreamFilter<A>, A: Allocator + Copy> Decoding<F, A> {
    /// This filter of the decoded text of a stream in this encoding; the filter is at the beginning
    /// of a stream. Takes no memory.
    pub fn new(alloc: A, encoding: Encoding, filter: F) -> Decoding<F, A>
        ensures filter { (result.filter ≡ filter) × (result.encoding ≡ encoding) }
        ensures begins { (m c : List ℕ → List ℕ) → F.gives filter m c [] → OnlyAdds m c
            → Decodes F.StreamFilter result.encoding result.begun result.filter (through encoding m)
            (through encoding c) [] }
    {
        Decoding {
            encoding,
            begun: Pending::Nothing,
            filter,
            chunk: Vec::new(alloc),
            stays: true,
        }
    }

    /// Takes bytes more, as `feed` does.
    pub fn feed(&mut self, bytes: &[u8]) -> Result<(), AllocError>
        ensures given { (m c : List ℕ → List ℕ) (s : List ℕ)
            → Decodes F.StreamFilter self.old.encoding self.old.begun self.old.filter m c s
            → OnOk result (Decodes F.StreamFilter self.new.encoding self.new.begun self.new.filter m
            c
            (s ++ bytes.now) × (m (s ++ bytes.now) ≡ m s ++ F.added self.new.filter)) }
        ensures longer { (m c : List ℕ → List ℕ) (s : List ℕ)
            → Decodes F.StreamFilter self.old.encoding self.old.begun self.old.filter m c s
            → (t : List ℕ) × (m (s ++ bytes.now) ≡ m s ++ t) }
        ensures refused { (m c : List ℕ → List ℕ) (s : List ℕ)
            → Decodes F.StreamFilter self.old.encoding self.old.begun self.old.filter m c s
            → OnErr result (Refused A) }
        ensures became { OnOk result ((if self.new.stays then bytes.now else self.new.chunk.items)
            ≡ decoded_after self.old.encoding (prefix_of self.old.begun) bytes.now)
            × (self.new.encoding ≡ self.old.encoding) }
    {
        let (begun, stays) = decode(&mut self.chunk, self.encoding, self.begun, bytes)?;
        self.begun = begun;
        self.stays = stays;
        if stays {
            self.filter.feed(bytes)
        } else {
            self.filter.feed(&self.chunk)
        }
    }

    /// The text that the filter was given for the bytes that were taken last, which are these.
    pub fn chunk<'b>(&'b self, bytes: &'b [u8]) -> &'b [u8]
        ensures { result.now ≡ (if self.now.stays then bytes.now else self.now.chunk.items) }
    {
        if self.stays {
            bytes
        } else {
            self.chunk.as_slice()
        }
    }
}

impl<F: StreamFilter<A>, A: Allocator + Copy> StreamFilter<A> for Decoding<F, A> {
    ghost gives = { λ d m c s. Decodes F.StreamFilter d.encoding d.begun d.filter m c s };

    ghost added = { λ d. F.added d.filter };

    ghost has_ended = { λ d _ _. (c : List ℕ → List ℕ) × (s : List ℕ)
        × F.has_ended d.filter c s };

    fn feed(&mut self, bytes: &[u8]) -> Result<(), AllocError> {
        self.feed(bytes)
    }

    fn finish(&mut self) -> Result<(), AllocError> {
        self.filter.finish()
    }

    fn output(&self) -> &str {
        self.filter.output()
    }
}
