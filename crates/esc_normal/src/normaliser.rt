//! A normaliser that is fed a stream chunk by chunk.
ghost use Rattle.std.specs.Prelude.{◌≡◌, ℕ, [], IfErr, OnOk, Option};
ghost use Rattle.fallible_alloc.specs.Refusals.{Refused};
ghost use Rattle.esc_normal.specs.Normalising.{HasConsumed, added_by, normal_form};

use crate::feeding::StreamFilter;
use crate::normalisation::parser_within;
use crate::spell::TextSink;
use esc_actions::laws;
use esc_frame::ParseError;
use esc_parse::Parser;
use std::alloc::{AllocError, Allocator, Global};
use std::mem;

/// Takes a stream in any chunks, and has for each the text that it adds to the normal form of the
/// stream so far. The end of the stream adds none: an unfinished segment gives nothing then.
///
/// It keeps the unfinished segment as a parser does, at most the limit if there is one, the text of
/// the chunk before, and whether a string terminator that comes next ends a string that was written
/// already.
#[derive(Drop)]
pub struct Normaliser<A: Allocator = Global> {
    parser: Parser<A>,
    spell: TextSink<A>,
    alloc: A,
}

impl<A: Allocator + Copy> Normaliser<A> {
    ghost use Rattle.esc_normal.specs.Normalising.{After, IsBroken, Takes};

    /// Returns a normaliser at the beginning of a stream, which keeps at most `limit` bytes of a
    /// segment, as [`Parser::with_limit`](esc_parse::Parser::with_limit) does, or as many as it
    /// has. Takes no memory.
    pub fn new(alloc: A, limit: Option<usize>) -> Normaliser<A>
        ensures fed { HasConsumed limit [] result }
        ensures empty { added_by result ≡ [] }
    {
        Normaliser {
            parser: parser_within(alloc, limit),
            spell: TextSink::new(alloc),
            alloc,
        }
    }

    /// Takes `bytes`. The text that they add to the normal form of the stream so far is then the
    /// [`output`](Normaliser::output).
    ///
    /// `ParseError::Memory` says that a request for memory was refused: the text is empty, and from
    /// then on every call returns `ParseError::Failed`.
    pub fn feed(&mut self, bytes: &[u8]) -> Result<(), ParseError>
        ensures given { After self.old (λ limit s.
            OnOk result (Takes limit s bytes.now self.new)) }
        ensures refused { After self.old (λ limit s. IfErr result (λ e. (e ≡ ParseError.Memory)
            × IsBroken self.new × (added_by self.new ≡ []) × Refused A)) }
        ensures failed { IsBroken self.old → (result ≡ Err ParseError.Failed) × IsBroken self.new
            × (added_by self.new ≡ []) }
    {
        laws::yield_handed_out::<A>();
        let spell = mem::replace(&mut self.spell, TextSink::new(self.alloc));
        let (result, spell) = self.parser.parse_into(bytes, spell.emptied());
        result?;
        self.spell = spell;
        Ok(())
    }

    /// Begins a new stream, with no text. An unfinished segment is dropped, and the limit stays. A
    /// normaliser that has failed stays so.
    pub fn restart(&mut self)
        ensures fed { After self.old (λ limit s. HasConsumed limit [] self.new) }
        ensures empty { added_by self.new ≡ [] }
        ensures failed { IsBroken self.old → IsBroken self.new }
    {
        self.parser.restart();
        self.spell = TextSink::new(self.alloc);
    }

    /// Returns the text that the bytes fed last added.
    pub fn output(&self) -> &str
        ensures { result.now ≡ added_by self.now }
    {
        self.spell.text.as_str()
    }
}

impl<A: Allocator + Copy> StreamFilter<A> for Normaliser<A> {
    ghost gives = { λ n m c s. (limit : Option ℕ) × HasConsumed limit s n
        × (m ≡ normal_form A limit) × (c ≡ normal_form A limit) };

    ghost added = { λ n. added_by n };

    ghost has_ended = { λ _ _ _. Unit {0} };

    fn feed(&mut self, bytes: &[u8]) -> Result<(), AllocError> {
        match self.feed(bytes) {
            Ok(()) => Ok(()),
            Err(_) => Err(AllocError),
        }
    }

    fn finish(&mut self) -> Result<(), AllocError> {
        self.restart();
        Ok(())
    }

    fn output(&self) -> &str {
        self.output()
    }
}
