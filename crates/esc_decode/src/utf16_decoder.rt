//! A stream of UTF-16 as UTF-8, by its byte order mark.
ghost use Rattle.std.specs.Prelude.{◌≡◌, ◌++◌, ℕ, List, [], OnErr, OnOk, true};
ghost use Rattle.fallible_alloc.specs.Refusals.{Refused};
ghost use Rattle.esc_decode.specs.Units.{mark_of};
ghost use Rattle.esc_decode.specs.Utf16Streams.{DecodesMore, LeavesUnits, decoder_of, going_text, whole_text};
ghost use Rattle.esc_decode.specs.declared.byte_order.ByteOrder.TheVariants.{Marked};

use crate::byte_order::ByteOrder;
use crate::utf16::Utf16;
use std::alloc::{AllocError, Allocator};

/// Makes UTF-8 of a stream of UTF-16, chunk by chunk: a unit that is no part of a pair is FF, which
/// is in no character, and so is a unit or pair that the end of the stream cuts short. A byte order
/// mark is left out if it may say the order of bytes.
///
/// It keeps the first byte of a unit, or of a mark, and the first unit of a pair.
#[derive(Clone, Copy)]
pub struct Utf16Decoder {
    units: Utf16,
    // whether a mark may come
    awaits_mark: bool,
}

impl Utf16Decoder {
    /// At the beginning of a stream.
    pub fn new(order: ByteOrder) -> Utf16Decoder
        ensures { result ≡ decoder_of order [] }
    {
        let (is_little, awaits_mark) = match order {
            ByteOrder::Little => (true, false),
            ByteOrder::Big => (false, false),
            ByteOrder::Marked => (true, true),
        };
        Utf16Decoder {
            units: Utf16::new(is_little),
            awaits_mark,
        }
    }

    /// Appends the text that these bytes add to that of the stream.
    pub fn push<A: Allocator>(
        &mut self,
        bytes: &[u8],
        text: &mut Vec<u8, A>,
    ) -> Result<(), AllocError>
        ensures decoded { (k : ByteOrder) (s : List ℕ) → self.old ≡ decoder_of k s
            → OnOk result ((t : List ℕ) × (text.new.items ≡ text.old.items ++ t)
            × DecodesMore k s bytes.now t self.new) }
        ensures refused { OnErr result (Refused A) }
    {
        let units = self.after_mark(bytes);
        self.units.push(units, text)
    }

    /// Appends the text that the end of the stream adds.
    pub fn end<A: Allocator>(&mut self, text: &mut Vec<u8, A>) -> Result<(), AllocError>
        ensures decoded { (k : ByteOrder) (s : List ℕ) → self.old ≡ decoder_of k s
            → OnOk result ((t : List ℕ) × (text.new.items ≡ text.old.items ++ t)
            × (whole_text k s ≡ going_text k s ++ t)) }
        ensures refused { OnErr result (Refused A) }
    {
        self.units.end(text)
    }

    // The bytes of units among these: those after a byte order mark, or all if there is none.
    fn after_mark<'b>(&mut self, bytes: &'b [u8]) -> &'b [u8]
        ensures { (k : ByteOrder) (s : List ℕ) → self.old ≡ decoder_of k s
            → LeavesUnits k s bytes.now result.now self.new }
    {
        if self.awaits_mark {
            self.take_mark(bytes)
        } else {
            bytes
        }
    }

    // The same at the beginning of a stream that may have a mark.
    fn take_mark<'b>(&mut self, bytes: &'b [u8]) -> &'b [u8]
        ensures { (s : List ℕ) → self.old ≡ decoder_of Marked s → self.old.awaits_mark ≡ true
            → LeavesUnits Marked s bytes.now result.now self.new }
    {
        let (first, second, rest) = match (self.units.odd, bytes) {
            (None, [first, second, rest @ ..]) => (*first, *second, rest),
            (Some(first), [second, rest @ ..]) => (first, *second, rest),
            _ => return bytes,
        };
        self.awaits_mark = false;
        match mark_of(first, second) {
            Some(is_little) => {
                self.units = Utf16::new(is_little);
                rest
            }
            None => bytes,
        }
    }
}

// Whether the lower byte of a unit comes first by this mark, if it is one.
fn mark_of(first: u8, second: u8) -> Option<bool>
    ensures { result ≡ mark_of first second }
{
    if first == 0xff && second == 0xfe {
        Some(true)
    } else if first == 0xfe && second == 0xff {
        Some(false)
    } else {
        None
    }
}
