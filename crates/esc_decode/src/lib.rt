//! A stage in front of a filter, for the encoding of the stream that it reads.
//!
//! The framing obeys a byte 80 to 9F between characters as a control of C1 (ECMA-48, 5.3). In a
//! stream of UTF-8 there is none: such a byte is a part of a character, or of a text in another
//! encoding, in which it would open a string and so take away the text after it. A [`Decoding`]
//! before a filter has it replaced, by FF, which begins no character either and is shown as U+FFFD.
//! So is a byte of a code page that has no character, and a unit of UTF-16 that is no part of one.
//!
//! ```text
//! let inner = Filter::new(alloc, 65_536, Policy::Color);
//! let mut filter = Decoding::new(alloc, Encoding::Utf8, inner);
//! filter.feed(b"\x9ele\n")?;
//! filter.output()       // "\u{fffd}le\n"
//! ```
#![tactic(auto)]

mod ascii;
mod byte_order;
mod code_page;
mod decode;
mod decoding;
mod eight_bit;
mod encoding;
mod input;
mod laws;
mod mask;
mod names;
mod runs;
mod tables;
mod utf16;
mod utf16_decoder;
mod utf16_reader;

pub use byte_order::ByteOrder;
pub use code_page::CodePage;
pub use decoding::Decoding;
pub use encoding::Encoding;
pub use input::Input;
pub use laws::{
    ascii_stays, characters_stay, code_page_has_no_raw_control, code_page_is_text,
    code_page_keeps_ascii, each_byte_stays_or_is_masked, length_stays, masks_chunk_by_chunk,
    no_raw_control_begins, raw_bytes_go_on, utf16_has_no_raw_control,
};
pub use mask::Mask;
pub use names::{ENCODINGS, encoding_of, order_of, page_of};
pub use utf16::Utf16;
pub use utf16_decoder::Utf16Decoder;
pub use utf16_reader::Utf16Reader;
