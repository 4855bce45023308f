//! The bytes that are read of a stream.

use crate::byte_order::ByteOrder;
use crate::utf16_reader::Utf16Reader;
use std::alloc::Global;
use std::io;
use std::io::Read;

/// The bytes that are read of a stream: its bytes, or if it is in UTF-16 those of its characters in
/// UTF-8.
#[derive(Drop)]
pub enum Input<R> {
    /// Its bytes.
    Bytes(R),
    /// Its characters.
    Units(Utf16Reader<R>),
}

impl<R: Read> Input<R> {
    /// The bytes of a stream that this reader reads, by the byte of a unit that comes first, if it
    /// is in UTF-16. Takes no memory.
    pub fn new(alloc: Global, order: Option<ByteOrder>, inner: R) -> Input<R> {
        match order {
            None => Input::Bytes(inner),
            Some(order) => Input::Units(Utf16Reader::new(alloc, order, inner)),
        }
    }
}

impl<R: Read> Read for Input<R> {
    fn read(&mut self, buf: &mut [u8]) -> io::Result<usize> {
        match self {
            Input::Bytes(reader) => reader.read(buf),
            Input::Units(reader) => reader.read(buf),
        }
    }
}
