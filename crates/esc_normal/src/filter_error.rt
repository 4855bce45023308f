//! Why a stream was not written to its end.
use thiserror::Error;

/// Why a stream was not read and written to its end, by a filter or in its normal form.
#[derive(Clone, Copy, Debug, Error, PartialEq, Eq)]
pub enum FilterError {
    /// The reader returned an error. The text of all that was read before was written.
    #[error("read fault")]
    Read,
    /// The writer returned an error, or took nothing. A prefix of the text of all that was read was
    /// written.
    #[error("write fault")]
    Write,
    /// A request for memory was refused. The text of the bytes before the last read, which gave at
    /// most 64 KiB, was written.
    #[error("out of memory")]
    Memory,
    /// The stream did not end in 2^64 - 1 reads, each of at least one byte. The text of all that
    /// was read was written.
    #[error("a stream without an end")]
    Endless,
}
