//! Encodings.

use crate::code_page::CodePage;

/// How the bytes of a stream are read.
#[derive(Clone, Copy)]
pub enum Encoding {
    /// As UTF-8: a byte 80 to 9F that is no part of a well-formed character (Unicode, Table 3-7) is
    /// replaced, so it is no control.
    Utf8,
    /// As they are, so that such a byte is a control of C1: an 8-bit code, or UTF-8 with controls
    /// as bytes.
    EightBit,
    /// As an 8-bit code whose characters have their numbers in Unicode from a table. They are given
    /// on in UTF-8, so places in the text that is given on are not those in the stream.
    CodePage(CodePage),
}
