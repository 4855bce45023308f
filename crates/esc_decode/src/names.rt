//! The names of encodings.

use crate::byte_order::ByteOrder;
use crate::code_page::CodePage;
use crate::encoding::Encoding;

/// The names that [`page_of`] and [`order_of`] know, and `utf-8`: those of the Encoding Standard
/// (<https://encoding.spec.whatwg.org/>), and `latin1`.
pub const ENCODINGS: &[&str] = &[
    "utf-8",
    "utf-16",
    "utf-16le",
    "utf-16be",
    "latin1",
    "windows-1250",
    "windows-1251",
    "windows-1252",
    "windows-1253",
    "windows-1254",
    "windows-1255",
    "windows-1256",
    "windows-1257",
    "windows-1258",
];

/// The 8-bit encoding of this name, if it is one.
pub fn page_of(name: &str) -> Option<CodePage> {
    match name {
        "latin1" => Some(CodePage::Latin1),
        "windows-1250" => Some(CodePage::Windows1250),
        "windows-1251" => Some(CodePage::Windows1251),
        "windows-1252" => Some(CodePage::Windows1252),
        "windows-1253" => Some(CodePage::Windows1253),
        "windows-1254" => Some(CodePage::Windows1254),
        "windows-1255" => Some(CodePage::Windows1255),
        "windows-1256" => Some(CodePage::Windows1256),
        "windows-1257" => Some(CodePage::Windows1257),
        "windows-1258" => Some(CodePage::Windows1258),
        _ => None,
    }
}

/// The byte of a unit that comes first in the encoding of this name, if it is one of UTF-16.
pub fn order_of(name: &str) -> Option<ByteOrder> {
    match name {
        "utf-16" => Some(ByteOrder::Marked),
        "utf-16le" => Some(ByteOrder::Little),
        "utf-16be" => Some(ByteOrder::Big),
        _ => None,
    }
}

/// The encoding by which bytes are read, for this 8-bit encoding, or for UTF-8, if it is none;
/// `obeys` says that the bytes 80 to 9F that are part of no character are controls of C1.
pub fn encoding_of(page: Option<CodePage>, obeys: bool) -> Encoding {
    match page {
        None if obeys => Encoding::EightBit,
        None => Encoding::Utf8,
        Some(CodePage::Latin1) if obeys => Encoding::CodePage(CodePage::Latin1WithControls),
        Some(page) => Encoding::CodePage(page),
    }
}
