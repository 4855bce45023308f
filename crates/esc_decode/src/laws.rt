//! Laws of streams of UTF-8 in which no raw control is left.
ghost use Rattle.std.specs.Prelude.{◌≡◌, ◌++◌, ◌∷◌, ◌<◌, ℕ, List, [], false, length, true};
ghost use Rattle.std.specs.List.{list_all, list_any};
ghost use Rattle.std.specs.Str.{IsAscii, IsUtf8};
ghost use Rattle.esc_decode.specs.Masks.{IsMaskOf, begins_raw, begun_after, is_bytewise, is_raw, masked_bytes, masked_after};
ghost use Rattle.esc_decode.specs.Pages.{has_character, read_by};
ghost use Rattle.esc_decode.specs.Utf16Streams.{whole_text};
ghost use Rattle.esc_decode.specs.declared.byte_order.ByteOrder.{ByteOrder};
ghost use Rattle.esc_decode.specs.declared.code_page.CodePage.{CodePage};
ghost use Rattle.esc_frame.specs.Segments.{IsCut, Segment};
ghost use Rattle.esc_frame.specs.Sequences.{continues};

/// The length is kept: so each byte has its place.
#[tactic(auto, using(crate::proofs::Masks::length_stays))]
pub fn length_stays()
    ensures { (s : List ℕ) → length (masked_bytes s) ≡ length s }
{}

/// Each byte stays in its place, or is FF there in place of a raw control of C1.
#[tactic(auto, using(crate::proofs::Masks::each_is))]
pub fn each_byte_stays_or_is_masked()
    ensures { (s : List ℕ) → IsMaskOf s (masked_bytes s) }
{}

/// Text in UTF-8 stays as it is.
#[tactic(auto, using(crate::proofs::Characters::text_stays))]
pub fn characters_stay()
    ensures { (s : List ℕ) → IsUtf8 s → masked_bytes s ≡ s }
{}

/// A byte of ASCII stays, and the rest is as a stream of its own.
#[tactic(auto, using(crate::proofs::Masks::ascii_stays))]
pub fn ascii_stays()
    ensures { (s t : List ℕ) (b : ℕ) → b < 0x80
        → masked_bytes (s ++ b ∷ t) ≡ masked_bytes s ++ b ∷ masked_bytes t }
{}

/// The byte that a byte becomes depends only on the bytes before it, and only on the begun ones
/// among them: so nothing is held back.
#[tactic(auto, using(crate::proofs::Masks::masked_append))]
pub fn masks_chunk_by_chunk()
    ensures { (s t : List ℕ) → masked_bytes (s ++ t) ≡ masked_bytes s
        ++ masked_after (begun_after [] s) t }
{}

/// The decoded text of a stream in an 8-bit encoding is text in UTF-8 if each byte has a character.
#[tactic(auto, using(crate::proofs::Reading::read_is_text))]
pub fn code_page_is_text()
    ensures { (p : CodePage) (s : List ℕ) → list_all (has_character p) s ≡ true
        → IsUtf8 (read_by p s) }
{}

/// And whatever the bytes are, no raw control is in it.
#[tactic(auto, using(crate::proofs::Reading::read_stays))]
pub fn code_page_has_no_raw_control()
    ensures { (p : CodePage) (s : List ℕ) → masked_bytes (read_by p s) ≡ read_by p s }
{}

/// Nor is one in that of a stream in UTF-16.
#[tactic(auto, using(crate::proofs::Utf16Streams::text_stays))]
pub fn utf16_has_no_raw_control()
    ensures { (k : ByteOrder) (s : List ℕ) → masked_bytes (whole_text k s) ≡ whole_text k s }
{}

/// Bytes of ASCII stay as they are.
#[tactic(auto, using(crate::proofs::Reading::ascii_by))]
pub fn code_page_keeps_ascii()
    ensures { (p : CodePage) (s : List ℕ) → IsAscii s → read_by p s ≡ s }
{}

/// A raw control that is left goes on a well-formed character.
#[tactic(auto, using(crate::proofs::Raw::raw_goes_on))]
pub fn raw_bytes_go_on()
    ensures { (s x y : List ℕ) (b : ℕ) → masked_bytes s ≡ x ++ b ∷ y → is_raw b ≡ true
        → continues (begun_after [] x) b ≡ true }
{}

/// So none begins a segment, and opens a string, but inside of segments that the framing takes byte
/// by byte: a sequence that is cut short, or a string other than an operating system command.
#[tactic(auto, using(crate::proofs::Raw::none_begins))]
pub fn no_raw_control_begins()
    ensures { (s : List ℕ) (gs : List Segment) → IsCut (masked_bytes s) gs
        → list_any is_bytewise gs ≡ false → list_any begins_raw gs ≡ false }
{}
