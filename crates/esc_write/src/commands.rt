//! Operating system commands that are written as they came.
ghost use Rattle.std.specs.Prelude.{ℕ, ◌≡◌, ◌≢◌, ◌==◌, ◌||◌, List, [], ◌∷◌, ◌++◌, IfSome, IsTrue, MatchOption, codes};
ghost use Rattle.std.specs.Str.{IsUtf8};
ghost use Rattle.esc_write.specs.Plain.{IsBareLink, IsNameAndAddress, IsNamedLink, IsOnePart, IsPlainLink, IsVerbatim};

use esc_frame::runs::scans::mark_from;
use std::alloc::Allocator;
use std::str;

// Returns whether the text after `8;id=` is a value without `:`, a `;`, and an address without `;`.
fn is_value_and_address<A: Allocator>(text: &[u8]) -> bool
    ensures link { IsTrue result → IsUtf8 (codes "8;id=" ++ text.now)
        → IsPlainLink A (codes "8;id=" ++ text.now) }
    ensures seen { IsNameAndAddress text.now → IsTrue result }
{
    let end = mark_from(text, 0);
    if end == text.len() {
        return false;
    }
    if text[..end].contains(&b':') {
        return false;
    }
    mark_from(text, end + 1) == text.len()
}

// Returns whether a text has no `;`.
fn is_one_part(text: &[u8]) -> bool
    ensures one { IsTrue result → IsOnePart text.now }
    ensures seen { IsOnePart text.now → IsTrue result }
{
    mark_from(text, 0) == text.len()
}

// Returns the rest after `8;;`.
fn past_bare_link(text: &[u8]) -> Option<&[u8]>
    ensures { MatchOption result ((u : List ℕ) → text.now ≢ codes "8;;" ++ u) (λ r.
        text.now ≡ codes "8;;" ++ r.now) }
{
    let [b'8', b';', b';', rest @ ..] = text else {
        return None;
    };
    Some(rest)
}

// Returns the rest after `8;id=`.
fn past_link_id(text: &[u8]) -> Option<&[u8]>
    ensures { MatchOption result ((u : List ℕ) → text.now ≢ codes "8;id=" ++ u) (λ r.
        text.now ≡ codes "8;id=" ++ r.now) }
{
    let [b'8', b';', b'i', b'd', b'=', rest @ ..] = text else {
        return None;
    };
    Some(rest)
}

/// Returns whether the text of an operating system command, its bytes between `ESC ]` and the
/// terminator, is a link (OSC 8) without parameters or with `id` alone, or the end of one: `8;;`
/// and an address, or `8;id=`, a name without `:`, `;` and an address. Such a command is written as
/// it came, if its text is UTF-8.
pub fn is_plain_link<A: Allocator>(text: &[u8]) -> bool
    ensures link { IsTrue result → IsUtf8 text.now → IsPlainLink A text.now }
    ensures bare { IsBareLink text.now → IsTrue result }
    ensures named { IsNamedLink text.now → IsTrue result }
{
    if let Some(address) = past_bare_link(text) {
        return is_one_part(address);
    }
    match past_link_id(text) {
        Some(rest) => is_value_and_address::<A>(rest),
        None => false,
    }
}

// Returns whether it is the letter of a mark that is written as it came, alone: a fresh line and a
// prompt, the end of a prompt, the start of output, and so on.
fn is_mark_alone(letter: u8) -> bool
    ensures { result
        ≡ ((letter == 0x41)
        || ((letter == 0x42)
        || ((letter == 0x43)
        || ((letter == 0x49) || ((letter == 0x4c) || (letter == 0x4e)))))) }
{
    letter == b'A'
        || letter == b'B'
        || letter == b'C'
        || letter == b'I'
        || letter == b'L'
        || letter == b'N'
}

// Returns whether it is the letter of a mark that may have the key `aid` alone.
fn is_named_mark(letter: u8) -> bool
    ensures { result ≡ ((letter == 0x41) || ((letter == 0x43) || (letter == 0x4e))) }
{
    letter == b'A' || letter == b'C' || letter == b'N'
}

// Returns the letter after `133;`, if nothing else follows.
fn lone_letter(text: &[u8]) -> Option<u8>
    ensures { IfSome result (λ l. text.now ≡ codes "133;" ++ l ∷ []) }
{
    let [b'1', b'3', b'3', b';', letter] = text else {
        return None;
    };
    Some(*letter)
}

// Returns the letter after `133;`, and the text after the key `aid` behind it.
fn letter_and_name(text: &[u8]) -> Option<(u8, &[u8])>
    ensures { IfSome result (λ p. text.now ≡ codes "133;" ++ p.0 ∷ (codes ";aid=" ++ p.1.now)) }
{
    let [
        b'1',
        b'3',
        b'3',
        b';',
        letter,
        b';',
        b'a',
        b'i',
        b'd',
        b'=',
        name @ ..,
    ] = text
    else {
        return None;
    };
    Some((*letter, name))
}

// Returns whether the text is a mark without keys, or with `aid` alone.
fn is_simple_mark<A: Allocator>(text: &[u8]) -> bool
    ensures { IsTrue result → IsUtf8 text.now → IsVerbatim A text.now }
{
    if let Some(letter) = lone_letter(text) {
        return is_mark_alone(letter);
    }
    match letter_and_name(text) {
        Some((letter, name)) => is_named_mark(letter) && is_one_part(name),
        None => false,
    }
}

// Returns whether it is the code of a title: of icon and window, of the icon, or of the window.
fn is_title_code(code: u8) -> bool
    ensures { result ≡ ((code == 0x30) || ((code == 0x31) || (code == 0x32))) }
{
    code == b'0' || code == b'1' || code == b'2'
}

// Returns whether the text is a title.
#[tactic(auto, using(crate::proofs::Verbatim::title))]
fn is_title<A: Allocator>(text: &[u8]) -> bool
    ensures { IsTrue result → IsUtf8 text.now → IsVerbatim A text.now }
{
    let [code, b';', _title @ ..] = text else {
        return false;
    };
    is_title_code(*code)
}

/// Returns the text of a command that is a plain link, as [`is_plain_link`] says, if it is UTF-8.
pub fn plain_link<A: Allocator>(text: &[u8]) -> Option<&str>
    ensures same { IfSome result (λ t. t.now ≡ text.now) }
    ensures link { IfSome result (λ t. IsPlainLink A text.now) }
{
    if !is_plain_link::<A>(text) {
        return None;
    }
    match str::from_utf8(text) {
        Ok(text) => Some(text),
        Err(_) => None,
    }
}

/// Returns the text of a command, if it is seen at once that the command is written as it came: a
/// title, a link without parameters or with `id` alone, the end of a link, and the mark of a prompt
/// without keys or with `aid` alone.
pub fn verbatim<A: Allocator>(text: &[u8]) -> Option<&str>
    ensures same { IfSome result (λ t. t.now ≡ text.now) }
    ensures written { IfSome result (λ t. IsVerbatim A text.now) }
{
    if !is_plain_link::<A>(text) && !is_simple_mark::<A>(text) && !is_title::<A>(text) {
        return None;
    }
    match str::from_utf8(text) {
        Ok(text) => Some(text),
        Err(_) => None,
    }
}
