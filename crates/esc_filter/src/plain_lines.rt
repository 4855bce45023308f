//! Lines that are written as they are.
ghost use Rattle.std.specs.Prelude.{◌≡◌, ◌≤◌, length, take, IfSome};
ghost use Rattle.esc_filter.specs.Lines.{AreWide, IsNumber, IsShortRendition, is_plain_three, is_plain_two};
ghost use Rattle.esc_filter.specs.Openings.{ArePlainLines};

use esc_frame::runs::scans::data_run;
use esc_frame::utf8::sequence::{ahead, lies_from};
use std::alloc::Allocator;
use std::str;
use unicode_visibility::is_deceiving;

/// Returns the first lines that have nothing before their ends but bytes 20 to 7E, tabs, characters
/// from U+00A0 on that do not deceive and, if `renditions` is true, renditions that are written as
/// they came; the last one in a line turns all off.
pub(crate) fn plain_lines<A: Allocator>(bytes: &[u8], renditions: bool) -> &str
    ensures lines { ArePlainLines A renditions result.now }
    ensures first { result.now ≡ take (length result.now) bytes.now }
    ensures few { length result.now ≤ length bytes.now }
{
    let length = plain_length::<A>(bytes, renditions);
    unsafe { str::from_utf8_unchecked(&bytes[..length]) }
}

// Returns how long they are.
fn plain_length<A: Allocator>(bytes: &[u8], renditions: bool) -> usize
    ensures lines { ArePlainLines A renditions (take result bytes.now) }
    ensures few { result ≤ length bytes.now }
{
    let mut at = 0;
    let mut end = 0;
    let mut is_on = false;
    while at < bytes.len() {
        at += data_run(&bytes[at..]);
        if at == bytes.len() {
            return end;
        }
        match bytes[at] {
            b'\n' => {
                if is_on {
                    return end;
                }
                at += 1;
                end = at;
            }
            b'\r' => {
                if is_on || at + 1 == bytes.len() || bytes[at + 1] != b'\n' {
                    return end;
                }
                at += 2;
                end = at;
            }
            b'\t' => at += 1,
            0x1b if renditions => {
                let Some(found) = short_rendition(&bytes[at..]) else {
                    return end;
                };
                at += found.0;
                is_on = found.1;
            }
            0xc2..=0xf4 => {
                let run = wide_run(&bytes[at..]);
                if run == 0 {
                    return end;
                }
                at += run;
            }
            _ => return end,
        }
    }
    end
}

// Returns the length of the run of characters from U+00A0 on that do not deceive. It is apart from
// the code for ASCII.
#[inline(never)]
fn wide_run(bytes: &[u8]) -> usize
    ensures few { result ≤ length bytes.now }
    ensures run { AreWide (take result bytes.now) }
{
    let mut end = 0;
    while end < bytes.len() {
        let n = wide_ahead(&bytes[end..]);
        if n == 0 {
            return end;
        }
        end += n;
    }
    end
}

// Returns the length of such a character at the beginning; or 0. In fewer than four bytes none is
// seen.
#[inline(always)]
fn wide_ahead(bytes: &[u8]) -> usize
    ensures few { result ≤ length bytes.now }
    ensures character { AreWide (take result bytes.now) }
{
    if bytes.len() < 4 || bytes[0] < 0xc2 {
        0
    } else if is_plain_two(bytes[0], bytes[1]) {
        2
    } else if is_plain_three(bytes[0], bytes[1], bytes[2]) {
        3
    } else {
        other_ahead(bytes)
    }
}

// Returns whether they are a character of U+00C0 to U+033F or U+0380 to U+05FF, none of which
// deceives.
#[inline(always)]
fn is_plain_two(a: u8, b: u8) -> bool
    ensures { result ≡ is_plain_two a b }
{
    lies_from(0xc3, 0xd7, a) && a != 0xcd && lies_from(0x80, 0xbf, b)
}

// Does the same for U+2080 to U+313F and U+4000 to U+CFFF.
#[inline(always)]
fn is_plain_three(a: u8, b: u8, c: u8) -> bool
    ensures { result ≡ is_plain_three a b c }
{
    if a < 0xe4 {
        if a == 0xe3 {
            lies_from(0x80, 0x84, b) && lies_from(0x80, 0xbf, c)
        } else {
            a == 0xe2 && lies_from(0x82, 0xbf, b) && lies_from(0x80, 0xbf, c)
        }
    } else {
        a <= 0xec && lies_from(0x80, 0xbf, b) && lies_from(0x80, 0xbf, c)
    }
}

// Does the same for any other character.
#[inline(never)]
fn other_ahead(bytes: &[u8]) -> usize
    ensures few { result ≤ length bytes.now }
    ensures character { AreWide (take result bytes.now) }
{
    let (n, c) = ahead(bytes);
    if n > 0 && !is_deceiving(c) { n } else { 0 }
}

// Returns the length of the rendition that comes first, and whether it leaves renditions on. It is
// one of a number alone, or a colour of the palette (`38;5;n` or `48;5;n`), and written as it came.
#[inline]
fn short_rendition(bytes: &[u8]) -> Option<(usize, bool)>
    ensures { IfSome result (λ r. (r.0 ≤ length bytes.now)
        × IsShortRendition (take r.0 bytes.now) r.1) }
{
    if let Some(rest) = bytes.strip_prefix(b"\x1b[38;5;") {
        return Some((7 + last_number(rest)?.0, true));
    }
    if let Some(rest) = bytes.strip_prefix(b"\x1b[48;5;") {
        return Some((7 + last_number(rest)?.0, true));
    }
    let number = last_number(bytes.strip_prefix(b"\x1b[")?)?;
    Some((2 + number.0, number.1))
}

// Returns the length of the number of up to three digits at the beginning, as it is written, with
// the `m` after it, and whether it is another than 0. For fewer than four bytes it is `None`.
#[inline]
fn last_number(bytes: &[u8]) -> Option<(usize, bool)>
    ensures { IfSome result (λ r. (r.0 ≤ length bytes.now) × IsNumber (take r.0 bytes.now) r.1) }
{
    if bytes.len() < 4 || !bytes[0].is_ascii_digit() {
        return None;
    }
    if bytes[1] == b'm' {
        return Some((2, bytes[0] != b'0'));
    }
    if bytes[0] == b'0' || !bytes[1].is_ascii_digit() {
        return None;
    }
    if bytes[2] == b'm' {
        return Some((3, true));
    }
    if !bytes[2].is_ascii_digit() || bytes[3] != b'm' {
        return None;
    }
    Some((4, true))
}
