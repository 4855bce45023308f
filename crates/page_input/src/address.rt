//! Addresses in text.
ghost use Rattle.std.specs.Prelude.{◌≡◌, ◌≤◌, ◌<◌, ◌+◌, ◌-◌, IfSome, drop, false, length, take, true};
ghost use Rattle.std.specs.List.{list_all};
ghost use Rattle.page_input.specs.Addresses.{HasAddress, IsAddress, begins_with, byte_before, ends_in_stop, has_host, is_address_byte, is_sign, is_stop, is_word};

use memchr::memchr;

// Says how many bytes of an address a link may have: as many as VTE and iTerm2 take.
const LONGEST: usize = 2083;

/// Says how many bytes an address may have with all that follows it before a byte that is in none:
/// the stops after it, and the brackets.
pub(crate) const MOST_RUN: usize = 4096;

/// The place of an address in a text.
#[derive(Clone, Copy)]
pub(crate) struct Place {
    /// The place of its first byte.
    pub begin: usize,
    /// Says how many bytes it has.
    pub length: usize,
}

/// Returns the first address in a text that comes after this byte: `http://` or `https://`, in
/// letters of either case, after no letter, digit or `_`, and a letter or digit, with all that may
/// be in an address (RFC 3986, 2), without the stops that end a sentence and brackets that it does
/// not open. One that is longer than a link may be is none, and neither is one with more than
/// [`MOST_RUN`] bytes up to a byte that may not be in an address.
pub(crate) fn first_address(text: &[u8], previous: u8) -> Option<Place>
    ensures { IfSome result (HasAddress previous text.now) }
{
    let mut rest = text;
    while let Some(at) = memchr(b':', rest) {
        let colon = text.len().saturating_sub(rest.len()).saturating_add(at);
        rest = &rest[at + 1..];
        let scheme = scheme_length(text.get(..colon).unwrap_or(text));
        if scheme > 0 && rest.starts_with(b"//") {
            let found = address_at(text, colon.saturating_sub(scheme), previous);
            if found.is_some() {
                return found;
            }
        }
    }
    None
}

// Returns the length of the scheme that a text ends in, `http` or `https`; 0 if there is none.
fn scheme_length(text: &[u8]) -> usize {
    if ends_in(text, b"http") {
        4
    } else if ends_in(text, b"https") {
        5
    } else {
        0
    }
}

// Returns whether a text ends in this word, in letters of either case.
fn ends_in(text: &[u8], word: &[u8]) -> bool {
    let start = text.len().saturating_sub(word.len());
    match text.get(start..) {
        Some(last) => last.eq_ignore_ascii_case(word),
        None => false,
    }
}

// Returns the address that begins at this place, after no letter, digit or `_`.
fn address_at(text: &[u8], begin: usize, previous: u8) -> Option<Place>
    ensures { IfSome result (HasAddress previous text.now) }
{
    if text.len() < begin || is_word(byte_before(text, begin, previous)) {
        return None;
    }
    let length = address_length(&text[begin..]);
    if length == 0 {
        return None;
    }
    Some(Place { begin, length })
}

// Returns the byte before this place.
fn byte_before(text: &[u8], at: usize, previous: u8) -> u8
    ensures { result ≡ byte_before previous text.now at }
{
    if at == 0 || text.len() < at {
        previous
    } else {
        text[at - 1]
    }
}

// Returns the length of the address that a text begins with; 0 if there is none, or a longer one
// than a link may have.
fn address_length(text: &[u8]) -> usize
    ensures within { result ≤ length text.now }
    ensures found { 0 < result → IsAddress (take result text.now) }
{
    let run = address_run(text);
    if MOST_RUN < run {
        return 0;
    }
    let address = without_end(&text[..run]);
    if LONGEST < address.len() {
        return 0;
    }
    if has_host(address) { address.len() } else { 0 }
}

// Returns whether an address begins with a scheme, `//`, and a letter or digit.
fn has_host(address: &[u8]) -> bool
    ensures { result ≡ has_host address.now }
{
    begins_with(address, b"http://") || begins_with(address, b"https://")
}

// Returns whether it begins with this, in letters of either case, and a letter or digit.
fn begins_with(address: &[u8], scheme: &[u8]) -> bool
    ensures { result ≡ begins_with scheme.now address.now }
{
    scheme.len() < address.len()
        && address[..scheme.len()].eq_ignore_ascii_case(scheme)
        && address[scheme.len()].is_ascii_alphanumeric()
}

// Returns an address without the stops that end a sentence, and without closing brackets that it
// does not open.
fn without_end(address: &[u8]) -> &[u8]
    ensures begins { result.now ≡ take (length result.now) address.now }
    ensures within { length result.now ≤ length address.now }
    ensures ended { ends_in_stop result.now ≡ false }
{
    let mut end = address.len();
    let mut open = unclosed(address);
    while 0 < end {
        let last = address[end - 1];
        if last == b')' && open < 0 {
            open = open.saturating_add(1);
        } else if !is_stop(last) {
            break;
        }
        end -= 1;
    }
    &address[..end]
}

// Returns how many brackets more it opens than it closes.
fn unclosed(address: &[u8]) -> i64 {
    let mut open = 0i64;
    for byte in address {
        match *byte {
            b'(' => open = open.saturating_add(1),
            b')' => open = open.saturating_sub(1),
            _ => {}
        }
    }
    open
}

// Returns whether it ends a sentence.
fn is_stop(byte: u8) -> bool
    ensures { result ≡ is_stop byte }
{
    b".,;:!?'".contains(&byte)
}

fn is_word(byte: u8) -> bool
    ensures { result ≡ is_word byte }
{
    byte.is_ascii_alphanumeric() || byte == b'_'
}

// Returns how many bytes come first that may be in an address, up to one more than an address may
// have with those after it.
fn address_run(text: &[u8]) -> usize
    ensures within { result ≤ length text.now }
    ensures bytes { list_all is_address_byte (take result text.now) ≡ true }
{
    let mut n = 0usize;
    while n < text.len() && n <= MOST_RUN {
        if !is_address_byte(text[n]) {
            return n;
        }
        n += 1;
    }
    n
}

/// Returns whether a byte may be in an address: unreserved, reserved but for square brackets, or
/// `%`.
pub(crate) fn is_address_byte(byte: u8) -> bool
    ensures { result ≡ is_address_byte byte }
{
    byte.is_ascii_alphanumeric() || is_sign(byte)
}

// Returns whether it is one that is no letter and no digit.
fn is_sign(byte: u8) -> bool
    ensures { result ≡ is_sign byte }
{
    b"-._~:/?#@!$&'()*+,;=%".contains(&byte)
}
