//! Bytes that are written as they are.
ghost use Rattle.std.specs.Prelude.{◌≡◌, ◌≤◌, IfSome, length, true};
ghost use Rattle.std.specs.List.{list_all};
ghost use Rattle.dump_page.specs.Quoted.{is_plain, is_word_byte};

use esc_values::ascii::as_str;

/// Returns whether all bytes are characters that come as they are, in words and between quotes: 20
/// to 7E (hexadecimal), but `"` and `\`.
pub fn is_plain(bytes: &[u8]) -> bool
    ensures { result ≡ list_all is_plain bytes.now }
{
    let mut all = true;
    for byte in bytes {
        all = is_plain_byte(*byte) & all;
    }
    all
}

// Returns whether a byte is such a character.
#[inline]
fn is_plain_byte(byte: u8) -> bool
    ensures { result ≡ is_plain byte }
{
    0x20 <= byte && byte <= 0x7e && byte != 0x22 && byte != 0x5c
}

/// Returns the text of these bytes, if all are such characters.
pub fn plain_text(bytes: &[u8]) -> Option<&str>
    ensures { IfSome result (λ t. (list_all is_plain t.now ≡ true) × (t.now ≡ bytes.now)) }
{
    if is_plain(bytes) {
        Some(as_str(bytes))
    } else {
        None
    }
}

/// Returns whether all bytes are characters of words: 20 to 7E (hexadecimal), but `"`.
pub fn are_words(bytes: &[u8]) -> bool
    ensures { result ≡ list_all is_word_byte bytes.now }
{
    let mut all = true;
    for byte in bytes {
        all = is_word_byte(*byte) & all;
    }
    all
}

// Returns whether a byte is such a character.
#[inline]
fn is_word_byte(byte: u8) -> bool
    ensures { result ≡ is_word_byte byte }
{
    0x20 <= byte && byte <= 0x7e && byte != 0x22
}

/// Returns the text of these bytes, if all are such characters.
pub fn word_text(bytes: &[u8]) -> Option<&str>
    ensures { IfSome result (λ t. (list_all is_word_byte t.now ≡ true) × (t.now ≡ bytes.now)) }
{
    if are_words(bytes) {
        Some(as_str(bytes))
    } else {
        None
    }
}

/// Returns how many bytes come first that are written as they are.
pub fn plain_run(bytes: &[u8]) -> usize
    ensures { result ≤ length bytes.now }
{
    for at in 0..bytes.len() {
        if !is_plain_byte(bytes[at]) {
            return at;
        }
    }
    bytes.len()
}

/// Returns the most bytes, of at most so many, that end no character early, if they are UTF-8.
pub fn boundary(bytes: &[u8], most: usize) -> usize
    ensures { result ≤ length bytes.now }
{
    let mut end = most.min(bytes.len());
    for _ in 0..3 {
        if let Some(0x80..=0xbf) = bytes.get(end) {
            end = end.saturating_sub(1);
        }
    }
    end
}

/// Returns the hexadecimal digit of a number below 16; the letter of 10 is this one.
pub fn digit(number: u8, ten: u8) -> char {
    if number < 10 {
        char::from(b'0'.saturating_add(number))
    } else {
        char::from(ten.saturating_add(number - 10))
    }
}

/// Returns the byte of that digit.
pub fn digit_byte(number: u8, ten: u8) -> u8 {
    if number < 10 {
        b'0'.saturating_add(number)
    } else {
        ten.saturating_add(number - 10)
    }
}

/// Returns so many spaces, of at most 32.
pub fn spaces(count: usize) -> &'static str {
    match SPACES.get(count) {
        Some(spaces) => *spaces,
        None => "                                ",
    }
}

static SPACES: [&str; 33] = [
    "",
    " ",
    "  ",
    "   ",
    "    ",
    "     ",
    "      ",
    "       ",
    "        ",
    "         ",
    "          ",
    "           ",
    "            ",
    "             ",
    "              ",
    "               ",
    "                ",
    "                 ",
    "                  ",
    "                   ",
    "                    ",
    "                     ",
    "                      ",
    "                       ",
    "                        ",
    "                         ",
    "                          ",
    "                           ",
    "                            ",
    "                             ",
    "                              ",
    "                               ",
    "                                ",
];
