//! The groups of control functions.
ghost use Rattle.std.specs.Prelude.{◌≡◌};
ghost use Rattle.esc_filter.specs.Groups.{of_escape_function, of_escape_key, of_function, of_key};

use crate::group::Group;
use control_functions::{ControlFunction, EscapeFunction};

// The key of a row of the tables: the bytes of the sequence but its parameters, after a 1; after a
// 2 if another function has the same bytes and fewer parameters.
macro_rules! key {
    ($c:literal) => {
        0x100 + $c as u32
    };
    ($a:literal, $c:literal) => {
        (0x100 + $a as u32) * 0x100 + $c as u32
    };
    (long $c:literal) => {
        0x200 + $c as u32
    };
}

// For control sequences.
static CURSOR: [u32; 28] = [
    key!(b'A'),
    key!(b'B'),
    key!(b'C'),
    key!(b'D'),
    key!(b'E'),
    key!(b'F'),
    key!(b'G'),
    key!(b'H'),
    key!(b'I'),
    key!(b'W'),
    key!(b'?', b'W'),
    key!(b'Z'),
    key!(b'`'),
    key!(b'a'),
    key!(b'd'),
    key!(b'e'),
    key!(b'f'),
    key!(b'g'),
    key!(b'j'),
    key!(b'k'),
    key!(b'm'),
    key!(b's'),
    key!(b'u'),
    key!(b' ', b'q'),
    key!(b'#', b'p'),
    key!(b'#', b'q'),
    key!(b'#', b'{'),
    key!(b'#', b'}'),
];

static ERASE: [u32; 18] = [
    key!(b'@'),
    key!(b'J'),
    key!(b'?', b'J'),
    key!(b'K'),
    key!(b'?', b'K'),
    key!(b'L'),
    key!(b'M'),
    key!(b'P'),
    key!(b'X'),
    key!(b'b'),
    key!(b'$', b'r'),
    key!(b'$', b't'),
    key!(b'$', b'v'),
    key!(b'$', b'x'),
    key!(b'$', b'z'),
    key!(b'$', b'{'),
    key!(b'\'', b'}'),
    key!(b'\'', b'~'),
];

static SCROLL: [u32; 7] = [
    key!(b' ', b'@'),
    key!(b' ', b'A'),
    key!(b'S'),
    key!(b'T'),
    key!(b'+', b'T'),
    key!(b'r'),
    key!(long b's'),
];

static MODES: [u32; 4] = [key!(b'h'), key!(b'l'), key!(b'?', b'h'), key!(b'?', b'l')];

// For escape sequences.
static ESCAPE_CURSOR: [u32; 3] = [key!(b'7'), key!(b'8'), key!(b'H')];

static ESCAPE_SCROLL: [u32; 5] = [key!(b'6'), key!(b'9'), key!(b'D'), key!(b'E'), key!(b'M')];

static ESCAPE_CHARSETS: [u32; 8] = [
    key!(b'('),
    key!(b')'),
    key!(b'*'),
    key!(b'+'),
    key!(b'#', b'3'),
    key!(b'#', b'4'),
    key!(b'#', b'5'),
    key!(b'#', b'6'),
];

// Returns the group of a function that changes the screen alone, at least with some parameters;
// `Other` for any other.
pub(crate) fn group_of_function(function: ControlFunction) -> Group
    ensures { result ≡ of_function function }
{
    group_of_key(function.row().key)
}

// Does the same for escape sequences.
pub(crate) fn group_of_escape_function(function: EscapeFunction) -> Group
    ensures { result ≡ of_escape_function function }
{
    group_of_escape_key(function.row().key)
}

// Returns the group of the function of control sequences with this key.
fn group_of_key(key: u32) -> Group
    ensures { result ≡ of_key key }
{
    if CURSOR.contains(&key) {
        Group::Cursor
    } else if ERASE.contains(&key) {
        Group::Erase
    } else if SCROLL.contains(&key) {
        Group::Scroll
    } else if MODES.contains(&key) {
        Group::Modes
    } else {
        Group::Other
    }
}

// Returns the group of the function of escape sequences with this key.
fn group_of_escape_key(key: u32) -> Group
    ensures { result ≡ of_escape_key key }
{
    if ESCAPE_CURSOR.contains(&key) {
        Group::Cursor
    } else if ESCAPE_SCROLL.contains(&key) {
        Group::Scroll
    } else if ESCAPE_CHARSETS.contains(&key) {
        Group::Charsets
    } else if key == key!(b'#', b'8') {
        Group::Erase
    } else {
        Group::Other
    }
}
