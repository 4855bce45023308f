//! Escape sequences in words.

use crate::charsets::{SETS_94, SETS_96, SETS_C0, SETS_C1, SETS_MULTIPLE, SETS_OTHER, SETS_TWO};
use control_functions::EscapeFunction;
use dump_page::Phrase;
use esc_sequences::Esc;

// The bytes of an escape sequence after ESC: its intermediates, two of which are kept, their
// number, and its final byte.
#[derive(Clone, Copy)]
struct Parts {
    first: u8,
    second: u8,
    count: usize,
    last: u8,
}

// Returns the parts of an escape sequence with this letter after ESC, and these bytes after that.
// Controls and bytes past 7E are none.
fn parts_of(letter: u8, rest: &[u8]) -> Parts {
    let mut parts = Parts {
        first: 0,
        second: 0,
        count: 0,
        last: 0,
    };
    parts.add(letter);
    for byte in rest {
        parts.add(*byte);
    }
    parts
}

impl Parts {
    // Adds a byte.
    fn add(&mut self, byte: u8) {
        match byte {
            0x20..=0x2f => {
                match self.count {
                    0 => self.first = byte,
                    1 => self.second = byte,
                    _ => {}
                }
                self.count = self.count.saturating_add(1);
            }
            0x30..=0x7e => self.last = byte,
            _ => {}
        }
    }
}

/// Adds an escape sequence with this letter after ESC, and these bytes after that.
pub fn add_escape(letter: u8, rest: &[u8], to: &mut Phrase) {
    let parts = parts_of(letter, rest);
    match parts.count {
        0 => add_function(None, parts.last, to),
        1 => add_function(Some(parts.first), parts.last, to),
        2 => add_double(parts, to),
        _ => to.begin("ESC", "", "without a name, of more than two intermediates"),
    }
}

// Adds a sequence of at most one intermediate by its name, if it has one.
fn add_function(intermediate: Option<u8>, last: u8, to: &mut Phrase) {
    if intermediate == Some(b'%') && last == b'8' {
        return to.begin("ESC", "DOCS", "UTF-8, obsolete");
    }
    match EscapeFunction::of(Esc::parse(intermediate, last)) {
        Some(function) => {
            to.begin("ESC", function.name(), escape_words(function));
            if let Some((sets, other)) = sets_of(function) {
                to.add_note(set_in(sets, &[last], other));
            }
        }
        // (ECMA-35, 15.4.2)
        None if intermediate == Some(b'%') => to.begin("ESC", "DOCS", "another coding system"),
        None => to.begin("ESC", "", "without a name"),
    }
}

// Returns the description of a function. No terminal has `ESC Y` but as that of the VT52.
fn escape_words(function: EscapeFunction) -> &'static str {
    match function {
        EscapeFunction::SGC => {
            "single graphic character introducer; of the VT52 cursor position, line and column follow"
        }
        _ => function.words(),
    }
}

// The words for a set of characters that no table has.
const OTHER: &str = "another character set";

// The same for controls.
const OTHER_CONTROLS: &str = "another set of controls";

// Returns the sets, one of which a function designates, and the words for any other.
fn sets_of(function: EscapeFunction) -> Option<(&'static str, &'static str)> {
    let sets = match function {
        EscapeFunction::GZD4 | EscapeFunction::G1D4 | EscapeFunction::G2D4 | EscapeFunction::G3D4 =>
            SETS_94,
        EscapeFunction::G1D6 | EscapeFunction::G2D6 | EscapeFunction::G3D6 => SETS_96,
        EscapeFunction::GZDM4 => SETS_MULTIPLE,
        EscapeFunction::CZD => return Some((SETS_C0, OTHER_CONTROLS)),
        EscapeFunction::C1D => return Some((SETS_C1, OTHER_CONTROLS)),
        _ => return None,
    };
    Some((sets, OTHER))
}

// Sequences of two intermediates by both or by the first (ECMA-35, 14.3.2 and 15.4): a line each,
// with `^` between these, the name and the description.
static DOUBLES: &str = "\
$(^GZDM4^designate G0, a set of several bytes
$)^G1DM4^designate G1, a set of several bytes
$*^G2DM4^designate G2, a set of several bytes
$+^G3DM4^designate G3, a set of several bytes
$-^G1DM6^designate G1, a set of 96 of several bytes
$.^G2DM6^designate G2, a set of 96 of several bytes
$/^G3DM6^designate G3, a set of 96 of several bytes
%/^DOCS^another coding system, without a return
(^GZD4^designate G0
)^G1D4^designate G1
*^G2D4^designate G2
+^G3D4^designate G3
-^G1D6^designate G1, a set of 96
.^G2D6^designate G2, a set of 96
/^G3D6^designate G3, a set of 96";

// Adds a sequence of two intermediates.
fn add_double(parts: Parts, to: &mut Phrase) {
    let both = [parts.first, parts.second];
    let found = match double_in(&both) {
        Some(found) => Some(found),
        None => double_in(&both[..1]),
    };
    let Some((name, words)) = found else {
        return to.begin("ESC", "", "without a name, of two intermediates");
    };
    to.begin("ESC", name, words);
    to.add_note(match both {
        [b'$', b'('..=b'+'] => set_in(SETS_MULTIPLE, &[parts.last], OTHER),
        [b'%', _] => set_in(SETS_OTHER, &[parts.last], OTHER),
        [b'('..=b'+', second] => set_in(SETS_TWO, &[second, parts.last], OTHER),
        _ => OTHER,
    });
}

// Returns the name and the words of these intermediates.
fn double_in(bytes: &[u8]) -> Option<(&'static str, &'static str)> {
    for line in DOUBLES.lines() {
        if let Some((key, rest)) = line.split_once('^') {
            if key.as_bytes() == bytes {
                return rest.split_once('^');
            }
        }
    }
    None
}

// Returns the name of the set of these bytes, or these words, if none has them.
fn set_in(sets: &'static str, bytes: &[u8], other: &'static str) -> &'static str {
    for line in sets.lines() {
        if let Some((key, name)) = line.split_once(' ') {
            if key.as_bytes() == bytes {
                return name;
            }
        }
    }
    other
}
