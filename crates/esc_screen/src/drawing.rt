//! The set of line drawing.
ghost use Rattle.std.specs.Prelude.{◌≡◌};
ghost use Rattle.esc_screen.specs.Cursors.{character_in, line_drawing};

// The characters from 5F to 7E of DEC's special graphics (VT510, "DEC Special Graphic Character
// Set"), as the Unicode Standard has them; the first is blank.
pub(crate) const DRAWING: [char; 32] = [
    ' ', '\u{25c6}', '\u{2592}', '\u{2409}', '\u{240c}', '\u{240d}', '\u{240a}', '\u{b0}',
    '\u{b1}', '\u{2424}', '\u{240b}', '\u{2518}', '\u{2510}', '\u{250c}', '\u{2514}', '\u{253c}',
    '\u{23ba}', '\u{23bb}', '\u{2500}', '\u{23bc}', '\u{23bd}', '\u{251c}', '\u{2524}', '\u{2534}',
    '\u{252c}', '\u{2502}', '\u{2264}', '\u{2265}', '\u{3c0}', '\u{2260}', '\u{a3}', '\u{b7}',
];

// The character of a table of those from 5F on, and any other as it is.
fn character_of(table: &[char; 32], c: char) -> char
    ensures { result ≡ character_in table.now c }
{
    let code = c as usize;
    if code < 0x5f {
        c
    } else if code - 0x5f < table.len() {
        table[code - 0x5f]
    } else {
        c
    }
}

/// Returns the character in place of this one in the set of line drawing.
pub(crate) fn line_drawing(c: char) -> char
    ensures { result ≡ line_drawing c }
{
    character_of(&DRAWING, c)
}
