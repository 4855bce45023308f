//! The table of C0 controls and DEL.
//!
//! The names are those of ECMA-48, fifth edition, 8.3
//! (<https://ecma-international.org/publications-and-standards/standards/ecma-48/>), but for FS,
//! GS, RS and US, which are IS4 to IS1 there, and DEL, which is a fixed character of ECMA-35, sixth
//! edition, 6.2 (<https://ecma-international.org/publications-and-standards/standards/ecma-35/>).
//! Their effect on a terminal is in the VT510's manual
//! (<https://vt100.net/docs/vt510-rm/chapter4.html>).
ghost use Rattle.std.specs.Prelude.{◌≡◌, ◌<◌};
ghost use Rattle.control_functions.specs.Controls.{changes_screen, control_of, is_answered, is_screen, key_of, name_of, place, words_of};
ghost use Rattle.control_functions.specs.Effects.{is_answered_effect, is_screen_effect};
ghost use Rattle.esc_values.specs.Params.{is_from};

use crate::c0::C0;
use crate::effect::Effect;
use crate::find::text_in;
use crate::parameters::Parameters;
use crate::row::Row;
use crate::standard::Standard;
use crate::table_macros::{key, name, names, row, rows, words};

// A row a line: the control, its code, its effect, its standard, its name in full.
//
// The rows are in the order of the codes, and in that of `C0`.
macro_rules! controls {
    ($each:ident) => {
        $each![C0;
            NUL, [0x00], Other, Ecma48, "null";
            SOH, [0x01], Other, Ecma48, "start of heading";
            STX, [0x02], Other, Ecma48, "start of text";
            ETX, [0x03], Other, Ecma48, "end of text";
            EOT, [0x04], Other, Ecma48, "end of transmission";
            ENQ, [0x05], Answered, Ecma48, "enquiry";
            ACK, [0x06], Other, Ecma48, "acknowledge";
            BEL, [0x07], Other, Ecma48, "bell";
            BS, [0x08], Screen, Ecma48, "backspace";
            HT, [0x09], Screen, Ecma48, "tab";
            LF, [0x0a], Screen, Ecma48, "line feed";
            VT, [0x0b], Screen, Ecma48, "line tabulation";
            FF, [0x0c], Screen, Ecma48, "form feed";
            CR, [0x0d], Screen, Ecma48, "carriage return";
            SO, [0x0e], Other, Ecma48, "shift out";
            SI, [0x0f], Other, Ecma48, "shift in";
            DLE, [0x10], Other, Ecma48, "data link escape";
            DC1, [0x11], Other, Ecma48, "device control one, XON";
            DC2, [0x12], Other, Ecma48, "device control two";
            DC3, [0x13], Other, Ecma48, "device control three, XOFF";
            DC4, [0x14], Other, Ecma48, "device control four";
            NAK, [0x15], Other, Ecma48, "negative acknowledge";
            SYN, [0x16], Other, Ecma48, "synchronous idle";
            ETB, [0x17], Other, Ecma48, "end of transmission block";
            CAN, [0x18], Other, Ecma48, "cancel";
            EM, [0x19], Other, Ecma48, "end of medium";
            SUB, [0x1a], Other, Ecma48, "substitute";
            ESC, [0x1b], Other, Ecma48, "escape";
            FS, [0x1c], Other, Ecma48, "file separator";
            GS, [0x1d], Other, Ecma48, "group separator";
            RS, [0x1e], Other, Ecma48, "record separator";
            US, [0x1f], Other, Ecma48, "unit separator";
            DEL, [0x7f], Other, Ecma35, "delete";
        ]
    };
}

static ROWS: [Row<C0>; 33] = controls!(rows);

static NAMES: [&str; 33] = controls!(names);

static WORDS: [&str; 33] = controls!(words);

impl C0 {
    /// Returns the control of this code: 00 to 1F (hexadecimal), or 7F, which is DEL. `None` for
    /// another code.
    #[tactic(auto, using(crate::proofs::Controls::deleted, crate::proofs::Controls::no_control))]
    #[inline]
    pub fn of(code: u8) -> Option<C0>
        ensures { result ≡ control_of code }
    {
        if code < 0x20 {
            let row = &ROWS[code as usize];
            return Some(row.function);
        }
        if code == 0x7f {
            return Some(C0::DEL);
        }
        None
    }

    /// Returns its row of the table.
    #[inline]
    pub fn row(self) -> &'static Row<C0>
        ensures function { result.now.function ≡ self }
        ensures key { result.now.key ≡ key_of self }
        ensures screen { is_screen_effect result.now.effect ≡ changes_screen self }
        ensures answered { is_answered_effect result.now.effect ≡ is_answered self }
    {
        &ROWS[place(self)]
    }

    /// Returns its name, as the standards abbreviate it.
    #[tactic(auto, unfolding(crate::specs::Controls::name_of))]
    pub fn name(self) -> &'static str
        ensures { result.now ≡ name_of self }
    {
        text_in(&NAMES, place(self))
    }

    /// Returns its name in full.
    #[tactic(auto, unfolding(crate::specs::Controls::words_of))]
    pub fn words(self) -> &'static str
        ensures { result.now ≡ words_of self }
    {
        text_in(&WORDS, place(self))
    }

    /// Returns whether it changes the screen alone: those from BS to CR.
    #[inline]
    pub fn changes_screen(self) -> bool
        ensures { result ≡ changes_screen self }
    {
        self.row().effect.is_screen()
    }

    /// Returns whether a terminal answers it: ENQ alone.
    #[inline]
    pub fn is_answered(self) -> bool
        ensures { result ≡ is_answered self }
    {
        self.row().effect.is_answered()
    }

    /// Returns whether this is the code of a control that changes the screen alone: one from BS to
    /// CR.
    #[inline]
    pub fn is_screen_code(code: u32) -> bool
        ensures { result ≡ is_screen (control_of code) }
    {
        is_screen_code(code)
    }
}

// Returns whether it is one of these codes, by which they are known without a look at the table.
#[inline]
fn is_screen_code(code: u32) -> bool
    ensures { result ≡ is_from 0x08 0x0d code }
{
    matches!(code, 0x08..=0x0d)
}

// Returns the place of its row.
#[tactic(auto, using(crate::proofs::Controls::below), unfolding(crate::specs::Controls::place))]
#[inline(always)]
fn place(control: C0) -> usize
    ensures place { result ≡ place control }
    ensures below { result < 33 }
{
    control as usize
}
