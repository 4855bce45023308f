//! The table of control functions of escape sequences.
//!
//! The names come from ECMA-48, fifth edition, 5.3, 5.5 and 8.3
//! (<https://ecma-international.org/publications-and-standards/standards/ecma-48/>), from ECMA-35,
//! sixth edition, 13 and 14
//! (<https://ecma-international.org/publications-and-standards/standards/ecma-35/>), from the
//! VT510's manual (<https://vt100.net/docs/vt510-rm/chapter4.html>), which begin with DEC, and from
//! xterm's list (<https://invisible-island.net/xterm/ctlseqs/ctlseqs.html>).
ghost use Rattle.std.specs.Prelude.{◌≡◌, ◌<◌};
ghost use Rattle.control_functions.specs.Effects.{is_answered_effect, is_screen_effect};
ghost use Rattle.control_functions.specs.EscapeEffects.{changes_screen, is_answered};
ghost use Rattle.control_functions.specs.Escapes.{designates, function_of, intermediates_key, key_of, name_of, escape_of_name, named_c1, place, sequence_key, two_key, words_of};

use crate::effect::Effect;
use crate::escape_function::EscapeFunction;
use crate::find::{first_in_group, text_in};
use crate::parameters::Parameters;
use crate::row::Row;
use crate::standard::Standard;
use crate::table_macros::{key, name, names, row, rows, starts, words};
use esc_sequences::{Esc, EscCode};

// A row a line: the function, and its name if that is another; the bytes of its sequence after ESC;
// its effect; its standard; its description. One with intermediates alone designates a set or a
// coding system, which the bytes after them name.
//
// The rows are in the order of their last bytes, and in that of `EscapeFunction`.
macro_rules! functions {
    ($each:ident) => {
        $each![EscapeFunction;
            CZD, [b'!'], Other, Ecma35, "designate the C0 set";
            C1D, [b'"'], Other, Ecma35, "designate the C1 set";
            GZDM4, [b'$'], Other, Ecma35, "designate G0, a set of several bytes";
            IRR, [b'&'], Other, Ecma35, "identify revised registration";
            GZD4, [b'('], Other, Ecma35, "designate G0";
            GZDM4_LONG = "GZDM4", [b'$', b'('], Other, Ecma35,
                "designate G0, a set of several bytes";
            G1D4, [b')'], Other, Ecma35, "designate G1";
            G1DM4, [b'$', b')'], Other, Ecma35, "designate G1, a set of several bytes";
            G2D4, [b'*'], Other, Ecma35, "designate G2";
            G2DM4, [b'$', b'*'], Other, Ecma35, "designate G2, a set of several bytes";
            G3D4, [b'+'], Other, Ecma35, "designate G3";
            G3DM4, [b'$', b'+'], Other, Ecma35, "designate G3, a set of several bytes";
            G1D6, [b'-'], Other, Ecma35, "designate G1, a set of 96";
            G1DM6, [b'$', b'-'], Other, Ecma35, "designate G1, a set of 96 of several bytes";
            G2D6, [b'.'], Other, Ecma35, "designate G2, a set of 96";
            G2DM6, [b'$', b'.'], Other, Ecma35, "designate G2, a set of 96 of several bytes";
            G3D6, [b'/'], Other, Ecma35, "designate G3, a set of 96";
            G3DM6, [b'$', b'/'], Other, Ecma35, "designate G3, a set of 96 of several bytes";
            DOCS_OTHER = "DOCS", [b'%', b'/'], Other, Ecma35,
                "another coding system, without a return";
            DECDHLT = "DECDHL", [b'#', b'3'], Screen, Vt100, "line of double height, top half";
            DECDHLB = "DECDHL", [b'#', b'4'], Screen, Vt100, "line of double height, bottom half";
            DECSWL, [b'#', b'5'], Screen, Vt100, "line of single width";
            DECBI, [b'6'], Screen, Vt420, "back index";
            DECDWL, [b'#', b'6'], Screen, Vt100, "line of double width";
            DECSC, [b'7'], Screen, Vt100, "save cursor";
            DECRC, [b'8'], Screen, Vt100, "restore cursor";
            DECALN, [b'#', b'8'], Screen, Vt100, "screen alignment pattern";
            DOCS_LINUX = "DOCS", [b'%', b'8'], Other, Linux, "UTF-8, obsolete";
            DECFI, [b'9'], Screen, Vt420, "forward index";
            VT52EXIT, [b'<'], Other, Vt100, "leave VT52 mode";
            DECKPAM, [b'='], Other, Vt100, "application keypad";
            DECKPNM, [b'>'], Other, Vt100, "numeric keypad";
            PAD, [b'@'], Other, Rfc1345, "padding character";
            DOCS_DEFAULT = "DOCS", [b'%', b'@'], Other, Ecma35, "default character set";
            HOP, [b'A'], Other, Rfc1345, "high octet preset";
            BPH, [b'B'], Other, Ecma48, "break permitted here";
            NBH, [b'C'], Other, Ecma48, "no break here";
            IND, [b'D'], Screen, Ecma48, "index";
            NEL, [b'E'], Screen, Ecma48, "next line";
            SSA, [b'F'], Other, Ecma48, "start of selected area";
            S7C1T, [b' ', b'F'], Other, Vt220, "controls of seven bits";
            ESA, [b'G'], Other, Ecma48, "end of selected area";
            S8C1T, [b' ', b'G'], Other, Vt220, "controls of eight bits";
            DOCS_UTF8 = "DOCS", [b'%', b'G'], Other, Ecma35, "UTF-8";
            HTS, [b'H'], Screen, Ecma48, "set tab stop";
            HTJ, [b'I'], Other, Ecma48, "tab with justification";
            VTS, [b'J'], Other, Ecma48, "set line tab stop";
            PLD, [b'K'], Other, Ecma48, "partial line forward";
            PLU, [b'L'], Other, Ecma48, "partial line backward";
            ACS1 = "ACS", [b' ', b'L'], Other, Ecma43, "conformance level one";
            RI, [b'M'], Screen, Ecma48, "reverse line feed";
            ACS2 = "ACS", [b' ', b'M'], Other, Ecma43, "conformance level two";
            SS2, [b'N'], Other, Ecma48, "single shift two";
            ACS3 = "ACS", [b' ', b'N'], Other, Ecma43, "conformance level three";
            SS3, [b'O'], Other, Ecma48, "single shift three";
            DCS, [b'P'], Other, Ecma48, "device control string";
            PU1, [b'Q'], Other, Ecma48, "private use one";
            PU2, [b'R'], Other, Ecma48, "private use two";
            STS, [b'S'], Other, Ecma48, "set transmit state";
            CCH, [b'T'], Other, Ecma48, "cancel character";
            MW, [b'U'], Other, Ecma48, "message waiting";
            SPA, [b'V'], Other, Ecma48, "start of guarded area";
            EPA, [b'W'], Other, Ecma48, "end of guarded area";
            SOS, [b'X'], Other, Ecma48, "start of string";
            SGC, [b'Y'], Other, Rfc1345, "single graphic character introducer";
            DECID, [b'Z'], Answered, Vt100,
                "identify terminal; in ECMA-48 SCI, single character introducer";
            CSI, [b'['], Other, Ecma48, "control sequence introducer";
            ST, [b'\\'], Other, Ecma48, "string terminator";
            OSC, [b']'], Other, Ecma48, "operating system command";
            PM, [b'^'], Other, Ecma48, "privacy message";
            APC, [b'_'], Other, Ecma48, "application program command";
            DMI, [b'`'], Other, Ecma48, "disable manual input";
            INT, [b'a'], Other, Ecma48, "interrupt";
            EMI, [b'b'], Other, Ecma48, "enable manual input";
            RIS, [b'c'], Other, Ecma48, "reset to initial state";
            CMD, [b'd'], Other, Ecma48, "coding method delimiter";
            VISIBLEBELL, [b'g'], Other, Screen, "visible bell of screen";
            TITLE, [b'k'], Other, Screen, "title of screen and tmux; its text follows";
            MEMORYLOCK, [b'l'], Other, Hp, "lock lines above the cursor";
            MEMORYUNLOCK, [b'm'], Other, Hp, "unlock lines";
            LS2, [b'n'], Other, Ecma48, "locking shift two";
            LS3, [b'o'], Other, Ecma48, "locking shift three";
            LS3R, [b'|'], Other, Ecma48, "locking shift three right";
            LS2R, [b'}'], Other, Ecma48, "locking shift two right";
            LS1R, [b'~'], Other, Ecma48, "locking shift one right";
        ]
    };
}

static ROWS: [Row<EscapeFunction>; 85] = functions!(rows);

static NAMES: [&str; 85] = functions!(names);

static WORDS: [&str; 85] = functions!(words);

// The place of the first row of each last byte, space to `~`, and how many rows there are.
static STARTS: [u16; 96] = starts![EscapeFunction;
    CZD, CZD, C1D, GZDM4, GZDM4, IRR, IRR, GZD4, GZD4, G1D4, G2D4, G3D4, G1D6, G1D6, G2D6, G3D6,
    DECDHLT, DECDHLT, DECDHLT, DECDHLT, DECDHLB, DECSWL, DECBI, DECSC, DECRC, DECFI, VT52EXIT,
    VT52EXIT, VT52EXIT, DECKPAM, DECKPNM, PAD, PAD, HOP, BPH, NBH, IND, NEL, SSA, ESA, HTS, HTJ,
    VTS, PLD, PLU, RI, SS2, SS3, DCS, PU1, PU2, STS, CCH, MW, SPA, EPA, SOS, SGC, DECID, CSI, ST,
    OSC, PM, APC, DMI, INT, EMI, RIS, CMD, VISIBLEBELL, VISIBLEBELL, VISIBLEBELL, TITLE, TITLE,
    TITLE, TITLE, MEMORYLOCK, MEMORYUNLOCK, LS2, LS3, LS3R, LS3R, LS3R, LS3R, LS3R, LS3R, LS3R,
    LS3R, LS3R, LS3R, LS3R, LS3R, LS3R, LS2R, LS1R; 85
];

impl EscapeFunction {
    /// Returns the function of an escape sequence, if it has a name.
    pub fn of(esc: Esc) -> Option<EscapeFunction>
        ensures { result ≡ escape_of_name esc }
    {
        match esc {
            Esc::Code(EscCode::StringTerminator) => Some(EscapeFunction::ST),
            Esc::Code(EscCode::HorizontalTabSet) => Some(EscapeFunction::HTS),
            Esc::Code(EscCode::TmuxTitle) => Some(EscapeFunction::TITLE),
            Esc::Unspecified {
                intermediate,
                control,
            } => EscapeFunction::of_bytes(intermediate, control),
        }
    }

    /// Returns the function of an escape sequence with this intermediate, if there is one, and this
    /// final byte, if it has a name.
    pub fn of_bytes(intermediate: Option<u8>, last: u8) -> Option<EscapeFunction>
        ensures { result ≡ function_of (sequence_key intermediate last) }
    {
        match intermediate {
            None => with_key(0x100 + last as u32),
            Some(byte) => {
                if designates(byte) {
                    with_key(0x100 + byte as u32)
                } else {
                    with_key((0x100 + byte as u32) * 0x100 + last as u32)
                }
            }
        }
    }

    /// Returns the function of an escape sequence with all of these intermediates and this final
    /// byte, if it has a name (ECMA-35, 14.3.2 and 15.4.2). If there are two intermediates, both
    /// count, as in `ESC $ ) C`, which designates a set of several bytes as G1, and `ESC ( % 6`,
    /// which designates one of the sets of 94 characters as G0. An [`Esc`] keeps no second
    /// intermediate.
    pub fn of_intermediates(intermediates: &[u8], last: u8) -> Option<EscapeFunction>
        ensures { result ≡ function_of (intermediates_key intermediates.now last) }
    {
        let Some((first, rest)) = intermediates.split_first() else {
            return EscapeFunction::of_bytes(None, last);
        };
        match rest.first() {
            None => EscapeFunction::of_bytes(Some(*first), last),
            Some(second) => with_key(two_key(*first, *second)),
        }
    }

    /// Returns the function of a C1 control, 80 to 9F (hexadecimal): that of ESC and the byte 40
    /// less (ECMA-48, 5.3). `None` for another code.
    pub fn of_c1(code: u8) -> Option<EscapeFunction>
        ensures { result ≡ named_c1 code }
    {
        if code < 0x80 {
            return None;
        }
        if code > 0x9f {
            return None;
        }
        with_key(0x100 + (code - 0x40) as u32)
    }

    /// Returns its row of the table.
    #[inline]
    pub fn row(self) -> &'static Row<EscapeFunction>
        ensures function { result.now.function ≡ self }
        ensures key { result.now.key ≡ key_of self }
        ensures screen { is_screen_effect result.now.effect ≡ changes_screen self }
        ensures answered { is_answered_effect result.now.effect ≡ is_answered self }
    {
        &ROWS[place(self)]
    }

    /// Returns its name, as the standards abbreviate it.
    #[tactic(auto, unfolding(crate::specs::Escapes::name_of))]
    pub fn name(self) -> &'static str
        ensures { result.now ≡ name_of self }
    {
        text_in(&NAMES, place(self))
    }

    /// Returns its description, in words.
    #[tactic(auto, unfolding(crate::specs::Escapes::words_of))]
    pub fn words(self) -> &'static str
        ensures { result.now ≡ words_of self }
    {
        text_in(&WORDS, place(self))
    }

    /// Returns whether it changes the screen alone.
    #[inline]
    pub fn changes_screen(self) -> bool
        ensures { result ≡ changes_screen self }
    {
        self.row().effect.is_screen()
    }

    /// Returns whether a terminal answers it.
    #[inline]
    pub fn is_answered(self) -> bool
        ensures { result ≡ is_answered self }
    {
        self.row().effect.is_answered()
    }
}

// Returns the place of its row.
#[tactic(auto, using(crate::proofs::Escapes::below), unfolding(crate::specs::Escapes::place))]
#[inline(always)]
fn place(function: EscapeFunction) -> usize
    ensures place { result ≡ place function }
    ensures below { result < 85 }
{
    function as usize
}

// Returns whether the intermediate designates a set, which the final byte names.
fn designates(byte: u8) -> bool
    ensures { result ≡ designates byte }
{
    matches!(byte, b'!' | b'"' | b'$' | b'&' | b'('..=b'+' | b'-'..=b'/')
}

// Returns the key of two intermediates.
fn two_key(first: u8, second: u8) -> u32
    ensures { result ≡ two_key first second }
{
    if first == b'$' || first == b'%' {
        (0x100 + first as u32) * 0x100 + second as u32
    } else if designates(first) {
        0x100 + first as u32
    } else {
        0
    }
}

// Returns the function that has this key.
#[tactic(auto, using(crate::proofs::Escapes::rise), unfolding(crate::specs::Escapes::function_of, crate::specs::Escapes::rows_of))]
#[inline]
fn with_key(key: u32) -> Option<EscapeFunction>
    ensures { result ≡ function_of key }
{
    first_in_group(&ROWS, &STARTS, 0x20, key)
}
