//! The table of control functions.
//!
//! The names come from ECMA-48, fifth edition, 8.3
//! (<https://ecma-international.org/publications-and-standards/standards/ecma-48/>); from DEC's
//! manuals of the VT220, VT420, VT510 (<https://vt100.net/docs/vt510-rm/chapter4.html>) and VT525,
//! which begin with DEC; from xterm's list of control sequences
//! (<https://invisible-island.net/xterm/ctlseqs/ctlseqs.html>), which begin with XT or SCO; and,
//! for the functions that kitty (<https://sw.kovidgoyal.net/kitty/protocol-extensions/>), mintty
//! (<https://github.com/mintty/mintty/wiki/CtrlSeqs>) and Microsoft's terminal
//! (<https://github.com/microsoft/terminal>, doc/specs, #4999) added, from their own words.
ghost use Rattle.std.specs.Prelude.{◌≡◌, ◌<◌, ◌+◌, ◌*◌, []};
ghost use Rattle.esc_sequences.specs.Csis.{csi_value};
ghost use Rattle.control_functions.specs.Effects.{changes_screen, is_answered, is_screen_effect, is_answered_effect};
ghost use Rattle.control_functions.specs.Functions.{function_of, key_of, key_with, name_of, function_of_csi, place, put_mark, sequence_key, words_of};
ghost use Rattle.control_functions.specs.Rows.{base_256};

use crate::control_function::ControlFunction;
use crate::effect::Effect;
use crate::find::{first_in_group, text_in};
use crate::marks::{key_with, marks_of, packed_marks};
use crate::parameters::Parameters;
use crate::row::Row;
use crate::standard::Standard;
use crate::table_macros::{key, name, names, row, rows, starts, words};
use esc_sequences::CSI;
use esc_values::CsiParam;
use std::alloc::Allocator;

// A row a line: the function, and its name if that is another; the bytes of its sequence but its
// parameters; its effect; its parameters; its standard; its description. `long` marks the second
// function of its final byte, which has more parameters.
//
// The rows are in the order of the final bytes, each without private prefix and intermediates
// first, and in that of `ControlFunction`.
macro_rules! functions {
    ($each:ident) => {
        $each![ControlFunction;
            ICH, [b'@'], Screen, Count, Ecma48, "insert characters";
            SL, [b' ', b'@'], Screen, Count, Ecma48, "scroll left";
            CUU, [b'A'], Screen, Count, Ecma48, "cursor up";
            SR, [b' ', b'A'], Screen, Count, Ecma48, "scroll right";
            CUD, [b'B'], Screen, Count, Ecma48, "cursor down";
            GSM, [b' ', b'B'], Other, Percentages, Ecma48, "graphic size modification";
            CUF, [b'C'], Screen, Count, Ecma48, "cursor right";
            GSS, [b' ', b'C'], Other, Number, Ecma48, "graphic size selection";
            CUB, [b'D'], Screen, Count, Ecma48, "cursor left";
            FNT, [b' ', b'D'], Other, TwoSelectors, Ecma48, "font selection";
            CNL, [b'E'], Screen, Count, Ecma48, "cursor to next line";
            TSS, [b' ', b'E'], Other, Number, Ecma48, "thin space specification";
            CPL, [b'F'], Screen, Count, Ecma48, "cursor to preceding line";
            JFY, [b' ', b'F'], Other, Selectors, Ecma48, "justify";
            CHA, [b'G'], Screen, Column, Ecma48, "cursor to column";
            SPI, [b' ', b'G'], Other, TwoNumbers, Ecma48, "spacing increment";
            CUP, [b'H'], Screen, Place, Ecma48, "cursor position";
            QUAD, [b' ', b'H'], Other, Selectors, Ecma48, "quad: position of the text in the line";
            CHT, [b'I'], Screen, Count, Ecma48, "cursor to tab stop";
            SSU, [b' ', b'I'], Other, Selector, Ecma48, "select size unit";
            ED, [b'J'], Screen, Selector, Ecma48, "erase in display";
            PFS, [b' ', b'J'], Other, Selector, Ecma48, "page format selection";
            DECSED, [b'?', b'J'], Screen, Selector, Vt220, "erase in display what is not protected";
            EL, [b'K'], Screen, Selector, Ecma48, "erase in line";
            SHS, [b' ', b'K'], Other, Selector, Ecma48, "select character spacing";
            DECSEL, [b'?', b'K'], Screen, Selector, Vt220, "erase in line what is not protected";
            IL, [b'L'], Screen, Count, Ecma48, "insert lines";
            SVS, [b' ', b'L'], Other, Selector, Ecma48, "select line spacing";
            DL, [b'M'], Screen, Count, Ecma48, "delete lines";
            IGS, [b' ', b'M'], Other, Choice, Ecma48, "identify graphic subrepertoire";
            MOUSE, [b'<', b'M'], Report, Mouse, Xterm, "mouse button pressed or pointer moved";
            EF, [b'N'], Other, Selector, Ecma48, "erase in field";
            EA, [b'O'], Other, Selector, Ecma48, "erase in area";
            IDCS, [b' ', b'O'], Other, Choice, Ecma48, "identify device control string";
            DCH, [b'P'], Screen, Count, Ecma48, "delete characters";
            PPA, [b' ', b'P'], Other, Page, Ecma48, "page position absolute";
            XTPUSHCOLORS, [b'#', b'P'], Other, Selectors, Xterm, "push colours of the palette";
            SEE, [b'Q'], Other, Selector, Ecma48, "select editing extent";
            PPR, [b' ', b'Q'], Other, Count, Ecma48, "page position forward";
            XTPOPCOLORS, [b'#', b'Q'], Other, Selectors, Xterm, "pop colours of the palette";
            CPR, [b'R'], Report, Place, Ecma48, "report of the cursor position";
            PPB, [b' ', b'R'], Other, Count, Ecma48, "page position backward";
            XTREPORTCOLORS, [b'#', b'R'], Answered, Nothing, Xterm, "ask for the stack of palettes";
            DECXCPR, [b'?', b'R'], Report, PlaceAndPage, Vt420,
                "report of the cursor position and page";
            SU, [b'S'], Screen, Count, Ecma48, "scroll up";
            SPD, [b' ', b'S'], Other, TwoSelectors, Ecma48, "select presentation directions";
            XTTITLEPOS, [b'#', b'S'], Answered, Nothing, Xterm,
                "ask for the place in the stack of titles";
            XTSMGRAPHICS, [b'?', b'S'], Answered, Graphics, Xterm,
                "set or ask for a graphics attribute";
            SD, [b'T'], Screen, Count, Ecma48, "scroll down";
            XTHIMOUSE, [long b'T'], Other, Highlight, Xterm,
                "start tracking of a highlight by the mouse";
            DTA, [b' ', b'T'], Other, TwoNumbers, Ecma48, "dimension text area";
            KITTYUNSCROLL, [b'+', b'T'], Screen, Count, Kitty,
                "scroll down, filled from what was scrolled off";
            XTRMTITLE, [b'>', b'T'], Other, Choices, Xterm, "reset title modes";
            NP, [b'U'], Other, Count, Ecma48, "next page";
            SLH, [b' ', b'U'], Other, Number, Ecma48, "set line home";
            PP, [b'V'], Other, Count, Ecma48, "preceding page";
            SLL, [b' ', b'V'], Other, Number, Ecma48, "set line limit";
            CTC, [b'W'], Screen, Selectors, Ecma48, "cursor tabulation control";
            FNK, [b' ', b'W'], Report, Number, Ecma48, "function key";
            DECST8C, [b'?', b'W'], Screen, Choice, Vt510, "set a tab stop every 8 columns";
            ECH, [b'X'], Screen, Count, Ecma48, "erase characters";
            SPQR, [b' ', b'X'], Other, Selector, Ecma48, "select print quality and rapidity";
            CVT, [b'Y'], Other, Count, Ecma48, "cursor line tabulation";
            SEF, [b' ', b'Y'], Other, TwoSelectors, Ecma48, "sheet eject and feed";
            CBT, [b'Z'], Screen, Count, Ecma48, "cursor back to tab stop";
            PEC, [b' ', b'Z'], Other, Selector, Ecma48, "presentation expand or contract";
            SRS, [b'['], Other, Selector, Ecma48, "start reversed string";
            SSW, [b' ', b'['], Other, Number, Ecma48, "set space width";
            PTX, [b'\\'], Other, Selector, Ecma48, "parallel texts";
            SACS, [b' ', b'\\'], Other, Amount, Ecma48, "set additional character separation";
            SDS, [b']'], Other, Selector, Ecma48,
                "start directed string; on the Linux console its own settings";
            SAPV, [b' ', b']'], Other, Selectors, Ecma48,
                "select alternative presentation variants";
            SIMD, [b'^'], Other, Selector, Ecma48,
                "select implicit movement direction; in xterm scroll down";
            STAB, [b' ', b'^'], Other, Choice, Ecma48, "selective tabulation";
            WIN32KEY, [b'_'], Report, Win32Key, Microsoft, "key pressed or released";
            GCC, [b' ', b'_'], Other, Selector, Ecma48, "graphic character combination";
            HPA, [b'`'], Screen, Column, Ecma48, "column position";
            TATE, [b' ', b'`'], Other, Number, Ecma48, "tabulation aligned trailing edge";
            HPR, [b'a'], Screen, Count, Ecma48, "column position forward";
            TALE, [b' ', b'a'], Other, Number, Ecma48, "tabulation aligned leading edge";
            REP, [b'b'], Screen, Count, Ecma48, "repeat the character";
            TAC, [b' ', b'b'], Other, Number, Ecma48, "tabulation aligned centred";
            DA1 = "DA", [b'c'], Answered, Selector, Ecma48, "device attributes";
            TCC, [b' ', b'c'], Other, CenteredStop, Ecma48, "tabulation centred on character";
            DA3, [b'=', b'c'], Answered, Selector, Vt420, "tertiary device attributes";
            DA2, [b'>', b'c'], Answered, Selector, Vt220,
                "secondary device attributes, and their report";
            DA1R = "DA", [b'?', b'c'], Report, Numbers, Vt100,
                "report of the device attributes; to the Linux console the look of its cursor";
            VPA, [b'd'], Screen, Line, Ecma48, "line position";
            TSR, [b' ', b'd'], Other, Number, Ecma48, "tabulation stop remove";
            VPR, [b'e'], Screen, Count, Ecma48, "line position forward";
            SCO, [b' ', b'e'], Other, Selector, Ecma48, "select character orientation";
            HVP, [b'f'], Screen, Place, Ecma48, "character and line position";
            SRCS, [b' ', b'f'], Other, Amount, Ecma48, "set reduced character separation";
            XTFMTKEYS, [b'>', b'f'], Other, ChoiceAndNumber, Xterm, "format of modified keys";
            TBC, [b'g'], Screen, Selector, Ecma48, "clear tab stops";
            SCS, [b' ', b'g'], Other, Number, Ecma48, "set character spacing";
            XTQFMTKEYS, [b'?', b'g'], Answered, Choice, Xterm,
                "ask for the format of modified keys";
            SM, [b'h'], Other, Modes, Ecma48, "set modes";
            SLS, [b' ', b'h'], Other, Number, Ecma48, "set line spacing";
            DECSET, [b'?', b'h'], Other, PrivateModes, Vt100, "set private modes";
            MC, [b'i'], Other, Selector, Ecma48, "media copy";
            SPH, [b' ', b'i'], Other, Number, Ecma48, "set page home";
            DECMC = "MC", [b'?', b'i'], Other, Choice, Vt100, "media copy, private";
            HPB, [b'j'], Screen, Count, Ecma48, "column position backward";
            SPL, [b' ', b'j'], Other, Number, Ecma48, "set page limit";
            VPB, [b'k'], Screen, Count, Ecma48, "line position backward";
            SCP, [b' ', b'k'], Other, TwoChoices, Ecma48, "select character path";
            RM, [b'l'], Other, Modes, Ecma48, "reset modes";
            DECRST, [b'?', b'l'], Other, PrivateModes, Vt100, "reset private modes";
            SGR, [b'm'], Screen, Renditions, Ecma48, "select graphic rendition";
            MOUSEUP, [b'<', b'm'], Report, Mouse, Xterm, "mouse button released";
            XTMODKEYS, [b'>', b'm'], Other, ChoiceAndNumber, Xterm, "modifier keys";
            XTQMODKEYS, [b'?', b'm'], Answered, Choice, Xterm, "ask for modifier keys";
            DSR, [b'n'], Answered, Selector, Ecma48, "device status report";
            XTDISMODKEYS, [b'>', b'n'], Other, SelectorOrTwo, Xterm, "switch modifier keys off";
            DECDSR = "DSR", [b'?', b'n'], Answered, Choices, Vt220,
                "private device status report";
            DAQ, [b'o'], Other, Selectors, Ecma48, "define area qualification";
            DECSSL, [b'p'], Other, Selector, Vt510, "select the language of the setup";
            DECSSCLS, [b' ', b'p'], Other, Selector, Vt510, "set scroll speed";
            DECSTR, [b'!', b'p'], Other, Nothing, Vt220, "soft terminal reset";
            DECSCL, [b'"', b'p'], Other, Conformance, Vt220, "conformance level";
            XTPUSHSGR, [b'#', b'p'], Screen, Choices, Xterm, "push renditions";
            DECRQM_ANSI = "DECRQM", [b'$', b'p'], Answered, Mode, Vt320, "ask for a mode";
            DECSDPT, [b'(', b'p'], Other, Selector, Vt510, "select digital printed data type";
            DECSPPCS, [b'*', b'p'], Other, Selector, Vt510, "select ProPrinter character set";
            DECSR, [b'+', b'p'], Answered, Number, Vt420, "secure reset";
            DECLTOD, [b',', b'p'], Other, TwoNumbers, Vt510, "load time of day";
            DECARR, [b'-', b'p'], Other, Selector, Vt510, "auto-repeat rate of keys";
            XTSMPOINTER, [b'>', b'p'], Other, SelectorOrOne, Xterm, "hiding of the pointer";
            DECRQM, [b'?', b'$', b'p'], Answered, PrivateMode, Vt320, "ask for a private mode";
            DECLL, [b'q'], Other, Selectors, Vt100, "load LEDs";
            DECSCUSR, [b' ', b'q'], Screen, Selector, Vt510, "cursor style";
            DECSCA, [b'"', b'q'], Other, Selector, Vt220, "character protection";
            XTPOPSGR, [b'#', b'q'], Screen, Nothing, Xterm, "pop renditions";
            DECSDDT, [b'$', b'q'], Other, Selector, Vt510, "select disconnect delay time";
            MINTTYPROGRESS, [b'%', b'q'], Other, ChoiceAndNumber, Mintty, "progress of a task";
            DECSRC, [b'*', b'q'], Report, Number, Vt420, "secure reset confirmation";
            DECELF, [b'+', b'q'], Other, Selectors, Vt420, "enable local functions";
            DECTID, [b',', b'q'], Other, Selector, Vt510, "select terminal identification";
            DECCRTST, [b'-', b'q'], Other, Selector, Vt510, "time until the screen is saved";
            XTVERSION, [b'>', b'q'], Answered, Choice, Xterm, "ask for name and version";
            KITTYCURSORS, [b'>', b' ', b'q'], Answered, ExtraCursors, Kitty, "extra cursors";
            DECSTBM, [b'r'], Screen, LineMargins, Vt100, "top and bottom margins";
            DECSKCV, [b' ', b'r'], Other, Selector, Vt510, "set key click volume";
            DECCARA, [b'$', b'r'], Screen, RectangleRenditions, Vt420,
                "change attributes in a rectangle";
            DECSCS, [b'*', b'r'], Other, TwoSelectors, Vt510, "select communication speed";
            DECSMKR, [b'+', b'r'], Other, Selectors, Vt420, "select modifier key reporting";
            DECSEST, [b'-', b'r'], Other, Selector, Vt510, "time until energy is saved";
            XTRESTORE, [b'?', b'r'], Other, PrivateModes, Xterm, "restore private modes";
            SCOSC, [b's'], Screen, Nothing, Sco, "save cursor position";
            DECSLRM, [long b's'], Screen, ColumnMargins, Vt420, "left and right margins";
            DECSPRTT, [b'$', b's'], Other, Selector, Vt510, "select printer type";
            DECSFC, [b'*', b's'], Other, ThreeSelectors, Vt510, "select flow control";
            XTSHIFTESCAPE, [b'>', b's'], Other, Selector, Xterm, "use of Shift with the mouse";
            XTSAVE, [b'?', b's'], Other, PrivateModes, Xterm, "save private modes";
            XTWINOPS, [b't'], Answered, Window, Xterm, "window";
            DECSWBV, [b' ', b't'], Other, Selector, Vt510, "warning bell volume";
            DECSRFR, [b'"', b't'], Other, Selector, Vt510, "select refresh rate";
            DECRARA, [b'$', b't'], Screen, RectangleRenditions, Vt420,
                "reverse attributes in a rectangle";
            XTSMTITLE, [b'>', b't'], Other, Choices, Xterm, "set title modes";
            SCORC, [b'u'], Screen, Nothing, Sco, "restore cursor position";
            KITTYKEY, [long b'u'], Report, KeyEvent, Kitty, "key pressed, repeated or released";
            DECSMBV, [b' ', b'u'], Other, Selector, Vt510, "margin bell volume";
            DECSTRL, [b'"', b'u'], Other, Selector, Vt510, "set transmit rate limit";
            DECRQTSR, [b'$', b'u'], Answered, TwoSelectors, Vt320, "ask for terminal state";
            DECRQUPSS, [b'&', b'u'], Answered, Nothing, Vt320,
                "ask for user-preferred supplemental set";
            DECSCP, [b'*', b'u'], Other, Selector, Vt510, "select communication port";
            DECRQKT, [b',', b'u'], Answered, Number, Vt510, "ask for key type";
            KITTYPOP, [b'<', b'u'], Other, Count, Kitty, "pop flags of the keyboard";
            KITTYSET, [b'=', b'u'], Other, KeyboardFlags, Kitty, "set flags of the keyboard";
            KITTYPUSH, [b'>', b'u'], Other, Amount, Kitty, "push flags of the keyboard";
            KITTYQUERY, [b'?', b'u'], Answered, Number, Kitty,
                "ask for flags of the keyboard, and their report";
            DECSLCK, [b' ', b'v'], Other, Selector, Vt510, "set lock key style";
            DECRQDE, [b'"', b'v'], Answered, Nothing, Vt320, "ask for displayed extent";
            DECCRA, [b'$', b'v'], Screen, Copy, Vt420, "copy a rectangle";
            DECRPKT, [b',', b'v'], Report, TwoNumbers, Vt510, "report of key type";
            DECRPDE, [b'"', b'w'], Report, Extent, Vt320, "report of displayed extent";
            DECRQPSR, [b'$', b'w'], Answered, Selector, Vt320, "ask for presentation state";
            DECLRP, [b'&', b'w'], Report, Locator, Vt420, "report of the locator";
            DECEFR, [b'\'', b'w'], Other, Area, Vt420, "filter rectangle of the locator";
            DECSPP, [b'+', b'w'], Other, Selectors, Vt510, "set port parameter";
            DECRQKD, [b',', b'w'], Answered, TwoNumbers, Vt510, "ask for the definition of a key";
            DECREQTPARM, [b'x'], Answered, Selector, Vt100,
                "ask for terminal parameters, and their report";
            DECFRA, [b'$', b'x'], Screen, Fill, Vt420, "fill a rectangle";
            DECES, [b'&', b'x'], Other, Nothing, Vt420, "enable session";
            DECSACE, [b'*', b'x'], Other, Selector, Vt420, "extent of changed attributes";
            DECRQPKFM, [b'+', b'x'], Answered, Nothing, Vt510, "ask for free memory for keys";
            DECSPMA, [b',', b'x'], Other, Numbers, Vt420, "session page memory allocation";
            DECTST, [b'y'], Other, Selectors, Vt100, "confidence test";
            XTCHECKSUM, [b'#', b'y'], Other, Number, Xterm, "select checksum extension";
            DECRPM_ANSI = "DECRPM", [b'$', b'y'], Report, ModeState, Vt320, "report of a mode";
            DECRQCRA, [b'*', b'y'], Answered, Checksum, Vt420, "ask for a rectangle's checksum";
            DECPKFMR, [b'+', b'y'], Report, TwoNumbers, Vt510, "report of free memory for keys";
            DECUS, [b',', b'y'], Other, Selector, Vt420, "update session";
            DECRPM, [b'?', b'$', b'y'], Report, PrivateModeState, Vt320, "report of a private mode";
            DECERA, [b'$', b'z'], Screen, Rectangle, Vt420, "erase a rectangle";
            DECELR, [b'\'', b'z'], Answered, TwoSelectors, Vt420, "locator reports";
            DECINVM, [b'*', b'z'], Other, Number, Vt420, "invoke macro";
            DECPKA, [b'+', b'z'], Other, Selectors, Vt510, "program key action";
            DECDLDA, [b',', b'z'], Other, Selector, Vt510,
                "allocate memory of loaded character sets";
            XTPUSHSGR_2 = "XTPUSHSGR", [b'#', b'{'], Screen, Choices, Xterm, "push renditions";
            DECSERA, [b'$', b'{'], Screen, Rectangle, Vt420,
                "erase in a rectangle what is not protected";
            DECSLE, [b'\'', b'{'], Other, Selectors, Vt420, "locator events";
            DECSTGLT, [b')', b'{'], Other, Selector, Vt525, "select colour look-up table";
            DECMSR, [b'*', b'{'], Report, Number, Vt420, "report of space for macros";
            DECSZS, [b',', b'{'], Other, Selector, Vt525, "select zero symbol";
            DECTTC, [b'|'], Other, Selector, Vt100, "select transmit termination character";
            XTREPORTSGR, [b'#', b'|'], Answered, Area, Xterm,
                "ask for renditions of a rectangle";
            DECSCPP, [b'$', b'|'], Other, Selector, Vt340, "columns a page";
            DECRQLP, [b'\'', b'|'], Answered, Selector, Vt420, "ask for the locator's position";
            DECSNLS, [b'*', b'|'], Other, Number, Vt420, "lines a screen";
            DECAC, [b',', b'|'], Other, Colors, Vt525, "assign colours";
            DECKBD, [b' ', b'}'], Other, TwoSelectors, Vt510, "language of the keyboard";
            XTPOPSGR_2 = "XTPOPSGR", [b'#', b'}'], Screen, Nothing, Xterm, "pop renditions";
            DECSASD, [b'$', b'}'], Other, Selector, Vt320, "select active status display";
            DECIC, [b'\'', b'}'], Screen, Count, Vt420, "insert columns";
            DECLFKC, [b'*', b'}'], Other, Selectors, Vt420, "local function key control";
            DECATC, [b',', b'}'], Other, Colors, Vt525, "alternate text colours";
            DECFNK, [b'~'], Report, Key, Vt220, "function key";
            DECTME, [b' ', b'~'], Other, Selector, Vt510, "terminal mode emulation";
            DECSSDT, [b'$', b'~'], Other, Selector, Vt320, "select status line type";
            DECDC, [b'\'', b'~'], Screen, Count, Vt420, "delete columns";
            DECPS, [b',', b'~'], Other, Sound, Vt510, "play sound";
        ]
    };
}

static ROWS: [Row<ControlFunction>; 223] = functions!(rows);

static NAMES: [&str; 223] = functions!(names);

static WORDS: [&str; 223] = functions!(words);

// The place of the first row of each final byte, `@` to `~`, and how many rows there are.
static STARTS: [u16; 64] = starts![ControlFunction;
    ICH, CUU, CUD, CUF, CUB, CNL, CPL, CHA, CUP, CHT, ED, EL, IL, DL, EF, EA, DCH, SEE, CPR, SU,
    SD, NP, PP, CTC, ECH, CVT, CBT, SRS, PTX, SDS, SIMD, WIN32KEY, HPA, HPR, REP, DA1, VPA, VPR,
    HVP, TBC, SM, MC, HPB, VPB, RM, SGR, DSR, DAQ, DECSSL, DECLL, DECSTBM, SCOSC, XTWINOPS, SCORC,
    DECSLCK, DECRPDE, DECREQTPARM, DECTST, DECERA, XTPUSHSGR_2, DECTTC, DECKBD, DECFNK; 223
];

impl ControlFunction {
    /// Returns the function of a control sequence. `None` if it has no name, and if parameters were
    /// left out, since an intermediate may be among them.
    pub fn of<A: Allocator>(csi: &CSI<A>) -> Option<ControlFunction>
        ensures { result ≡ function_of_csi (csi_value csi.now) }
    {
        match csi {
            CSI::Sgr(_) => Some(ControlFunction::SGR),
            CSI::Unspecified(sequence) => {
                let sequence = sequence.as_ref();
                if sequence.parameters_truncated {
                    return None;
                }
                ControlFunction::of_csi_params(sequence.params.as_slice(), sequence.control)
            }
        }
    }

    /// Returns the function of a control sequence with all of these parameters and this final byte,
    /// if it has a name.
    #[tactic(auto, using(crate::proofs::Functions::no_function_with))]
    #[inline]
    pub fn of_csi_params(csi_params: &[CsiParam], last: u8) -> Option<ControlFunction>
        ensures { result ≡ function_of (sequence_key csi_params.now last) }
    {
        match packed_marks(csi_params) {
            Some(marks) => with_key(key_with(marks, csi_params.len(), last)),
            None => None,
        }
    }

    /// Returns the function of a control sequence with this private prefix, this intermediate and
    /// this final byte, and with no parameters, if it has a name.
    pub fn of_bytes(
        private_prefix: Option<u8>,
        intermediate: Option<u8>,
        last: u8,
    ) -> Option<ControlFunction>
        ensures { result
            ≡ function_of (256 * base_256 1
            (put_mark private_prefix (put_mark intermediate [])) + last) }
    {
        with_key(marks_of(private_prefix, intermediate) * 0x100 + last as u32)
    }

    /// Returns the function of a control sequence with this private prefix, this intermediate, so
    /// many parameters and separators between them, and this final byte, if it has a name.
    pub fn of_parts(
        private_prefix: Option<u8>,
        intermediate: Option<u8>,
        count: usize,
        last: u8,
    ) -> Option<ControlFunction>
        ensures { result ≡ function_of (key_with
            (base_256 1 (put_mark private_prefix (put_mark intermediate []))) count last) }
    {
        with_key(key_with(marks_of(private_prefix, intermediate), count, last))
    }

    /// Returns its row of the table.
    #[inline]
    pub fn row(self) -> &'static Row<ControlFunction>
        ensures function { result.now.function ≡ self }
        ensures key { result.now.key ≡ key_of self }
        ensures screen { is_screen_effect result.now.effect ≡ changes_screen self }
        ensures answered { is_answered_effect result.now.effect ≡ is_answered self }
    {
        &ROWS[place(self)]
    }

    /// Returns its name, as the standards abbreviate it.
    #[tactic(auto, unfolding(crate::specs::Functions::name_of))]
    pub fn name(self) -> &'static str
        ensures { result.now ≡ name_of self }
    {
        text_in(&NAMES, place(self))
    }

    /// Returns its description, in words.
    #[tactic(auto, unfolding(crate::specs::Functions::words_of))]
    pub fn words(self) -> &'static str
        ensures { result.now ≡ words_of self }
    {
        text_in(&WORDS, place(self))
    }

    /// Returns whether it changes the screen alone, with whatever parameters.
    #[inline]
    pub fn changes_screen(self) -> bool
        ensures { result ≡ changes_screen self }
    {
        self.row().effect.is_screen()
    }

    /// Returns whether a terminal answers it, with some of its parameters or with all.
    #[inline]
    pub fn is_answered(self) -> bool
        ensures { result ≡ is_answered self }
    {
        self.row().effect.is_answered()
    }
}

// Returns the place of its row.
#[tactic(auto, using(crate::proofs::Functions::below), unfolding(crate::specs::Functions::place))]
#[inline(always)]
fn place(function: ControlFunction) -> usize
    ensures place { result ≡ place function }
    ensures below { result < 223 }
{
    function as usize
}

// Returns the function that has this key.
#[tactic(auto, using(crate::proofs::Functions::rise), unfolding(crate::specs::Functions::function_of, crate::specs::Functions::rows_of))]
#[inline]
fn with_key(key: u32) -> Option<ControlFunction>
    ensures { result ≡ function_of key }
{
    first_in_group(&ROWS, &STARTS, 0x40, key)
}
