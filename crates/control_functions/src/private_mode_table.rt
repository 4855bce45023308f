//! The table of private modes.
//!
//! The names that begin with DEC come from the manuals of the VT131, VT340, VT510
//! (<https://vt100.net/docs/vt510-rm/chapter4.html>) and VT525. From 1000 on the modes come from
//! xterm (<https://invisible-island.net/xterm/ctlseqs/ctlseqs.html>, "DEC Private Mode Set"), rxvt,
//! readline, iTerm2, VTE, contour (<https://contour-terminal.org/vt-extensions/>), kitty and, from
//! 7700 on, mintty (<https://github.com/mintty/mintty/wiki/CtrlSeqs>), TeraTerm and Windows.
ghost use Rattle.std.specs.Prelude.{◌≡◌, ◌<◌};
ghost use Rattle.control_functions.specs.PrivateModes.{changes_screen, is_listed, is_screen, mode_of, name_of, number_of, place, words_of};

use crate::effect::Effect;
use crate::find::{first_with, text_in};
use crate::mode_row::ModeRow;
use crate::private_mode::PrivateMode;
use crate::table_macros::{mode_rows, name, names, words};

// A row a line: the mode, its number, whether it changes the screen alone, and the setting that is
// set and reset. The rows are in the order of the numbers, and in that of `PrivateMode`.
macro_rules! modes {
    ($each:ident) => {
        $each![PrivateMode;
            DECCKM, 1, Other, "application cursor keys";
            DECANM, 2, Other, "ANSI";
            DECCOLM, 3, Other, "132 columns";
            DECSCLM, 4, Other, "smooth scroll";
            DECSCNM, 5, Screen, "reverse video";
            DECOM, 6, Screen, "origin at the margins";
            DECAWM, 7, Screen, "autowrap";
            DECARM, 8, Other, "auto-repeat keys";
            MousePresses, 9, Other, "mouse presses";
            DECEDM, 10, Other, "editing, or in rxvt toolbar";
            DECLTM, 11, Other, "line transmission";
            BlinkingCursor, 12, Screen, "blinking cursor";
            DECSCFDM, 13, Other,
                "space compression and field delimiting, or in xterm blinking cursor";
            DECTEM, 14, Other,
                "execution of the transmit key, or in xterm blink of sequence or menu";
            DECEKEM, 16, Other, "execution of edit keys";
            DECPFF, 18, Other, "print form feed";
            DECPEX, 19, Other, "print full screen";
            DECTCEM, 25, Screen, "visible cursor";
            Scrollbar, 30, Other, "scrollbar";
            DECRLM, 34, Other, "cursor from right to left";
            DECHEBM, 35, Other, "Hebrew keyboard, or in rxvt font-shifting keys";
            DECHEM, 36, Other, "Hebrew encoding";
            DECTEK, 38, Other, "Tektronix";
            Allow132Columns, 40, Other, "permission to change between 80 and 132 columns";
            MoreFix, 41, Other, "more(1) fix";
            DECNRCM, 42, Other, "national character sets";
            DECGEPM, 43, Other, "expanded print of graphics";
            DECGPCM, 44, Other, "print of graphics in colour, or in xterm margin bell";
            DECGPCS, 45, Other, "colour by RGB in print, or in xterm reverse wraparound";
            DECGPBM, 46, Other, "print of the background, or in xterm logging";
            DECGRPM, 47, Screen, "rotated print of graphics, or in xterm alternate screen";
            DECNAKB, 57, Other, "Greek and North American keyboard";
            DECIPEM, 58, Other, "emulation of the IBM ProPrinter";
            DECKKDM, 59, Other, "display of kanji or katakana";
            DECHCCM, 60, Other, "horizontal coupling of the cursor";
            DECVCCM, 61, Other, "vertical coupling of the cursor";
            DECPCCM, 64, Other, "page coupling of the cursor";
            DECNKM, 66, Other, "application keypad";
            DECBKM, 67, Other, "backarrow key as backspace";
            DECKBUM, 68, Other, "keyboard for data processing";
            DECLRMM, 69, Screen, "left and right margins";
            DECFPM, 70, Other, "forced plot";
            DECXRLM, 73, Other, "rate limit of transmission";
            DECSDM, 80, Other, "sixel display";
            DECKPM, 81, Other, "reports of key positions";
            DECNCSM, 95, Other, "protection from clearing on column change";
            DECRLCM, 96, Other, "copy from right to left";
            DECCRTSM, 97, Other, "saving of the screen";
            DECARSM, 98, Other, "automatic change of lines a screen";
            DECMCM, 99, Other, "modem control";
            DECAAM, 100, Other, "automatic answerback";
            DECCANSM, 101, Other, "concealed answerback message";
            DECNULM, 102, Other, "ignorance of NUL";
            DECHDPXM, 103, Other, "half duplex";
            DECESKM, 104, Other, "secondary keyboard language";
            DECOSCNM, 106, Other, "overscan";
            DECNUMLK, 108, Other, "number lock";
            DECCAPSLK, 109, Other, "capitals lock";
            DECKLHIM, 110, Other, "LEDs of the keyboard set by the host";
            DECFWM, 111, Other, "frames of windows";
            DECRPL, 112, Other, "review of previous lines";
            DECHWUM, 113, Other, "wake-up by the host";
            DECATCUM, 114, Other, "underline with alternate text colour";
            DECATCBM, 115, Other, "blink with alternate text colour";
            DECBBSM, 116, Other, "bold and blink style";
            DECECM, 117, Other, "erasure with the colour of the screen";
            MouseButtons, 1000, Other, "mouse buttons";
            MouseHighlights, 1001, Other, "mouse highlights";
            MouseDrags, 1002, Other, "mouse buttons and drags";
            MouseMotion, 1003, Other, "mouse buttons and motion";
            FocusEvents, 1004, Other, "focus events";
            MouseUtf8, 1005, Other, "mouse in UTF-8";
            MouseSgr, 1006, Other, "mouse as SGR";
            AlternateScroll, 1007, Other, "alternate scroll";
            ScrollOnOutput, 1010, Other, "scroll to bottom on output";
            ScrollOnKey, 1011, Other, "scroll to bottom on key press";
            FastScroll, 1014, Other, "fast scroll";
            MouseUrxvt, 1015, Other, "mouse as urxvt";
            MouseSgrPixels, 1016, Other, "mouse as SGR in pixels";
            BoldIsBright, 1021, Other, "bright colours for bold and blinking characters";
            EighthBitMeta, 1034, Other, "eighth bit for Meta";
            AltAndNumLock, 1035, Other, "special modifiers for Alt and NumLock";
            MetaSendsEsc, 1036, Other, "ESC for Meta";
            DeleteSendsDel, 1037, Other, "DEL for the Delete key";
            AltSendsEsc, 1039, Other, "ESC for Alt";
            KeepSelection, 1040, Other, "keeping of the selection";
            SelectToClipboard, 1041, Other, "clipboard as selection";
            BellIsUrgent, 1042, Other, "urgency hint on bell";
            PopOnBell, 1043, Other, "raising of the window on bell";
            KeepClipboard, 1044, Other, "keeping of the clipboard";
            ExtendedReverseWrap, 1045, Other, "extended reverse wraparound";
            AllowAlternateScreen, 1046, Other, "permission to change to the alternate screen";
            ClearedAlternateScreen, 1047, Screen, "alternate screen, cleared at its end";
            SavedCursor, 1048, Screen, "saved cursor";
            AlternateScreenWithCursor, 1049, Screen, "alternate screen, cleared at its start, with saved cursor";
            TerminfoKeys, 1050, Other, "function keys of terminfo";
            SunKeys, 1051, Other, "function keys of Sun";
            HpKeys, 1052, Other, "function keys of HP";
            ScoKeys, 1053, Other, "function keys of SCO";
            X11R6Keyboard, 1060, Other, "keyboard of X11R6";
            Vt220Keyboard, 1061, Other, "keyboard of the VT220";
            SixelRegisters, 1070, Other, "colour registers of its own for each sixel image";
            SwappedArrowKeys, 1243, Other, "arrow keys swapped in text from right to left";
            KeyReleases, 1337, Other, "reports of released keys of iTerm2";
            ReadlineMouse1, 2001, Other, "readline's mouse button one";
            ReadlineMouse2, 2002, Other, "readline's mouse button two";
            ReadlineMouse3, 2003, Other, "readline's mouse button three";
            BracketedPaste, 2004, Other, "bracketed paste";
            ReadlinePasteQuote, 2005, Other, "readline's quoting of pasted characters";
            ReadlinePasteNewline, 2006, Other, "readline's pasting of newlines";
            SynchronizedOutput, 2026, Screen, "synchronized output";
            GraphemeClusters, 2027, Other, "grapheme clusters";
            TextReflow, 2028, Other, "reflow of text";
            PassiveMouse, 2029, Other, "passive tracking of the mouse";
            CellSelection, 2030, Other, "reports of the selection by cells";
            ColorSchemeReports, 2031, Other, "reports of the colour scheme";
            SizeReports, 2048, Other, "reports of the size";
            MirroredBoxDrawing, 2500, Other, "mirrored box drawing in text from right to left";
            DirectionDetection, 2501, Other, "detection of the direction of text";
            PasteEvents, 5522, Other, "paste events of kitty";
            AmbiguousWidthReports, 7700, Other, "reports of the ambiguous width";
            ScrollMarker, 7711, Other, "scroll marker";
            ApplicationEscape, 7727, Other, "application escape key";
            EscapeSendsFs, 7728, Other, "FS for the escape key";
            SixelScrollsBelow, 7730, Other, "cursor below a sixel image";
            ModifiedWheel, 7765, Other, "modified mouse wheel";
            MinttyScrollbar, 7766, Other, "scrollbar of mintty";
            FontReports, 7767, Other, "reports of changed fonts";
            ShortcutOverride, 7783, Other, "override of shortcuts";
            WheelReports, 7786, Other, "reports of the mouse wheel";
            ApplicationWheel, 7787, Other, "application mouse wheel";
            HomeOnClear, 8200, Other, "cursor to the home position on clearing";
            SixelScrollsRight, 8452, Other, "cursor to the right of a sixel image";
            AmbiguousIsWide, 8840, Other, "ambiguous characters of double width";
            Win32Input, 9001, Other, "keys as win32 input";
            TerminalSignals, 19997, Other, "signals for the keys that ask for them";
            NoBidi, 77096, Other, "no bidirectional display";
            InputMethodReports, 737769, Other, "reports of the input method";
        ]
    };
}

static ROWS: [ModeRow<PrivateMode>; 138] = modes!(mode_rows);

static NAMES: [&str; 138] = modes!(names);

static WORDS: [&str; 138] = modes!(words);

impl PrivateMode {
    /// Returns the mode of this number, if it has a name.
    #[tactic(auto, unfolding(crate::specs::PrivateModes::mode_of))]
    pub fn of_number(number: u32) -> Option<PrivateMode>
        ensures { result ≡ mode_of number }
    {
        first_with(&ROWS, number)
    }

    /// Returns its number, as it comes after `CSI ?`.
    pub fn number(self) -> u32
        ensures { result ≡ number_of self }
    {
        ROWS[place(self)].number
    }

    /// Returns its name.
    #[tactic(auto, unfolding(crate::specs::PrivateModes::name_of))]
    pub fn name(self) -> &'static str
        ensures { result.now ≡ name_of self }
    {
        text_in(&NAMES, place(self))
    }

    /// Returns the setting that is set and reset, in words: a noun, which reads true after "set"
    /// and after "reset".
    #[tactic(auto, unfolding(crate::specs::PrivateModes::words_of))]
    pub fn words(self) -> &'static str
        ensures { result.now ≡ words_of self }
    {
        text_in(&WORDS, place(self))
    }

    /// Returns whether setting and resetting it changes the screen alone.
    #[inline]
    pub fn changes_screen(self) -> bool
        ensures { result ≡ changes_screen self }
    {
        ROWS[place(self)].effect.is_screen()
    }

    /// Returns whether this is the number of a mode that changes the screen alone.
    #[tactic(auto, using(crate::proofs::PrivateModes::by_number))]
    #[inline]
    pub fn is_screen_number(number: u64) -> bool
        ensures { result ≡ is_screen (mode_of number) }
    {
        is_listed(number)
    }
}

// Returns whether it is on the list of these numbers, by which they are known without a search.
#[inline]
fn is_listed(number: u64) -> bool
    ensures { result ≡ is_listed number }
{
    matches!(
        number,
        5 | 6 | 7 | 12 | 25 | 47 | 69 | 1047 | 1048 | 1049 | 2026
    )
}

// Returns the place of its row.
#[tactic(auto, using(crate::proofs::PrivateModes::below), unfolding(crate::specs::PrivateModes::place))]
#[inline(always)]
fn place(mode: PrivateMode) -> usize
    ensures place { result ≡ place mode }
    ensures below { result < 138 }
{
    mode as usize
}
