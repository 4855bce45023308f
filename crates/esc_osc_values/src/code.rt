//! This module defines the codes of operating system commands.
ghost use Rattle.std.specs.Prelude.{◌≡◌, ◌≢◌, ◌<◌, [], get_or, length, map, MatchOption};
ghost use Rattle.esc_osc_values.specs.Codes.{code_text, place, text_key};
ghost use Rattle.esc_osc_values.specs.declared.code.OperatingSystemCommandCode.{OperatingSystemCommandCode};

/// The code, an operating system command's first part, says what the command asks for (xterm's list
/// of control sequences, "Operating System Commands",
/// <https://invisible-island.net/xterm/ctlseqs/ctlseqs.html>).
#[derive(Clone, Copy, Debug, PartialEq, Eq, Hash)]
pub enum OperatingSystemCommandCode {
    /// 0: the name of the icon and the title of the window.
    SetIconNameAndWindowTitle,
    /// 2: the title of the window.
    SetWindowTitle,
    /// 1: the name of the icon.
    SetIconName,
    /// 8: the link that the text belongs to.
    SetHyperlink,
    /// 133: the marks of prompts and commands (FinalTerm).
    FinalTermSemanticPrompt,
    /// 7: the directory that the shell works in.
    SetCurrentWorkingDirectory,
    /// 52: the selections: their text is set, cleared or asked for.
    ManipulateSelectionData,
    /// 10: the colour of the foreground of text.
    SetTextForegroundColor,
    /// 11: the colour of the background of text.
    SetTextBackgroundColor,
    /// 12: the colour of the text cursor.
    SetTextCursorColor,
    /// 4: colours of the palette.
    ChangeColorNumber,
    /// 9: a notification, or the progress of a task (ConEmu).
    SystemNotification,
    /// 1337: the commands of iTerm2.
    ITermProprietary,
    /// 3: a property of the window under X.
    SetXWindowProperty,
    /// 5: special colours.
    ChangeSpecialColorNumber,
    /// 6: the colour of the title's tab.
    ChangeTitleTabColor,
    /// 13: the colour of the foreground of the pointer.
    SetMouseForegroundColor,
    /// 14: the colour of the background of the pointer.
    SetMouseBackgroundColor,
    /// 15: the colour of the foreground in Tektronix mode.
    SetTektronixForegroundColor,
    /// 16: the colour of the background in Tektronix mode.
    SetTektronixBackgroundColor,
    /// 17: the colour of the background of highlighted text.
    SetHighlightBackgroundColor,
    /// 18: the colour of the cursor in Tektronix mode.
    SetTektronixCursorColor,
    /// 19: the colour of the foreground of highlighted text.
    SetHighlightForegroundColor,
    /// 46: the name of the log file.
    SetLogFileName,
    /// 50: the font.
    SetFont,
    /// 51: left to Emacs.
    EmacsShell,
    /// 104: the palette's own colours again.
    ResetColors,
    /// 105: the special colours of their own again.
    ResetSpecialColor,
    /// 110: the own colour of the foreground of text again.
    ResetTextForegroundColor,
    /// 111: the own colour of the background of text again.
    ResetTextBackgroundColor,
    /// 112: the own colour of the text cursor again.
    ResetTextCursorColor,
    /// 113: the own colour of the foreground of the pointer again.
    ResetMouseForegroundColor,
    /// 114: the own colour of the background of the pointer again.
    ResetMouseBackgroundColor,
    /// 115: the own colour of the foreground in Tektronix mode again.
    ResetTektronixForegroundColor,
    /// 116: the own colour of the background in Tektronix mode again.
    ResetTektronixBackgroundColor,
    /// 117: the own colour of the background of highlighted text again.
    ResetHighlightColor,
    /// 118: the own colour of the cursor in Tektronix mode again.
    ResetTektronixCursorColor,
    /// 119: the own colour of the foreground of highlighted text again.
    ResetHighlightForegroundColor,
    /// 777: the extensions of rxvt.
    RxvtProprietary,
    /// l: the title of the window, as Sun's terminals do it.
    SetWindowTitleSun,
    /// L: the name of the icon, as Sun's terminals do it.
    SetIconNameSun,
}

// Each row has a code, its text, and the key of the text. The rows are in the order of
// `OperatingSystemCommandCode`: a key is compared with theirs in turn, so the commonest are first.
macro_rules! codes {
    ($each:ident) => {
        $each![
            SetIconNameAndWindowTitle, "0", 0x1_30;
            SetWindowTitle, "2", 0x1_32;
            SetIconName, "1", 0x1_31;
            SetHyperlink, "8", 0x1_38;
            FinalTermSemanticPrompt, "133", 0x1_31_33_33;
            SetCurrentWorkingDirectory, "7", 0x1_37;
            ManipulateSelectionData, "52", 0x1_35_32;
            SetTextForegroundColor, "10", 0x1_31_30;
            SetTextBackgroundColor, "11", 0x1_31_31;
            SetTextCursorColor, "12", 0x1_31_32;
            ChangeColorNumber, "4", 0x1_34;
            SystemNotification, "9", 0x1_39;
            ITermProprietary, "1337", 0x1_31_33_33_37;
            SetXWindowProperty, "3", 0x1_33;
            ChangeSpecialColorNumber, "5", 0x1_35;
            ChangeTitleTabColor, "6", 0x1_36;
            SetMouseForegroundColor, "13", 0x1_31_33;
            SetMouseBackgroundColor, "14", 0x1_31_34;
            SetTektronixForegroundColor, "15", 0x1_31_35;
            SetTektronixBackgroundColor, "16", 0x1_31_36;
            SetHighlightBackgroundColor, "17", 0x1_31_37;
            SetTektronixCursorColor, "18", 0x1_31_38;
            SetHighlightForegroundColor, "19", 0x1_31_39;
            SetLogFileName, "46", 0x1_34_36;
            SetFont, "50", 0x1_35_30;
            EmacsShell, "51", 0x1_35_31;
            ResetColors, "104", 0x1_31_30_34;
            ResetSpecialColor, "105", 0x1_31_30_35;
            ResetTextForegroundColor, "110", 0x1_31_31_30;
            ResetTextBackgroundColor, "111", 0x1_31_31_31;
            ResetTextCursorColor, "112", 0x1_31_31_32;
            ResetMouseForegroundColor, "113", 0x1_31_31_33;
            ResetMouseBackgroundColor, "114", 0x1_31_31_34;
            ResetTektronixForegroundColor, "115", 0x1_31_31_35;
            ResetTektronixBackgroundColor, "116", 0x1_31_31_36;
            ResetHighlightColor, "117", 0x1_31_31_37;
            ResetTektronixCursorColor, "118", 0x1_31_31_38;
            ResetHighlightForegroundColor, "119", 0x1_31_31_39;
            RxvtProprietary, "777", 0x1_37_37_37;
            SetWindowTitleSun, "l", 0x1_6c;
            SetIconNameSun, "L", 0x1_4c;
        ]
    };
}

macro_rules! values {
    ($($code:ident, $text:literal, $key:literal);+ $(;)?) => {
        [$(OperatingSystemCommandCode::$code),+]
    };
}

macro_rules! texts {
    ($($code:ident, $text:literal, $key:literal);+ $(;)?) => {
        [$($text),+]
    };
}

macro_rules! keys {
    ($($code:ident, $text:literal, $key:literal);+ $(;)?) => {
        [$($key),+]
    };
}

static CODES: [OperatingSystemCommandCode; 41] = codes!(values);

static TEXTS: [&str; 41] = codes!(texts);

static KEYS: [u64; 41] = codes!(keys);

// Returns the text in this place of a table.
fn text_in(texts: &[&'static str], index: usize) -> &'static str
    requires { index < length texts.now }
    ensures { result.now ≡ get_or (map (λ t. t.now) texts.now) index [] }
{
    texts[index]
}

// Returns the place of its row.
#[inline(always)]
fn place(code: OperatingSystemCommandCode) -> usize
    ensures place { result ≡ place code }
    ensures below { result < 41 }
{
    code as usize
}

// Returns the key of a text of one to four bytes: a one and its bytes, as a number in base 256;
// zero for every other text.
#[inline]
fn text_key(text: &[u8]) -> u64
    ensures { result ≡ text_key text.now }
{
    match text {
        [a] => 0x100 + *a as u64,
        [a, b] => 0x1_0000 + *a as u64 * 0x100 + *b as u64,
        [a, b, c] => 0x100_0000 + *a as u64 * 0x1_0000 + *b as u64 * 0x100 + *c as u64,
        [a, b, c, d] => 0x1_0000_0000
            + *a as u64 * 0x100_0000
            + *b as u64 * 0x1_0000
            + *c as u64 * 0x100
            + *d as u64,
        _ => 0,
    }
}

// Returns the key of the text of a code.
#[inline(always)]
fn key(code: OperatingSystemCommandCode) -> u64
    ensures { result ≡ text_key (code_text code) }
{
    KEYS[place(code)]
}

impl OperatingSystemCommandCode {
    /// Returns the code whose text this is; none if it is the text of no code. Every byte counts,
    /// so `02` is no code.
    pub fn from_code(code: &str) -> Option<OperatingSystemCommandCode>
        ensures { MatchOption result ((c : OperatingSystemCommandCode) → code.now ≢ code_text c)
            (λ c. code.now ≡ code_text c) }
    {
        let wanted = text_key(code.as_bytes());
        for known in CODES {
            if key(known) == wanted {
                return Some(known);
            }
        }
        None
    }

    /// Returns the text of this code.
    pub fn as_code(self) -> &'static str
        ensures { result.now ≡ code_text self }
    {
        text_in(&TEXTS, place(self))
    }
}
