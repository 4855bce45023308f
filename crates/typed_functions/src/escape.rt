//! Escape sequences as typed values.
ghost use Rattle.std.specs.Prelude.{◌≡◌, Some};
ghost use Rattle.esc_sequences.specs.Escs.{esc_text};
ghost use Rattle.typed_functions.specs.Escapes.{escape_bytes, escape_sequence};

use esc_sequences::Esc;
use std::fmt;

/// The request of an escape sequence that is none of [`Charset`](crate::Charset), by the names of
/// termwiz if it has one (ECMA-48, 5.3, 5.5 and 8.3; ECMA-35, 13 and 14; DEC's VT510; xterm's
/// list). Those of `ESC @` to `ESC _` are also C1 controls, 80 to 9F (hexadecimal).
///
/// Those that begin a control sequence or a control string, CSI, DCS, OSC, SOS, PM and APC, are no
/// values.
#[derive(Clone, Copy, PartialEq, Eq)]
pub enum Escape {
    /// `ESC # 3`, DECDHL: the line is the top half of one of double height.
    DecDoubleHeightTopHalfLine,
    /// `ESC # 4`, DECDHL: it is the bottom half of one.
    DecDoubleHeightBottomHalfLine,
    /// `ESC # 5`, DECSWL: the line is of single width.
    DecSingleWidthLine,
    /// `ESC 6`, DECBI: left one column, or all is shifted right.
    DecBackIndex,
    /// `ESC # 6`, DECDWL: the line is of double width.
    DecDoubleWidthLine,
    /// `ESC 7`, DECSC: the cursor is saved, with renditions and character sets.
    DecSaveCursorPosition,
    /// `ESC 8`, DECRC: they are restored.
    DecRestoreCursorPosition,
    /// `ESC # 8`, DECALN: the screen is filled with `E`.
    DecScreenAlignmentDisplay,
    /// `ESC 9`, DECFI: right one column, or all is shifted left.
    DecForwardIndex,
    /// `ESC <`: the mode of a VT52 ends.
    ExitVt52Mode,
    /// `ESC =`, DECKPAM: the keypad sends the sequences that applications ask for.
    DecApplicationKeyPad,
    /// `ESC >`, DECKPNM: the keypad sends its characters.
    DecNormalKeyPad,
    /// `ESC @`, PAD: nothing, to fill.
    PaddingCharacter,
    /// `ESC % @`, DOCS: back from UTF-8 to character sets.
    DefaultCharacterSet,
    /// `ESC A`, HOP.
    HighOctetPreset,
    /// `ESC B`, BPH: a line may be broken here.
    BreakPermittedHere,
    /// `ESC C`, NBH: a line may not be broken here.
    NoBreakHere,
    /// `ESC D`, IND: down one line, scrolling at the last.
    Index,
    /// `ESC E`, NEL: to the start of the next line, scrolling at the last.
    NextLine,
    /// `ESC F`, SSA.
    StartOfSelectedArea,
    /// `ESC SP F`, S7C1T: the terminal sends C1 controls as ESC and a byte.
    SevenBitControls,
    /// `ESC G`, ESA.
    EndOfSelectedArea,
    /// `ESC SP G`, S8C1T: the terminal sends C1 controls as one byte.
    EightBitControls,
    /// `ESC % G`, DOCS: the rest is UTF-8.
    Utf8CharacterSet,
    /// `ESC H`, HTS: a tab stop is set at the column.
    HorizontalTabSet,
    /// `ESC I`, HTJ.
    HorizontalTabWithJustification,
    /// `ESC J`, VTS: a tab stop is set at the line.
    VerticalTabSet,
    /// `ESC K`, PLD: the next characters are a subscript.
    PartialLineForward,
    /// `ESC L`, PLU: the next characters are a superscript.
    PartialLineBackward,
    /// `ESC SP L`, ACS: level 1 of ECMA-43.
    ConformanceLevelOne,
    /// `ESC M`, RI: up one line, scrolling at the first.
    ReverseIndex,
    /// `ESC SP M`, ACS: level 2 of ECMA-43.
    ConformanceLevelTwo,
    /// `ESC N`, SS2: the next character is of G2.
    SingleShiftG2,
    /// `ESC SP N`, ACS: level 3 of ECMA-43.
    ConformanceLevelThree,
    /// `ESC O`, SS3: the next character is of G3.
    SingleShiftG3,
    /// `ESC Q`, PU1.
    PrivateUseOne,
    /// `ESC R`, PU2.
    PrivateUseTwo,
    /// `ESC S`, STS: the terminal may send.
    SetTransmitState,
    /// `ESC T`, CCH: the character before does not count.
    CancelCharacter,
    /// `ESC U`, MW: a message waits.
    MessageWaiting,
    /// `ESC V`, SPA: a guarded area starts.
    StartOfGuardedArea,
    /// `ESC W`, EPA: it ends.
    EndOfGuardedArea,
    /// `ESC Y`, SGC: the next byte is a character.
    SingleGraphicCharacter,
    /// `ESC Z`, DECID: the terminal is asked for its kind.
    ReturnTerminalId,
    /// `ESC \`, ST: a control string ends.
    StringTerminator,
    /// ``ESC ` ``, DMI: the keyboard is locked.
    DisableManualInput,
    /// `ESC a`, INT: the process is interrupted.
    Interrupt,
    /// `ESC b`, EMI: the keyboard is unlocked.
    EnableManualInput,
    /// `ESC c`, RIS: all is as after switching on.
    FullReset,
    /// `ESC d`, CMD: another coding method ends.
    CodingMethodDelimiter,
    /// `ESC g`, of screen: the screen blinks.
    VisibleBell,
    /// `ESC k`, of screen and tmux: a title begins.
    TmuxTitle,
    /// `ESC l`, of HP: the lines above the cursor are locked.
    MemoryLock,
    /// `ESC m`, of HP: they are unlocked.
    MemoryUnlock,
    /// `ESC n`, LS2: G2 in the left half of the code table.
    LockingShiftG2,
    /// `ESC o`, LS3: G3 in the left half.
    LockingShiftG3,
    /// `ESC |`, LS3R: G3 in the right half.
    LockingShiftG3Right,
    /// `ESC }`, LS2R: G2 in the right half.
    LockingShiftG2Right,
    /// `ESC ~`, LS1R: G1 in the right half.
    LockingShiftG1Right,
}

impl Escape {
    /// Returns the escape sequence that asks for it.
    pub fn sequence(self) -> Esc
        ensures { result ≡ escape_sequence self }
    {
        let (intermediate, last) = self.bytes();
        Esc::parse(intermediate, last)
    }

    // Returns its intermediate, if there is one, and its final byte.
    fn bytes(self) -> (Option<u8>, u8)
        ensures { result ≡ escape_bytes self }
    {
        let key = self.function().row().key;
        let last = (key % 0x100) as u8;
        if key < 0x10000 {
            (None, last)
        } else {
            (Some((key / 0x100 % 0x100) as u8), last)
        }
    }
}

/// Writes the escape sequence. If it returns `Ok`, all of it was written.
impl fmt::Display for Escape {
    ghost output = { λ e. Some (esc_text (escape_sequence e)) };

    fn fmt<W: fmt::Write>(&self, f: &mut fmt::Formatter<W>) -> fmt::Result {
        self.sequence().fmt(f)
    }
}

/// Writes its name.
impl fmt::Debug for Escape {
    fn fmt<W: fmt::Write>(&self, f: &mut fmt::Formatter<W>) -> fmt::Result {
        f.write_str(self.name())
    }
}
