//! The table of typed values of escape sequences.
ghost use Rattle.std.specs.Prelude.{◌≡◌, ◌<◌};
ghost use Rattle.control_functions.specs.Escapes.{place as function_place};
ghost use Rattle.typed_functions.specs.Escapes.{escape_of, function_for, place};

use crate::escape::Escape;
use control_functions::EscapeFunction;

// A row a line, in the order of `EscapeFunction` and in that of `Escape`: the function of an escape
// sequence, and its typed value, if it has one.
macro_rules! escapes {
    ($each:ident) => {
        $each![
            CZD;
            C1D;
            GZDM4;
            IRR;
            GZD4;
            GZDM4_LONG;
            G1D4;
            G1DM4;
            G2D4;
            G2DM4;
            G3D4;
            G3DM4;
            G1D6;
            G1DM6;
            G2D6;
            G2DM6;
            G3D6;
            G3DM6;
            DOCS_OTHER;
            DECDHLT = DecDoubleHeightTopHalfLine;
            DECDHLB = DecDoubleHeightBottomHalfLine;
            DECSWL = DecSingleWidthLine;
            DECBI = DecBackIndex;
            DECDWL = DecDoubleWidthLine;
            DECSC = DecSaveCursorPosition;
            DECRC = DecRestoreCursorPosition;
            DECALN = DecScreenAlignmentDisplay;
            DOCS_LINUX;
            DECFI = DecForwardIndex;
            VT52EXIT = ExitVt52Mode;
            DECKPAM = DecApplicationKeyPad;
            DECKPNM = DecNormalKeyPad;
            PAD = PaddingCharacter;
            DOCS_DEFAULT = DefaultCharacterSet;
            HOP = HighOctetPreset;
            BPH = BreakPermittedHere;
            NBH = NoBreakHere;
            IND = Index;
            NEL = NextLine;
            SSA = StartOfSelectedArea;
            S7C1T = SevenBitControls;
            ESA = EndOfSelectedArea;
            S8C1T = EightBitControls;
            DOCS_UTF8 = Utf8CharacterSet;
            HTS = HorizontalTabSet;
            HTJ = HorizontalTabWithJustification;
            VTS = VerticalTabSet;
            PLD = PartialLineForward;
            PLU = PartialLineBackward;
            ACS1 = ConformanceLevelOne;
            RI = ReverseIndex;
            ACS2 = ConformanceLevelTwo;
            SS2 = SingleShiftG2;
            ACS3 = ConformanceLevelThree;
            SS3 = SingleShiftG3;
            DCS;
            PU1 = PrivateUseOne;
            PU2 = PrivateUseTwo;
            STS = SetTransmitState;
            CCH = CancelCharacter;
            MW = MessageWaiting;
            SPA = StartOfGuardedArea;
            EPA = EndOfGuardedArea;
            SOS;
            SGC = SingleGraphicCharacter;
            DECID = ReturnTerminalId;
            CSI;
            ST = StringTerminator;
            OSC;
            PM;
            APC;
            DMI = DisableManualInput;
            INT = Interrupt;
            EMI = EnableManualInput;
            RIS = FullReset;
            CMD = CodingMethodDelimiter;
            VISIBLEBELL = VisibleBell;
            TITLE = TmuxTitle;
            MEMORYLOCK = MemoryLock;
            MEMORYUNLOCK = MemoryUnlock;
            LS2 = LockingShiftG2;
            LS3 = LockingShiftG3;
            LS3R = LockingShiftG3Right;
            LS2R = LockingShiftG2Right;
            LS1R = LockingShiftG1Right;
        ]
    };
}

macro_rules! value {
    () => {
        None
    };
    ($value:ident) => {
        Some(Escape::$value)
    };
}

macro_rules! values {
    ($($f:ident $(= $value:ident)?);+ $(;)?) => {
        [$(value!($($value)?)),+]
    };
}

macro_rules! function {
    ($f:ident, $value:ident) => {
        EscapeFunction::$f
    };
}

macro_rules! functions {
    ($($f:ident $(= $value:ident)?);+ $(;)?) => {
        [$($(function!($f, $value),)?)+]
    };
}

macro_rules! names {
    ($($f:ident $(= $value:ident)?);+ $(;)?) => {
        [$($(stringify!($value),)?)+]
    };
}

static ESCAPES: [Option<Escape>; 85] = escapes!(values);

static FUNCTIONS: [EscapeFunction; 59] = escapes!(functions);

static NAMES: [&str; 59] = escapes!(names);

impl Escape {
    /// Returns the typed value of a function of escape sequences, if it has one.
    pub fn of_function(function: EscapeFunction) -> Option<Escape>
        ensures { result ≡ escape_of function }
    {
        ESCAPES[function_place(function)]
    }

    /// Returns its function.
    pub fn function(self) -> EscapeFunction
        ensures { result ≡ function_for self }
    {
        FUNCTIONS[place(self)]
    }

    // Returns its name.
    pub(crate) fn name(self) -> &'static str {
        NAMES[place(self)]
    }
}

// Returns the place of a function in its table.
#[inline(always)]
fn function_place(function: EscapeFunction) -> usize
    ensures place { result ≡ function_place function }
    ensures below { result < 85 }
{
    function as usize
}

// Returns the place of a typed value in its table.
#[inline(always)]
fn place(escape: Escape) -> usize
    ensures place { result ≡ place escape }
    ensures below { result < 59 }
{
    escape as usize
}
