//! The table of modes of ECMA-48.
//!
//! The names come from ECMA-48, fifth edition, 7.2, from its fourth edition (EBM, LNM), from the
//! VT510's manual (CRM, <https://vt100.net/docs/vt510-rm/chapter4.html>), and from VTE's list of
//! modes (WYSTCURM and WYULCURM, which are Wyse's).
ghost use Rattle.std.specs.Prelude.{◌≡◌, ◌<◌};
ghost use Rattle.control_functions.specs.Modes.{changes_screen, is_screen, mode_of, name_of, number_of, place, words_of};

use crate::effect::Effect;
use crate::find::{first_with, text_in};
use crate::mode::Mode;
use crate::mode_row::ModeRow;
use crate::table_macros::{mode_rows, name, names, words};

// A row a line: the mode, its number, whether it changes the screen alone, and the setting that is
// set and reset. The rows are in the order of the numbers, and in that of `Mode`.
macro_rules! modes {
    ($each:ident) => {
        $each![Mode;
            GATM, 1, Other, "transfer of guarded areas";
            KAM, 2, Other, "keyboard lock";
            CRM, 3, Other, "visible controls";
            IRM, 4, Screen, "insertion of characters";
            SRTM, 5, Other, "status report transfer";
            ERM, 6, Other, "erasure of protected areas";
            VEM, 7, Other, "insertion above the line";
            BDSM, 8, Other, "bidirectional support";
            DCSM, 9, Other, "device component for the cursor";
            HEM, 10, Other, "insertion before the character";
            PUM, 11, Other, "units of position";
            SRM, 12, Other, "suppression of local echo";
            FEAM, 13, Other, "storage of format effectors";
            FETM, 14, Other, "exclusion of format effectors from transfer";
            MATM, 15, Other, "transfer of all selected areas";
            TTM, 16, Other, "transfer as far as the cursor";
            SATM, 17, Other, "transfer of selected areas alone";
            TSM, 18, Other, "tabulation for each line";
            EBM, 19, Other, "editing of all pages";
            LNM, 20, Other, "line feed as new line";
            GRCM, 21, Other, "rendition that adds up";
            ZDM, 22, Other, "zero as a default";
            WYSTCURM, 33, Other, "steady cursor, of Wyse";
            WYULCURM, 34, Other, "underline cursor, of Wyse, or in screen normal cursor";
        ]
    };
}

static ROWS: [ModeRow<Mode>; 24] = modes!(mode_rows);

static NAMES: [&str; 24] = modes!(names);

static WORDS: [&str; 24] = modes!(words);

impl Mode {
    /// Returns the mode of this number, if it has a name.
    #[tactic(auto, unfolding(crate::specs::Modes::mode_of))]
    pub fn of_number(number: u32) -> Option<Mode>
        ensures { result ≡ mode_of number }
    {
        first_with(&ROWS, number)
    }

    /// Returns its number.
    pub fn number(self) -> u32
        ensures { result ≡ number_of self }
    {
        ROWS[place(self)].number
    }

    /// Returns its name.
    #[tactic(auto, unfolding(crate::specs::Modes::name_of))]
    pub fn name(self) -> &'static str
        ensures { result.now ≡ name_of self }
    {
        text_in(&NAMES, place(self))
    }

    /// Returns the setting that is set and reset, in words: a noun, which reads true after "set"
    /// and after "reset".
    #[tactic(auto, unfolding(crate::specs::Modes::words_of))]
    pub fn words(self) -> &'static str
        ensures { result.now ≡ words_of self }
    {
        text_in(&WORDS, place(self))
    }

    /// Returns whether setting and resetting it changes the screen alone, as it does of IRM only.
    #[inline]
    pub fn changes_screen(self) -> bool
        ensures { result ≡ changes_screen self }
    {
        ROWS[place(self)].effect.is_screen()
    }

    /// Returns whether this is the number of a mode that changes the screen alone.
    #[tactic(auto, using(crate::proofs::Modes::by_number))]
    #[inline]
    pub fn is_screen_number(number: u64) -> bool
        ensures { result ≡ is_screen (mode_of number) }
    {
        number == 4
    }
}

// Returns the place of its row.
#[tactic(auto, using(crate::proofs::Modes::below), unfolding(crate::specs::Modes::place))]
#[inline(always)]
fn place(mode: Mode) -> usize
    ensures place { result ≡ place mode }
    ensures below { result < 24 }
{
    mode as usize
}
