//! This module reads a selection.
ghost use Rattle.std.specs.Prelude.{◌≡◌, MatchOption, None, Some};
ghost use Rattle.esc_osc_values.specs.Selections.{selection_of};

use crate::selection::Selection;

/// Returns the selection that these letters name, in any order and number; no letters name SELECT
/// and CUT0. None if a byte is no letter.
pub fn read_selection(letters: &[u8]) -> Option<Selection>
    ensures { MatchOption result (selection_of letters.now ≡ None)
        (λ s. selection_of letters.now ≡ Some s.0) }
{
    Selection::from_letters(letters)
}
