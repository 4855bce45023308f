//! Modes by their numbers.

use esc_values::CsiParam;

/// A parameter of a control sequence that sets, resets, saves or restores modes, or one choice of
/// several tab stops.
#[derive(Clone, Copy, Debug, PartialEq)]
pub struct ModeNumber<'a> {
    /// The number of the mode, as those of `PrivateMode` and `Mode` of `control_functions`, or of
    /// the choice. `None` if the parameter is no number; a choice that is left out is 0.
    pub number: Option<u64>,
    /// The parameter, as it came.
    pub entries: &'a [CsiParam],
}
