//! The way in which a filter writes carriage returns.
ghost use Rattle.std.specs.Prelude.{◌≡◌, IsTrue, true};
ghost use Rattle.esc_filter.specs.Characters.{is_return};

use esc_actions::ControlCode;

/// The way in which a filter writes a carriage return that passes, if it is no part of the end of a
/// line: at a terminal the text after it hides the text before it.
#[derive(Clone, Copy, Debug, PartialEq, Eq)]
pub enum Returns {
    /// The carriage return itself.
    Keep,
    /// `^M`.
    Show,
    /// Nothing.
    Drop,
}

impl Returns {
    /// Returns whether nothing is written of the control.
    #[inline]
    pub(crate) fn drops(self, code: ControlCode) -> bool
        ensures { IsTrue result → (self ≡ Returns.Drop) × (is_return code ≡ true) }
    {
        if let Returns::Drop = self {
            return is_return(code);
        }
        false
    }
}

/// Returns whether it is a carriage return.
#[inline]
pub(crate) fn is_return(code: ControlCode) -> bool
    ensures { result ≡ is_return code }
{
    matches!(code, ControlCode::CarriageReturn)
}
