//! The row of a control function.
ghost use Rattle.esc_calls.specs.FunctionRows.{IsRow};

use crate::output::put;

/// A control function, for its caller: a row of a table of `control_functions`, or zeros.
#[repr(C)]
#[derive(Clone, Copy)]
pub struct FunctionRow {
    /// Its name, as the standards abbreviate it, and zeros after it.
    pub name: [u8; 16],
    /// Its description in words, and zeros after them.
    pub phrase: [u8; 80],
    /// Says whether it changes the screen alone, with whatever parameters.
    pub changes_screen: bool,
    /// Says whether a terminal answers it, with some of its parameters or with all.
    pub is_answered: bool,
}

// Notes a function of this name.
pub(crate) fn note(
    name: &str,
    words: &str,
    changes_screen: bool,
    is_answered: bool,
    out: &mut FunctionRow,
)
    ensures { IsRow out.new name.now words.now changes_screen is_answered }
{
    *out = FunctionRow {
        name: [0; 16],
        phrase: [0; 80],
        changes_screen,
        is_answered,
    };
    let _ = put(name.as_bytes(), &mut out.name);
    let _ = put(words.as_bytes(), &mut out.phrase);
}
