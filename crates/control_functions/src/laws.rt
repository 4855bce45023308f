//! Laws of controls, control functions and modes: no two answer to one sequence, or have one code
//! or number.
ghost use Rattle.std.specs.Prelude.{◌≡◌, ℕ, Some, false, true};
ghost use Rattle.control_functions.specs.Controls.{changes_screen as control_changes_screen, code_of, control_of, is_answered as control_is_answered};
ghost use Rattle.control_functions.specs.Effects.{changes_screen, is_answered};
ghost use Rattle.control_functions.specs.EscapeEffects.{changes_screen as escape_changes_screen, is_answered as escape_is_answered};
ghost use Rattle.control_functions.specs.Escapes.{function_of as escape_function_of, key_of as escape_key_of};
ghost use Rattle.control_functions.specs.Functions.{function_of, key_of};
ghost use Rattle.control_functions.specs.Modes.{mode_of, number_of};
ghost use Rattle.control_functions.specs.PrivateModes.{mode_of as private_mode_of, number_of as private_number_of};
ghost use Rattle.control_functions.specs.declared.c0.C0.{C0};
ghost use Rattle.control_functions.specs.declared.mode.Mode.{Mode};
ghost use Rattle.control_functions.specs.declared.private_mode.PrivateMode.{PrivateMode};
ghost use Rattle.control_functions.specs.declared.control_function.ControlFunction.{ControlFunction};
ghost use Rattle.control_functions.specs.declared.escape_function.EscapeFunction.{EscapeFunction};

/// The key of a function is found, and is that of this function.
#[tactic(auto, using(crate::proofs::Functions::found_by_key))]
pub fn found_by_key()
    ensures { (f : ControlFunction) → function_of (key_of f) ≡ Some f }
{}

/// The function that is found by a key has this key.
#[tactic(auto, using(crate::proofs::Functions::has_its_key))]
pub fn has_its_key()
    ensures { (k : ℕ) (f : ControlFunction) → function_of k ≡ Some f → key_of f ≡ k }
{}

/// No function that a terminal answers changes the screen alone.
#[tactic(auto, using(crate::proofs::Functions::not_both))]
pub fn screen_is_not_answered()
    ensures { (f : ControlFunction) → is_answered f ≡ true → changes_screen f ≡ false }
{}

/// The key of a function of escape sequences is found, and is that of this function.
#[tactic(auto, using(crate::proofs::Escapes::found_by_key))]
pub fn escape_found_by_key()
    ensures { (f : EscapeFunction) → escape_function_of (escape_key_of f) ≡ Some f }
{}

/// The function that is found by a key has this key.
#[tactic(auto, using(crate::proofs::Escapes::has_its_key))]
pub fn escape_has_its_key()
    ensures { (k : ℕ) (f : EscapeFunction) → escape_function_of k ≡ Some f → escape_key_of f ≡ k }
{}

/// No function of escape sequences that a terminal answers changes the screen alone.
#[tactic(auto, using(crate::proofs::Escapes::not_both))]
pub fn escape_screen_is_not_answered()
    ensures { (f : EscapeFunction) → escape_is_answered f ≡ true → escape_changes_screen f ≡ false }
{}

/// The code of a C0 control is found, and is that of this control.
#[tactic(auto, using(crate::proofs::Controls::found_by_code))]
pub fn control_found()
    ensures { (c : C0) → control_of (code_of c) ≡ Some c }
{}

/// The control that is found by a code has this code.
#[tactic(auto, using(crate::proofs::Controls::has_its_code))]
pub fn control_has_its_code()
    ensures { (n : ℕ) (c : C0) → control_of n ≡ Some c → code_of c ≡ n }
{}

/// No C0 control that a terminal answers changes the screen alone.
#[tactic(auto, using(crate::proofs::Controls::not_both))]
pub fn control_screen_is_not_answered()
    ensures { (c : C0) → control_is_answered c ≡ true → control_changes_screen c ≡ false }
{}

/// The number of a mode is found, and is that of this mode.
#[tactic(auto, using(crate::proofs::Modes::found_by_number))]
pub fn mode_found()
    ensures { (m : Mode) → mode_of (number_of m) ≡ Some m }
{}

/// The mode that is found by a number has this number.
#[tactic(auto, using(crate::proofs::Modes::has_its_number))]
pub fn mode_has_its_number()
    ensures { (n : ℕ) (m : Mode) → mode_of n ≡ Some m → number_of m ≡ n }
{}

/// The number of a private mode is found, and is that of this mode.
#[tactic(auto, using(crate::proofs::PrivateModes::found_by_number))]
pub fn private_mode_found()
    ensures { (m : PrivateMode) → private_mode_of (private_number_of m) ≡ Some m }
{}

/// The mode that is found by a number has this number.
#[tactic(auto, using(crate::proofs::PrivateModes::has_its_number))]
pub fn private_mode_has_its_number()
    ensures { (n : ℕ) (m : PrivateMode) → private_mode_of n ≡ Some m → private_number_of m ≡ n }
{}
