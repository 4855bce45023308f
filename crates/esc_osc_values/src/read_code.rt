//! This module reads the code of a command.
ghost use Rattle.std.specs.Prelude.{◌≡◌, [], map};
ghost use Rattle.esc_osc_values.specs.Codes.{code_name, code_of};

use crate::code::OperatingSystemCommandCode;

/// Returns the code that the lossy text of the first part names, alone or before `args`.
pub fn code_in(first: &str, args: &[&[u8]]) -> Option<OperatingSystemCommandCode>
    ensures { result ≡ code_of (code_name first.now (map (λ p. p.now) args.now)) }
{
    if !args.is_empty() {
        return OperatingSystemCommandCode::from_code(first);
    }
    code_alone(first)
}

// Returns the code that the lossy text of an only part names.
fn code_alone(first: &str) -> Option<OperatingSystemCommandCode>
    ensures { result ≡ code_of (code_name first.now []) }
{
    if first.is_empty() {
        return None;
    }
    let letter = first.as_bytes()[0];
    if letter >= b'0' && letter <= b'9' {
        return OperatingSystemCommandCode::from_code(first);
    }
    if letter == b'l' {
        return Some(OperatingSystemCommandCode::SetWindowTitleSun);
    }
    if letter == b'L' {
        return Some(OperatingSystemCommandCode::SetIconNameSun);
    }
    None
}
