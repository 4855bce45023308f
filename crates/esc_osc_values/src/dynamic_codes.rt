//! Codes change and reset a dynamic colour.
ghost use Rattle.std.specs.Prelude.{◌≡◌};
ghost use Rattle.esc_osc_values.specs.Codes.{change_code, changed_by, reset_by, reset_code};

use crate::code::OperatingSystemCommandCode;
use crate::dynamic_color_number::DynamicColorNumber;
use esc_values::scalar::read_u8;

/// Returns the code that changes this colour.
pub fn change_code(color: DynamicColorNumber) -> OperatingSystemCommandCode
    ensures { result ≡ change_code color }
{
    match color {
        DynamicColorNumber::TextForegroundColor =>
            OperatingSystemCommandCode::SetTextForegroundColor,
        DynamicColorNumber::TextBackgroundColor =>
            OperatingSystemCommandCode::SetTextBackgroundColor,
        DynamicColorNumber::TextCursorColor => OperatingSystemCommandCode::SetTextCursorColor,
        DynamicColorNumber::MouseForegroundColor =>
            OperatingSystemCommandCode::SetMouseForegroundColor,
        DynamicColorNumber::MouseBackgroundColor =>
            OperatingSystemCommandCode::SetMouseBackgroundColor,
        DynamicColorNumber::TektronixForegroundColor =>
            OperatingSystemCommandCode::SetTektronixForegroundColor,
        DynamicColorNumber::TektronixBackgroundColor =>
            OperatingSystemCommandCode::SetTektronixBackgroundColor,
        DynamicColorNumber::HighlightBackgroundColor =>
            OperatingSystemCommandCode::SetHighlightBackgroundColor,
        DynamicColorNumber::TektronixCursorColor =>
            OperatingSystemCommandCode::SetTektronixCursorColor,
        DynamicColorNumber::HighlightForegroundColor =>
            OperatingSystemCommandCode::SetHighlightForegroundColor,
    }
}

/// Returns the code that resets this colour.
pub fn reset_code(color: DynamicColorNumber) -> OperatingSystemCommandCode
    ensures { result ≡ reset_code color }
{
    match color {
        DynamicColorNumber::TextForegroundColor =>
            OperatingSystemCommandCode::ResetTextForegroundColor,
        DynamicColorNumber::TextBackgroundColor =>
            OperatingSystemCommandCode::ResetTextBackgroundColor,
        DynamicColorNumber::TextCursorColor => OperatingSystemCommandCode::ResetTextCursorColor,
        DynamicColorNumber::MouseForegroundColor =>
            OperatingSystemCommandCode::ResetMouseForegroundColor,
        DynamicColorNumber::MouseBackgroundColor =>
            OperatingSystemCommandCode::ResetMouseBackgroundColor,
        DynamicColorNumber::TektronixForegroundColor =>
            OperatingSystemCommandCode::ResetTektronixForegroundColor,
        DynamicColorNumber::TektronixBackgroundColor =>
            OperatingSystemCommandCode::ResetTektronixBackgroundColor,
        DynamicColorNumber::HighlightBackgroundColor =>
            OperatingSystemCommandCode::ResetHighlightColor,
        DynamicColorNumber::TektronixCursorColor =>
            OperatingSystemCommandCode::ResetTektronixCursorColor,
        DynamicColorNumber::HighlightForegroundColor =>
            OperatingSystemCommandCode::ResetHighlightForegroundColor,
    }
}

/// Returns the colour that a code changes; none if it changes none.
pub fn changed_by(code: OperatingSystemCommandCode) -> Option<DynamicColorNumber>
    ensures { result ≡ changed_by code }
{
    let number = read_u8(code.as_code().as_bytes())?;
    DynamicColorNumber::from_number(number)
}

/// Returns the colour that a code resets; none if it resets none.
pub fn reset_by(code: OperatingSystemCommandCode) -> Option<DynamicColorNumber>
    ensures { result ≡ reset_by code }
{
    let number = read_u8(code.as_code().as_bytes())?;
    DynamicColorNumber::from_number(number.saturating_sub(100))
}
