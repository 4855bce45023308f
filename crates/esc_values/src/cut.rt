//! Bytes that are cut at a character, and keys with their values.
ghost use Rattle.std.specs.Prelude.{◌≡◌};
ghost use Rattle.std.specs.Option.{option_map};
ghost use Rattle.esc_values.specs.Cuts.{cut_at, key_and_value};

use crate::scalar::text_in;

/// Returns the bytes before and after the first `at`; none if there is no `at`.
pub fn cut(bytes: &[u8], at: u8) -> Option<(&[u8], &[u8])>
    ensures { option_map (λ p. (p.0.now, p.1.now)) result ≡ cut_at at bytes.now }
{
    let mut index = 0;
    while index < bytes.len() {
        if bytes[index] == at {
            return Some((&bytes[..index], &bytes[index + 1..]));
        }
        index += 1;
    }
    None
}

/// Returns the key before the first `=` and the value after it; none if there is no `=`, or one of
/// them is no UTF-8.
pub fn key_and_value(stretch: &[u8]) -> Option<(&str, &str)>
    ensures { option_map (λ e. (e.0.now, e.1.now)) result ≡ key_and_value stretch.now }
{
    let Some((key, value)) = cut(stretch, b'=') else {
        return None;
    };
    match (text_in(key), text_in(value)) {
        (Some(key), Some(value)) => Some((key, value)),
        _ => None,
    }
}
