//! Sizes, in bytes.
ghost use Rattle.std.specs.Prelude.{◌≡◌, MatchOption, false, map, true};
ghost use Rattle.std.specs.Option.{option_map};
ghost use Rattle.command_line.specs.Sizes.{text_before_unit, is_size, size_value, without_unit};

// The units that may follow a number, each with its factor: the longer ones first.
const UNITS: [(&str, usize); 6] = [
    ("KiB", 0x400),
    ("MiB", 0x10_0000),
    ("GiB", 0x4000_0000),
    ("K", 0x400),
    ("M", 0x10_0000),
    ("G", 0x4000_0000),
];

/// Returns the size that a text names: a number in decimal, and no unit, or `K`, `M` or `G`, with
/// or without `iB` after it, for 2^10, 2^20 or 2^30 bytes. None if it is another text, or the size
/// does not fit a `usize`.
pub fn size_of(text: &str) -> Option<usize>
    ensures { MatchOption result (is_size text.now ≡ false)
        (λ n. (is_size text.now ≡ true) × (n ≡ size_value text.now)) }
{
    let (number, factor) = without_unit(&UNITS, text);
    match number.parse::<usize>() {
        Ok(number) => number.checked_mul(factor),
        Err(_) => None,
    }
}

// Returns a text without the first of these units that it ends with, and the unit's factor.
fn without_unit<'a>(units: &[(&str, usize)], text: &'a str) -> (&'a str, usize)
    ensures { (result.0.now, result.1)
        ≡ without_unit (map (λ u. (u.0.now, u.1)) units.now) text.now }
{
    for (unit, factor) in units {
        if let Some(number) = cut(unit, text) {
            return (number, *factor);
        }
    }
    (text, 1)
}

// Returns the text before this unit, if a text ends with it.
fn cut<'a>(unit: &str, text: &'a str) -> Option<&'a str>
    ensures { option_map (λ t. t.now) result ≡ text_before_unit unit.now text.now }
{
    text.strip_suffix(unit)
}
