//! This module says which sixel images can be written.
ghost use Rattle.std.specs.Prelude.{◌≡◌};
ghost use Rattle.std.specs.List.{list_all};
ghost use Rattle.esc_sixel.specs.Texts.{is_sixel};

use esc_sixel::SixelData;

// Returns whether its value, if it has one, is at most 63.
fn is_sixel(item: SixelData) -> bool
    ensures { result ≡ is_sixel item }
{
    match item {
        SixelData::Data(value)
        | SixelData::Repeat {
            repeat_count: _,
            content: value,
        } => value < 64,
        _ => true,
    }
}

/// Returns whether all values are at most 63.
pub(crate) fn are_sixels(content: &[SixelData]) -> bool
    ensures { result ≡ list_all is_sixel content.now }
{
    content.iter().all(|item| is_sixel(*item))
}
