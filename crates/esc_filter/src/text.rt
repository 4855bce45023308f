//! A text with memory that is used again.
ghost use Rattle.std.specs.Prelude.{◌≡◌, []};

use esc_values::Text;
use std::alloc::Allocator;

/// Returns the empty text, in the memory of this one.
pub(crate) fn emptied<A: Allocator>(text: Text<A>) -> Text<A>
    ensures { result ≡ [] }
{
    let mut string = text.into_string();
    string.clear();
    Text::from_string(string)
}
