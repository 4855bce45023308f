//! Two texts, one after the other.
ghost use Rattle.std.specs.Prelude.{◌≡◌, ◌++◌, OnErr, OnOk, string_bytes};
ghost use Rattle.esc_html.specs.Growing.{Grows};
ghost use Rattle.fallible_alloc.specs.Refusals.{Refused};

use std::alloc::{AllocError, Allocator};

/// Appends two texts; if memory is refused, the first one may be there.
pub(crate) fn push_pair<A: Allocator>(
    html: &mut String<A>,
    first: &str,
    second: &str,
) -> Result<(), AllocError>
    ensures ok { OnOk result (string_bytes html.new
        ≡ string_bytes html.old ++ (first.now ++ second.now)) }
    ensures grown { Grows (string_bytes html.old) (string_bytes html.new) }
    ensures refused { OnErr result (Refused A) }
{
    fallible_alloc::push_str(html, first)?;
    fallible_alloc::push_str(html, second)
}
