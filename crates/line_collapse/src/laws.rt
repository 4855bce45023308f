//! Laws of the rest of lines. Each holds for every allocator `A`, which the type of the actions
//! names.
ghost use Rattle.std.specs.Prelude.{◌≡◌, ℕ, List, false};
ghost use Rattle.std.specs.List.{list_any};
ghost use Rattle.esc_filter.specs.Tokens.{IsColorText, IsPlainText};
ghost use Rattle.line_collapse.specs.Bounds.{IsBounded};
ghost use Rattle.line_collapse.specs.Streams.{final_of, left_of, selects, values_of};
ghost use Rattle.line_collapse.specs.Windows.{Size};

use std::alloc::Allocator;

/// The rest of the lines of any stream, and the rows of it that are final, are characters from
/// U+0020 to U+007E and from U+00A0 on, line feeds, renditions and links: text as
/// [`Policy::Color`](esc_filter::Policy::Color) lets it through, whatever the stream is.
pub fn leaves_color_text<A: Allocator>()
    ensures final_rows { (z : Size) (s : List ℕ) → IsColorText (final_of z (values_of A s)) }
    ensures all_rows { (z : Size) (s : List ℕ) → IsColorText (left_of z (values_of A s)) }
{}

/// A stream that selects no rendition and no link leaves none either.
pub fn leaves_plain_text<A: Allocator>()
    ensures final_rows { (z : Size) (s : List ℕ) → list_any selects (values_of A s) ≡ false
        → IsPlainText (final_of z (values_of A s)) }
    ensures all_rows { (z : Size) (s : List ℕ) → list_any selects (values_of A s) ≡ false
        → IsPlainText (left_of z (values_of A s)) }
{}

/// The rest of the lines is bounded by the number of the values of a stream and by the size of the
/// screen: each value adds at most as many rows as the screen has rows and columns, and a row at
/// most 608 bytes for each of its cells, and 228 more. Links may take 1 MiB besides.
pub fn is_bounded<A: Allocator>()
    ensures { IsBounded A }
{}
