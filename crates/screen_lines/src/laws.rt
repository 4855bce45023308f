//! Laws of the text of rows. They hold for all rows: nothing is asked of their cells.
ghost use Rattle.std.specs.Prelude.{◌≡◌, List, false};
ghost use Rattle.std.specs.List.{All};
ghost use Rattle.esc_filter.specs.Tokens.{IsColorText, IsPlainText};
ghost use Rattle.esc_terminal.specs.Links.{first_known};
ghost use Rattle.esc_terminal.specs.Scrolled.{Row};
ghost use Rattle.screen_lines.specs.Bounds.{AreBounded};
ghost use Rattle.screen_lines.specs.Parts.{Out};
ghost use Rattle.screen_lines.specs.Rows.{out_by_rows};

/// Rows add only characters from U+0020 to U+007E and from U+00A0 on, line feeds, renditions and
/// links: the parts of a text under [`Policy::Color`](esc_filter::Policy::Color).
pub fn are_color_text()
    ensures { (o : Out) (rs : List Row) → IsColorText o.text → IsColorText (out_by_rows o rs).text }
{}

/// If no look but the plain one and no link is known, they add no renditions and no links: only the
/// parts of a text under [`Policy::Text`](esc_filter::Policy::Text).
pub fn are_plain_text()
    ensures { (o : Out) (rs : List Row) → o.ink.leads ≡ false → All (λ r. r.1 ≡ first_known) rs
        → IsPlainText o.text → IsPlainText (out_by_rows o rs).text }
{}

/// The text of rows is bounded: a row of so many cells adds at most 608 bytes for each, and 228
/// more, besides 1 MiB that links may take. The numbers of colours are bytes, as in a
/// [`Color`](esc_style::Color).
pub fn are_bounded()
    ensures { AreBounded }
{}
