//! A law of the output.
ghost use Rattle.esc_sanitize.specs.Written.{IsOfTokens};
ghost use Rattle.esc_sanitize.specs.declared.options.FilterOptions.{FilterOptions};

use esc_filter::{Admit, writes_color_text, writes_plain_text};
use line_collapse::leaves_color_text;
use std::alloc::Allocator;

/// If the policy admits no more than `Policy::Text`, or than `Policy::Color`, the output is text
/// without a control but tabs and line ends, or such text, renditions and links: whatever the
/// stream is, and also if bytes that do not pass are shown, or rows are written again.
pub fn writes_chunks<P: Admit<A>, A: Allocator>()
    ensures { (o : FilterOptions P) → IsOfTokens P.Admit o }
{
    writes_plain_text::<A>();
    writes_color_text::<A>();
    leaves_color_text::<A>();
}
