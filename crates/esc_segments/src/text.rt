//! The text of operating system commands.
#![tactic(auto)]

ghost use Rattle.std.specs.Prelude.{◌<◌, ◌≤◌, length};
ghost use Rattle.esc_frame.specs.declared.classes.Kind.TheVariants as kind;
ghost use Rattle.esc_segments.specs.Places.{HasLead, IsUnit, IsOpened};

use crate::bytes::is_breaker;
use crate::found::Found;
use crate::kind::SegmentKind;
use crate::runs::text_run;
use crate::sequence::{Ahead, sequence_ahead};

/// The first unit of the text.
#[derive(Clone, Copy)]
pub enum Unit {
    /// Whole units of the text, so many bytes.
    Kept(usize),
    /// 07, which ends it.
    Bell,
    /// A breaker, which ends the text before it.
    Breaker,
    /// All bytes are a prefix of a sequence of UTF-8.
    Pending,
}

// Returns the units that come first.
fn unit_ahead(text: &[u8]) -> Unit
    requires { 0 < length text.now }
    ensures { IsUnit text.now result }
{
    let run = text_run(text);
    if run > 0 {
        Unit::Kept(run)
    } else if text[0] == 0x07 {
        Unit::Bell
    } else if is_breaker(text[0]) {
        Unit::Breaker
    } else {
        sequence_unit(text)
    }
}

// Returns the sequence that comes first.
fn sequence_unit(text: &[u8]) -> Unit
    requires { HasLead 0 0xc2 0xf4 text.now }
    ensures { IsUnit text.now result }
{
    match sequence_ahead(text) {
        Ahead::Whole(count) => Unit::Kept(count),
        Ahead::Broken(count) => Unit::Kept(count),
        Ahead::Pending => Unit::Pending,
        Ahead::Control(_) => Unit::Breaker,
    }
}

/// Returns an operating system command, after its opener.
pub fn osc(text: &[u8]) -> Found
    ensures found { IsOpened kind.Osc text.now result }
    ensures few { result.len ≤ length text.now }
{
    let mut end = 0;
    while end < text.len() {
        match unit_ahead(&text[end..]) {
            Unit::Kept(count) => end += count,
            Unit::Bell => return Found::finished(SegmentKind::Osc, end + 1),
            Unit::Breaker => return Found::finished(SegmentKind::Osc, end),
            Unit::Pending => return Found::unfinished(SegmentKind::Osc, text.len()),
        }
    }
    Found::unfinished(SegmentKind::Osc, end)
}
