//! A time as text.

use fallible_alloc::{push_display, push_str};
use std::alloc::{AllocError, Global};

/// Returns the line before a screen of a recording: this time, in microseconds, as seconds with
/// three digits after the point.
pub fn heading_of(alloc: Global, time: u64) -> Result<String, AllocError> {
    let thousandths = time.saturating_add(500) / 1000;
    let rest = thousandths % 1000;
    let zeros = if rest < 10 {
        ".00"
    } else if rest < 100 {
        ".0"
    } else {
        "."
    };
    let mut line = String::new(alloc);
    push_str(&mut line, "-- ")?;
    push_display(&mut line, &(thousandths / 1000))?;
    push_str(&mut line, zeros)?;
    push_display(&mut line, &rest)?;
    push_str(&mut line, " s --\n")?;
    Ok(line)
}
