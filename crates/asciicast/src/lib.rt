// SPDX-License-Identifier: MIT
//! Recordings of terminal sessions in asciinema's format `.cast`, versions 2 and 3
//! (<https://docs.asciinema.org/manual/asciicast/v3/>): the output that the terminal got is
//! filtered, and all else stays as it is.
//!
//! A recording is a line of JSON for its header, and one for each event. The texts of the events of
//! output, one after another, are a stream; [`Recording`] takes a recording line by line, has the
//! stream filtered by any [`StreamFilter`](esc_filter::StreamFilter), and gives each line with the
//! text that the filter adds in the place of the event's text.
//!
//! ```text
//! let filter = Filter::new(alloc, 65_536, Policy::Color);
//! let mut recording = Recording::new(alloc, filter);
//! recording.take_line("[0.25, \"o\", \"\\u001b]0;title\\u0007$ \"]")?;
//! recording.text()       // "[0.25,\"o\",\"$ \"]\n"
//! ```
//!
//! [`event_in`] reads a line and writes nothing: the times and the texts of output and of input.
#![tactic(auto)]

mod cast_error;
mod event;
mod line;
mod recording;
mod spelled;

pub use cast_error::CastError;
pub use event::{Event, event_in};
pub use recording::Recording;
