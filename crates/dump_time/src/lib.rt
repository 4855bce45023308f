// SPDX-License-Identifier: MIT
//! The times of a terminal's output, for `escdump`: of recordings of asciinema, by their lines
//! ([`Cast`]), and of typescripts of script(1), by the timing file that it writes ([`Typescript`]).
//! A time is in microseconds since the recording began.
#![tactic(auto)]

mod cast;
mod clock;
mod seconds;
mod time_error;
mod timing;
mod typescript;

pub use cast::{Cast, Heard};
pub use seconds::micros_in;
pub use time_error::TimeError;
pub use typescript::{Run, Typescript};
