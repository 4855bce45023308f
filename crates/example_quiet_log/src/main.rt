//! Takes the titles and the notifications out of a log: reads a stream from standard input, and
//! writes the rest of it, as it comes, to standard output.
#![tactic(auto)]

mod quiet;

use crate::quiet::Quiet;
use esc_filter::{FilterError, filter_stream};
use esc_normal::Watched;

const LIMIT: usize = 1_048_576;

fn main(rt: HostRuntime) -> Result<(), FilterError> {
    let mut reader = Watched::new(rt.stdin());
    let mut writer = Watched::new(rt.stdout());
    filter_stream(rt.alloc(), &mut reader, &mut writer, LIMIT, Quiet)
}
