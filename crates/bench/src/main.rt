//! This module says how fast a stream is framed, parsed, written and normalised, and its images
//! read.
//!
//! `bench [--counts] [MEASURE..] < STREAM` reads a stream whole and prints a line for each measure,
//! `framing`, `parse`, `parse_borrowed`, `parse_reusing`, `parse_first`, `parse_first_as_vec`,
//! `parse_first_into`, `encode`, `normalise`, `images` or `endless` (all if none is named): its
//! best speed of several passes in MB/s (10^6 bytes a second), and its counts. `--counts` leaves
//! out the speed, so that the output depends on the stream alone.
#![tactic(auto)]

mod borrowed_tally;
mod count;
mod counted;
mod images;
mod input;
mod measure;
mod speed;
mod tally;
mod wanted;

use crate::input::Input;
use crate::measure::Measure;
use crate::speed::Speed;
use crate::wanted::Wanted;
use escape_stream::{Action, ParseError, Parser};
use std::alloc::Global;
use std::io::Read;
use std::process::ExitCode;
use std::time::Instant;
use std::{env, io};

/// Says how often each measure is taken.
const PASSES: u32 = 5;

fn main(rt: HostRuntime) -> io::Result<ExitCode> {
    let mut wanted = Wanted::new();
    for word in env::args(&rt)?.skip(1) {
        wanted.take(word.as_str());
    }
    if !wanted.is_known {
        eprintln!(rt;
            "usage: bench [--counts] [MEASURE..] < STREAM; docs/PERFORMANCE.md names the measures"
        )?;
        return Ok(ExitCode::from(2));
    }
    let is_taken = take_all(&rt, wanted)?;
    Ok(ExitCode::from(u8::from(!is_taken)))
}

/// Takes the measures of standard input. False if a call fails.
fn take_all(rt: &HostRuntime, wanted: Wanted) -> io::Result<bool> {
    let mut bytes = Vec::new(rt.alloc());
    rt.stdin().read_to_end(&mut bytes)?;
    let listed = if wanted.with_actions || !wanted.is_named {
        bytes.as_slice()
    } else {
        b""
    };
    match &actions_of(rt.alloc(), listed) {
        Ok(actions) => report_all(
            rt,
            wanted,
            Input {
                bytes: &bytes,
                actions,
            },
        ),
        Err(error) => {
            eprintln!(rt; "{error}")?;
            Ok(false)
        }
    }
}

fn actions_of(alloc: Global, stream: &[u8]) -> Result<Vec<Action>, ParseError> {
    Parser::new(alloc).parse_as_vec(stream)
}

/// Reports the measures that are named, all if none is. False if a call fails.
fn report_all(rt: &HostRuntime, wanted: Wanted, input: Input<'_>) -> io::Result<bool> {
    let mut is_taken = true;
    if !wanted.is_named {
        for measure in Measure::ALL {
            is_taken &= report(rt, measure, input, wanted.with_speed)?;
        }
        return Ok(is_taken);
    }
    for word in env::args(rt)?.skip(1) {
        if let Some(measure) = Measure::named(word.as_str()) {
            is_taken &= report(rt, measure, input, wanted.with_speed)?;
        }
    }
    Ok(is_taken)
}

/// Takes a measure several times, and prints its best speed and its counts. False if a call fails.
fn report(
    rt: &HostRuntime,
    measure: Measure,
    input: Input<'_>,
    with_speed: bool,
) -> io::Result<bool> {
    let mut best = u64::MAX;
    let mut counted = measure.pass(rt.alloc(), input);
    for _ in 0..PASSES {
        let start = Instant::now(rt)?;
        counted = measure.pass(rt.alloc(), input);
        let nanoseconds = start.elapsed(rt)?.as_nanos();
        best = best.min(u64::try_from(nanoseconds).unwrap_or(u64::MAX));
    }
    let Some(counted) = counted else {
        eprintln!(rt; "{measure} fails")?;
        return Ok(false);
    };
    if with_speed {
        let speed = Speed::of(measure.bytes(input), best);
        println!(rt; "{measure} {speed} MB/s, {counted}")?;
    } else {
        println!(rt; "{measure} {counted}")?;
    }
    Ok(true)
}
