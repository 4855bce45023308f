// SPDX-License-Identifier: MIT
//! Reads a stream of terminal escape sequences from standard input, and writes it in normal form to
//! standard output; with `--check` it says by its status whether the stream is in normal form.
#![tactic(auto)]

pub mod run;
pub mod task;

use esc_normal::Watched;
use output_file::{is_output, open_closed};
use run::Order;
pub use run::run;
use std::fs::metadata;
use std::process::ExitCode;
use std::{env, io};

fn main(rt: HostRuntime) -> ExitCode {
    open_closed(&rt);
    let Ok(words) = arguments(&rt) else {
        let _ = eprintln!(rt; "escnorm: read fault");
        return ExitCode::from(1);
    };
    let mut input = Watched::new(rt.stdin());
    let mut output = Watched::new(rt.stdout());
    let status = run(
        rt.alloc(),
        &words,
        order(&rt),
        &mut input,
        &mut output,
        &mut rt.stderr(),
    );
    ExitCode::from(status)
}

// Returns the time to write: once all is read if standard output is the file that is read, which
// would have no end otherwise.
fn order(rt: &HostRuntime) -> Order {
    if is_output(rt, metadata(rt, "/dev/stdin")) {
        Order::OnceRead
    } else {
        Order::AsItReads
    }
}

// Returns the words after the program's name.
fn arguments(rt: &HostRuntime) -> io::Result<Vec<String>> {
    let mut words = Vec::new(rt.alloc());
    for word in env::args(rt)?.skip(1) {
        words.push(word)?;
    }
    Ok(words)
}
