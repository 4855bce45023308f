//! Reads a stream that comes in two chunks, and writes it again.
#![tactic(auto)]

use anyhow::Result;
use escape_stream::{Parser, encode};

fn main(rt: HostRuntime) -> Result<()> {
    let mut parser = Parser::new(rt.alloc());
    for chunk in [b"\x1b]0;a ti".as_slice(), b"tle\x07x".as_slice()] {
        println!(rt; "{} bytes:", chunk.len())?;
        parser.parse(chunk, |action| {
            let _ = println!(rt; "  {action:?}");
        })?;
    }
    let actions = Parser::new(rt.alloc()).parse_as_vec(b"\x1b]0;a title\x07x")?;
    let text = encode(rt.alloc(), &actions)?;
    println!(rt; "{text:?}")?;
    Ok(())
}
