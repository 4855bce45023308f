//! This module defines the parts that make streams.
use crate::fault::Fault;
use crate::random::Random;
use crate::unescaped::unescaped;
use std::alloc::Global;

// These parts make streams, beside bytes by themselves, with `|` between: openers, ends, and the
// content of strings and sequences. They are one text, since a table of so many is dear to prove.
const PARTS: &str = "\
\\x1b|\\x1b[|\\x1b]|\\x1bP|\\x1b_|\\x1bX|\\x1b^|\\x9b|\\x9d|\\x90|\\x9f|\\x98|\\x9e|\
\\xc2\\x9b|\\xc2\\x9d|\\xc2\\x90|\\xc2\\x9f|\\xc2\\x98|\\x9c|\\xc2\\x9c|\\x1b\\\\|\\x07|\
\\x18|\\x1a|\\x85|\\xc2\\x85|\\xc2|\\x00|\\x0a|\\x7f|\\xff|\\xa0| |!|\"|#|$|(|/|0|1|12|\
255|9999999999|9223372036854775808|:|;|;;|<|=|>|?|A|H|m|38;2;1;2;3m|4:3m|q|$q|+q|~~~|-|\
!12~|\"1;1;9;6|#0;2;100;0;50|5a|616263|0;|2;title|4;1;red|7;file:///|8;id=a;http://b|\
9;4;1;50|10;?|52;c;YQ==|104|133;A|777;notify;a|1337;File=inline=1:YQ==|1337;SetMark|G|\
Ga=T,f=100;YQ==|a=d,d=A|text|\\\\|]|[|P|\\xc3\\xa9|\\xe2\\x82\\xac|\\xe2\\x82|\
\\xed\\xa0\\x80|\\xf0\\x9f\\x98\\x80|\\xf0\\x9f\\x98|\\xf4\\x90|\\xc1\\xbf";

// The number of the last chunk.
const LAST_PART: u8 = 95;

// Says how many parts a stream has at most.
const MOST_PARTS: u8 = 48;

/// Makes a stream of random bytes, of chunks, or of both.
pub fn make_stream(alloc: Global, random: &mut Random, stream: &mut Vec<u8>) -> Result<(), Fault> {
    let raw = random.up_to(4);
    for _ in 0..random.up_to(MOST_PARTS) {
        if random.up_to(4) < raw {
            stream.push(random.byte())?;
        } else {
            add_input_chunk(alloc, random.up_to(LAST_PART), stream)?;
        }
    }
    Ok(())
}

// Adds the chunk of this number.
fn add_input_chunk(alloc: Global, number: usize, stream: &mut Vec<u8>) -> Result<(), Fault> {
    let text = PARTS.split('|').nth(number).unwrap_or("");
    let input_chunk = unescaped(alloc, text)?;
    Ok(stream.extend_from_slice(&input_chunk)?)
}
