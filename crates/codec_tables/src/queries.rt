//! Termcap queries.
use esc_values::{Items, Text};
use std::alloc::{AllocError, Allocator, Global};
use xtgettcap::{GetTcapBuilder, TcapQuery};

/// Returns the number of names of a query whose data is written as it came. Its bytes are taken one
/// by one.
pub fn query_of<A: Allocator + Copy>(
    alloc: Global,
    heap: A,
    data: &[u8],
) -> Result<String, AllocError> {
    let mut builder = GetTcapBuilder::new(heap);
    let mut is_taken = true;
    for byte in data {
        is_taken &= builder.push(*byte).is_ok();
    }
    match builder.finish() {
        Ok(names) if is_taken => again(alloc, data, &names),
        _ => Err(AllocError),
    }
}

fn again<A: Allocator>(
    alloc: Global,
    data: &[u8],
    names: &Items<Text<A>, A>,
) -> Result<String, AllocError> {
    let query = TcapQuery(names.as_slice());
    let text = format!(in alloc; "{query}")?;
    let is_same = text.as_bytes().strip_prefix(b"\x1bP+q".as_slice()) == Some(data);
    format!(in alloc; "{}, written as it came: {is_same}", names.len())
}
