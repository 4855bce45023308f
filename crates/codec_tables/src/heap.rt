//! The allocator that refuses requests.
use failing_alloc::Refusing;
use std::alloc::{Allocator, Global};

const ITEMS: u64 = 100;

/// Returns whether it refuses the requests that it is asked to refuse, and no others.
pub fn is_exact(alloc: Global) -> bool {
    let heap = Refusing::new(alloc);
    let refused = refused_pushes(&heap);
    let growths = heap.requests();
    let is_quiet = refused == 0 && growths > 1 && !heap.has_refused();
    is_quiet && refuses_each(&heap, growths) && refuses_a_growth(&heap) && refuses_no_return(&heap)
}

// Pushes each number below `ITEMS` once, and counts the pushes that are refused.
fn refused_pushes(heap: &Refusing<Global>) -> u64 {
    let mut items = Vec::new(heap);
    let mut refused = 0u64;
    for item in 0..ITEMS {
        if items.push(item).is_err() {
            refused = refused.saturating_add(1);
        }
    }
    refused
}

// Returns whether each growth in turn is refused, and none if a later request is to be refused.
fn refuses_each(heap: &Refusing<Global>, growths: u64) -> bool {
    let mut is_right = true;
    for at in 1..=growths.saturating_add(1) {
        heap.refuse_at(at);
        let is_anew = heap.requests() == 0;
        let refused = refused_pushes(heap);
        let is_due = at <= growths;
        is_right &= is_anew && refused == u64::from(is_due) && heap.has_refused() == is_due;
    }
    is_right && heap.requests() == growths
}

// Returns whether there is room for one item more than there was.
fn grows<A: Allocator>(items: &mut Vec<u8, A>) -> bool {
    let more = items.capacity().saturating_add(1);
    items.reserve(more).is_ok() && items.capacity() >= more
}

// Returns whether the second growth is refused, after which the items have the room that they had.
fn refuses_a_growth(heap: &Refusing<Global>) -> bool {
    heap.refuse_at(2);
    let mut items = Vec::new(heap);
    let is_first = grows(&mut items);
    let held = items.capacity();
    let is_second = grows(&mut items);
    let is_kept = items.capacity() == held;
    let is_third = grows(&mut items);
    let is_pushed = items.push(7u8).is_ok() && items.len() == 1;
    is_first && !is_second && is_kept && is_third && is_pushed
}

// Returns a number in a block of its own, which is given back then.
fn boxed(heap: &Refusing<Global>, number: u8) -> Option<u8> {
    match Box::new(heap, number) {
        Ok(boxed) => Some(*boxed),
        Err(_) => None,
    }
}

// Giving a block back is no request.
fn refuses_no_return(heap: &Refusing<Global>) -> bool {
    heap.refuse_at(0);
    let first = Box::new(heap, 1u8);
    heap.refuse_at(1);
    drop(first);
    let is_none = heap.requests() == 0;
    let (second, third) = (boxed(heap, 2), boxed(heap, 3));
    is_none && second.is_none() && third == Some(3) && heap.requests() == 2
}
