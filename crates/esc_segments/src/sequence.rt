//! Sequences of UTF-8 at their place in the bytes.
#![tactic(auto)]

ghost use Rattle.std.specs.Prelude.{◌≡◌, ◌<◌, true, slice_index};
ghost use Rattle.esc_frame.specs.Sequences.{is_from, is_second};
ghost use Rattle.esc_segments.specs.Places.{HasLead, IsSequence};

/// The sequence of UTF-8 that a byte C2 to F4 begins.
#[derive(Clone, Copy)]
pub enum Ahead {
    /// A well-formed sequence of so many bytes, no control.
    Whole(usize),
    /// So many bytes of one, which the next byte does not continue.
    Broken(usize),
    /// All bytes are a prefix of one.
    Pending,
    /// The two bytes of a control of C1: C2 and its number.
    Control(u8),
}

#[inline(always)]
fn lies_from(low: u8, high: u8, b: u8) -> bool
    ensures { result ≡ is_from low high b }
{
    low <= b && b <= high
}

#[inline(always)]
fn is_second(a: u8, b: u8) -> bool
    ensures { result ≡ is_second a b }
{
    if a == 0xe0 {
        lies_from(0xa0, 0xbf, b)
    } else if a == 0xed {
        lies_from(0x80, 0x9f, b)
    } else if a == 0xf0 {
        lies_from(0x90, 0xbf, b)
    } else if a == 0xf4 {
        lies_from(0x80, 0x8f, b)
    } else {
        lies_from(0x80, 0xbf, b)
    }
}

/// Returns the sequence that comes first.
pub fn sequence_ahead(bytes: &[u8]) -> Ahead
    requires { HasLead 0 0xc2 0xf4 bytes.now }
    ensures { IsSequence bytes.now result }
{
    if bytes.len() == 1 {
        Ahead::Pending
    } else if bytes[0] < 0xe0 {
        of_two(bytes)
    } else if is_second(bytes[0], bytes[1]) {
        of_three(bytes)
    } else {
        Ahead::Broken(1)
    }
}

// Returns one of two bytes.
fn of_two(bytes: &[u8]) -> Ahead
    requires { HasLead 1 0xc2 0xdf bytes.now }
    ensures { IsSequence bytes.now result }
{
    if !lies_from(0x80, 0xbf, bytes[1]) {
        Ahead::Broken(1)
    } else if bytes[0] != 0xc2 {
        Ahead::Whole(2)
    } else if bytes[1] <= 0x9f {
        Ahead::Control(bytes[1])
    } else {
        Ahead::Whole(2)
    }
}

// Returns one of three or four bytes, after its second.
fn of_three(bytes: &[u8]) -> Ahead
    requires lead { HasLead 1 0xe0 0xf4 bytes.now }
    requires second { is_second (slice_index bytes.now 0) (slice_index bytes.now 1) ≡ true }
    ensures { IsSequence bytes.now result }
{
    if bytes.len() == 2 {
        Ahead::Pending
    } else if !lies_from(0x80, 0xbf, bytes[2]) {
        Ahead::Broken(2)
    } else if bytes[0] < 0xf0 {
        Ahead::Whole(3)
    } else {
        of_four(bytes)
    }
}

// Returns one of four bytes, after its third.
fn of_four(bytes: &[u8]) -> Ahead
    requires lead { HasLead 2 0xf0 0xf4 bytes.now }
    requires second { is_second (slice_index bytes.now 0) (slice_index bytes.now 1) ≡ true }
    requires third { is_from 0x80 0xbf (slice_index bytes.now 2) ≡ true }
    ensures { IsSequence bytes.now result }
{
    if bytes.len() == 3 {
        Ahead::Pending
    } else if lies_from(0x80, 0xbf, bytes[3]) {
        Ahead::Whole(4)
    } else {
        Ahead::Broken(3)
    }
}
