//! The private prefix and the intermediates of a control sequence, and its key.
ghost use Rattle.std.specs.Prelude.{◌≡◌, ◌<◌, ◌≤◌, ◌^◌, ◌+◌, ◌*◌, ℕ, List, [], ◌∷◌, IfNone, IfSome};
ghost use Rattle.control_functions.specs.Functions.{is_long, key_with, key_beginning, mark_of, marks, put_mark};
ghost use Rattle.control_functions.specs.Rows.{base_256};

use esc_values::CsiParam;

// Returns the marks of these parameters, as digits to the base 256 after a 1. `None` if there are
// more than two, which no function has.
#[tactic(auto, using(crate::proofs::Packed::packed_next))]
#[inline]
pub(crate) fn packed_marks(csi_params: &[CsiParam]) -> Option<u32>
    ensures same { IfSome result (λ m. m ≡ base_256 1 (marks csi_params.now)) }
    ensures few { IfSome result (λ m. m < 2 ^ 24) }
    ensures many { IfNone result (2 ^ 24 ≤ base_256 1 (marks csi_params.now)) }
{
    let mut packed = 1;
    for entry in csi_params {
        packed = with_mark(packed, mark_of(*entry))?;
    }
    Some(packed)
}

// Returns these marks and one more, if there is one; `None` if that is the third.
#[inline]
fn with_mark(packed: u32, mark: Option<u8>) -> Option<u32>
    requires { packed < 2 ^ 24 }
    ensures same { IfSome result (λ m. (bs : List ℕ)
        → base_256 packed (put_mark mark bs) ≡ base_256 m bs) }
    ensures few { IfSome result (λ m. m < 2 ^ 24) }
    ensures many { IfNone result ((bs : List ℕ) → 2 ^ 24 ≤ base_256 packed (put_mark mark bs)) }
{
    match mark {
        None => Some(packed),
        Some(mark) if packed < 0x1_0000 => Some(pushed(packed, mark)),
        Some(_) => None,
    }
}

// Returns these marks and one more.
#[inline]
fn pushed(packed: u32, mark: u8) -> u32
    requires { packed < 0x1_0000 }
    ensures same { (bs : List ℕ) → base_256 packed (mark ∷ bs) ≡ base_256 result bs }
    ensures few { result < 2 ^ 24 }
{
    packed * 0x100 + mark as u32
}

// Returns the byte of the parameter, if it is no number and separates no two.
#[inline]
fn mark_of(entry: CsiParam) -> Option<u8>
    ensures { result ≡ mark_of entry }
{
    match entry {
        CsiParam::P(b';') | CsiParam::P(b':') | CsiParam::Integer(_) => None,
        CsiParam::P(byte) => Some(byte),
    }
}

// Returns these marks, packed.
pub(crate) fn marks_of(private_prefix: Option<u8>, intermediate: Option<u8>) -> u32
    ensures same { result ≡ base_256 1 (put_mark private_prefix (put_mark intermediate [])) }
    ensures few { result < 2 ^ 24 }
{
    match (private_prefix, intermediate) {
        (None, None) => 1,
        (Some(a), None) => 0x100 + a as u32,
        (None, Some(b)) => 0x100 + b as u32,
        (Some(a), Some(b)) => (0x100 + a as u32) * 0x100 + b as u32,
    }
}

// Returns the key of a sequence of these marks, with so many parameters and this final byte.
#[inline]
pub(crate) fn key_with(marks: u32, count: usize, last: u8) -> u32
    requires { marks < 2 ^ 24 }
    ensures { result ≡ key_with marks count last }
{
    lead(marks, count, last) * 0x100 + last as u32
}

// Returns the beginning of that key.
#[inline]
fn lead(marks: u32, count: usize, last: u8) -> u32
    requires { marks < 2 ^ 24 }
    ensures same { result ≡ key_beginning marks count last }
    ensures few { result < 2 ^ 24 }
{
    if marks != 1 {
        return marks;
    }
    if is_long(last, count) { 2 } else { 1 }
}

// Returns whether a sequence with so many parameters has the second function of its final byte.
#[inline]
fn is_long(last: u8, count: usize) -> bool
    ensures { result ≡ is_long last count }
{
    (last == b'T' && count >= 2) || ((last == b's' || last == b'u') && count >= 1)
}
