//! This module reads the body of a short control sequence straight into a list of parameters.
#![tactic(auto)]

ghost use Rattle.std.specs.Prelude.{◌≡◌, ◌<◌, ◌≤◌, ◌+◌, ◌++◌, true, false, ℕ, List, ◌∷◌, [], length, take, pos};
ghost use Rattle.esc_values.specs.declared.csi_param.CsiParam.{CsiParam as Parameter};
ghost use Rattle.esc_frame.specs.Machine.Shorts.{IsAfter, IsPrefix, PutsBody, PutsField, PutsNumber, ReadsFollowed, first_params};
ghost use Rattle.esc_frame.specs.Scans.{StartsWithDigit};

use crate::unfinished::csi_params::next_number;
use crate::utf8::sequence::lies_from;
use esc_values::csi_param::CsiParam;

/// This is a parameter, in the form in which a list keeps it.
pub trait Param: Copy {
    // is the parameter that a value stands for
    ghost param: { Self → Parameter };

    /// Returns a byte that is a parameter by itself.
    fn of_byte(byte: u8) -> Self
        ensures { param result ≡ CsiParam.P byte };

    /// Returns a number.
    fn of_number(number: u64) -> Self
        requires { number ≤ 0x7fff_ffff_ffff_ffff }
        ensures { param result ≡ CsiParam.Integer (pos number) };
}

impl Param for CsiParam {
    ghost param = { λ p. p };

    #[inline(always)]
    fn of_byte(byte: u8) -> Self {
        CsiParam::P(byte)
    }

    #[inline(always)]
    fn of_number(number: u64) -> Self {
        CsiParam::Integer(number as i64)
    }
}

// A field has its length, the number of parameters after it, whether a separator ended it, and else
// the byte after it, or 0.
#[derive(Clone, Copy)]
struct Field {
    length: usize,
    count: usize,
    goes_on: bool,
    after: u8,
}

/// A body has its length, the number of its parameters, and the byte after it, or 0 if there is
/// none or there are too many parameters.
#[derive(Clone, Copy)]
pub struct Body {
    pub length: usize,
    pub count: usize,
    pub after: u8,
}

/// Writes the parameter after those that there are.
#[inline(always)]
pub fn put<E: Param>(csi_params: &mut [E], count: usize, entry: E)
    requires { count < length csi_params.old }
    ensures { first_params E.param (count + 1) csi_params.new
        ≡ first_params E.param count csi_params.old ++ E.param entry ∷ [] }
{
    csi_params[count] = entry;
}

// Writes a byte that is a parameter by itself.
#[inline(always)]
fn put_byte<E: Param>(csi_params: &mut [E], count: usize, byte: u8)
    requires { count < length csi_params.old }
    ensures { first_params E.param (count + 1) csi_params.new
        ≡ first_params E.param count csi_params.old ++ CsiParam.P byte ∷ [] }
{
    put(csi_params, count, E::of_byte(byte))
}

// Writes a number.
#[inline(always)]
fn put_integer<E: Param>(csi_params: &mut [E], count: usize, number: u64)
    requires room { count < length csi_params.old }
    requires small { number ≤ 0x7fff_ffff_ffff_ffff }
    ensures { first_params E.param (count + 1) csi_params.new
        ≡ first_params E.param count csi_params.old ++ CsiParam.Integer (pos number) ∷ [] }
{
    put(csi_params, count, E::of_number(number))
}

// Returns the number that the digits at the start write, at least one, how many they are, and the
// byte after them, or 0. Most numbers have at most three digits; of others the function reads only
// the first digit, unless `any` says otherwise.
#[inline(always)]
fn read_number(rest: &[u8], any: bool) -> (u64, usize, u8)
    requires { StartsWithDigit rest.now }
    ensures { ReadsFollowed rest.now result.0 result.1 result.2 }
{
    let one = next_number(0, rest[0] - b'0');
    if rest.len() < 4 {
        return if any {
            read_any_number(rest)
        } else {
            (one, 1, 0)
        };
    }
    if rest[1] < b'0' || rest[1] > b'9' {
        return (one, 1, rest[1]);
    }
    let two = next_number(one, rest[1] - b'0');
    if rest[2] < b'0' || rest[2] > b'9' {
        return (two, 2, rest[2]);
    }
    let three = next_number(two, rest[2] - b'0');
    if rest[3] < b'0' || rest[3] > b'9' {
        return (three, 3, rest[3]);
    }
    if any {
        read_any_number(rest)
    } else {
        (one, 1, 0)
    }
}

// Reads any number of digits, apart from the fast code for few.
#[inline(never)]
fn read_any_number(rest: &[u8]) -> (u64, usize, u8)
    requires { StartsWithDigit rest.now }
    ensures { ReadsFollowed rest.now result.0 result.1 result.2 }
{
    let mut number = next_number(0, rest[0] - b'0');
    let mut end = 1;
    while end < rest.len() && b'0' <= rest[end] && rest[end] <= b'9' {
        number = next_number(number, rest[end] - b'0');
        end += 1;
    }
    if end < rest.len() {
        (number, end, rest[end])
    } else {
        (number, end, 0)
    }
}

// Writes the number of the digits that come first, and returns how many they are, and the byte
// after them, or 0.
#[inline(always)]
fn put_number<E: Param>(csi_params: &mut [E], count: usize, rest: &[u8], any: bool) -> (usize, u8)
    requires room { count < length csi_params.old }
    requires digit { StartsWithDigit rest.now }
    ensures { PutsNumber E.param csi_params count rest.now result.0 result.1 }
{
    let (number, length, after) = read_number(rest, any);
    put_integer(csi_params, count, number);
    (length, after)
}

// Writes a separator, 3B or, if `any` says so, 3A. Returns false if `b` is none, and then writes
// nothing.
#[inline(always)]
fn put_mark<E: Param>(csi_params: &mut [E], count: usize, b: u8, any: bool) -> bool
    requires room { count < length csi_params.old }
    ensures some { result ≡ true → 0 < b }
    ensures mark { result ≡ true → (x : List ℕ)
        → IsAfter (first_params E.param count csi_params.old) x
        → IsPrefix (first_params E.param (count + 1) csi_params.new) (x ++ b ∷ []) }
    ensures other { result ≡ false → csi_params.new ≡ csi_params.old }
{
    if b == b';' {
        put_byte(csi_params, count, b';');
        true
    } else if !any {
        false
    } else if b == b':' {
        put_byte(csi_params, count, b':');
        true
    } else {
        false
    }
}

// Writes a private prefix, 3C to 3F, if one comes first.
#[inline(always)]
fn put_private_prefix<E: Param>(csi_params: &mut [E], rest: &[u8]) -> usize
    requires { 0 < length csi_params.old }
    ensures few { (result ≤ length rest.now) × (result ≤ 1) }
    ensures keeps { IsPrefix (first_params E.param result csi_params.new) (take result rest.now) }
{
    if rest.is_empty() {
        return 0;
    }
    if lies_from(0x3c, 0x3f, rest[0]) {
        put_byte(csi_params, 0, rest[0]);
        1
    } else {
        0
    }
}

// Writes the digits that come first, if any, and a separator after them.
#[inline(always)]
fn put_field<E: Param>(csi_params: &mut [E], count: usize, rest: &[u8], any: bool) -> Field
    requires room { count + 1 < length csi_params.old }
    requires some { 0 < length rest.now }
    ensures { PutsField E.param csi_params count rest.now result }
{
    if b'0' <= rest[0] && rest[0] <= b'9' {
        let (n, after) = put_number(csi_params, count, rest, any);
        if put_mark(csi_params, count + 1, after, any) {
            Field {
                length: n + 1,
                count: count + 2,
                goes_on: true,
                after: 0,
            }
        } else {
            Field {
                length: n,
                count: count + 1,
                goes_on: false,
                after,
            }
        }
    } else if put_mark(csi_params, count, rest[0], any) {
        Field {
            length: 1,
            count: count + 1,
            goes_on: true,
            after: 0,
        }
    } else {
        Field {
            length: 0,
            count,
            goes_on: false,
            after: rest[0],
        }
    }
}

// Returns how many bytes have to be left to read a field.
#[inline(always)]
fn least(any: bool) -> usize
    ensures { 0 < result }
{
    if any { 1 } else { 4 }
}

/// Reads the body that comes first, as far as it has a private prefix, numbers and separators and
/// there is room for its parameters. It reads rare parts only if `any` says so: the separator 3A,
/// numbers of more than three digits and the last bytes of all.
#[inline(always)]
pub fn read_body<E: Param>(csi_params: &mut [E], rest: &[u8], any: bool) -> Body
    requires { (0 < length csi_params.old) × (length csi_params.old ≤ 256) }
    ensures { PutsBody E.param csi_params rest.now result }
{
    let mut count = put_private_prefix(csi_params, rest);
    let mut at = count;
    while rest.len() - at >= least(any) && csi_params.len() - count > 1 {
        let field = put_field(csi_params, count, &rest[at..], any);
        at += field.length;
        count = field.count;
        if !field.goes_on {
            return Body {
                length: at,
                count,
                after: field.after,
            };
        }
    }
    Body {
        length: at,
        count,
        after: 0,
    }
}
