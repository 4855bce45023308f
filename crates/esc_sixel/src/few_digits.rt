//! Numbers of few digits.
ghost use Rattle.std.specs.Prelude.{◌≡◌, ◌+◌, ◌-◌, ◌<◌, ◌≤◌, IfSome, length, slice_index, take};
ghost use Rattle.std.specs.List.{All};
ghost use Rattle.esc_sixel.specs.Classes.{IsDigit, IsPixels};
ghost use Rattle.esc_sixel.specs.Lines.{NumberBefore, number_after};

// Returns the number of the digits that come first, up to four, and their count. It takes none if
// there are fewer than four bytes.
#[inline(always)]
pub(crate) fn few_digits(rest: &[u8]) -> (u32, usize)
    ensures few { result.1 ≤ length rest.now }
    ensures digits { All IsDigit (take result.1 rest.now) }
    ensures number { result.0 ≡ number_after 0 (take result.1 rest.now) }
    ensures small { result.0 < 10000 }
{
    if rest.len() < 4 {
        return (0, 0);
    }
    let Some(one) = digit_of(rest[0]) else {
        return (0, 0);
    };
    let Some(digit) = digit_of(rest[1]) else {
        return (one, 1);
    };
    let two = one * 10 + digit;
    let Some(digit) = digit_of(rest[2]) else {
        return (two, 2);
    };
    let three = two * 10 + digit;
    let Some(digit) = digit_of(rest[3]) else {
        return (three, 3);
    };
    (three * 10 + digit, 4)
}

// Returns the value of a digit.
#[inline(always)]
fn digit_of(byte: u8) -> Option<u32>
    ensures { IfSome result (λ d. IsDigit byte × (d ≡ byte - 0x30) × (d < 10)) }
{
    if byte < b'0' || byte > b'9' {
        return None;
    }
    Some(u32::from(byte - b'0'))
}

// Returns the number of up to four digits at this place, and the count of these, if this byte comes
// right after them.
#[inline(always)]
pub(crate) fn number_before(rest: &[u8], at: usize, mark: u8) -> Option<(u32, usize)>
    requires { at ≤ length rest.now }
    ensures { IfSome result (λ r. NumberBefore rest.now at mark r.0 r.1) }
{
    let (number, digits) = few_digits(&rest[at..]);
    let end = at + digits;
    if digits == 0 || end >= rest.len() || rest[end] != mark {
        return None;
    }
    Some((number, digits))
}

// Returns the number of up to four digits at this place, and the count of these, if six pixels come
// right after them.
#[inline(always)]
pub(crate) fn count_of_pixels(rest: &[u8], at: usize) -> Option<(u32, usize)>
    requires { at ≤ length rest.now }
    ensures { IfSome result (λ r. IsPixels (slice_index rest.now (at + r.1))
        × NumberBefore rest.now at (slice_index rest.now (at + r.1)) r.0 r.1) }
{
    let (number, digits) = few_digits(&rest[at..]);
    let last = at + digits;
    if digits == 0 || last >= rest.len() || rest[last] < 0x3f || rest[last] > 0x7e {
        return None;
    }
    Some((number, digits))
}
