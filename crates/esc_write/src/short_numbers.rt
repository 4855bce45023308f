//! Control sequences of short numbers, appended to a text from arrays of bytes whose lengths are
//! known as the program is made.
ghost use Rattle.std.specs.Prelude.{◌≡◌, ◌<◌, ◌∷◌, ◌++◌, [], Bool, pos, IfSome, OnErr, OnOk};
ghost use Rattle.fallible_alloc.specs.Refusals.{Refused};
ghost use Rattle.esc_sequences.specs.Csis.{csi_text, unspecified};
ghost use Rattle.esc_values.specs.declared.csi_param.CsiParam.TheVariants.{Integer, P};
ghost use Rattle.esc_write.specs.Plain.{AreParams, IsPlain, indexed_text, last_text, number_text, pair_text, short_text};

use crate::indexed::Indexed;
use esc_values::ascii::as_str;
use esc_values::{CsiParam, Text};
use std::alloc::{AllocError, Allocator};

// Appends bytes of ASCII, the digits of a number below 256, and a byte after them, at once.
macro_rules! push_number {
    ($text:expr, [$($head:expr),*], $number:expr, $last:expr) => {
        if $number < 10 {
            $text.push_str(as_str(&[$($head,)* 48 + $number, $last]))
        } else if $number < 100 {
            $text.push_str(as_str(&[$($head,)* 48 + $number / 10, 48 + $number % 10, $last]))
        } else {
            $text.push_str(as_str(&[
                $($head,)*
                48 + $number / 100,
                48 + $number / 10 % 10,
                48 + $number % 10,
                $last,
            ]))
        }
    };
}

// Returns the number that a parameter is, if it is below 256.
#[inline(always)]
fn small_number(param: CsiParam) -> Option<u8>
    ensures { IfSome result (λ n. param ≡ Integer (pos n)) }
{
    let CsiParam::Integer(number) = param else {
        return None;
    };
    if number < 0 || number > 255 {
        return None;
    }
    Some(number as u8)
}

// Returns the number that is the only parameter, if it is below 256.
#[inline(always)]
fn lone_number(params: &[CsiParam]) -> Option<u8>
    ensures { IfSome result (λ n. params.now ≡ Integer (pos n) ∷ []) }
{
    let [param] = params else {
        return None;
    };
    small_number(*param)
}

// Returns the only two parameters, if they are numbers below 256.
#[inline(always)]
fn two_numbers(params: &[CsiParam]) -> Option<(u8, u8)>
    ensures { IfSome result (λ p. params.now
        ≡ Integer (pos p.0) ∷ P 0x3b ∷ Integer (pos p.1) ∷ []) }
{
    let [one, CsiParam::P(b';'), two] = params else {
        return None;
    };
    let first = small_number(*one)?;
    let second = small_number(*two)?;
    Some((first, second))
}

// Returns these numbers, if the parameters are such ones, with `;` between them.
#[inline(always)]
fn palette_numbers(params: &[CsiParam]) -> Option<Indexed>
    ensures csi_params { IfSome result (λ i. params.now ≡ Integer (pos i.first) ∷ P 0x3b
        ∷ Integer (pos i.second) ∷ P 0x3b ∷ Integer (pos i.third) ∷ []) }
{
    let [one, CsiParam::P(b';'), two, CsiParam::P(b';'), three] = params else {
        return None;
    };
    let first = small_number(*one)?;
    let second = small_number(*two)?;
    let third = small_number(*three)?;
    if first < 25 || first >= 100 || second >= 10 {
        return None;
    }
    Some(Indexed {
        first,
        second,
        third,
    })
}

// Appends the text of a control sequence of one number.
#[inline(always)]
fn append_number<A: Allocator>(
    text: &mut Text<A>,
    number: u8,
    control: u8,
) -> Result<(), AllocError>
    requires { control < 128 }
    ensures ok { OnOk result (text.new ≡ text.old ++ number_text number control) }
    ensures refused { OnErr result (Refused A) }
{
    push_number!(text, [0x1b, b'['], number, control)
}

// Appends a number and the final byte after it.
#[inline(always)]
fn append_last<A: Allocator>(text: &mut Text<A>, number: u8, control: u8) -> Result<(), AllocError>
    requires { control < 128 }
    ensures ok { OnOk result (text.new ≡ text.old ++ last_text number control) }
    ensures refused { OnErr result (Refused A) }
{
    push_number!(text, [], number, control)
}

// Appends the text of a control sequence of two numbers.
#[inline(always)]
fn append_pair<A: Allocator>(
    text: &mut Text<A>,
    first: u8,
    second: u8,
    control: u8,
) -> Result<(), AllocError>
    requires { control < 128 }
    ensures ok { OnOk result (text.new ≡ text.old ++ pair_text first second control) }
    ensures refused { OnErr result (Refused A) }
{
    append_number(text, first, b';')?;
    append_last(text, second, control)
}

// Appends the text of a control sequence of the numbers of a colour of the palette.
#[inline(always)]
fn append_indexed<A: Allocator>(
    text: &mut Text<A>,
    numbers: Indexed,
    control: u8,
) -> Result<(), AllocError>
    requires { control < 128 }
    ensures ok { OnOk result (text.new
        ≡ text.old ++ indexed_text numbers.first numbers.second numbers.third control) }
    ensures refused { OnErr result (Refused A) }
{
    let third = numbers.third;
    push_number!(
        text,
        [
            0x1b,
            b'[',
            48 + numbers.first / 10,
            48 + numbers.first % 10,
            b';',
            48 + numbers.second,
            b';'
        ],
        third,
        control
    )
}

/// The parameters of a control sequence that is written at once: none, one or two numbers, or the
/// numbers of a colour of the palette.
#[derive(Clone, Copy)]
pub enum ShortNumbers {
    /// None.
    Nothing,
    /// A number alone.
    Lone(u8),
    /// Two numbers.
    Pair(u8, u8),
    /// The numbers of a colour of the palette.
    Palette(Indexed),
}

impl ShortNumbers {
    /// Returns the parameters, if the control sequence is one of these, and its text is the text of
    /// the parameters. A sequence that ends in `m` is a number alone or a colour of the palette.
    #[inline(always)]
    pub fn of(params: &[CsiParam], control: u8) -> Option<ShortNumbers>
        ensures plain { IfSome result (λ s. (more : Bool) → IsPlain params.now more control) }
        ensures text { IfSome result (λ s. (more : Bool)
            → csi_text (unspecified params.now more control) ≡ short_text s control) }
        ensures ascii { IfSome result (λ s. control < 128) }
        ensures params { IfSome result (λ s. AreParams s params.now control) }
    {
        if control >= 128 {
            return None;
        }
        if let Some(number) = lone_number(params) {
            return Some(ShortNumbers::Lone(number));
        }
        if control != b'm' {
            if params.is_empty() {
                return Some(ShortNumbers::Nothing);
            }
            return two_numbers(params).map(|pair| ShortNumbers::Pair(pair.0, pair.1));
        }
        match palette_numbers(params) {
            Some(numbers) => Some(ShortNumbers::Palette(numbers)),
            None => None,
        }
    }

    /// Appends the text of the control sequence.
    #[inline(always)]
    pub fn append_to<A: Allocator>(self, text: &mut Text<A>, control: u8) -> Result<(), AllocError>
        requires { control < 128 }
        ensures ok { OnOk result (text.new ≡ text.old ++ short_text self control) }
        ensures refused { OnErr result (Refused A) }
    {
        match self {
            ShortNumbers::Nothing => text.push_str(as_str(&[0x1b, b'[', control])),
            ShortNumbers::Lone(number) => append_number(text, number, control),
            ShortNumbers::Pair(first, second) => append_pair(text, first, second, control),
            ShortNumbers::Palette(numbers) => append_indexed(text, numbers, control),
        }
    }
}
