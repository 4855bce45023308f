//! Renditions that conceal text.
ghost use Rattle.std.specs.Prelude.{◌≡◌, ◌≤◌, ◌+◌, IfSome, IsTrue, length};
ghost use Rattle.std.specs.List.{list_any};
ghost use Rattle.esc_filter.specs.Concealed.{begins_color, begins_part, breaks_off, color_length, conceals, has_number, is_conceal, length_of, number_at, part_length};

use esc_values::CsiParam;

// Returns whether one of the renditions with these parameters may conceal text: 8 (ECMA-48,
// 8.3.117), if it is not a number of a colour, as in `38;5;8`, and no part of an item, as in `4:8`.
#[tactic(auto, using(crate::proofs::GivingBack::ConcealedFrom::without_first))]
pub(crate) fn conceals(params: &[CsiParam]) -> bool
    ensures { result ≡ conceals params.now }
{
    let mut rest = params;
    while let Some((first, after)) = rest.split_first() {
        if is_conceal(first) {
            return true;
        }
        if breaks_off(first, after) {
            return has_conceal(after);
        }
        rest = &after[length_of(first, after)..];
    }
    false
}

// Returns whether the number 8 is among them.
fn has_conceal(params: &[CsiParam]) -> bool
    ensures { result ≡ list_any is_conceal params.now }
{
    params.iter().any(is_conceal)
}

// Returns whether it is the number 8.
fn is_conceal(param: &CsiParam) -> bool
    ensures { result ≡ is_conceal param.now }
{
    *param == CsiParam::Integer(8)
}

// Returns whether it is the number of a colour of characters, of their background or of a line,
// which others follow.
fn begins_color(param: &CsiParam) -> bool
    ensures { result ≡ begins_color param.now }
{
    *param == CsiParam::Integer(38)
        || *param == CsiParam::Integer(48)
        || *param == CsiParam::Integer(58)
}

// Returns whether it begins a colour that is not whole, so that terminals differ in which numbers
// they take for it.
fn breaks_off(param: &CsiParam, after: &[CsiParam]) -> bool
    ensures { result ≡ breaks_off param.now after.now }
{
    begins_color(param) && color_length(after) == 0 && !begins_part(after)
}

// Returns how many of the parameters after this one belong to it.
fn length_of(param: &CsiParam, after: &[CsiParam]) -> usize
    ensures same { result ≡ length_of param.now after.now }
    ensures within { result ≤ length after.now }
{
    if begins_color(param) {
        color_length(after)
    } else {
        part_length(param, after)
    }
}

// Does the same for a parameter that is no number of a colour: a colon has the number after it.
fn part_length(param: &CsiParam, after: &[CsiParam]) -> usize
    ensures same { result ≡ part_length param.now after.now }
    ensures within { result ≤ length after.now }
{
    match (param, after) {
        (CsiParam::P(b':'), [CsiParam::Integer(_), ..]) => 1,
        _ => 0,
    }
}

// Returns whether a colon comes first.
fn begins_part(params: &[CsiParam]) -> bool
    ensures { result ≡ begins_part params.now }
{
    match params {
        [CsiParam::P(b), ..] => *b == b':',
        _ => false,
    }
}

// Returns the number of these parameters that say which colour it is: those of `;5;n` and of
// `;2;r;g;b`; 0 if they are neither.
fn color_length(params: &[CsiParam]) -> usize
    ensures same { result ≡ color_length params.now }
    ensures within { result ≤ length params.now }
{
    match number_at(params, 0) {
        Some(5) if has_number(params, 2) => 4,
        Some(2) if has_number(params, 2) && has_number(params, 4) && has_number(params, 6) => 8,
        _ => 0,
    }
}

// Returns whether `;` and a number are at this place.
fn has_number(params: &[CsiParam], at: usize) -> bool
    ensures same { result ≡ has_number at params.now }
    ensures within { IsTrue result → at + 2 ≤ length params.now }
{
    number_at(params, at).is_some()
}

// Returns the number at this place, which `;` comes before.
fn number_at(params: &[CsiParam], at: usize) -> Option<i64>
    ensures same { result ≡ number_at at params.now }
    ensures within { IfSome result (λ n. at + 2 ≤ length params.now) }
{
    match params.get(at..) {
        Some([CsiParam::P(b';'), CsiParam::Integer(number), ..]) => Some(*number),
        _ => None,
    }
}
