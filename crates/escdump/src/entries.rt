//! The parameters of a control sequence, by their places.

use esc_values::CsiParam;

/// Returns the number at this place, from 0 on, if there is one: the first of its parts, if it has
/// several with `:` between them.
pub fn number_at(params: &[CsiParam], place: usize) -> Option<i64> {
    part_at(params, place, 0)
}

/// Returns the part of the parameter at this place, both from 0 on, if there is one.
pub fn part_at(params: &[CsiParam], place: usize, part: usize) -> Option<i64> {
    let mut places_left = place;
    let mut parts_left = part;
    for param in params {
        match *param {
            CsiParam::Integer(number) => {
                if places_left == 0 && parts_left == 0 {
                    return Some(number);
                }
            }
            CsiParam::P(b';') => {
                if places_left == 0 {
                    return None;
                }
                places_left -= 1;
            }
            CsiParam::P(b':') => {
                if places_left == 0 {
                    if parts_left == 0 {
                        return None;
                    }
                    parts_left -= 1;
                }
            }
            CsiParam::P(_) => {}
        }
    }
    None
}

/// Returns the parameters after the first ones, so many, with the `;` before them; nothing, if
/// there are no more.
pub fn after_first(params: &[CsiParam], count: usize) -> &[CsiParam] {
    let mut left = count;
    for at in 0..params.len() {
        if params[at] == CsiParam::P(b';') {
            if left <= 1 {
                return &params[at..];
            }
            left -= 1;
        }
    }
    &[]
}

/// Returns whether the parameter is a private prefix or an intermediate: no number, and nothing
/// that separates two.
pub fn is_mark(param: CsiParam) -> bool {
    match param {
        CsiParam::P(b';') | CsiParam::P(b':') | CsiParam::Integer(_) => false,
        CsiParam::P(_) => true,
    }
}
