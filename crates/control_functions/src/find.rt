//! A row by its key.
ghost use Rattle.std.specs.Prelude.{◌≡◌, ◌<◌, ◌+◌, [], get_or, length, map};
ghost use Rattle.control_functions.specs.Rows.{Rise, first_grouped, first_keyed, group};

use crate::keyed::Keyed;

// Returns the function of the first row that has this key.
#[inline]
pub(crate) fn first_with<R: Keyed>(rows: &[R], key: u32) -> Option<R::Of>
    ensures { result ≡ first_keyed R.has_key R.is_of rows.now key }
{
    for row in rows {
        if row.key() == key {
            return Some(row.of());
        }
    }
    None
}

// Does the same for rows in groups, one for each byte from `first` to `~`: the group is that of the
// last byte of the key.
#[tactic(auto, using(crate::proofs::ByKey::too_low, crate::proofs::ByKey::too_high, crate::proofs::ByKey::in_group))]
#[inline]
pub(crate) fn first_in_group<R: Keyed>(
    rows: &[R],
    starts: &[u16],
    first: u32,
    key: u32,
) -> Option<R::Of>
    requires count { first + length starts.now ≡ 0x80 }
    requires rise { Rise starts.now (length rows.now) }
    ensures { result ≡ first_grouped R.has_key R.is_of (group rows.now starts.now) first key }
{
    let last = key % 0x100;
    if last < first {
        return None;
    }
    if last > 0x7e {
        return None;
    }
    first_with(part(rows, starts, (last - first) as usize), key)
}

// Returns the rows of a group; `starts` has the place of the first, and then that of the next
// group's first.
#[inline]
fn part<'a, R>(rows: &'a [R], starts: &[u16], index: usize) -> &'a [R]
    requires index { index + 1 < length starts.now }
    requires rise { Rise starts.now (length rows.now) }
    ensures { result.now ≡ group rows.now starts.now index }
{
    let start = starts[index] as usize;
    let end = starts[index + 1] as usize;
    &rows[start..end]
}

// Returns the text in this place of a table.
#[inline]
pub(crate) fn text_in(texts: &[&'static str], index: usize) -> &'static str
    requires { index < length texts.now }
    ensures { result.now ≡ get_or (map (λ t. t.now) texts.now) index [] }
{
    texts[index]
}
