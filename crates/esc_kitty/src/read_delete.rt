//! This module reads deletions.
ghost use Rattle.std.specs.Prelude.{◌≡◌};
ghost use Rattle.esc_kitty.specs.Keys.{values};
ghost use Rattle.esc_kitty.specs.Images.{delete_by, delete_in, delete_of};

use crate::delete::KittyImageDelete;
use crate::keys::{Pair, number, signed, value};

// Reads what is deleted, if the keys say so.
pub(crate) fn read_delete(pairs: &[Pair<'_>]) -> Option<KittyImageDelete>
    ensures { result ≡ delete_of (values pairs.now) }
{
    match value(pairs, b'd') {
        Some(word) => read_delete_in(word.as_bytes(), pairs),
        None => read_delete_in(b"a", pairs),
    }
}

// Reads a value of `d`: one letter, whose capital deletes the data too.
fn read_delete_in(word: &[u8], pairs: &[Pair<'_>]) -> Option<KittyImageDelete>
    ensures { result ≡ delete_in word.now (values pairs.now) }
{
    let Some((letter, rest)) = word.split_first() else {
        return None;
    };
    if !rest.is_empty() {
        return None;
    }
    if *letter >= b'A' && *letter <= b'Z' {
        read_delete_by(*letter + 32, true, pairs)
    } else {
        read_delete_by(*letter, false, pairs)
    }
}

// Reads what a small letter deletes.
fn read_delete_by(letter: u8, delete: bool, pairs: &[Pair<'_>]) -> Option<KittyImageDelete>
    ensures { result ≡ delete_by letter delete (values pairs.now) }
{
    match letter {
        b'a' => Some(KittyImageDelete::All { delete }),
        b'i' => match number(pairs, b'i') {
            Some(image_id) => Some(KittyImageDelete::ByImageId {
                image_id,
                placement_id: number(pairs, b'p'),
                delete,
            }),
            None => None,
        },
        b'n' => match number(pairs, b'I') {
            Some(image_number) => Some(KittyImageDelete::ByImageNumber {
                image_number,
                placement_id: number(pairs, b'p'),
                delete,
            }),
            None => None,
        },
        b'c' => Some(KittyImageDelete::AtCursorPosition { delete }),
        b'f' => Some(KittyImageDelete::AnimationFrames { delete }),
        b'p' => match (number(pairs, b'x'), number(pairs, b'y')) {
            (Some(x), Some(y)) => Some(KittyImageDelete::DeleteAt { x, y, delete }),
            _ => None,
        },
        b'q' => match (
            number(pairs, b'x'),
            number(pairs, b'y'),
            signed(pairs, b'z'),
        ) {
            (Some(x), Some(y), Some(z)) => Some(KittyImageDelete::DeleteAtZ { x, y, z, delete }),
            _ => None,
        },
        b'x' => match number(pairs, b'x') {
            Some(x) => Some(KittyImageDelete::DeleteColumn { x, delete }),
            None => None,
        },
        b'y' => match number(pairs, b'y') {
            Some(y) => Some(KittyImageDelete::DeleteRow { y, delete }),
            None => None,
        },
        b'z' => match signed(pairs, b'z') {
            Some(z) => Some(KittyImageDelete::DeleteZ { z, delete }),
            None => None,
        },
        b'r' => match (number(pairs, b'x'), number(pairs, b'y')) {
            (Some(first), Some(last)) => Some(KittyImageDelete::ByImageIdRange {
                first,
                last,
                delete,
            }),
            _ => None,
        },
        _ => None,
    }
}
