//! This module writes deletions.
ghost use Rattle.std.specs.Prelude.{◌≡◌, ◌-◌, ◌≤◌, [], ◌∷◌, Some};
ghost use Rattle.std.specs.Char.{encode_utf8};
ghost use Rattle.std.specs.Fmt.{DisplaysOnOk};
ghost use Rattle.esc_values.specs.Fields.{present_pairs};
ghost use Rattle.esc_kitty.specs.Texts.{delete_keys, keys_text, letter, named_keys, placed_keys};

use crate::delete::KittyImageDelete;
use crate::verbosity::KittyImageVerbosity;
use crate::write_keys::Value::{Letter, Number, Signed, Word};
use crate::write_keys::{Key, write_keys};
use std::fmt;

// Writes the keys of a deletion.
pub(crate) fn write_delete<W: fmt::Write>(
    what: &KittyImageDelete,
    verbosity: KittyImageVerbosity,
    f: &mut fmt::Formatter<W>,
) -> fmt::Result
    ensures { DisplaysOnOk W.write_str_gives f.old result
        (Some (keys_text (present_pairs (delete_keys what.now verbosity)))) f.new }
{
    match *what {
        KittyImageDelete::All { delete } => {
            write_placed(delete, b'a', None, None, None, verbosity, f)
        }
        KittyImageDelete::ByImageId {
            image_id,
            placement_id,
            delete,
        } => {
            write_named(
                delete,
                b'i',
                None,
                Some(image_id),
                placement_id,
                verbosity,
                f,
            )
        }
        KittyImageDelete::ByImageNumber {
            image_number,
            placement_id,
            delete,
        } => {
            write_named(
                delete,
                b'n',
                Some(image_number),
                None,
                placement_id,
                verbosity,
                f,
            )
        }
        KittyImageDelete::AtCursorPosition { delete } => {
            write_placed(delete, b'c', None, None, None, verbosity, f)
        }
        KittyImageDelete::AnimationFrames { delete } => {
            write_placed(delete, b'f', None, None, None, verbosity, f)
        }
        KittyImageDelete::DeleteAt { x, y, delete } => {
            write_placed(delete, b'p', Some(x), Some(y), None, verbosity, f)
        }
        KittyImageDelete::DeleteAtZ { x, y, z, delete } => {
            write_placed(delete, b'q', Some(x), Some(y), Some(z), verbosity, f)
        }
        KittyImageDelete::DeleteColumn { x, delete } => {
            write_placed(delete, b'x', Some(x), None, None, verbosity, f)
        }
        KittyImageDelete::DeleteRow { y, delete } => {
            write_placed(delete, b'y', None, Some(y), None, verbosity, f)
        }
        KittyImageDelete::DeleteZ { z, delete } => {
            write_placed(delete, b'z', None, None, Some(z), verbosity, f)
        }
        KittyImageDelete::ByImageIdRange {
            first,
            last,
            delete,
        } => { write_placed(delete, b'r', Some(first), Some(last), None, verbosity, f) }
    }
}

// Returns the letter, a capital if the data is deleted too.
#[tactic(auto, using(std::proofs::lemmas::Str::encode_ascii))]
fn letter(delete: bool, small: u8) -> char
    requires { (0x61 ≤ small) × (small ≤ 0x7a) }
    ensures { encode_utf8 result ≡ letter delete (small ∷ []) ((small - 0x20) ∷ []) }
{
    if delete {
        char::from(small - 32)
    } else {
        char::from(small)
    }
}

// Writes the keys of a deletion by id or number.
fn write_named<W: fmt::Write>(
    delete: bool,
    small: u8,
    image_number: Option<u32>,
    image_id: Option<u32>,
    placement_id: Option<u32>,
    verbosity: KittyImageVerbosity,
    f: &mut fmt::Formatter<W>,
) -> fmt::Result
    requires { (0x61 ≤ small) × (small ≤ 0x7a) }
    ensures { DisplaysOnOk W.write_str_gives f.old result
        (Some (keys_text
        (present_pairs (named_keys (letter delete (small ∷ []) ((small - 0x20) ∷ []))
        image_number image_id placement_id verbosity)))) f.new }
{
    let keys = [
        Key('I', Number(image_number)),
        Key('a', Letter('d')),
        Key('d', Letter(letter(delete, small))),
        Key('i', Number(image_id)),
        Key('p', Number(placement_id)),
        Key('q', Word(verbosity.word())),
    ];
    write_keys(&keys, f)
}

// Writes the keys of any other deletion.
fn write_placed<W: fmt::Write>(
    delete: bool,
    small: u8,
    x: Option<u32>,
    y: Option<u32>,
    z: Option<i32>,
    verbosity: KittyImageVerbosity,
    f: &mut fmt::Formatter<W>,
) -> fmt::Result
    requires { (0x61 ≤ small) × (small ≤ 0x7a) }
    ensures { DisplaysOnOk W.write_str_gives f.old result
        (Some (keys_text
        (present_pairs (placed_keys (letter delete (small ∷ []) ((small - 0x20) ∷ []))
        x y z verbosity)))) f.new }
{
    let keys = [
        Key('a', Letter('d')),
        Key('d', Letter(letter(delete, small))),
        Key('q', Word(verbosity.word())),
        Key('x', Number(x)),
        Key('y', Number(y)),
        Key('z', Signed(z)),
    ];
    write_keys(&keys, f)
}
