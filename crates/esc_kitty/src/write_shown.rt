//! This module writes images that were transmitted before.
ghost use Rattle.std.specs.Prelude.{Some};
ghost use Rattle.std.specs.Fmt.{DisplaysOnOk};
ghost use Rattle.esc_values.specs.Fields.{present_pairs};
ghost use Rattle.esc_kitty.specs.Texts.{compose_keys, display_keys, keys_text};

use crate::compose::KittyImageFrameCompose;
use crate::placement::KittyImagePlacement;
use crate::verbosity::KittyImageVerbosity;
use crate::write_keys::Value::{Letter, Number, Signed, Word};
use crate::write_keys::{Key, flag_word, write_keys};
use std::fmt;

// Writes the keys of an image that is shown.
pub(crate) fn write_display<W: fmt::Write>(
    image_id: Option<u32>,
    image_number: Option<u32>,
    placement: &KittyImagePlacement,
    verbosity: KittyImageVerbosity,
    f: &mut fmt::Formatter<W>,
) -> fmt::Result
    ensures { DisplaysOnOk W.write_str_gives f.old result
        (Some (keys_text
        (present_pairs (display_keys image_id image_number placement.now verbosity)))) f.new }
{
    let keys = [
        Key('C', Word(flag_word(placement.do_not_move_cursor))),
        Key('I', Number(image_number)),
        Key('U', Word(flag_word(placement.unicode_placeholder))),
        Key('X', Number(placement.x_offset)),
        Key('Y', Number(placement.y_offset)),
        Key('a', Letter('p')),
        Key('c', Number(placement.columns)),
        Key('h', Number(placement.h)),
        Key('i', Number(image_id)),
        Key('p', Number(placement.placement_id)),
        Key('q', Word(verbosity.word())),
        Key('r', Number(placement.rows)),
        Key('w', Number(placement.w)),
        Key('x', Number(placement.x)),
        Key('y', Number(placement.y)),
        Key('z', Signed(placement.z_index)),
    ];
    write_keys(&keys, f)
}

// Writes the keys of frames that are composed.
pub(crate) fn write_compose<W: fmt::Write>(
    frame: &KittyImageFrameCompose,
    verbosity: KittyImageVerbosity,
    f: &mut fmt::Formatter<W>,
) -> fmt::Result
    ensures { DisplaysOnOk W.write_str_gives f.old result
        (Some (keys_text (present_pairs (compose_keys frame.now verbosity)))) f.new }
{
    let keys = [
        Key('C', Word(frame.composition_mode.word())),
        Key('I', Number(frame.image_number)),
        Key('X', Number(frame.src_x)),
        Key('Y', Number(frame.src_y)),
        Key('a', Letter('c')),
        Key('c', Number(frame.target_frame)),
        Key('h', Number(frame.h)),
        Key('i', Number(frame.image_id)),
        Key('q', Word(verbosity.word())),
        Key('r', Number(frame.source_frame)),
        Key('w', Number(frame.w)),
        Key('x', Number(frame.x)),
        Key('y', Number(frame.y)),
    ];
    write_keys(&keys, f)
}
