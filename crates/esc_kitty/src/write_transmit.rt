//! This module writes images with their pixels.
ghost use Rattle.std.specs.Prelude.{map, Some};
ghost use Rattle.std.specs.Fmt.{DisplaysOnOk};
ghost use Rattle.esc_values.specs.Fields.{present_pairs};
ghost use Rattle.esc_kitty.specs.Texts.{entry, frame_keys, keys_text, or_action, query_keys, shown_keys, transmit_keys};

use crate::format::KittyImageFormat;
use crate::frame::KittyImageFrame;
use crate::placement::KittyImagePlacement;
use crate::transmit::KittyImageTransmit;
use crate::verbosity::KittyImageVerbosity;
use crate::write_keys::Value::{Letter, Number, Signed, Word};
use crate::write_keys::{Key, flag_word, is_bare, write_keys};
use std::alloc::Allocator;
use std::fmt;

// Writes the keys of an image that is kept.
pub(crate) fn write_transmit<A: Allocator, W: fmt::Write>(
    transmit: &KittyImageTransmit<A>,
    verbosity: KittyImageVerbosity,
    f: &mut fmt::Formatter<W>,
) -> fmt::Result
    ensures { DisplaysOnOk W.write_str_gives f.old result
        (Some (keys_text (or_action (present_pairs (transmit_keys transmit.now verbosity)))))
        f.new }
{
    let content = &transmit.content;
    let keys = [
        Key('I', Number(transmit.image_number)),
        Key('O', Number(content.offset())),
        Key('S', Number(content.size())),
        Key('f', Word(KittyImageFormat::word(transmit.format))),
        Key('i', Number(transmit.image_id)),
        Key('m', Word(flag_word(transmit.more_data_follows))),
        Key('o', Word(transmit.compression.word())),
        Key('q', Word(verbosity.word())),
        Key('s', Number(transmit.width)),
        Key('t', Word(content.medium())),
        Key('v', Number(transmit.height)),
    ];
    write_or_action(&keys, f)
}

// Writes the keys, or `a=t` if none is written.
fn write_or_action<W: fmt::Write>(keys: &[Key<'_>], f: &mut fmt::Formatter<W>) -> fmt::Result
    ensures { DisplaysOnOk W.write_str_gives f.old result
        (Some (keys_text (or_action (present_pairs (map entry keys.now))))) f.new }
{
    if is_bare(keys) {
        return f.write_str("a=t");
    }
    write_keys(keys, f)
}

// Writes the keys of a query.
pub(crate) fn write_query<A: Allocator, W: fmt::Write>(
    transmit: &KittyImageTransmit<A>,
    f: &mut fmt::Formatter<W>,
) -> fmt::Result
    ensures { DisplaysOnOk W.write_str_gives f.old result
        (Some (keys_text (present_pairs (query_keys transmit.now)))) f.new }
{
    let content = &transmit.content;
    let keys = [
        Key('I', Number(transmit.image_number)),
        Key('O', Number(content.offset())),
        Key('S', Number(content.size())),
        Key('a', Letter('q')),
        Key('f', Word(KittyImageFormat::word(transmit.format))),
        Key('i', Number(transmit.image_id)),
        Key('m', Word(flag_word(transmit.more_data_follows))),
        Key('o', Word(transmit.compression.word())),
        Key('s', Number(transmit.width)),
        Key('t', Word(content.medium())),
        Key('v', Number(transmit.height)),
    ];
    write_keys(&keys, f)
}

// Writes the keys of an image that is kept and shown.
pub(crate) fn write_shown<A: Allocator, W: fmt::Write>(
    transmit: &KittyImageTransmit<A>,
    placement: &KittyImagePlacement,
    verbosity: KittyImageVerbosity,
    f: &mut fmt::Formatter<W>,
) -> fmt::Result
    ensures { DisplaysOnOk W.write_str_gives f.old result
        (Some (keys_text (present_pairs (shown_keys transmit.now placement.now verbosity)))) f.new }
{
    let content = &transmit.content;
    let keys = [
        Key('C', Word(flag_word(placement.do_not_move_cursor))),
        Key('I', Number(transmit.image_number)),
        Key('O', Number(content.offset())),
        Key('S', Number(content.size())),
        Key('U', Word(flag_word(placement.unicode_placeholder))),
        Key('X', Number(placement.x_offset)),
        Key('Y', Number(placement.y_offset)),
        Key('a', Letter('T')),
        Key('c', Number(placement.columns)),
        Key('f', Word(KittyImageFormat::word(transmit.format))),
        Key('h', Number(placement.h)),
        Key('i', Number(transmit.image_id)),
        Key('m', Word(flag_word(transmit.more_data_follows))),
        Key('o', Word(transmit.compression.word())),
        Key('p', Number(placement.placement_id)),
        Key('q', Word(verbosity.word())),
        Key('r', Number(placement.rows)),
        Key('s', Number(transmit.width)),
        Key('t', Word(content.medium())),
        Key('v', Number(transmit.height)),
        Key('w', Number(placement.w)),
        Key('x', Number(placement.x)),
        Key('y', Number(placement.y)),
        Key('z', Signed(placement.z_index)),
    ];
    write_keys(&keys, f)
}

// Writes the keys of a frame.
pub(crate) fn write_frame<A: Allocator, W: fmt::Write>(
    transmit: &KittyImageTransmit<A>,
    frame: &KittyImageFrame,
    verbosity: KittyImageVerbosity,
    f: &mut fmt::Formatter<W>,
) -> fmt::Result
    ensures { DisplaysOnOk W.write_str_gives f.old result
        (Some (keys_text (present_pairs (frame_keys transmit.now frame.now verbosity)))) f.new }
{
    let content = &transmit.content;
    let keys = [
        Key('I', Number(transmit.image_number)),
        Key('O', Number(content.offset())),
        Key('S', Number(content.size())),
        Key('X', Word(frame.composition_mode.word())),
        Key('Y', Number(frame.background_pixel)),
        Key('a', Letter('f')),
        Key('c', Number(frame.base_frame)),
        Key('f', Word(KittyImageFormat::word(transmit.format))),
        Key('i', Number(transmit.image_id)),
        Key('m', Word(flag_word(transmit.more_data_follows))),
        Key('o', Word(transmit.compression.word())),
        Key('q', Word(verbosity.word())),
        Key('r', Number(frame.frame_number)),
        Key('s', Number(transmit.width)),
        Key('t', Word(content.medium())),
        Key('v', Number(transmit.height)),
        Key('x', Number(frame.x)),
        Key('y', Number(frame.y)),
        Key('z', Number(frame.duration_ms)),
    ];
    write_keys(&keys, f)
}
