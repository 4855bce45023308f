//! This module reads placements and frames.
ghost use Rattle.std.specs.Prelude.{◌≡◌};
ghost use Rattle.esc_kitty.specs.Keys.{values};
ghost use Rattle.esc_kitty.specs.Formats.{compose_of, frame_of, placement_of};

use crate::compose::KittyImageFrameCompose;
use crate::composition::KittyFrameCompositionMode;
use crate::frame::KittyImageFrame;
use crate::keys::{Pair, flag, nonzero, number, signed};
use crate::placement::KittyImagePlacement;

// Reads how an image is shown, if the keys say so.
pub(crate) fn read_placement(pairs: &[Pair<'_>]) -> Option<KittyImagePlacement>
    ensures { result ≡ placement_of (values pairs.now) }
{
    let do_not_move_cursor = flag(pairs, b'C')?;
    let unicode_placeholder = flag(pairs, b'U')?;
    Some(KittyImagePlacement {
        x: number(pairs, b'x'),
        y: number(pairs, b'y'),
        w: number(pairs, b'w'),
        h: number(pairs, b'h'),
        x_offset: number(pairs, b'X'),
        y_offset: number(pairs, b'Y'),
        columns: number(pairs, b'c'),
        rows: number(pairs, b'r'),
        placement_id: number(pairs, b'p'),
        do_not_move_cursor,
        z_index: signed(pairs, b'z'),
        unicode_placeholder,
    })
}

// Reads the frame that is sent, if the keys name one.
pub(crate) fn read_frame(pairs: &[Pair<'_>]) -> Option<KittyImageFrame>
    ensures { result ≡ frame_of (values pairs.now) }
{
    let composition_mode = KittyFrameCompositionMode::read(signed(pairs, b'X'))?;
    Some(KittyImageFrame {
        x: number(pairs, b'x'),
        y: number(pairs, b'y'),
        base_frame: nonzero(pairs, b'c'),
        frame_number: nonzero(pairs, b'r'),
        duration_ms: nonzero(pairs, b'z'),
        composition_mode,
        background_pixel: number(pairs, b'Y'),
    })
}

// Reads the frames that are composed, if the keys name them.
pub(crate) fn read_compose(pairs: &[Pair<'_>]) -> Option<KittyImageFrameCompose>
    ensures { result ≡ compose_of (values pairs.now) }
{
    let composition_mode = KittyFrameCompositionMode::read(signed(pairs, b'C'))?;
    Some(KittyImageFrameCompose {
        image_id: number(pairs, b'i'),
        image_number: number(pairs, b'I'),
        target_frame: nonzero(pairs, b'c'),
        source_frame: nonzero(pairs, b'r'),
        x: number(pairs, b'x'),
        y: number(pairs, b'y'),
        w: number(pairs, b'w'),
        h: number(pairs, b'h'),
        src_x: number(pairs, b'X'),
        src_y: number(pairs, b'Y'),
        composition_mode,
    })
}
