//! This module writes images.
ghost use Rattle.std.specs.Prelude.{Some};
ghost use Rattle.std.specs.Fmt.{DisplaysOnOk};
ghost use Rattle.esc_kitty.specs.Texts.{image_keys, image_text, keys_text, payload_text};

use crate::image::KittyImage;
use crate::write_delete::write_delete;
use crate::write_shown::{write_compose, write_display};
use crate::write_transmit::{write_frame, write_query, write_shown, write_transmit};
use std::alloc::Allocator;
use std::fmt;

/// Writes `ESC _ G`, the keys with their values in the order of their bytes, `,` between them, and
/// `;` and the payload if something is transmitted. The caller writes the string terminator.
///
/// A key is written if its field differs from the value that is read without the key; `a` always,
/// except that `TransmitData` has it only if it is the only key; `d` for every deletion. Takes no
/// memory, and returns an error only if the writer below the formatter does.
impl<A: Allocator> fmt::Display for KittyImage<A> {
    ghost output = { λ i. Some (image_text i) };

    fn fmt<W: fmt::Write>(&self, f: &mut fmt::Formatter<W>) -> fmt::Result {
        f.write_str("\x1b_G")?;
        write_image_keys(self, f)?;
        write_payload(self, f)
    }
}

// Writes the keys.
fn write_image_keys<A: Allocator, W: fmt::Write>(
    image: &KittyImage<A>,
    f: &mut fmt::Formatter<W>,
) -> fmt::Result
    ensures { DisplaysOnOk W.write_str_gives f.old result (Some (keys_text (image_keys image.now)))
        f.new }
{
    match image {
        KittyImage::TransmitData {
            transmit,
            verbosity,
        } => write_transmit(transmit, *verbosity, f),
        KittyImage::TransmitDataAndDisplay {
            transmit,
            placement,
            verbosity,
        } => write_shown(transmit, placement, *verbosity, f),
        KittyImage::Display {
            image_id,
            image_number,
            placement,
            verbosity,
        } => write_display(*image_id, *image_number, placement, *verbosity, f),
        KittyImage::Delete { what, verbosity } => write_delete(what, *verbosity, f),
        KittyImage::Query { transmit } => write_query(transmit, f),
        KittyImage::TransmitFrame {
            transmit,
            frame,
            verbosity,
        } => write_frame(transmit, frame, *verbosity, f),
        KittyImage::ComposeFrame { frame, verbosity } => write_compose(frame, *verbosity, f),
    }
}

// Writes `;` and the payload, if something is transmitted.
fn write_payload<A: Allocator, W: fmt::Write>(
    image: &KittyImage<A>,
    f: &mut fmt::Formatter<W>,
) -> fmt::Result
    ensures { DisplaysOnOk W.write_str_gives f.old result (Some (payload_text image.now)) f.new }
{
    match image {
        KittyImage::TransmitData { transmit, .. }
        | KittyImage::TransmitDataAndDisplay { transmit, .. }
        | KittyImage::Query { transmit }
        | KittyImage::TransmitFrame { transmit, .. } => {
            let content = &transmit.content;
            write!(f, ";{content}")
        }
        KittyImage::Display { .. } | KittyImage::Delete { .. } | KittyImage::ComposeFrame { .. } =>
            { Ok(()) }
    }
}
