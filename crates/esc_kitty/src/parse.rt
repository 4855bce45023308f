//! This module reads images.
ghost use Rattle.std.specs.Prelude.{◌≡◌, IfOk, OnErr};
ghost use Rattle.std.specs.Option.{option_map};
ghost use Rattle.fallible_alloc.specs.Refusals.{Refused};
ghost use Rattle.esc_kitty.specs.Keys.{values};
ghost use Rattle.esc_kitty.specs.Actions.{action_of, image_as};
ghost use Rattle.esc_kitty.specs.Formats.{compose_of};
ghost use Rattle.esc_kitty.specs.Images.{delete_of, image_by, image_display, image_frame, image_in, image_of, image_shown, image_with, transmit_of};
ghost use Rattle.esc_kitty.specs.declared.image.KittyImage.TheVariants as image;

use crate::image::KittyImage;
use crate::keys::{Pair, number, read_keys, value};
use crate::read_delete::read_delete;
use crate::read_shown::{read_compose, read_frame, read_placement};
use crate::read_transmit::read_transmit;
use crate::verbosity::KittyImageVerbosity;
use esc_values::cut::cut;
use std::alloc::{AllocError, Allocator};

impl<A: Allocator + Copy> KittyImage<A> {
    /// Returns the image that the data of an application program command is; none if it is no
    /// image. The error is that memory was refused.
    ///
    /// The data is `G`, the keys, and the payload after the first `;`; without `;` the payload is
    /// empty. The keys are UTF-8, with `,` between them; each has its value after its first `=`,
    /// and a later value of a key replaces an earlier one. Keys that the action does not use are
    /// ignored, except `q`. A number that cannot be read counts as absent; any other value that is
    /// unknown is no image, nor is a deletion without a number that it needs. A payload is read
    /// only if something is transmitted, and is then text, or base64 of a text if it names a file
    /// or a shared memory object.
    pub fn parse_apc(alloc: A, bytes: &[u8]) -> Result<Option<KittyImage<A>>, AllocError>
        ensures ok { IfOk result (λ o. o ≡ image_of bytes.now) }
        ensures refused { OnErr result (Refused A) }
    {
        let Some((first, rest)) = bytes.split_first() else {
            return Ok(None);
        };
        if *first != b'G' {
            return Ok(None);
        }
        match cut(rest, b';') {
            Some((keys, payload)) => read_image(alloc, keys, payload),
            None => read_image(alloc, rest, &[]),
        }
    }
}

// Reads the image of the text of keys and a payload.
fn read_image<A: Allocator + Copy>(
    alloc: A,
    keys: &[u8],
    payload: &[u8],
) -> Result<Option<KittyImage<A>>, AllocError>
    ensures ok { IfOk result (λ o. o ≡ image_with keys.now payload.now) }
    ensures refused { OnErr result (Refused A) }
{
    let Some(pairs) = read_keys(alloc, keys)? else {
        return Ok(None);
    };
    read_image_in(alloc, pairs.as_slice(), payload)
}

// Reads the image of keys and a payload.
fn read_image_in<A: Allocator + Copy>(
    alloc: A,
    pairs: &[Pair<'_>],
    payload: &[u8],
) -> Result<Option<KittyImage<A>>, AllocError>
    ensures ok { IfOk result (λ o. o ≡ image_in (values pairs.now) payload.now) }
    ensures refused { OnErr result (Refused A) }
{
    let Some(verbosity) = KittyImageVerbosity::read(value(pairs, b'q')) else {
        return Ok(None);
    };
    let action = value(pairs, b'a').unwrap_or("t");
    read_image_by(alloc, action, verbosity, pairs, payload)
}

// An action is what a command asks for.
#[derive(Clone, Copy)]
enum Action {
    Keep,
    Ask,
    Show,
    Place,
    Remove,
    Frame,
    Compose,
}

// Returns the action that a value of `a` asks for.
fn read_action(word: &str) -> Option<Action>
    ensures { result ≡ action_of word.now }
{
    match word {
        "t" => Some(Action::Keep),
        "q" => Some(Action::Ask),
        "T" => Some(Action::Show),
        "p" => Some(Action::Place),
        "d" => Some(Action::Remove),
        "f" => Some(Action::Frame),
        "c" => Some(Action::Compose),
        _ => None,
    }
}

// Reads the image of keys and a payload, by the value of `a`.
fn read_image_by<A: Allocator + Copy>(
    alloc: A,
    action: &str,
    verbosity: KittyImageVerbosity,
    pairs: &[Pair<'_>],
    payload: &[u8],
) -> Result<Option<KittyImage<A>>, AllocError>
    ensures ok { IfOk result (λ o.
        o ≡ image_by action.now verbosity (values pairs.now) payload.now) }
    ensures refused { OnErr result (Refused A) }
{
    let Some(action) = read_action(action) else {
        return Ok(None);
    };
    read_image_as(alloc, action, verbosity, pairs, payload)
}

// Reads the image of keys and a payload, by the action.
fn read_image_as<A: Allocator + Copy>(
    alloc: A,
    action: Action,
    verbosity: KittyImageVerbosity,
    pairs: &[Pair<'_>],
    payload: &[u8],
) -> Result<Option<KittyImage<A>>, AllocError>
    ensures ok { IfOk result (λ o. o ≡ image_as action verbosity (values pairs.now) payload.now) }
    ensures refused { OnErr result (Refused A) }
{
    match action {
        Action::Keep => read_image_kept(alloc, verbosity, pairs, payload),
        Action::Ask => read_image_query(alloc, pairs, payload),
        Action::Show => read_image_shown(alloc, verbosity, pairs, payload),
        Action::Place => Ok(read_image_display(verbosity, pairs)),
        Action::Remove => Ok(read_image_delete(verbosity, pairs)),
        Action::Frame => read_image_frame(alloc, verbosity, pairs, payload),
        Action::Compose => Ok(read_image_compose(verbosity, pairs)),
    }
}

// Reads the image that is kept.
fn read_image_kept<A: Allocator>(
    alloc: A,
    verbosity: KittyImageVerbosity,
    pairs: &[Pair<'_>],
    payload: &[u8],
) -> Result<Option<KittyImage<A>>, AllocError>
    ensures ok { IfOk result (λ o. o ≡ option_map (λ t. image.TransmitData t verbosity)
        (transmit_of (values pairs.now) payload.now)) }
    ensures refused { OnErr result (Refused A) }
{
    match read_transmit(alloc, pairs, payload)? {
        Some(transmit) => Ok(Some(KittyImage::TransmitData {
            transmit,
            verbosity,
        })),
        None => Ok(None),
    }
}

// Reads the image of a query.
fn read_image_query<A: Allocator>(
    alloc: A,
    pairs: &[Pair<'_>],
    payload: &[u8],
) -> Result<Option<KittyImage<A>>, AllocError>
    ensures ok { IfOk result (λ o. o ≡ option_map image.Query
        (transmit_of (values pairs.now) payload.now)) }
    ensures refused { OnErr result (Refused A) }
{
    match read_transmit(alloc, pairs, payload)? {
        Some(transmit) => Ok(Some(KittyImage::Query { transmit })),
        None => Ok(None),
    }
}

// Reads the kept image that is shown.
fn read_image_display<A: Allocator>(
    verbosity: KittyImageVerbosity,
    pairs: &[Pair<'_>],
) -> Option<KittyImage<A>>
    ensures { result ≡ image_display verbosity (values pairs.now) }
{
    let Some(placement) = read_placement(pairs) else {
        return None;
    };
    Some(KittyImage::Display {
        image_id: number(pairs, b'i'),
        image_number: number(pairs, b'I'),
        placement,
        verbosity,
    })
}

// Reads the deletion.
fn read_image_delete<A: Allocator>(
    verbosity: KittyImageVerbosity,
    pairs: &[Pair<'_>],
) -> Option<KittyImage<A>>
    ensures { result ≡ option_map (λ w. image.Delete w verbosity) (delete_of (values pairs.now)) }
{
    match read_delete(pairs) {
        Some(what) => Some(KittyImage::Delete { what, verbosity }),
        None => None,
    }
}

// Reads the frames that are composed.
fn read_image_compose<A: Allocator>(
    verbosity: KittyImageVerbosity,
    pairs: &[Pair<'_>],
) -> Option<KittyImage<A>>
    ensures { result ≡ option_map (λ f. image.ComposeFrame f verbosity)
        (compose_of (values pairs.now)) }
{
    match read_compose(pairs) {
        Some(frame) => Some(KittyImage::ComposeFrame { frame, verbosity }),
        None => None,
    }
}

// Reads the image that is kept and shown.
fn read_image_shown<A: Allocator + Copy>(
    alloc: A,
    verbosity: KittyImageVerbosity,
    pairs: &[Pair<'_>],
    payload: &[u8],
) -> Result<Option<KittyImage<A>>, AllocError>
    ensures ok { IfOk result (λ o. o ≡ image_shown verbosity (values pairs.now) payload.now) }
    ensures refused { OnErr result (Refused A) }
{
    let Some(placement) = read_placement(pairs) else {
        return Ok(None);
    };
    match read_transmit(alloc, pairs, payload)? {
        Some(transmit) => Ok(Some(KittyImage::TransmitDataAndDisplay {
            transmit,
            placement,
            verbosity,
        })),
        None => Ok(None),
    }
}

// Reads the frame that is kept.
fn read_image_frame<A: Allocator + Copy>(
    alloc: A,
    verbosity: KittyImageVerbosity,
    pairs: &[Pair<'_>],
    payload: &[u8],
) -> Result<Option<KittyImage<A>>, AllocError>
    ensures ok { IfOk result (λ o. o ≡ image_frame verbosity (values pairs.now) payload.now) }
    ensures refused { OnErr result (Refused A) }
{
    let Some(frame) = read_frame(pairs) else {
        return Ok(None);
    };
    match read_transmit(alloc, pairs, payload)? {
        Some(transmit) => Ok(Some(KittyImage::TransmitFrame {
            transmit,
            frame,
            verbosity,
        })),
        None => Ok(None),
    }
}
