//! This module defines the commands of kitty's graphics protocol.
ghost use Rattle.std.specs.Prelude.{◌≡◌};
ghost use Rattle.esc_kitty.specs.Images.{verbosity_in};

use crate::compose::KittyImageFrameCompose;
use crate::delete::KittyImageDelete;
use crate::frame::KittyImageFrame;
use crate::placement::KittyImagePlacement;
use crate::transmit::KittyImageTransmit;
use crate::verbosity::KittyImageVerbosity;
use std::alloc::{Allocator, Global};

/// This is a command of kitty's graphics protocol (key `a`).
#[derive(Drop)]
#[derive_where(Debug, PartialEq, Eq)]
pub enum KittyImage<A: Allocator = Global> {
    /// `t`: keeps an image. This is the default.
    TransmitData {
        /// The image.
        transmit: KittyImageTransmit<A>,
        /// The report of the terminal.
        verbosity: KittyImageVerbosity,
    },
    /// `T`: keeps an image, and shows it.
    TransmitDataAndDisplay {
        /// The image.
        transmit: KittyImageTransmit<A>,
        /// The placement that shows it.
        placement: KittyImagePlacement,
        /// The report of the terminal.
        verbosity: KittyImageVerbosity,
    },
    /// `p`: shows an image that is kept.
    Display {
        /// The image's id, key `i`.
        image_id: Option<u32>,
        /// The image's number, key `I`.
        image_number: Option<u32>,
        /// The placement that shows it.
        placement: KittyImagePlacement,
        /// The report of the terminal.
        verbosity: KittyImageVerbosity,
    },
    /// `d`: deletes placements.
    Delete {
        /// The placements that are deleted.
        what: KittyImageDelete,
        /// The report of the terminal.
        verbosity: KittyImageVerbosity,
    },
    /// `q`: asks whether an image could be kept, and does not keep it.
    Query {
        /// The image.
        transmit: KittyImageTransmit<A>,
    },
    /// `f`: keeps a frame of an animation.
    TransmitFrame {
        /// The frame's pixels.
        transmit: KittyImageTransmit<A>,
        /// The frame.
        frame: KittyImageFrame,
        /// The report of the terminal.
        verbosity: KittyImageVerbosity,
    },
    /// `c`: puts a part of one frame over another.
    ComposeFrame {
        /// The frames.
        frame: KittyImageFrameCompose,
        /// The report of the terminal.
        verbosity: KittyImageVerbosity,
    },
}

impl<A: Allocator> KittyImage<A> {
    /// Returns what the terminal reports of the command. For a `Query` it is `Verbose`, since a
    /// query asks for an answer.
    pub fn verbosity(&self) -> KittyImageVerbosity
        ensures { result ≡ verbosity_in self.now }
    {
        match self {
            KittyImage::TransmitData { verbosity, .. } => *verbosity,
            KittyImage::TransmitDataAndDisplay { verbosity, .. } => *verbosity,
            KittyImage::Display { verbosity, .. } => *verbosity,
            KittyImage::Delete { verbosity, .. } => *verbosity,
            KittyImage::Query { .. } => KittyImageVerbosity::Verbose,
            KittyImage::TransmitFrame { verbosity, .. } => *verbosity,
            KittyImage::ComposeFrame { verbosity, .. } => *verbosity,
        }
    }
}
