//! This module defines the frames of an animation.
use crate::composition::KittyFrameCompositionMode;

/// A frame of an animation is sent.
#[derive(Clone, Copy, Debug, PartialEq, Eq)]
pub struct KittyImageFrame {
    /// The left edge of the place where its pixels are put, in pixels, key `x`.
    pub x: Option<u32>,
    /// The top edge of the place where its pixels are put, in pixels, key `y`.
    pub y: Option<u32>,
    /// The frame whose pixels it begins with, from 1, key `c`. Without it the frame begins with the
    /// background. 0 reads as none.
    pub base_frame: Option<u32>,
    /// The frame that is edited, from 1, key `r`. Without it a new one is made. 0 reads as none.
    pub frame_number: Option<u32>,
    /// The time that it is shown before the next, in milliseconds, key `z`. 0 reads as none.
    pub duration_ms: Option<u32>,
    /// The way its pixels are put over those that it begins with, key `X`.
    pub composition_mode: KittyFrameCompositionMode,
    /// The colour of the background, as red, green, blue and alpha of 8 bits, red the highest, key
    /// `Y`. Without it the background is transparent black.
    pub background_pixel: Option<u32>,
}
