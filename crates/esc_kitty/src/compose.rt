//! This module defines frames that are put over others.
use crate::composition::KittyFrameCompositionMode;

/// A composition puts a part of one frame over another of the same image.
#[derive(Clone, Copy, Debug, PartialEq, Eq)]
pub struct KittyImageFrameCompose {
    /// The image's id, key `i`.
    pub image_id: Option<u32>,
    /// The image's number, key `I`.
    pub image_number: Option<u32>,
    /// The frame that is changed, from 1, key `c`. 0 reads as none.
    pub target_frame: Option<u32>,
    /// The frame whose pixels are taken, from 1, key `r`. 0 reads as none.
    pub source_frame: Option<u32>,
    /// The left edge of the place where they are put, in pixels, key `x`.
    pub x: Option<u32>,
    /// The top edge of the place where they are put, in pixels, key `y`.
    pub y: Option<u32>,
    /// The width of the part, in pixels, key `w`. Without it the part is as wide as the frame.
    pub w: Option<u32>,
    /// The height of the part, in pixels, key `h`. Without it the part is as high as the frame.
    pub h: Option<u32>,
    /// The left edge of the part that is taken, in pixels, key `X`.
    pub src_x: Option<u32>,
    /// The top edge of the part that is taken, in pixels, key `Y`.
    pub src_y: Option<u32>,
    /// The way its pixels are put over the others, key `C`.
    pub composition_mode: KittyFrameCompositionMode,
}
