//! This module defines images that are sent to the terminal.
use crate::compression::KittyImageCompression;
use crate::content::KittyImageData;
use crate::format::KittyImageFormat;
use std::alloc::{Allocator, Global};

/// An image is sent to the terminal.
#[derive(Drop)]
#[derive_where(Debug, PartialEq, Eq)]
pub struct KittyImageTransmit<A: Allocator = Global> {
    /// The format of its pixels, key `f`. Without it the terminal takes `Rgba`.
    pub format: Option<KittyImageFormat>,
    /// Its content, key `t` and the payload.
    pub content: KittyImageData<A>,
    /// Its width in pixels, key `s`.
    pub width: Option<u32>,
    /// Its height in pixels, key `v`.
    pub height: Option<u32>,
    /// Its id, key `i`.
    pub image_id: Option<u32>,
    /// Its number, key `I`, in place of an id that the terminal chooses.
    pub image_number: Option<u32>,
    /// The compression of its pixels, key `o`.
    pub compression: KittyImageCompression,
    /// Says whether more of it follows in further commands, key `m`.
    pub more_data_follows: bool,
}
