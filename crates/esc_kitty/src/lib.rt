//! This crate has the images of kitty's graphics protocol
//! (<https://sw.kovidgoyal.net/kitty/graphics-protocol/>), as a part of `esc_image`: it reads the
//! data of an application program command as a [`KittyImage`], and writes one.
//!
//! A program sends a picture of 10 by 20 pixels, three bytes a pixel, in base64:
//!
//! ```text
//! let image = KittyImage::parse_apc(alloc, b"Gf=24,s=10,v=20;aGVsbG8=")?;
//! // Some(KittyImage::TransmitData { .. }), whose format is Some(KittyImageFormat::Rgb);
//! // it is written as "\x1b_Gf=24,s=10,v=20;aGVsbG8=", and the caller writes the terminator
//! ```
#![tactic(auto)]

pub mod compose;
pub mod composition;
pub mod compression;
pub mod content;
pub mod delete;
pub mod format;
pub mod frame;
pub mod image;
mod keys;
pub mod laws;
mod parse;
pub mod placement;
mod read_delete;
mod read_shown;
mod read_transmit;
pub mod transmit;
pub mod verbosity;
mod write;
mod write_delete;
mod write_keys;
mod write_shown;
mod write_transmit;

pub use compose::KittyImageFrameCompose;
pub use composition::KittyFrameCompositionMode;
pub use compression::KittyImageCompression;
pub use content::KittyImageData;
pub use delete::KittyImageDelete;
pub use format::KittyImageFormat;
pub use frame::KittyImageFrame;
pub use image::KittyImage;
pub use placement::KittyImagePlacement;
pub use transmit::KittyImageTransmit;
pub use verbosity::KittyImageVerbosity;
