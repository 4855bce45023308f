//! Images and queries under one name: kitty images, sixel images and termcap queries, each of a
//! crate of its own, which names the standard that it follows.
//!
//! A program deletes all placements that are visible, as kitty's graphics protocol has it:
//!
//! ```text
//! let image = kitty::KittyImage::parse_apc(alloc, b"Ga=d,d=a")?;
//! // Some(KittyImage::Delete { what: KittyImageDelete::All { delete: false }, .. })
//! ```
#![tactic(auto)]

/// Kitty images: application program commands of kitty's graphics protocol.
pub mod kitty {
    pub use esc_kitty::{
        KittyFrameCompositionMode, KittyImage, KittyImageCompression, KittyImageData,
        KittyImageDelete, KittyImageFormat, KittyImageFrame, KittyImageFrameCompose,
        KittyImagePlacement, KittyImageTransmit, KittyImageVerbosity,
    };
}

/// Sixel images: device control strings with the final byte `q`.
pub mod sixel {
    pub use esc_sixel::{Sixel, SixelBuilder, SixelData, SixelValue};
}

/// Termcap queries: device control strings with the intermediate `+` and the final byte `q`.
pub mod tcap {
    pub use xtgettcap::{GetTcapBuilder, TcapQuery};
}
