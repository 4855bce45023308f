//! An actor that reads images.

use crate::counted::Counted;
use esc_frame::actor::VTActor;
use esc_kitty::{KittyImage, KittyImageData};
use esc_sixel::SixelBuilder;
use esc_values::csi_param::CsiParam;
use std::alloc::{AllocError, Global};
use std::mem;
use xtgettcap::GetTcapBuilder;

/// A device control string whose data is read.
#[derive(Drop)]
enum Open {
    /// None, or one of another kind.
    Nothing,
    /// A sixel image.
    Sixel(SixelBuilder),
    /// A termcap query.
    Query(GetTcapBuilder),
}

/// Reads each kitty image, sixel image and termcap query of a stream, counts them, and adds up how
/// much they hold: the bytes of a payload, the chunks of a sixel's data, the names of a query.
#[derive(Drop)]
pub struct Images {
    alloc: Global,
    open: Open,
    number: u64,
    total: u64,
}

impl Images {
    /// Returns an empty count.
    pub fn new(alloc: Global) -> Images {
        Images {
            alloc,
            open: Open::Nothing,
            number: 0,
            total: 0,
        }
    }

    /// Returns the counts.
    pub fn counted(&self) -> Counted {
        Counted::Images(self.number, self.total)
    }

    // Counts one more image or query, which holds this many bytes.
    fn add(&mut self, size: usize) {
        self.number = self.number.wrapping_add(1);
        self.total = self.total.wrapping_add(size as u64);
    }
}

// A value that may have a payload.
trait Payload: Drop {
    // Returns the number of its bytes.
    fn payload_size(&self) -> usize;
}

impl Payload for KittyImage {
    // Returns 0 if the image is not sent in it.
    fn payload_size(&self) -> usize {
        match self {
            KittyImage::TransmitData { transmit, .. }
            | KittyImage::TransmitDataAndDisplay { transmit, .. }
            | KittyImage::Query { transmit }
            | KittyImage::TransmitFrame { transmit, .. } => match &transmit.content {
                KittyImageData::Direct(text) => text.len(),
                _ => 0,
            },
            _ => 0,
        }
    }
}

// Returns the number of bytes of the payload that was read, if there is a value. A value of any
// type is dropped then, so that no proof goes over the kinds of images.
fn size_of<T: Payload>(read: Result<Option<T>, AllocError>) -> Result<Option<usize>, AllocError> {
    match read {
        Ok(Some(value)) => Ok(Some(value.payload_size())),
        Ok(None) => Ok(None),
        Err(error) => Err(error),
    }
}

// Returns how much a string holds that is at its end, if it is of a known kind.
fn held(open: Open) -> Result<Option<usize>, AllocError> {
    match open {
        Open::Nothing => Ok(None),
        Open::Sixel(builder) => chunks_of(builder),
        Open::Query(builder) => names_of(builder),
    }
}

fn chunks_of(mut builder: SixelBuilder) -> Result<Option<usize>, AllocError> {
    let ended = builder.finish();
    let count = builder.sixel.content.len();
    counted_if(ended, count)
}

fn names_of(builder: GetTcapBuilder) -> Result<Option<usize>, AllocError> {
    match builder.finish() {
        Ok(names) => Ok(Some(names.len())),
        Err(error) => Err(error),
    }
}

// Returns this number, unless memory was refused.
fn counted_if(ended: Result<(), AllocError>, count: usize) -> Result<Option<usize>, AllocError> {
    match ended {
        Ok(()) => Ok(Some(count)),
        Err(error) => Err(error),
    }
}

impl VTActor for Images {
    ghost takes = { λ _ _ _. Unit {0} };

    ghost refuses = { λ _ _ _. Unit {0} };

    ghost is_ready = { λ _. Unit {0} };

    ghost may = { λ _ _. Unit {0} };

    #[inline]
    fn print(&mut self, _c: char) -> Result<(), AllocError> {
        Ok(())
    }

    #[inline]
    fn execute_c0_or_c1(&mut self, _control: u8) -> Result<(), AllocError> {
        Ok(())
    }

    #[inline]
    fn dcs_hook(
        &mut self,
        byte: u8,
        params: &[i64],
        intermediates: &[u8],
        _ignored_extra_intermediates: bool,
    ) -> Result<(), AllocError> {
        self.open = match (byte, intermediates) {
            (b'q', []) => Open::Sixel(SixelBuilder::new(self.alloc, params)),
            (b'q', [b'+']) => Open::Query(GetTcapBuilder::new(self.alloc)),
            _ => Open::Nothing,
        };
        Ok(())
    }

    #[inline]
    fn dcs_put(&mut self, byte: u8) -> Result<(), AllocError> {
        match &mut self.open {
            Open::Nothing => Ok(()),
            Open::Sixel(builder) => builder.push(byte),
            Open::Query(builder) => builder.push(byte),
        }
    }

    #[inline]
    fn dcs_put_text(&mut self, bytes: &[u8]) -> Result<(), AllocError> {
        match &mut self.open {
            Open::Nothing => Ok(()),
            Open::Sixel(builder) => builder.push_run(bytes),
            Open::Query(builder) => builder.push_run(bytes),
        }
    }

    #[inline]
    fn dcs_unhook(&mut self) -> Result<(), AllocError> {
        if let Some(size) = held(mem::replace(&mut self.open, Open::Nothing))? {
            self.add(size);
        }
        Ok(())
    }

    #[inline]
    fn esc_dispatch(
        &mut self,
        _params: &[i64],
        _intermediates: &[u8],
        _ignored_extra_intermediates: bool,
        _byte: u8,
    ) -> Result<(), AllocError> {
        Ok(())
    }

    #[inline]
    fn csi_dispatch(
        &mut self,
        _params: &[CsiParam],
        _parameters_truncated: bool,
        _byte: u8,
    ) -> Result<(), AllocError> {
        Ok(())
    }

    #[inline]
    fn osc_dispatch(&mut self, _params: &[&[u8]]) -> Result<(), AllocError> {
        Ok(())
    }

    #[inline]
    fn apc_dispatch(&mut self, text: &[u8]) -> Result<(), AllocError> {
        if let Some(size) = size_of(KittyImage::parse_apc(self.alloc, text))? {
            self.add(size);
        }
        Ok(())
    }
}
