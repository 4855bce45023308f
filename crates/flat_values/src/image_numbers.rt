//! This module numbers the words of kitty's protocol.
ghost use Rattle.std.specs.Prelude.{◌≡◌, Some};
ghost use Rattle.std.specs.Option.{option_map};
ghost use Rattle.flat_values.specs.Images.{bytes_of, composition_number, compression_number, counted_field, flag_field, format_number, medium_number, verbosity_number};
ghost use Rattle.esc_kitty.specs.Texts.{offset_in, size_in};

use esc_kitty::{
    KittyFrameCompositionMode, KittyImageCompression, KittyImageData, KittyImageFormat,
    KittyImageVerbosity,
};

// Returns the number of a flag.
pub(crate) fn flagged(flag: bool) -> Option<u32>
    ensures { counted_field result ≡ flag_field flag }
{
    Some(if flag { 1 } else { 0 })
}

// Returns the number of a verbosity.
pub(crate) fn verbosity_number(verbosity: KittyImageVerbosity) -> Option<u32>
    ensures { result ≡ Some (verbosity_number verbosity) }
{
    match verbosity {
        KittyImageVerbosity::Verbose => Some(0),
        KittyImageVerbosity::OnlyErrors => Some(1),
        KittyImageVerbosity::Quiet => Some(2),
    }
}

// Returns the number of the format of pixels, if it is given.
pub(crate) fn format(format: Option<KittyImageFormat>) -> Option<u32>
    ensures { result ≡ option_map format_number format }
{
    match format {
        None => None,
        Some(KittyImageFormat::Rgb) => Some(24),
        Some(KittyImageFormat::Rgba) => Some(32),
        Some(KittyImageFormat::Png) => Some(100),
    }
}

// Returns the number of a compression.
pub(crate) fn compression(compression: KittyImageCompression) -> Option<u32>
    ensures { result ≡ Some (compression_number compression) }
{
    match compression {
        KittyImageCompression::None => Some(0),
        KittyImageCompression::Deflate => Some(1),
    }
}

// Returns the number of a composition mode.
pub(crate) fn composition(mode: KittyFrameCompositionMode) -> Option<u32>
    ensures { result ≡ Some (composition_number mode) }
{
    match mode {
        KittyFrameCompositionMode::AlphaBlending => Some(0),
        KittyFrameCompositionMode::Overwrite => Some(1),
    }
}

// Returns the number of the medium, which is one of five.
pub(crate) fn medium(content: &KittyImageData) -> Option<u32>
    ensures { result ≡ Some (medium_number content.now) }
{
    match content {
        KittyImageData::Direct(_) => Some(0),
        KittyImageData::DirectBin(_) => Some(1),
        KittyImageData::File { .. } => Some(2),
        KittyImageData::TemporaryFile { .. } => Some(3),
        KittyImageData::SharedMem { .. } => Some(4),
    }
}

// Returns how many bytes it has, if they are given.
pub(crate) fn data_size(content: &KittyImageData) -> Option<u32>
    ensures { result ≡ size_in content.now }
{
    match content {
        KittyImageData::Direct(_) | KittyImageData::DirectBin(_) => None,
        KittyImageData::File { data_size, .. } => *data_size,
        KittyImageData::TemporaryFile { data_size, .. } => *data_size,
        KittyImageData::SharedMem { data_size, .. } => *data_size,
    }
}

// Returns how many bytes come before them, if they are given.
pub(crate) fn data_offset(content: &KittyImageData) -> Option<u32>
    ensures { result ≡ offset_in content.now }
{
    match content {
        KittyImageData::Direct(_) | KittyImageData::DirectBin(_) => None,
        KittyImageData::File { data_offset, .. } => *data_offset,
        KittyImageData::TemporaryFile { data_offset, .. } => *data_offset,
        KittyImageData::SharedMem { data_offset, .. } => *data_offset,
    }
}

// Returns the text of the content.
pub(crate) fn bytes(content: &KittyImageData) -> &[u8]
    ensures { result.now ≡ bytes_of content.now }
{
    match content {
        KittyImageData::Direct(text) => text.as_bytes(),
        KittyImageData::DirectBin(bytes) => bytes.as_slice(),
        KittyImageData::File { path, .. } => path.as_bytes(),
        KittyImageData::TemporaryFile { path, .. } => path.as_bytes(),
        KittyImageData::SharedMem { name, .. } => name.as_bytes(),
    }
}
