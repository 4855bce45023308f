//! This module defines the kinds of kitty's images.
ghost use Rattle.std.specs.Prelude.{◌≡◌};
ghost use Rattle.flat_values.specs.ImageKinds.{delete_kind, image_kind, image_number};

use esc_kitty::{KittyImage, KittyImageDelete};

/// The kind says which command of kitty's graphics protocol it is; deletions have a kind each. Each
/// kind names its [fields](crate::FieldName), in order: `?` says that one may be absent. `transmit`
/// is `Content Medium DataSize? DataOffset? Format? PixelWidth? PixelHeight? ImageId? ImageNumber?
/// Compression MoreDataFollows`, and `placement` is `X? Y? Width? Height? XOffset? YOffset?
/// Columns? Rows? PlacementId? DoNotMoveCursor ZIndex? UnicodePlaceholder`. The numbers are those
/// of the header for C, so a new kind comes last.
#[derive(Clone, Copy)]
pub enum ImageKind {
    /// No field: the kind of no image.
    NoImage,
    /// `transmit Verbosity`.
    TransmitData,
    /// `transmit placement Verbosity`.
    TransmitDataAndDisplay,
    /// `ImageId? ImageNumber? placement Verbosity`.
    Display,
    /// `transmit`.
    Query,
    /// `transmit X? Y? BaseFrame? FrameNumber? Duration? CompositionMode BackgroundPixel?
    /// Verbosity`.
    TransmitFrame,
    /// `ImageId? ImageNumber? TargetFrame? SourceFrame? X? Y? Width? Height? SourceX? SourceY?
    /// CompositionMode Verbosity`.
    ComposeFrame,
    /// `DeletesData Verbosity`.
    DeleteAll,
    /// `ImageId PlacementId? DeletesData Verbosity`.
    DeleteByImageId,
    /// `ImageNumber PlacementId? DeletesData Verbosity`.
    DeleteByImageNumber,
    /// `DeletesData Verbosity`.
    DeleteAtCursorPosition,
    /// `DeletesData Verbosity`.
    DeleteAnimationFrames,
    /// `X Y DeletesData Verbosity`.
    DeleteAt,
    /// `X Y ZIndex DeletesData Verbosity`.
    DeleteAtZ,
    /// `X DeletesData Verbosity`.
    DeleteColumn,
    /// `Y DeletesData Verbosity`.
    DeleteRow,
    /// `ZIndex DeletesData Verbosity`.
    DeleteZ,
    /// `FirstImageId LastImageId DeletesData Verbosity`.
    DeleteByImageIdRange,
}

impl ImageKind {
    /// Returns the kind of this image, or of none.
    pub fn of(image: &Option<KittyImage>) -> ImageKind
        ensures { result ≡ image_kind image.now }
    {
        let Some(image) = image else {
            return ImageKind::NoImage;
        };
        match image {
            KittyImage::TransmitData { .. } => ImageKind::TransmitData,
            KittyImage::TransmitDataAndDisplay { .. } => ImageKind::TransmitDataAndDisplay,
            KittyImage::Display { .. } => ImageKind::Display,
            KittyImage::Delete { what, .. } => deleted(what),
            KittyImage::Query { .. } => ImageKind::Query,
            KittyImage::TransmitFrame { .. } => ImageKind::TransmitFrame,
            KittyImage::ComposeFrame { .. } => ImageKind::ComposeFrame,
        }
    }

    /// Returns its number: its place in this order, from 0.
    pub fn number(self) -> u32
        ensures { result ≡ image_number self }
    {
        self as u32
    }
}

// Returns the kind of a deletion.
fn deleted(what: &KittyImageDelete) -> ImageKind
    ensures { result ≡ delete_kind what.now }
{
    match what {
        KittyImageDelete::All { .. } => ImageKind::DeleteAll,
        KittyImageDelete::ByImageId { .. } => ImageKind::DeleteByImageId,
        KittyImageDelete::ByImageNumber { .. } => ImageKind::DeleteByImageNumber,
        KittyImageDelete::AtCursorPosition { .. } => ImageKind::DeleteAtCursorPosition,
        KittyImageDelete::AnimationFrames { .. } => ImageKind::DeleteAnimationFrames,
        KittyImageDelete::DeleteAt { .. } => ImageKind::DeleteAt,
        KittyImageDelete::DeleteAtZ { .. } => ImageKind::DeleteAtZ,
        KittyImageDelete::DeleteColumn { .. } => ImageKind::DeleteColumn,
        KittyImageDelete::DeleteRow { .. } => ImageKind::DeleteRow,
        KittyImageDelete::DeleteZ { .. } => ImageKind::DeleteZ,
        KittyImageDelete::ByImageIdRange { .. } => ImageKind::DeleteByImageIdRange,
    }
}
