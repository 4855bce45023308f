//! This module finds a kitty image: its kinds by their numbers, in forms that are read alike.
ghost use Rattle.std.specs.Prelude.{◌≡◌};
ghost use Rattle.flat_values.specs.FoundImages.{image_form_at};

use self::ImageForm::{Deleted, Sent};

// The form says how the image of a kind is read.
#[derive(Clone, Copy)]
pub(crate) enum ImageForm {
    // is no image
    Nothing,
    // has a text
    Sent(Sending),
    // is a kept image that is shown
    Displayed,
    // has frames that are put over others
    Composed,
    // is a deletion
    Deleted(Deletion),
}

// These have a text.
#[derive(Clone, Copy)]
pub(crate) enum Sending {
    // keeps an image
    Kept,
    // keeps an image and shows it
    Shown,
    // asks whether an image could be kept
    Asked,
    // keeps a frame
    Frame,
}

// These are deletions.
#[derive(Clone, Copy)]
pub(crate) enum Deletion {
    All,
    ImageId,
    ImageNumber,
    AtCursor,
    Frames,
    At,
    AtZ,
    Column,
    Row,
    Z,
    Range,
}

// has the kinds in the order of their numbers, which is that of `ImageKind`
const IMAGE_FORMS: [ImageForm; 18] = [
    ImageForm::Nothing,
    Sent(Sending::Kept),
    Sent(Sending::Shown),
    ImageForm::Displayed,
    Sent(Sending::Asked),
    Sent(Sending::Frame),
    ImageForm::Composed,
    Deleted(Deletion::All),
    Deleted(Deletion::ImageId),
    Deleted(Deletion::ImageNumber),
    Deleted(Deletion::AtCursor),
    Deleted(Deletion::Frames),
    Deleted(Deletion::At),
    Deleted(Deletion::AtZ),
    Deleted(Deletion::Column),
    Deleted(Deletion::Row),
    Deleted(Deletion::Z),
    Deleted(Deletion::Range),
];

// Returns the form of the kind of this number; that of no image if there is no such kind.
pub(crate) fn image_form_at(number: u32) -> ImageForm
    ensures { result ≡ image_form_at number }
{
    let index = number as usize;
    if index < IMAGE_FORMS.len() {
        IMAGE_FORMS[index]
    } else {
        ImageForm::Nothing
    }
}
