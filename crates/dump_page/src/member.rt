//! Members of objects of JSON.
ghost use Rattle.dump_page.specs.Pages.{IsPage};

/// A member of an object of JSON that is printed.
#[derive(Clone, Copy)]
pub enum Member {
    /// The name of the file, with which the object begins.
    File,
    /// The place, with which the object begins.
    Place,
    /// The place, after a file.
    NextPlace,
    /// The length.
    Length,
    /// The kind.
    Kind,
    /// Whether it is finished.
    Finished,
    /// Whether it is cut.
    Cut,
    /// That it is finished and is not cut, and the name.
    WholeName,
    /// The name.
    Name,
    /// The words.
    Words,
    /// The beginning of the list of fields.
    Fields,
    /// The bytes, escaped.
    Bytes,
    /// The bytes in base64.
    Base64,
}

impl Member {
    /// Returns the text before its value: the end of the member before it or the begin of the
    /// object, its name between quotes, and a colon.
    pub(crate) fn text(self) -> &'static str
        ensures { ∥ IsPage result.now ∥₁ }
    {
        match self {
            Member::File => "{\"file\":",
            Member::Place => "{\"offset\":",
            Member::NextPlace => ",\"offset\":",
            Member::Length => ",\"length\":",
            Member::Kind => ",\"kind\":",
            Member::Finished => ",\"finished\":",
            Member::Cut => ",\"cut\":",
            Member::WholeName => ",\"finished\":true,\"cut\":false,\"name\":",
            Member::Name => ",\"name\":",
            Member::Words => ",\"words\":",
            Member::Fields => ",\"fields\":[",
            Member::Bytes => ",\"bytes\":",
            Member::Base64 => ",\"base64\":",
        }
    }
}
