//! This module defines files that are sent to the terminal
//! (<https://iterm2.com/documentation-images.html>).
ghost use Rattle.std.specs.Prelude.{◌≡◌, IfOk, OnErr, map, Some};
ghost use Rattle.esc_iterm.specs.Files.{file_of, file_text, plain_file};
ghost use Rattle.fallible_alloc.specs.Refusals.{Refused};

use crate::dimension::ITermDimension;
use crate::read_file::read_file;
use crate::write_file::{write_content, write_keys};
use esc_values::{Items, Text};
use std::alloc::{AllocError, Allocator, Global};
use std::fmt;

/// A file is sent to the terminal, to be stored or shown (iTerm2's documentation, "Inline Images
/// Protocol").
#[derive(Drop)]
#[derive_where(Debug, PartialEq, Eq)]
pub struct ITermFileData<A: Allocator = Global> {
    /// Its name, if it has one.
    pub name: Option<Text<A>>,
    /// Its size in bytes, if it is given. It need not be that of the content.
    pub size: Option<usize>,
    /// The width at which it is shown.
    pub width: ITermDimension,
    /// The height at which it is shown.
    pub height: ITermDimension,
    /// Says whether its width and height keep their ratio.
    pub preserve_aspect_ratio: bool,
    /// Says whether it is shown. If not, it is stored.
    pub inline: bool,
    /// Says whether the cursor stays at its cell.
    pub do_not_move_cursor: bool,
    /// Its content.
    pub content: Items<u8, A>,
}

impl<A: Allocator> ITermFileData<A> {
    /// Returns the file that holds a copy of these bytes: with no name and no size, both dimensions
    /// automatic, its ratio kept, not inline, and with the cursor moved. The error is that memory
    /// was refused.
    pub fn new(alloc: A, content: &[u8]) -> Result<ITermFileData<A>, AllocError>
        ensures ok { IfOk result (λ f. f ≡ plain_file content.now) }
        ensures refused { OnErr result (Refused A) }
    {
        Ok(ITermFileData::with_content(Items::from_slice(alloc, content)?))
    }

    /// Returns the file that holds these bytes, else as [`new`](ITermFileData::new) makes it. Takes
    /// no memory.
    pub fn with_content(content: Items<u8, A>) -> ITermFileData<A>
        ensures { result ≡ plain_file content }
    {
        ITermFileData {
            name: None,
            size: None,
            width: ITermDimension::Automatic,
            height: ITermDimension::Automatic,
            preserve_aspect_ratio: true,
            inline: false,
            do_not_move_cursor: false,
            content,
        }
    }
}

impl<A: Allocator + Copy> ITermFileData<A> {
    /// Reads a file from the parts of an operating system command after its code `1337`; none if
    /// they are no file. The error is that memory was refused.
    ///
    /// The first part begins with `File=`. The slices are the bytes after that, and each further
    /// part. The last slice has a `:`, and after its first `:` the content in base64; before it,
    /// and in each other slice, is a key with its value after the first `=`, as texts. An empty
    /// slice is skipped, and so is a last slice without `=`. If a key comes more than once its last
    /// value counts; unknown keys are skipped.
    ///
    /// `name` is a base64 text, `size` a number, `width` and `height` are dimensions; one that
    /// cannot be read counts as absent. `preserveAspectRatio` is true unless it is `0`; `inline`
    /// and `doNotMoveCursor` are true if they are there and not `0`.
    pub fn parse(alloc: A, args: &[&[u8]]) -> Result<Option<Self>, AllocError>
        ensures ok { IfOk result (λ f. f ≡ file_of (map (λ p. p.now) args.now)) }
        ensures refused { OnErr result (Refused A) }
    {
        read_file(alloc, args)
    }
}

/// Writes `File=`; the keys `size`, `name`, `width`, `height`, `preserveAspectRatio`, `inline` and
/// `doNotMoveCursor` with their values, `;` between them, in this order and each only if its value
/// differs from the one that is read without the key; `:`, and the content in base64. If it returns
/// `Ok`, all of it was written.
impl<A: Allocator> fmt::Display for ITermFileData<A> {
    ghost output = { λ f. Some (file_text f) };

    fn fmt<W: fmt::Write>(&self, f: &mut fmt::Formatter<W>) -> fmt::Result {
        f.write_str("File=")?;
        write_keys(self, f)?;
        write_content(&self.content, f)
    }
}
