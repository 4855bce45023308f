//! Laws of files say that a written file reads back, and that a read file can be written.
ghost use Rattle.std.specs.Prelude.{◌≡◌, List, ℕ, Some};
ghost use Rattle.esc_iterm.specs.Dimensions.{dimension_of, dimension_text, IsDimension};
ghost use Rattle.esc_iterm.specs.Files.{file_of, FileBack, IsWritableFile};
ghost use Rattle.esc_iterm.specs.declared.dimension.ITermDimension.{ITermDimension};
ghost use Rattle.esc_iterm.specs.declared.file_data.ITermFileData.{ITermFileData};

use std::alloc::Allocator;

/// The text of a dimension reads back.
#[tactic(auto, using(crate::proofs::DimensionsBack::dimension_back))]
pub fn dimension_back()
    ensures { (d : ITermDimension) → IsDimension d → dimension_of (dimension_text d) ≡ Some d }
{}

/// The text of a file is that of clear parts, which are read as the file.
#[tactic(auto, using(crate::proofs::FilesBack::file_back))]
pub fn file_back<A: Allocator>()
    ensures { (f : ITermFileData A) → IsWritableFile f → FileBack f }
{}

/// A file that parts are read as has only numbers of 64 bits, bytes, and a name that is a text.
pub fn file_is_writable<A: Allocator>()
    ensures { (args : List (List ℕ)) → (f : ITermFileData A) → file_of args ≡ Some f
        → IsWritableFile f }
{}
