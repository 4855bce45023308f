//! Laws of fields say that rows have the names and values of fields, and that fields are the whole
//! of a command, an image or a query, as a row is of a sixel item.
ghost use Rattle.std.specs.Prelude.{◌≡◌, ◌≤◌, ℕ, ℤ, List, Option, length, map};
ghost use Rattle.flat_values.specs.Commands.{fields_of};
ghost use Rattle.flat_values.specs.Fields.{Field, named_values, table_values, table_of};
ghost use Rattle.flat_values.specs.Kinds.{kind_number, kind_of};
ghost use Rattle.flat_values.specs.ImageKinds.{image_kind, image_number};
ghost use Rattle.flat_values.specs.Images.{fields_of_image};
ghost use Rattle.flat_values.specs.Queries.{query_fields};
ghost use Rattle.flat_values.specs.Sixels.{sixel_row};
ghost use Rattle.esc_kitty.specs.declared.image.KittyImage.{KittyImage};
ghost use Rattle.esc_osc.specs.declared.command.OperatingSystemCommand.{OperatingSystemCommand};
ghost use Rattle.esc_sixel.specs.Items.{items};
ghost use Rattle.esc_sixel.specs.Meaning.{sixel_of};
ghost use Rattle.esc_sixel.specs.declared.sixel_data.SixelData.{SixelData};

use std::alloc::Allocator;

/// The rows of fields say their names and their values.
#[tactic(auto, using(crate::proofs::Tables::rows_say))]
pub fn rows_say()
    ensures { (fs : List Field) → table_values (table_of fs) ≡ map named_values fs }
{}

/// The number of a kind, the rows of its fields and their texts are the whole of a command: no two
/// commands have the same.
#[tactic(auto, using(crate::proofs::Whole::whole))]
pub fn are_whole<A: Allocator>()
    ensures { (c d : OperatingSystemCommand A) → kind_number (kind_of c) ≡ kind_number (kind_of d)
        → table_of (fields_of c) ≡ table_of (fields_of d) → c ≡ d }
{}

/// They are the whole of an image of kitty's, or of none, too.
pub fn images_are_whole<A: Allocator>()
    ensures { (i j : Option (KittyImage A))
        → image_number (image_kind i) ≡ image_number (image_kind j)
        → table_of (fields_of_image i) ≡ table_of (fields_of_image j) → i ≡ j }
{}

/// A row is the whole of a sixel item.
#[tactic(auto, using(crate::proofs::SixelsFound::sixels_whole))]
pub fn sixel_rows_are_whole()
    ensures { (d e : SixelData) → sixel_row d ≡ sixel_row e → d ≡ e }
{}

/// The rows of the fields of a termcap query and their texts are the whole of it.
#[tactic(auto, using(crate::proofs::SixelsFound::queries_whole))]
pub fn queries_are_whole()
    ensures { (ns ms : List (List ℕ)) → table_of (query_fields ns) ≡ table_of (query_fields ms)
        → ns ≡ ms }
{}

/// A sixel image has no more items than bytes that it was read from.
#[tactic(auto, using(crate::proofs::SixelsFew::content_few))]
pub fn sixel_items_are_few<A: Allocator>()
    ensures { (ps : List ℤ) (s : List ℕ)
        → length (sixel_of {A = A} ps (items s)).content ≤ length s }
{}
