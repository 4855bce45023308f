//! The law of hyperlinks says that a link that was read reads back.
ghost use Rattle.std.specs.Prelude.{◌≡◌, ℕ, List, Option, Some};
ghost use Rattle.esc_links.specs.Hyperlinks.{link_of, link_text};
ghost use Rattle.esc_links.specs.declared.hyperlink.Hyperlink.{Hyperlink};
ghost use Rattle.esc_values.specs.Clear.{IsClearText, AreTextParts, parts_of};

use std::alloc::Allocator;

/// A hyperlink, or none, that is read from clear parts has a clear text, whose parts are read as
/// the same.
pub fn link_reads_back<A: Allocator>()
    ensures { (ps : List (List ℕ)) → AreTextParts ps → (v : Option (Hyperlink A))
        → link_of ps ≡ Some v
        → IsClearText (link_text v) × (link_of (parts_of (link_text v)) ≡ Some v) }
{}
