//! The texts that a reader of a page finds.
ghost use Rattle.std.specs.Prelude.{◌≡◌, List, true};
ghost use Rattle.std.specs.List.{flat_map, list_all};
ghost use Rattle.dump_page.specs.Pages.{PagePart, found_quotes, is_fit, page_part_chars, quoted_texts};
ghost use Rattle.dump_page.specs.Pages.Place.{Outside};

/// A reader of the characters of a page finds between quotes exactly the quoted texts, and nothing
/// else: so no text of a stream ends its quotes early, and none begins in the words.
pub fn quotes_are_found()
    ensures { (ps : List PagePart) → list_all is_fit ps ≡ true
        → found_quotes Outside (flat_map page_part_chars ps) ≡ quoted_texts ps }
{}
