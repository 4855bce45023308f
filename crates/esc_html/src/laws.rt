//! The laws of the HTML that is written.
ghost use Rattle.std.specs.Prelude.{◌≡◌, ◌++◌, ℕ, List, [], Option, map, true};
ghost use Rattle.std.specs.List.{All, list_all};
ghost use Rattle.std.specs.Str.{encode_utf8_all};
ghost use Rattle.esc_html.specs.Listed.{IsListed, closes, is_safe_page_part};
ghost use Rattle.esc_html.specs.PageParts.{PagePart, utf8_part, html_text, is_kept_page_part, nests, tokens_of};
ghost use Rattle.esc_html.specs.Pages.{closing_text, page_text};
ghost use Rattle.esc_html.specs.LinedPages.{IsLinedPage};
ghost use Rattle.esc_html.specs.Lines.{in_lines};
ghost use Rattle.esc_html.specs.Shown.{IsPage};
ghost use Rattle.esc_html.specs.Tokens.{tokens};
ghost use Rattle.esc_html.specs.declared.layout.Layout.{Layout};

use esc_actions::laws::handed_out;
use std::alloc::Allocator;

/// A browser's tokenizer reads the text of parts as exactly their tokens: characters never become
/// a tag, and an address never leaves its attribute. The characters and addresses may be any, but
/// for NUL and carriage return, which HTML replaces.
pub fn page_parts_read_back()
    ensures { (ps : List PagePart) → list_all is_kept_page_part ps ≡ true
        → tokens (html_text ps) ≡ tokens_of ps }
{}

/// It reads nothing but characters, spans with names of the list of classes or with declarations of
/// fixed lists, and links to safe addresses, if those of the parts are safe: no other element,
/// attribute or scheme.
pub fn page_parts_are_listed()
    ensures { (ps : List PagePart) → list_all is_kept_page_part ps ≡ true
        → list_all is_safe_page_part ps ≡ true → All IsListed (tokens (html_text ps)) }
{}

/// If the parts nest and all are closed, so do the tags that it reads.
pub fn page_parts_close()
    ensures { (ps : List PagePart) → list_all is_kept_page_part ps ≡ true → nests [] ps ≡ true
        → closes [] (tokens (html_text ps)) ≡ true }
{}

/// The UTF-8 of the text of parts is the text of the parts' UTF-8: so the laws hold for the
/// characters that a browser decodes, as for the bytes that are written.
pub fn page_parts_encoded()
    ensures { (ps : List PagePart) → encode_utf8_all (html_text ps) ≡ html_text (map utf8_part ps) }
{}

/// For any stream, the texts that an [`HtmlWriter`](crate::HtmlWriter) hands out for its parts and
/// the tags that close it are a page: a browser's tokenizer reads nothing but characters, spans and
/// links to safe addresses; all tags are closed; it shows exactly the characters of the stream,
/// with U+FFFD in the place of noncharacters, each in the elements of its look and its link; and it
/// is at most 150 times as long as the stream, and 150 bytes more. It holds for every allocator
/// `A`, which the type of the actions names.
pub fn streams_are_pages<A: Allocator>()
    ensures { (limit : Option ℕ) (y : Layout) (s : List ℕ) → IsPage A limit y s
        (page_text A limit y s ++ closing_text A limit y s) }
{
    handed_out::<A>();
}

/// The same for a page in a layout with `per_line`, if a [`LineWriter`](crate::LineWriter) has made
/// an element of each line: the tags of lines are on the list too, and close; each character is in
/// the element of its line, the first of which has the number `n`; and a line is at most 126 bytes
/// longer.
pub fn lines_are_elements<A: Allocator>()
    ensures { (limit : Option ℕ) (n : ℕ) (y : Layout) (s : List ℕ) → y.per_line ≡ true
        → IsLinedPage A limit n y s
        (in_lines n (page_text A limit y s ++ closing_text A limit y s)) }
{
    handed_out::<A>();
    streams_are_pages::<A>();
}
