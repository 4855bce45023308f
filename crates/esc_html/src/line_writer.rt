//! The lines of a page as elements.
ghost use Rattle.std.specs.Prelude.{◌≡◌, ◌++◌, [], codes, false, OnErr, OnOk, string_bytes, true};
ghost use Rattle.std.specs.Fmt.{decimal};
ghost use Rattle.esc_html.specs.Lines.{begin_unless, line_begin, next_number, open_by, with_part};
ghost use Rattle.fallible_alloc.specs.Refusals.{Refused};

use crate::pair::push_pair;
use memchr::memchr;
use std::alloc::{AllocError, Allocator, Global};

/// Takes the text of a page, in whatever parts it comes, and gives for each the same with each
/// line in an element of its own:
///
/// ```text
/// <span class="es-line" id="L13"><a href="#L13" tabindex="-1" aria-hidden="true"></a>...
/// </span>
/// ```
///
/// The link has no text: a style sheet shows the line's number in it, which is not copied then. The
/// page has to be in a [`Layout`](crate::Layout) with `per_line`, so that no tag of it is open at
/// the end of a line; the law [`lines_are_elements`](crate::laws::lines_are_elements) says what
/// holds then. A line is at most 126 bytes longer.
///
/// It keeps the text of the part before.
#[derive(Drop)]
pub struct LineWriter<A: Allocator = Global> {
    text: String<A>,
    // the number of the line that is open, or comes next
    number: u64,
    is_open: bool,
}

impl<A: Allocator> LineWriter<A> {
    ghost use Rattle.esc_html.specs.Lining.{AfterLines, EndsLines, TakesLines, WasLined, added_in};

    /// A writer at the beginning of a page whose first line has this number. Takes no memory.
    pub fn new(alloc: A, first: u64) -> LineWriter<A>
        ensures given { WasLined first [] result }
        ensures empty { added_in result ≡ [] }
    {
        LineWriter {
            text: String::new(alloc),
            number: first,
            is_open: false,
        }
    }

    /// Takes more of the page. The text that this adds is then [`output`](Self::output). The error
    /// says that memory was refused: then the page cannot be gone on with.
    pub fn feed(&mut self, page: &str) -> Result<(), AllocError>
        ensures given { AfterLines self.old (λ first s.
            OnOk result (TakesLines first s page.now self.new)) }
        ensures refused { OnErr result (Refused A) }
    {
        self.text.clear();
        let mut rest = page;
        while let Some(at) = memchr(b'\n', rest.as_bytes()) {
            self.push_line(&rest[..at])?;
            rest = &rest[at + 1..];
        }
        self.push_part(rest)
    }

    /// Takes the last of the page, and closes the last line.
    pub fn finish(&mut self, page: &str) -> Result<(), AllocError>
        ensures given { AfterLines self.old (λ first s.
            OnOk result (EndsLines first s page.now self.new)) }
        ensures refused { OnErr result (Refused A) }
    {
        self.feed(page)?;
        if self.is_open {
            fallible_alloc::push_str(&mut self.text, "</span>")?;
        }
        Ok(())
    }

    /// Returns the text that the last call added.
    pub fn output(&self) -> &str
        ensures { result.now ≡ added_in self.now }
    {
        self.text.as_str()
    }

    // Adds the rest of a line, and ends it.
    fn push_line(&mut self, part: &str) -> Result<(), AllocError>
        ensures ok { OnOk result (string_bytes self.new.text ≡ string_bytes self.old.text
            ++ (begin_unless self.old.is_open self.old.number ++ (part.now ++ codes "\n</span>"))) }
        ensures state { OnOk result ((self.new.number ≡ next_number self.old.number)
            × (self.new.is_open ≡ false)) }
        ensures refused { OnErr result (Refused A) }
    {
        self.begin()?;
        push_pair(&mut self.text, part, "\n</span>")?;
        self.number = self.number.saturating_add(1);
        self.is_open = false;
        Ok(())
    }

    // Adds a part of a line.
    fn push_part(&mut self, part: &str) -> Result<(), AllocError>
        ensures ok { OnOk result (string_bytes self.new.text
            ≡ string_bytes self.old.text ++ with_part self.old.number self.old.is_open part.now) }
        ensures state { OnOk result ((self.new.number ≡ self.old.number)
            × (self.new.is_open ≡ open_by self.old.is_open part.now)) }
        ensures refused { OnErr result (Refused A) }
    {
        if part.is_empty() {
            return Ok(());
        }
        self.begin()?;
        fallible_alloc::push_str(&mut self.text, part)
    }

    // Begins a line, if none is open.
    fn begin(&mut self) -> Result<(), AllocError>
        ensures ok { OnOk result (string_bytes self.new.text ≡ string_bytes self.old.text
            ++ begin_unless self.old.is_open self.old.number) }
        ensures state { OnOk result ((self.new.number ≡ self.old.number)
            × (self.new.is_open ≡ true)) }
        ensures refused { OnErr result (Refused A) }
    {
        if self.is_open {
            return Ok(());
        }
        push_begin(&mut self.text, self.number)?;
        self.is_open = true;
        Ok(())
    }
}

// Begins the line of this number.
fn push_begin<A: Allocator>(text: &mut String<A>, number: u64) -> Result<(), AllocError>
    ensures ok { OnOk result (string_bytes text.new
        ≡ string_bytes text.old ++ line_begin number) }
    ensures refused { OnErr result (Refused A) }
{
    push_number(text, "<span class=\"es-line\" id=\"L", number)?;
    push_number(text, "\"><a href=\"#L", number)?;
    fallible_alloc::push_str(text, "\" tabindex=\"-1\" aria-hidden=\"true\"></a>")
}

// Appends a text, and this number after it.
fn push_number<A: Allocator>(
    text: &mut String<A>,
    before: &str,
    number: u64,
) -> Result<(), AllocError>
    ensures ok { OnOk result (string_bytes text.new
        ≡ string_bytes text.old ++ (before.now ++ decimal number)) }
    ensures refused { OnErr result (Refused A) }
{
    fallible_alloc::push_str(text, before)?;
    fallible_alloc::push_display(text, &number)
}
