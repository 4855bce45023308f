//! The rows of a table.
use crate::calls::answer;
use crate::field::{expanded, unescaped};
use crate::refusals::errors_of;
use failing_alloc::Refusing;
use std::alloc::{AllocError, Global};

/// A row: its line, a call, its input, its result, and how many of its requests for memory may end
/// in an error.
#[derive(Clone, Copy)]
pub struct Row<'a> {
    line: &'a str,
    call: &'a str,
    input: &'a str,
    result: &'a str,
    errors: &'a str,
}

impl<'a> Row<'a> {
    /// Returns the row of a line; none of an empty line or a comment.
    pub fn of(line: &'a str) -> Option<Row<'a>> {
        if line.is_empty() || line.starts_with('#') {
            return None;
        }
        let (call, rest) = cut(line);
        let (input, rest) = cut(rest);
        let (result, errors) = cut(rest);
        Some(Row {
            line,
            call,
            input,
            result,
            errors,
        })
    }
}

// Returns the texts on either side of the first bar.
fn cut(text: &str) -> (&str, &str) {
    text.split_once(" | ").unwrap_or((text, ""))
}

impl Row<'_> {
    /// Appends the row, and the result of its call, if that is not the result that it has to return
    /// or if a request for memory that is refused makes it anything else than an error of memory.
    pub fn check(&self, alloc: Global, lines: &mut String) -> Result<(), AllocError> {
        let input = expanded(alloc, self.input)?;
        if self.holds(alloc, &input)? {
            return Ok(());
        }
        let heap = Refusing::new(alloc);
        let found = answer(self.call, alloc, &heap, &input);
        let line = self.line;
        writeln!(lines, "{line}\nreturns {found:?}")
    }

    fn holds(&self, alloc: Global, input: &[u8]) -> Result<bool, AllocError> {
        let wanted = unescaped(alloc, self.result)?;
        match errors_of(alloc, self.call, input, &wanted) {
            Some(errors) => Ok(self.admits(errors)),
            None => Ok(false),
        }
    }

    // Returns whether as many requests may end in an error.
    fn admits(&self, errors: usize) -> bool {
        match self.errors {
            "" => true,
            "some" => errors > 0,
            exact => exact.parse::<usize>() == Ok(errors),
        }
    }
}
