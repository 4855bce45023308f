//! Rows.
use crate::fault::Fault;
use crate::line::Line;
use crate::report::Report;
use crate::unescaped::unescaped;
use std::alloc::{AllocError, Global};

/// A row: its name, and its lines.
#[derive(Drop)]
pub struct Row<'a> {
    pub name: &'a str,
    pub lines: Vec<Line<'a>>,
}

impl<'a> Row<'a> {
    /// Reads the lines of a block; there are none if it has comments alone. A fault in one is
    /// noted.
    pub fn read(alloc: Global, block: &'a str, report: &mut Report) -> Row<'a> {
        let mut lines = Vec::new(alloc);
        report.note_fault(block, add_lines(block, &mut lines));
        let name = name_of(&lines);
        if name.is_none() && !lines.is_empty() {
            report.note(block, "a block does not begin with a row");
        }
        Row {
            name: name.unwrap_or(""),
            lines,
        }
    }

    /// Returns whether it has a line of this word.
    pub fn has(&self, word: &str) -> bool {
        for line in &self.lines {
            if line.word == word {
                return true;
            }
        }
        false
    }

    /// Returns the bytes of all its lines of this word. A fault in one is noted.
    pub fn bytes(&self, alloc: Global, word: &str, report: &mut Report) -> Vec<u8> {
        let mut bytes = Vec::new(alloc);
        for line in &self.lines {
            if line.word == word {
                report.note_fault(self.name, add_bytes(alloc, line, &mut bytes));
            }
        }
        bytes
    }

    /// Returns the text of all its lines of this word. A fault in one is noted.
    pub fn text(&self, alloc: Global, word: &str, report: &mut Report) -> String {
        match String::from_utf8(self.bytes(alloc, word, report)) {
            Ok(text) => text,
            Err(_) => {
                report.note(self.name, "a text is no UTF-8");
                String::new(alloc)
            }
        }
    }

    /// Returns the text of its actions: its stream, if it has no text.
    pub fn written(&self, alloc: Global, report: &mut Report) -> String {
        let word = if self.has("text") { "text" } else { "stream" };
        self.text(alloc, word, report)
    }

    /// Returns the number after a word, and 0 if it has none.
    pub fn number(&self, word: &str, report: &mut Report) -> usize {
        for line in &self.lines {
            if line.word == word {
                return report.number_of(self.name, line.text);
            }
        }
        0
    }

    /// Returns the Debug text of the list of its actions, as a call returns it.
    pub fn actions(&self, alloc: Global, report: &mut Report) -> String {
        let mut list = String::new(alloc);
        report.note_fault(self.name, add_actions(alloc, &self.lines, &mut list));
        list
    }
}

// Says how a list of actions begins.
const BEGINS: &str = "Ok([";

// Adds the lines of a block.
fn add_lines<'a>(block: &'a str, lines: &mut Vec<Line<'a>>) -> Result<(), Fault> {
    for line in block.lines() {
        if let Some(line) = Line::read(line)? {
            lines.push(line)?;
        }
    }
    Ok(())
}

// Returns the name of the row of these lines, if it is one.
fn name_of<'a>(lines: &[Line<'a>]) -> Option<&'a str> {
    match lines {
        [line, ..] if line.word == "row" => Some(line.text),
        _ => None,
    }
}

// Adds the bytes of a line, as often as it says.
fn add_bytes(alloc: Global, line: &Line, bytes: &mut Vec<u8>) -> Result<(), Fault> {
    let text = unescaped(alloc, line.text)?;
    for _ in 0..line.times {
        bytes.extend_from_slice(&text)?;
    }
    Ok(())
}

// Adds the list of the actions that lines say.
fn add_actions(alloc: Global, lines: &[Line], list: &mut String) -> Result<(), Fault> {
    list.push_str(BEGINS)?;
    for line in lines {
        add_action(alloc, line, list)?;
    }
    Ok(list.push_str("])")?)
}

// Adds the text of a line about the actions to their list.
fn add_action(alloc: Global, line: &Line, list: &mut String) -> Result<(), Fault> {
    match line.word {
        "action" => {
            add_comma(list)?;
            add_text(line, list)?;
        }
        "more" => add_text(line, list)?,
        "kept" => {
            add_comma(list)?;
            add_kept(alloc, line.text, list)?;
        }
        _ => {}
    }
    Ok(())
}

// Adds a comma if an action is before it.
fn add_comma(list: &mut String) -> Result<(), AllocError> {
    if list.len() > BEGINS.len() {
        return list.push_str(", ");
    }
    Ok(())
}

// Adds the text of a line, as often as it says.
fn add_text(line: &Line, list: &mut String) -> Result<(), AllocError> {
    for _ in 0..line.times {
        list.push_str(line.text)?;
    }
    Ok(())
}

// Adds an unknown command of these parts to the list.
fn add_kept(alloc: Global, text: &str, list: &mut String) -> Result<(), Fault> {
    let bytes = unescaped(alloc, text)?;
    let parts = parts_of(alloc, &bytes)?;
    Ok(write!(list, "OperatingSystemCommand(Unspecified({parts:?}))")?)
}

/// Returns the parts of a command, between which `;` is.
pub fn parts_of(alloc: Global, text: &[u8]) -> Result<Vec<&[u8]>, AllocError> {
    let mut parts = Vec::new(alloc);
    for part in text.split(|b| *b == b';') {
        if parts.push(part).is_err() {
            return Err(AllocError);
        }
    }
    Ok(parts)
}
