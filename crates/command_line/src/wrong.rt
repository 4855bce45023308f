//! The faults of a program's words.

use crate::showing::Shown;
use std::fmt;
use std::fmt::Display;

/// The fault of a program's words: the first wrong one.
#[derive(Clone, Copy)]
pub enum Wrong<'a> {
    /// No option has this name. The nearest one that there is, if one is near.
    Name(&'a str, Option<&'static str>),
    /// This option does not take this value. The name of its values, and the nearest one, if one is
    /// near.
    Value(&'static str, &'static str, &'a str, Option<&'static str>),
    /// This option takes a size, and this value is none.
    Size(&'static str, &'a str),
    /// This option takes something, as its values are called, and no word follows it.
    Nothing(&'static str, &'static str),
    /// This option takes nothing, and a value follows `=`.
    Something(&'static str),
    /// This option may take this word after `=` alone, and there is no file of its name.
    Apart(&'static str, &'a str),
    /// No word is wrong: memory was refused.
    Memory,
}

/// The name of a size.
pub const A_SIZE: &str = "size, as 64K";

impl<'a> Wrong<'a> {
    /// Returns whether no word is wrong, and memory was refused.
    pub fn is_fault(self) -> bool {
        match self {
            Wrong::Memory => true,
            _ => false,
        }
    }
}

impl<'a> Display for Wrong<'a> {
    fn fmt<W: fmt::Write>(&self, f: &mut fmt::Formatter<W>) -> fmt::Result {
        match *self {
            Wrong::Name(name, near) => write_name(name, near, f),
            Wrong::Value(name, called, value, near) => {
                write_value(&[name, ": unknown ", called, " \""], value, near, f)
            }
            Wrong::Size(name, value) => {
                write_value(&[name, " wants a ", A_SIZE, ", and not \""], value, None, f)
            }
            Wrong::Nothing(name, called) => write_texts(&[name, " wants a ", called], f),
            Wrong::Something(name) => write_texts(&[name, " takes no value"], f),
            Wrong::Apart(name, word) => write_apart(name, word, f),
            Wrong::Memory => f.write_str("out of memory"),
        }
    }
}

// Writes an unknown option, and the nearest one.
fn write_name<W: fmt::Write>(
    name: &str,
    near: Option<&'static str>,
    f: &mut fmt::Formatter<W>,
) -> fmt::Result {
    f.write_str("unknown option ")?;
    Shown(name).fmt(f)?;
    match near {
        Some(near) => write_texts(&[", did you mean ", near, "?"], f),
        None => Ok(()),
    }
}

// Writes these texts, a value, the quote after it, and the nearest value.
fn write_value<W: fmt::Write>(
    before: &[&str],
    value: &str,
    near: Option<&'static str>,
    f: &mut fmt::Formatter<W>,
) -> fmt::Result {
    write_texts(before, f)?;
    Shown(value).fmt(f)?;
    match near {
        Some(near) => write_texts(&["\", did you mean \"", near, "\"?"], f),
        None => f.write_str("\""),
    }
}

// Writes a word that was meant for the option of this name.
fn write_apart<W: fmt::Write>(name: &str, word: &str, f: &mut fmt::Formatter<W>) -> fmt::Result {
    Shown(word).fmt(f)?;
    write_texts(&[" is no file, did you mean ", name, "="], f)?;
    Shown(word).fmt(f)?;
    f.write_str("?")
}

// Writes each of these texts.
pub(crate) fn write_texts<W: fmt::Write>(texts: &[&str], f: &mut fmt::Formatter<W>) -> fmt::Result {
    for text in texts {
        f.write_str(text)?;
    }
    Ok(())
}
