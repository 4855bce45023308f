//! Words that stand apart from the options that they may be meant for.

use crate::wrong::Wrong;
use std::fs::{Files, metadata};

/// A word after an option that could take it, and takes only a value after `=`: so it is the name
/// of a file.
#[derive(Clone, Copy)]
pub struct Apart<'a> {
    /// The option's name.
    pub option: &'static str,
    /// The word.
    pub word: &'a str,
}

/// Returns the fault of such a word, if there is one: that it is the name of no file, so that it
/// was meant for the option.
pub fn wrong_apart<'a, F: Files>(files: &F, apart: Option<Apart<'a>>) -> Option<Wrong<'a>> {
    match apart {
        Some(Apart { option, word }) if !is_no_folder(files, word) => {
            Some(Wrong::Apart(option, word))
        }
        _ => None,
    }
}

// Returns whether it is the name of a file that is no folder.
fn is_no_folder<F: Files>(files: &F, word: &str) -> bool {
    match metadata(files, word) {
        Ok(known) => !known.is_dir(),
        Err(_) => false,
    }
}
