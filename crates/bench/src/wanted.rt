//! The measures that a run is asked for.

use crate::measure::Measure;

/// The measures that the words of the command line ask for.
#[derive(Clone, Copy)]
pub struct Wanted {
    /// Are the speeds printed?
    pub with_speed: bool,
    /// Is a measure named?
    pub is_named: bool,
    /// Are the actions of the stream wanted?
    pub with_actions: bool,
    /// Is each word known?
    pub is_known: bool,
}

impl Wanted {
    /// Returns the measures without any word.
    pub fn new() -> Wanted {
        Wanted {
            with_speed: true,
            is_named: false,
            with_actions: false,
            is_known: true,
        }
    }

    /// Takes a word.
    pub fn take(&mut self, word: &str) {
        match Measure::named(word) {
            Some(measure) => {
                self.is_named = true;
                self.with_actions |= measure == Measure::Encode;
            }
            None if word == "--counts" => self.with_speed = false,
            None => self.is_known = false,
        }
    }
}
