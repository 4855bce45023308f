//! The times of the events of a recording of asciinema.

use crate::seconds::micros_in;

// When events come, one after another.
#[derive(Clone, Copy, Drop)]
pub struct Clock {
    // Says whether times are counted from the event before: so in version 3.
    is_relative: bool,
    // The time of the last event.
    time: u64,
}

impl Clock {
    // Returns a clock before the first event.
    pub fn new(is_relative: bool) -> Clock {
        Clock {
            is_relative,
            time: 0,
        }
    }

    // Returns the time of the next event, by the number that it has.
    pub fn next(&mut self, number: &str) -> u64 {
        let seconds = micros_in(number.as_bytes()).unwrap_or(0);
        self.time = if self.is_relative {
            self.time.saturating_add(seconds)
        } else {
            seconds
        };
        self.time
    }
}
