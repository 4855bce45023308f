//! Times that lines begin with.

// Says what is the least number of digits of a number of seconds that is a time by itself.
const EPOCH: usize = 10;

const MONTHS: &[&str] = &[
    "Jan", "Feb", "Mar", "Apr", "May", "Jun", "Jul", "Aug", "Sep", "Oct", "Nov", "Dec",
];

// Says how many digits a number has at most in a time.
const MOST_DIGITS: usize = 12;

/// Says whether a text begins with a time.
#[derive(Clone, Copy)]
pub enum Stamp {
    /// It does: with so many bytes, the last of which is a space.
    Ends(usize),
    /// It may, if more follows.
    More,
    /// It does not.
    No,
}

/// Returns whether a text begins with a time and a space, as it is written by `ts` of moreutils,
/// journalctl, dmesg and the tools that prefix logs of containers and of CI: `Nov 29 10:18:01`,
/// `10:18:01.250`, `2026-11-29T10:18:01Z`, `1764411481.250000`, each in square brackets or not, and
/// in these any number of seconds, as `[    1.500000]`.
pub fn stamp_of(text: &[u8]) -> Stamp {
    let mut cursor = Cursor {
        text,
        at: 0,
        is_short: false,
    };
    if cursor.takes_stamp() && cursor.takes(b' ') {
        Stamp::Ends(cursor.at)
    } else if cursor.is_short {
        Stamp::More
    } else {
        Stamp::No
    }
}

// A text that is read from its beginning.
#[derive(Clone, Copy)]
struct Cursor<'a> {
    text: &'a [u8],
    at: usize,
    // says whether it ended when a byte was asked for
    is_short: bool,
}

impl<'a> Cursor<'a> {
    // Takes a time.
    fn takes_stamp(&mut self) -> bool {
        if !self.takes(b'[') {
            return self.takes_moment(EPOCH);
        }
        for _ in 0..MOST_DIGITS {
            let _ = self.takes(b' ');
        }
        self.takes_moment(1) && self.takes(b']')
    }

    // Takes a date and a time, or a time, or so many digits of seconds at least.
    fn takes_moment(&mut self, seconds: usize) -> bool {
        if self.takes_month() {
            return self.takes_day() && self.takes_clock();
        }
        let digits = self.digits();
        if digits == 4 && self.takes(b'-') {
            return self.takes_date() && self.takes_clock() && self.takes_zone();
        }
        if 0 < digits && self.takes(b':') {
            return self.takes_minutes();
        }
        seconds <= digits && self.takes(b'.') && 0 < self.digits()
    }

    // Takes the text after the year: a month, a day, and the separator before the time.
    fn takes_date(&mut self) -> bool {
        self.digits() == 2
            && self.takes(b'-')
            && self.digits() == 2
            && (self.takes(b'T') || self.takes(b' '))
    }

    // Takes a day of the month, and the spaces around it.
    fn takes_day(&mut self) -> bool {
        let has_space = self.takes(b' ');
        let _ = self.takes(b' ');
        let digits = self.digits();
        has_space && (digits == 1 || digits == 2) && self.takes(b' ')
    }

    // Takes hours, minutes and seconds.
    fn takes_clock(&mut self) -> bool {
        0 < self.digits() && self.takes(b':') && self.takes_minutes()
    }

    // Takes minutes and seconds, and a part of one.
    fn takes_minutes(&mut self) -> bool {
        if self.digits() != 2 || !self.takes(b':') || self.digits() != 2 {
            return false;
        }
        if self.takes(b'.') || self.takes(b',') {
            return 0 < self.digits();
        }
        true
    }

    // Takes a zone, if there is one.
    fn takes_zone(&mut self) -> bool {
        if self.takes(b'Z') {
            return true;
        }
        if !self.takes(b'+') && !self.takes(b'-') {
            return true;
        }
        let digits = self.digits();
        digits == 4 || (digits == 2 && self.takes(b':') && self.digits() == 2)
    }

    // Takes the name of a month.
    fn takes_month(&mut self) -> bool {
        let rest = self.rest();
        let Some(name) = rest.get(..3) else {
            self.is_short = self.is_short || is_letter(rest);
            return false;
        };
        let is_month = is_month(name);
        if is_month {
            self.at = self.at.saturating_add(3);
        }
        is_month
    }

    // Takes digits, and says how many.
    fn digits(&mut self) -> usize {
        let start = self.at;
        for _ in 0..MOST_DIGITS {
            if self.next().is_ascii_digit() {
                self.at = self.at.saturating_add(1);
            }
        }
        self.at.saturating_sub(start)
    }

    // Takes this byte, if it comes next.
    fn takes(&mut self, byte: u8) -> bool {
        let comes = self.next() == byte;
        if comes {
            self.at = self.at.saturating_add(1);
        }
        comes
    }

    // Returns the byte that comes next; a line feed if none does.
    fn next(&mut self) -> u8 {
        match self.text.get(self.at) {
            Some(byte) => *byte,
            None => {
                self.is_short = true;
                b'\n'
            }
        }
    }

    fn rest(&self) -> &'a [u8] {
        self.text.get(self.at..).unwrap_or(b"")
    }
}

// Returns whether an upper-case letter comes first, or nothing.
fn is_letter(text: &[u8]) -> bool {
    match text.first() {
        Some(byte) => byte.is_ascii_uppercase(),
        None => true,
    }
}

fn is_month(name: &[u8]) -> bool {
    for month in MONTHS {
        if name == month.as_bytes() {
            return true;
        }
    }
    false
}
