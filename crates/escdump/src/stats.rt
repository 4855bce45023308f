//! The counts of a stream's items.

use crate::item::Item;
use crate::selection::numbers_of;
use crate::values::{cut, number_in};
use dump_page::{Key, Name, Page};
use std::alloc::Global;

// Says how often something of a name came, how many bytes they and the longest one have, and how
// many bytes of the stream come before the first one.
#[derive(Clone, Copy)]
struct Row {
    name: Name,
    count: u64,
    bytes: u64,
    largest: u64,
    first: u64,
}

// The most rows of names with a number or bytes. An item with another such name is counted by its
// kind.
const MOST: u64 = 500;

// Returns whether a sequence of this name sets, resets, saves or restores modes, or asks for one.
fn has_modes(name: Name) -> bool {
    let Name(kind, word, _) = name;
    if kind != "CSI" {
        return false;
    }
    match word {
        "SM" | "RM" | "DECSET" | "DECRST" | "XTSAVE" | "XTRESTORE" | "DECRQM" => true,
        _ => false,
    }
}

/// A row for each name that came, in the order in which they first came.
#[derive(Drop)]
pub struct Stats {
    rows: Vec<Row>,
    // Says how many of them have a name with a number or bytes.
    own: u64,
    text_end: u64,
    text_length: u64,
}

impl Stats {
    /// Returns counts of nothing. Takes no memory.
    pub fn new(alloc: Global) -> Stats {
        Stats {
            rows: Vec::new(alloc),
            own: 0,
            text_end: u64::MAX,
            text_length: 0,
        }
    }

    /// Counts an item of this name, and returns whether memory was there for it. A run of text goes
    /// on with one that ended at its beginning. Each mode that is set or reset has a row.
    pub fn add(&mut self, item: &Item, name: Name) -> bool {
        if has_modes(name) {
            self.add_modes(item, name)
        } else {
            self.add_item(item, name)
        }
    }

    // Counts an item by each of its modes that is a number, or if none is, by its name.
    fn add_modes(&mut self, item: &Item, name: Name) -> bool {
        let Name(kind, word, _) = name;
        let mut rest = Some(numbers_of(item));
        let mut is_counted = false;
        let mut is_right = true;
        for _ in 0..u64::MAX {
            let Some(text) = rest else {
                break;
            };
            let (part, more) = cut(text, b';');
            if let Some(number) = number_in(part) {
                let key = Key::Number(number.unsigned_abs());
                is_right = self.add_item(item, Name(kind, word, key)) && is_right;
                is_counted = true;
            }
            rest = more;
        }
        if is_counted {
            is_right
        } else {
            self.add_item(item, name)
        }
    }

    // Counts an item of this name.
    fn add_item(&mut self, item: &Item, name: Name) -> bool {
        let mut row = Row {
            name,
            count: 1,
            bytes: item.length,
            largest: item.length,
            first: item.place,
        };
        if item.is_text() {
            self.join_text(&mut row);
        }
        self.has_row(row) || self.add_row(row)
    }

    // Adds a row of a new name, and returns whether memory was there for it.
    fn add_row(&mut self, row: Row) -> bool {
        let Name(kind, word, key) = row.name;
        if key == Key::Nothing {
            return self.rows.push(row).is_ok();
        }
        if self.own < MOST {
            self.own = self.own.saturating_add(1);
            return self.rows.push(row).is_ok();
        }
        let other = Row {
            name: Name(kind, word, Key::Nothing),
            ..row
        };
        self.has_row(other) || self.rows.push(other).is_ok()
    }

    // Joins a run of text with the one that ended at its beginning.
    fn join_text(&mut self, row: &mut Row) {
        if row.first == self.text_end {
            row.count = 0;
            row.largest = row.largest.saturating_add(self.text_length);
        }
        self.text_length = row.largest;
        self.text_end = row.first.saturating_add(row.bytes);
    }

    // Adds to the row of this name, and returns whether there is one.
    fn has_row(&mut self, more: Row) -> bool {
        for row in &mut self.rows {
            if row.name == more.name {
                row.count = row.count.saturating_add(more.count);
                row.bytes = row.bytes.saturating_add(more.bytes);
                row.largest = row.largest.max(more.largest);
                return true;
            }
        }
        false
    }

    /// Adds a line for each name, under a line that names the columns of numbers: the commonest
    /// first, and among those that came equally often the one that came first.
    pub fn add_lines(&mut self, page: &mut Page) {
        page.push_line("   count       bytes     largest       first  name");
        page.note(self.rows.sort_by_key(|row| u64::MAX - row.count).is_err());
        for row in &self.rows {
            add_line(*row, page);
        }
    }
}

// Adds the line of a name.
fn add_line(row: Row, page: &mut Page) {
    let words = page.words();
    words.add_number(row.count, 8, 0);
    for number in [row.bytes, row.largest, row.first] {
        words.add_number(number, 12, 0);
    }
    words.add("  ");
    words.add_name(row.name);
    page.end_line();
}
