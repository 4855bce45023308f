//! Streams that tmux passes on.

use crate::item::Item;
use crate::kind::Kind;

/// Says whether tmux passes on the segments that come: a device control string that begins with
/// `tmux;` holds a stream, in which each ESC comes twice, up to a string terminator (tmux(1),
/// "allow-passthrough"). Its ESC ends it for any other terminal, so its stream comes as segments of
/// its own.
#[derive(Clone, Copy, Drop)]
pub struct Carried {
    is_on: bool,
    // Says whether the last item was an ESC that is there twice.
    is_doubled: bool,
}

impl Carried {
    /// Returns a value to which nothing came.
    pub fn new() -> Carried {
        Carried {
            is_on: false,
            is_doubled: false,
        }
    }

    /// Takes the item that comes next, and returns whether it is in such a string.
    pub fn has(&mut self, item: &Item) -> bool {
        if !self.is_on {
            self.is_on = opens(item);
            self.is_doubled = false;
            return false;
        }
        if item.bytes() == b"\x1b\\".as_slice() && !self.is_doubled {
            self.is_on = false;
            return false;
        }
        self.is_doubled = item.kind() == Kind::Cut && item.bytes() == b"\x1b".as_slice();
        true
    }
}

// Returns whether an item opens such a string, and is not the whole of it.
fn opens(item: &Item) -> bool {
    item.kind() == Kind::Dcs && !item.is_closed() && item.body().starts_with(b"tmux;")
}
