//! Names of the references that a value holds.
ghost use Rattle.std.specs.Prelude.{ℕ};
ghost use Rattle.std.specs.Borrow.{GName};

use std::marker::Brand;

/// The references that a call was lent, by their names in proofs, and the lengths of two of them. A
/// value that holds a reference of this name holds the very one that was lent, whatever was done to
/// it in between.
pub trait Named {
    // the reference to the kept text of a string
    ghost kept: { GName };

    // its length
    ghost room: { ℕ };

    // the reference to the text that is handed out
    ghost out: { GName };

    // its length
    ghost place: { ℕ };

    // the reference to the event
    ghost event: { GName };
}

impl Named for Brand {
    ghost kept = { 0 };

    ghost room = { 0 };

    ghost out = { 0 };

    ghost place = { 0 };

    ghost event = { 0 };
}
