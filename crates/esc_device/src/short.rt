//! Short device controls.
ghost use Rattle.std.specs.Prelude.{Some};
ghost use Rattle.esc_device.specs.Texts.{short_text};

use crate::byte_names::{ByteName, ByteNames};
use crate::characters::Characters;
use crate::numbers::Numbers;
use esc_values::Items;
use std::alloc::{Allocator, Global};
use std::fmt;
use std::fmt::{Debug, Display};

/// A device control string that is given whole, since it is short: a request for a setting or a
/// report of one.
#[derive(Drop)]
#[derive_where(PartialEq, Eq)]
pub struct ShortDeviceControl<A: Allocator = Global> {
    /// The parameters. One that the header leaves out is 0.
    pub params: Items<i64, A>,
    /// The intermediates. In a string that was read this is `$`.
    pub intermediates: Items<u8, A>,
    /// The final byte. In a string that was read this is `q`.
    pub byte: u8,
    /// The data before the string terminator.
    pub content: Items<u8, A>,
}

/// Writes `ESC P`, the parameters with `;` between them, the intermediates, the final byte, the
/// data and the string terminator `ESC \`. A byte is written as the character of the same number.
///
/// Takes no memory, and errs only if the formatter's writer errs.
impl<A: Allocator> Display for ShortDeviceControl<A> {
    ghost output = { λ s. Some (short_text s) };

    fn fmt<W: fmt::Write>(&self, f: &mut fmt::Formatter<W>) -> fmt::Result {
        let params = Numbers(self.params.as_slice());
        let intermediates = Characters(self.intermediates.as_slice());
        let byte = char::from(self.byte);
        let content = Characters(self.content.as_slice());
        write!(f, "\x1bP{params}{intermediates}{byte}{content}\x1b\\")
    }
}

/// Writes the fields in one line, the data as `data`, and a byte as its character and its
/// hexadecimal number. The bracket before the data is not closed.
impl<A: Allocator> Debug for ShortDeviceControl<A> {
    fn fmt<W: fmt::Write>(&self, f: &mut fmt::Formatter<W>) -> fmt::Result {
        let params = self.params.as_slice();
        let intermediates = ByteNames(self.intermediates.as_slice());
        let byte = ByteName(self.byte);
        let content = ByteNames(self.content.as_slice());
        write!(
            f,
            "ShortDeviceControl(params: {params:?}, intermediates: [{intermediates:?}], "
        )?;
        write!(f, "byte: {byte:?}, data=[{content:?})")
    }
}
