//! Bytes, as Debug texts show them: the character of the same number in quotes, and the number.
use std::fmt;
use std::fmt::Debug;

// One.
#[derive(Clone, Copy)]
pub(crate) struct ByteName(pub(crate) u8);

impl Debug for ByteName {
    fn fmt<W: fmt::Write>(&self, f: &mut fmt::Formatter<W>) -> fmt::Result {
        let character = char::from(self.0);
        let number = self.0;
        write!(f, "{character:?} {number:#x}")
    }
}

// Each with a comma after it.
#[derive(Clone, Copy)]
pub(crate) struct ByteNames<'a>(pub(crate) &'a [u8]);

impl Debug for ByteNames<'_> {
    fn fmt<W: fmt::Write>(&self, f: &mut fmt::Formatter<W>) -> fmt::Result {
        for byte in self.0 {
            let byte = ByteName(*byte);
            write!(f, "{byte:?}, ")?;
        }
        Ok(())
    }
}
