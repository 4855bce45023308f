//! Bytes, written as the characters of the same numbers.
ghost use Rattle.std.specs.Prelude.{◌≡◌, Some};
ghost use Rattle.esc_values.specs.Params.{is_private_prefix};
ghost use Rattle.esc_device.specs.Texts.{as_text, private_prefixes_text, others_text};

use std::fmt;
use std::fmt::Display;

// All of them.
#[derive(Clone, Copy)]
pub(crate) struct Characters<'a>(pub(crate) &'a [u8]);

impl Display for Characters<'_> {
    ghost output = { λ c. Some (as_text c.0.now) };

    fn fmt<W: fmt::Write>(&self, f: &mut fmt::Formatter<W>) -> fmt::Result {
        for byte in self.0 {
            f.write_char(char::from(*byte))?;
        }
        Ok(())
    }
}

fn is_private_prefix(byte: u8) -> bool
    ensures { result ≡ is_private_prefix byte }
{
    0x3c <= byte && byte <= 0x3f
}

// Those from 3C to 3F.
#[derive(Clone, Copy)]
pub(crate) struct Markers<'a>(pub(crate) &'a [u8]);

impl Display for Markers<'_> {
    ghost output = { λ c. Some (private_prefixes_text c.0.now) };

    fn fmt<W: fmt::Write>(&self, f: &mut fmt::Formatter<W>) -> fmt::Result {
        for byte in self.0 {
            if is_private_prefix(*byte) {
                f.write_char(char::from(*byte))?;
            }
        }
        Ok(())
    }
}

// All others.
#[derive(Clone, Copy)]
pub(crate) struct Others<'a>(pub(crate) &'a [u8]);

impl Display for Others<'_> {
    ghost output = { λ c. Some (others_text c.0.now) };

    fn fmt<W: fmt::Write>(&self, f: &mut fmt::Formatter<W>) -> fmt::Result {
        for byte in self.0 {
            if !is_private_prefix(*byte) {
                f.write_char(char::from(*byte))?;
            }
        }
        Ok(())
    }
}
