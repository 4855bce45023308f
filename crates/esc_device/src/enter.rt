//! Modes that a device control string enters.
ghost use Rattle.std.specs.Prelude.{◌≡◌, IfOk, OnErr, Some};
ghost use Rattle.fallible_alloc.specs.Refusals.{Refused};
ghost use Rattle.esc_device.specs.Texts.{enter_text};
ghost use Rattle.esc_device.specs.Values.{enter_of};

use crate::byte_names::{ByteName, ByteNames};
use crate::characters::{Markers, Others};
use crate::numbers::Numbers;
use esc_values::Items;
use std::alloc::{AllocError, Allocator, Global};
use std::fmt;
use std::fmt::{Debug, Display};

/// The header of a device control string: the mode that the string enters, until it ends.
#[derive(Drop)]
#[derive_where(PartialEq, Eq)]
pub struct EnterDeviceControlMode<A: Allocator = Global> {
    /// The final byte, 40 to 7E (hexadecimal).
    pub byte: u8,
    /// The parameters. One that the header leaves out is 0.
    pub params: Items<i64, A>,
    /// The intermediates: one from 3C to 3F, if the header begins with it, and those from 20 to 2F
    /// (hexadecimal).
    pub intermediates: Items<u8, A>,
    /// Says whether the header has more than two intermediates; only the first two are kept.
    pub ignored_extra_intermediates: bool,
}

impl<A: Allocator + Copy> EnterDeviceControlMode<A> {
    /// Returns the mode of a header with this final byte and copies of these parameters and
    /// intermediates. The error is that memory was refused.
    pub fn from_header(
        alloc: A,
        byte: u8,
        params: &[i64],
        intermediates: &[u8],
        ignored_extra_intermediates: bool,
    ) -> Result<EnterDeviceControlMode<A>, AllocError>
        ensures ok { IfOk result (λ e.
            e ≡ enter_of byte params.now intermediates.now ignored_extra_intermediates) }
        ensures refused { OnErr result (Refused A) }
    {
        Ok(EnterDeviceControlMode {
            byte,
            params: Items::from_slice(alloc, params)?,
            intermediates: Items::from_slice(alloc, intermediates)?,
            ignored_extra_intermediates,
        })
    }
}

/// Writes `ESC P`, the intermediates from 3C to 3F, the parameters with `;` between them, the other
/// intermediates and the final byte. A byte is written as the character of the same number.
///
/// Takes no memory, and errs only if the formatter's writer errs.
impl<A: Allocator> Display for EnterDeviceControlMode<A> {
    ghost output = { λ e. Some (enter_text e) };

    fn fmt<W: fmt::Write>(&self, f: &mut fmt::Formatter<W>) -> fmt::Result {
        let private_prefixes = Markers(self.intermediates.as_slice());
        let params = Numbers(self.params.as_slice());
        let others = Others(self.intermediates.as_slice());
        let byte = char::from(self.byte);
        write!(f, "\x1bP{private_prefixes}{params}{others}{byte}")
    }
}

/// Writes the fields in one line, and a byte as its character and its hexadecimal number.
impl<A: Allocator> Debug for EnterDeviceControlMode<A> {
    fn fmt<W: fmt::Write>(&self, f: &mut fmt::Formatter<W>) -> fmt::Result {
        let params = self.params.as_slice();
        let intermediates = ByteNames(self.intermediates.as_slice());
        let byte = ByteName(self.byte);
        let ignored = self.ignored_extra_intermediates;
        write!(
            f,
            "EnterDeviceControlMode(params: {params:?}, intermediates: [{intermediates:?}], "
        )?;
        write!(f, "byte: {byte:?}, ignored_extra_intermediates={ignored})")
    }
}
