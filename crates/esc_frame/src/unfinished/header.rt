//! This module reads the header of a device control string, byte by byte. Its parameter bytes are
//! kept beside it, and read at its final byte.
#![tactic(auto)]

ghost use Rattle.std.specs.Prelude.{◌≡◌, ◌++◌, ℕ, List, [], ◌∷◌, map, pos, IfOk, OnErr};
ghost use Rattle.esc_values.specs.Clear.{parts_of};
ghost use Rattle.esc_frame.specs.Bodies.{is_dcs_parameter, is_dcs_header, capped_at_i64, value_after};
ghost use Rattle.esc_frame.specs.Machine.Keeps.{KeepsDcs, next_form_by};
ghost use Rattle.fallible_alloc.specs.Refusals.{Refused};

use crate::split::split_parts;
use crate::unfinished::body::Form;
use crate::unfinished::csi_params::next_number;
use crate::unfinished::intermediates::Intermediates;
use crate::utf8::sequence::lies_from;
use std::alloc::{AllocError, Allocator};

/// The value describes a header so far, without its parameter bytes.
#[derive(Drop)]
pub struct DcsHeader {
    pub form: Form,
    // has its private prefix, its intermediates, and any other byte that is no parameter byte
    pub intermediates: Intermediates,
}

impl DcsHeader {
    /// Returns an empty header.
    pub fn new() -> Self
        ensures { KeepsDcs result [] }
    {
        DcsHeader {
            form: Form::Empty,
            intermediates: Intermediates::new(),
        }
    }

    /// Takes the next byte, 20-3F, of the header.
    pub fn push(&mut self, byte: u8)
        ensures { (x : List ℕ) → KeepsDcs self.old x → KeepsDcs self.new (x ++ byte ∷ []) }
    {
        self.form = next_form(self.form, byte);
        if !is_parameter(byte) {
            self.intermediates.push(byte);
        }
    }

    /// Returns whether the header has its form: optionally a private prefix 3C-3F, then 30-39 and
    /// 3B, then intermediates 20-2F.
    pub fn is_formed(&self) -> bool
        ensures { (x : List ℕ) → KeepsDcs self.now x → result ≡ is_dcs_header x }
    {
        self.form.is_formed()
    }
}

// Returns the form of a header with one more byte: that of a CSI's body, but without 3A.
fn next_form(form: Form, byte: u8) -> Form
    ensures { result ≡ next_form_by is_dcs_parameter form byte }
{
    if byte == b':' {
        Form::Malformed
    } else {
        form.next(byte)
    }
}

/// Returns whether the byte is a parameter byte of a header: 30-39, 3B.
pub fn is_parameter(byte: u8) -> bool
    ensures { result ≡ is_dcs_parameter byte }
{
    lies_from(0x30, 0x39, byte) || byte == b';'
}

// Returns the number of a part, held at the greatest `i64`.
fn number_of(osc_unit: &[u8]) -> i64
    ensures { result ≡ pos (capped_at_i64 (value_after 0 osc_unit.now)) }
{
    let mut number = 0;
    for b in osc_unit {
        number = next_number(number, b.saturating_sub(b'0'));
    }
    number as i64
}

/// Returns the parameters that parameter bytes write: the numbers of the parts between `;`. The
/// error is that memory was refused.
pub fn params_of<A: Allocator + Copy>(alloc: A, bytes: &[u8]) -> Result<Vec<i64, A>, AllocError>
    ensures ok { IfOk result (λ v. v.items ≡ map (λ p. pos (capped_at_i64 (value_after 0 p)))
        (parts_of bytes.now)) }
    ensures refused { OnErr result (Refused A) }
{
    let osc_units = split_parts(alloc, bytes)?;
    numbers_of(alloc, &osc_units)
}

fn numbers_of<A: Allocator>(alloc: A, osc_units: &[&[u8]]) -> Result<Vec<i64, A>, AllocError>
    ensures ok { IfOk result (λ v. v.items ≡ map
        (λ p. pos (capped_at_i64 (value_after 0 p.now))) osc_units.now) }
    ensures refused { OnErr result (Refused A) }
{
    fallible_alloc::collect(alloc, osc_units.iter().map(|osc_unit| number_of(osc_unit)))
}
