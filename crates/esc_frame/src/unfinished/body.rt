//! This module reads the body of a control sequence, byte by byte.
#![tactic(auto)]

ghost use Rattle.std.specs.Prelude.{◌≡◌, ◌<◌, ◌≤◌, ◌++◌, true, length, take, ℕ, List, [], ◌∷◌};
ghost use Rattle.std.specs.List.{list_all};
ghost use Rattle.esc_frame.specs.Bodies.{is_digit, is_private_prefix, is_csi_parameter, is_intermediate_byte, is_csi_body, kept_csi_params, has_more_csi_params};
ghost use Rattle.esc_frame.specs.Machine.Keeps.{KeepsBody, next_form, is_formed};
ghost use Rattle.esc_frame.specs.Scans.{StartsWithDigit};

use crate::unfinished::csi_params::Params;
use crate::utf8::sequence::lies_from;

/// A form says how far a body, or a DCS's header, has come: optionally a private prefix 3C-3F, then
/// parameter bytes, which are 30-3B in a body and 30-39 and 3B in a header, then intermediates
/// 20-2F.
#[derive(Clone, Copy)]
pub enum Form {
    /// Nothing has come.
    Empty,
    /// A private prefix or parameter bytes have come, and no intermediate.
    Parameters,
    /// An intermediate has come.
    Intermediates,
    /// A byte has come out of order.
    Malformed,
}

impl Form {
    /// Returns the form of a CSI's body with one more byte.
    #[inline(always)]
    pub fn next(self, byte: u8) -> Form
        ensures { result ≡ next_form self byte }
    {
        if lies_from(0x30, 0x3b, byte) {
            self.with_parameter(byte)
        } else if lies_from(0x20, 0x2f, byte) {
            self.with_intermediate(byte)
        } else if lies_from(0x3c, 0x3f, byte) {
            self.with_private_prefix(byte)
        } else {
            Form::Malformed
        }
    }

    #[inline(always)]
    fn with_parameter(self, byte: u8) -> Form
        requires { is_csi_parameter byte ≡ true }
        ensures { result ≡ next_form self byte }
    {
        match self {
            Form::Empty | Form::Parameters => Form::Parameters,
            Form::Intermediates | Form::Malformed => Form::Malformed,
        }
    }

    #[inline(always)]
    fn with_intermediate(self, byte: u8) -> Form
        requires { is_intermediate_byte byte ≡ true }
        ensures { result ≡ next_form self byte }
    {
        match self {
            Form::Empty | Form::Parameters | Form::Intermediates => Form::Intermediates,
            Form::Malformed => Form::Malformed,
        }
    }

    #[inline(always)]
    fn with_private_prefix(self, byte: u8) -> Form
        requires { is_private_prefix byte ≡ true }
        ensures { result ≡ next_form self byte }
    {
        match self {
            Form::Empty => Form::Parameters,
            Form::Parameters | Form::Intermediates | Form::Malformed => Form::Malformed,
        }
    }

    /// Returns whether no byte was out of order.
    pub fn is_formed(self) -> bool
        ensures { result ≡ is_formed self }
    {
        match self {
            Form::Empty | Form::Parameters | Form::Intermediates => true,
            Form::Malformed => false,
        }
    }
}

/// The value describes a body so far.
#[derive(Drop)]
pub struct CsiBody {
    pub csi_params: Params,
    pub form: Form,
}

impl CsiBody {
    /// Returns an empty body.
    #[inline(always)]
    pub fn new() -> Self
        ensures { KeepsBody result [] }
    {
        CsiBody {
            csi_params: Params::new(),
            form: Form::Empty,
        }
    }

    /// Begins a body anew.
    pub fn clear(&mut self)
        ensures { KeepsBody self.new [] }
    {
        self.csi_params.clear();
        self.form = Form::Empty;
    }

    /// Takes the next byte, 20-3F, of the body.
    #[inline(always)]
    pub fn push(&mut self, byte: u8)
        ensures { (x : List ℕ) → KeepsBody self.old x → KeepsBody self.new (x ++ byte ∷ []) }
    {
        self.form = self.form.next(byte);
        self.csi_params.push(byte);
    }

    /// Takes the run of digits that comes first, at least one, and returns its length.
    #[inline(always)]
    pub fn push_digits(&mut self, bytes: &[u8]) -> usize
        requires digit { StartsWithDigit bytes.now }
        ensures count { (0 < result) × (result ≤ length bytes.now) }
        ensures digits { list_all is_digit (take result bytes.now) ≡ true }
        ensures keeps { (x : List ℕ) → KeepsBody self.old x
            → KeepsBody self.new (x ++ take result bytes.now) }
    {
        self.form = self.form.next(b'0');
        self.csi_params.push_digits(bytes)
    }

    /// Returns whether the body has its form.
    pub fn is_formed(&self) -> bool
        ensures { (x : List ℕ) → KeepsBody self.now x → result ≡ is_csi_body x }
    {
        self.form.is_formed()
    }

    /// Ends the body: then its parameters are those of all its bytes.
    pub fn finish(&mut self)
        ensures items { (x : List ℕ) → KeepsBody self.old x
            → self.new.csi_params.items ≡ kept_csi_params x }
        ensures truncated { (x : List ℕ) → KeepsBody self.old x
            → self.new.csi_params.is_truncated ≡ has_more_csi_params x }
    {
        self.csi_params.finish();
    }
}
