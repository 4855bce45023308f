//! Base64 (RFC 4648, section 4, <https://www.rfc-editor.org/rfc/rfc4648#section-4>), by one engine.
ghost use Rattle.std.specs.Prelude.{◌≡◌, IfOk, OnErr, Some};
ghost use Rattle.std.specs.Option.{option_map};
ghost use Rattle.esc_values.specs.Base64.{IsEngine, base64_of, base64_text_of, base64_text};
ghost use Rattle.fallible_alloc.specs.Refusals.{Refused};

use crate::scalar::text_of;
use crate::text::Text;
use base64::display::Base64Display;
use base64::engine::general_purpose::{GeneralPurpose, PAD, STANDARD};
use base64::{DecodeAllocError, alphabet};
use std::alloc::{AllocError, Allocator};
use std::fmt;
use std::fmt::Display;

// Returns the standard alphabet; padding is written and required; trailing bits are allowed when
// reading.
fn engine() -> GeneralPurpose
    ensures { IsEngine result }
{
    GeneralPurpose::new(
        &alphabet::STANDARD,
        PAD.with_decode_allow_trailing_bits(true),
    )
}

/// Returns the bytes that a base64 text encodes; none if it is no base64. Its alphabet is the
/// standard one, padding is required, and the bits after the last byte may be any. The error is
/// that memory was refused.
pub fn read_base64<A: Allocator>(alloc: A, text: &[u8]) -> Result<Option<Vec<u8, A>>, AllocError>
    ensures ok { IfOk result (λ o. option_map (λ v. v.items) o ≡ base64_of text.now) }
    ensures refused { OnErr result (Refused A) }
{
    match fallible_alloc::decode_base64(&engine(), alloc, text) {
        Ok(decoded) => Ok(Some(decoded)),
        Err(DecodeAllocError::OutOfMemory) => Err(AllocError),
        Err(DecodeAllocError::DecodeError(_)) => Ok(None),
    }
}

/// Returns the text that a base64 text encodes; none if it is no base64, or the bytes are no UTF-8.
/// The error is that memory was refused.
pub fn read_base64_text<A: Allocator>(alloc: A, text: &[u8]) -> Result<Option<Text<A>>, AllocError>
    ensures ok { IfOk result (λ t. t ≡ base64_text_of text.now) }
    ensures refused { OnErr result (Refused A) }
{
    match read_base64(alloc, text)? {
        Some(bytes) => Ok(text_of(bytes)),
        None => Ok(None),
    }
}

/// Bytes that print as their base64, with padding.
#[derive(Clone, Copy)]
pub struct Encoded<'a>(pub &'a [u8]);

impl fmt::Display for Encoded<'_> {
    ghost output = { λ b. Some (base64_text b.0.now) };

    fn fmt<W: fmt::Write>(&self, f: &mut fmt::Formatter<W>) -> fmt::Result {
        Base64Display::new(self.0, &STANDARD).fmt(f)
    }
}
