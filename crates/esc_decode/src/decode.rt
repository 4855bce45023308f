//! The decoded text of the bytes of a chunk.
ghost use Rattle.std.specs.Prelude.{◌≡◌, if◌then◌else◌, IfOk, OnErr};
ghost use Rattle.esc_decode.specs.Decodings.{begun_by, decoded_after};
ghost use Rattle.esc_decode.specs.Masks.{begun_after, masked_after};
ghost use Rattle.esc_decode.specs.Pages.{read_by};
ghost use Rattle.esc_frame.specs.Machine.Prefixes.{prefix_of};
ghost use Rattle.fallible_alloc.specs.Refusals.{Refused};

use crate::code_page::{CodePage, table_of};
use crate::eight_bit::push_characters;
use crate::encoding::Encoding;
use crate::runs::{look, push_masked};
use esc_frame::utf8::sequence::Pending;
use std::alloc::{AllocError, Allocator};

/// The begun bytes after these bytes, and whether they stay as they are; if not, `chunk` is their
/// decoded text.
pub(crate) fn decode<A: Allocator>(
    chunk: &mut Vec<u8, A>,
    encoding: Encoding,
    begun: Pending,
    bytes: &[u8],
) -> Result<(Pending, bool), AllocError>
    ensures begun { IfOk result (λ r.
        prefix_of r.0 ≡ begun_by encoding (prefix_of begun) bytes.now) }
    ensures becomes { IfOk result (λ r. (if r.1 then bytes.now else chunk.new.items)
        ≡ decoded_after encoding (prefix_of begun) bytes.now) }
    ensures refused { OnErr result (Refused A) }
{
    match encoding {
        Encoding::Utf8 => decode_utf8(chunk, begun, bytes),
        Encoding::EightBit => Ok((begun, true)),
        Encoding::CodePage(page) => {
            let stays = decode_page(chunk, page, bytes)?;
            Ok((begun, stays))
        }
    }
}

// The same for UTF-8.
fn decode_utf8<A: Allocator>(
    chunk: &mut Vec<u8, A>,
    begun: Pending,
    bytes: &[u8],
) -> Result<(Pending, bool), AllocError>
    ensures begun { IfOk result (λ r.
        prefix_of r.0 ≡ begun_after (prefix_of begun) bytes.now) }
    ensures becomes { IfOk result (λ r. (if r.1 then bytes.now else chunk.new.items)
        ≡ masked_after (prefix_of begun) bytes.now) }
    ensures refused { OnErr result (Refused A) }
{
    let (last, stays) = look(begun, bytes);
    if !stays {
        chunk.clear();
        push_masked(chunk, begun, bytes)?;
    }
    Ok((last, stays))
}

// Whether bytes of an 8-bit encoding stay as they are; if not, `chunk` is their decoded text.
fn decode_page<A: Allocator>(
    chunk: &mut Vec<u8, A>,
    page: CodePage,
    bytes: &[u8],
) -> Result<bool, AllocError>
    ensures becomes { IfOk result (λ stays.
        (if stays then bytes.now else chunk.new.items) ≡ read_by page bytes.now) }
    ensures refused { OnErr result (Refused A) }
{
    if bytes.is_ascii() {
        return Ok(true);
    }
    chunk.clear();
    push_characters(chunk, table_of(page), bytes)?;
    Ok(false)
}
