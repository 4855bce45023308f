//! Maps, base64 and hexadecimal digits.
ghost use Rattle.std.specs.Prelude.{◌≡◌, ◌⊎◌, IfOk, IfErr, OnOk, OnErr, Ok, Err};
ghost use Rattle.std.specs.BTreeMap.{insert_entry, IsUnchanged};
ghost use Rattle.base64.specs.GeneralPurpose.{decode_of, IsDecodeFailure};
ghost use Rattle.base64.specs.declared.decode.DecodeAllocError.TheVariants.{OutOfMemory as NoMemory};
ghost use Rattle.hex.specs.Hex as hexadecimal;
ghost use Rattle.hex.specs.declared.error.FromHexError.TheVariants.{OutOfMemory};
ghost use Rattle.fallible_alloc.specs.Refusals.{Refused};

use crate::answered::answered;
use base64::DecodeAllocError;
use base64::engine::general_purpose::GeneralPurpose;
use hex::FromHexError;
use std::alloc::{AllocFailed, Allocator};
use std::collections::BTreeMap;

/// Puts a value at a key, or hands both back.
#[inline(always)]
pub fn insert<K: Ord + Drop, V, A: Allocator + Clone>(
    map: &mut BTreeMap<K, V, A>,
    key: K,
    value: V,
) -> Result<Option<V>, AllocFailed<(K, V)>>
    ensures entries { OnOk result (map.new.entries ≡ insert_entry K.cmp map.old.entries key value) }
    ensures err { OnErr result (IsUnchanged map.old map.new) }
    ensures refused { OnErr result (Refused A) }
{
    answered::<_, _, A>(map.insert(key, value))
}

/// Returns the bytes that a base64 text encodes, or the fault of the text, or that memory was
/// refused.
#[inline(always)]
pub fn decode_base64<A: Allocator>(
    engine: &GeneralPurpose,
    alloc: A,
    text: &[u8],
) -> Result<Vec<u8, A>, DecodeAllocError>
    ensures ok { IfOk result (λ v. decode_of engine.now text.now ≡ Ok v.items) }
    ensures err { IfErr result (λ e. IsDecodeFailure engine.now text.now e) }
    ensures refused { IfErr result (λ e. e ≡ NoMemory → Refused A) }
{
    match engine.decode(alloc, text) {
        Ok(bytes) => Ok(bytes),
        Err(DecodeAllocError::OutOfMemory) => answered::<_, _, A>(Err(
            DecodeAllocError::OutOfMemory,
        )),
        Err(DecodeAllocError::DecodeError(wrong)) => Err(DecodeAllocError::DecodeError(wrong)),
    }
}

/// Returns the bytes that hexadecimal digits write, or the fault of these, or that memory was
/// refused.
#[inline(always)]
pub fn decode_hex<A: Allocator>(alloc: A, digits: &[u8]) -> Result<Vec<u8, A>, FromHexError>
    ensures ok { IfOk result (λ v. hexadecimal.decode_of digits.now ≡ Ok v.items) }
    ensures err { IfErr result (λ e. (e ≡ OutOfMemory)
        ⊎ (hexadecimal.decode_of digits.now ≡ Err e)) }
    ensures refused { IfErr result (λ e. e ≡ OutOfMemory → Refused A) }
{
    match hex::decode(alloc, digits) {
        Err(FromHexError::OutOfMemory) => answered::<_, _, A>(Err(FromHexError::OutOfMemory)),
        answer => answer,
    }
}
