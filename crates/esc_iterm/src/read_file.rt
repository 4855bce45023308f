//! This module reads files.
ghost use Rattle.std.specs.Prelude.{◌≡◌, ℕ, List, [], ◌∷◌, IfOk, OnErr, Option, map};
ghost use Rattle.std.specs.Option.{option_map};
ghost use Rattle.esc_values.specs.Base64.{base64_text_of};
ghost use Rattle.esc_values.specs.Scalars.{and_then, number_of};
ghost use Rattle.esc_iterm.specs.Files.{file_from, file_in, file_of, file_with, is_set, last_pairs, pairs_of, slice_pairs, size_in};
ghost use Rattle.esc_iterm.specs.Keys.{held, held_after, no_values, values, values_after};
ghost use Rattle.fallible_alloc.specs.Refusals.{Refused};

use crate::dimension::{ITermDimension, read_dimension};
use crate::file_data::ITermFileData;
use crate::file_keys::FileKeys;
use esc_values::base64_text::{read_base64, read_base64_text};
use esc_values::cut::{cut, key_and_value};
use esc_values::scalar::read_usize;
use esc_values::{Items, Text};
use std::alloc::{AllocError, Allocator};

// Reads the file that the parts after the code are.
pub(crate) fn read_file<A: Allocator + Copy>(
    alloc: A,
    args: &[&[u8]],
) -> Result<Option<ITermFileData<A>>, AllocError>
    ensures ok { IfOk result (λ f. f ≡ file_of (map (λ p. p.now) args.now)) }
    ensures refused { OnErr result (Refused A) }
{
    let Some((first, rest)) = args.split_first() else {
        return Ok(None);
    };
    let Some(first) = first.strip_prefix(b"File=".as_slice()) else {
        return Ok(None);
    };
    read_from(alloc, first, rest)
}

// Reads the file of the slices.
fn read_from<A: Allocator + Copy>(
    alloc: A,
    first: &[u8],
    rest: &[&[u8]],
) -> Result<Option<ITermFileData<A>>, AllocError>
    ensures ok { IfOk result (λ f. f ≡ file_from (first.now ∷ map (λ p. p.now) rest.now)) }
    ensures refused { OnErr result (Refused A) }
{
    match read_slices(first, rest) {
        Some((keys, content)) => make_file(alloc, keys, content),
        None => Ok(None),
    }
}

// Reads the values of the keys, and the bytes after the first `:` of the last slice.
fn read_slices<'a>(first: &'a [u8], rest: &[&'a [u8]]) -> Option<(FileKeys<'a>, &'a [u8])>
    ensures { option_map {U = List (Option (List ℕ)) × List ℕ}
        (λ r. (held (values r.0), r.1.now)) result
        ≡ held_after no_values (pairs_of (first.now ∷ map (λ p. p.now) rest.now)) }
{
    let mut keys = FileKeys {
        name: None,
        size: None,
        width: None,
        height: None,
        preserve_aspect_ratio: None,
        inline: None,
        do_not_move_cursor: None,
    };
    let mut slice = first;
    for next in rest {
        let Some(read) = read_slice(keys, slice) else {
            return None;
        };
        keys = read;
        slice = next;
    }
    read_end(keys, slice)
}

// Adds the values of the last slice, and returns the bytes after its first `:` too.
fn read_end<'a>(keys: FileKeys<'a>, slice: &'a [u8]) -> Option<(FileKeys<'a>, &'a [u8])>
    ensures { option_map {U = List (Option (List ℕ)) × List ℕ}
        (λ r. (held (values r.0), r.1.now)) result
        ≡ held_after (values keys.entry) (pairs_of (slice.now ∷ [])) }
{
    let Some((slice, content)) = cut(slice, b':') else {
        return None;
    };
    match read_last(keys, slice) {
        Some(keys) => Some((keys, content)),
        None => None,
    }
}

// Adds the values of a slice before the last.
fn read_slice<'a>(keys: FileKeys<'a>, slice: &'a [u8]) -> Option<FileKeys<'a>>
    ensures { option_map (λ k. held (values k)) result
        ≡ option_map (λ es. held (values_after (values keys.entry) es)) (slice_pairs slice.now) }
{
    if slice.is_empty() {
        return Some(keys);
    }
    match key_and_value(slice) {
        Some((key, value)) => Some(keys.with(key, value)),
        None => None,
    }
}

// Adds the values of the last slice.
fn read_last<'a>(keys: FileKeys<'a>, slice: &'a [u8]) -> Option<FileKeys<'a>>
    ensures { option_map (λ k. held (values k)) result
        ≡ option_map (λ es. held (values_after (values keys.entry) es)) (last_pairs slice.now) }
{
    if cut(slice, b'=').is_none() {
        return Some(keys);
    }
    match key_and_value(slice) {
        Some((key, value)) => Some(keys.with(key, value)),
        None => None,
    }
}

// Returns the file of these values, if the content is base64.
fn make_file<A: Allocator + Copy>(
    alloc: A,
    keys: FileKeys<'_>,
    content: &[u8],
) -> Result<Option<ITermFileData<A>>, AllocError>
    ensures ok { IfOk result (λ f. f ≡ file_with (values keys.entry) content.now) }
    ensures refused { OnErr result (Refused A) }
{
    match read_base64(alloc, content)? {
        Some(content) => fill_file(alloc, keys, Items::from_vec(content)),
        None => Ok(None),
    }
}

// Returns the file of these values and this content.
fn fill_file<A: Allocator>(
    alloc: A,
    keys: FileKeys<'_>,
    content: Items<u8, A>,
) -> Result<Option<ITermFileData<A>>, AllocError>
    ensures ok { IfOk result (λ f. f ≡ file_in (values keys.entry) content) }
    ensures refused { OnErr result (Refused A) }
{
    Ok(Some(ITermFileData {
        name: read_name(alloc, keys.name)?,
        size: read_size(keys.size),
        width: read_dimension_in(keys.width),
        height: read_dimension_in(keys.height),
        preserve_aspect_ratio: is_set(true, keys.preserve_aspect_ratio),
        inline: is_set(false, keys.inline),
        do_not_move_cursor: is_set(false, keys.do_not_move_cursor),
        content,
    }))
}

// Returns the text of a name, if there is one in base64.
fn read_name<A: Allocator>(alloc: A, value: Option<&str>) -> Result<Option<Text<A>>, AllocError>
    ensures ok { IfOk result
        (λ t. t ≡ and_then (option_map (λ v. v.now) value.entry) base64_text_of) }
    ensures refused { OnErr result (Refused A) }
{
    match value {
        Some(value) => read_base64_text(alloc, value.as_bytes()),
        None => Ok(None),
    }
}

// Returns the size, if there is one that can be read.
fn read_size(value: Option<&str>) -> Option<usize>
    ensures { result ≡ and_then (option_map (λ v. v.now) value.entry) (number_of 64) }
{
    match value {
        Some(value) => read_usize(value.as_bytes()),
        None => None,
    }
}

// Returns the dimension, automatic if there is none that can be read.
fn read_dimension_in(value: Option<&str>) -> ITermDimension
    ensures { result ≡ size_in (option_map (λ v. v.now) value.entry) }
{
    let Some(value) = value else {
        return ITermDimension::Automatic;
    };
    match read_dimension(value.as_bytes()) {
        Some(dimension) => dimension,
        None => ITermDimension::Automatic,
    }
}

// Returns whether a value is not `0`; `without` if there is none.
fn is_set(without: bool, value: Option<&str>) -> bool
    ensures { result ≡ is_set without (option_map (λ v. v.now) value.entry) }
{
    match value {
        Some(value) => value != "0",
        None => without,
    }
}
