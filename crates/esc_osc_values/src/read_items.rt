//! This module reads lists of parts. An error is that memory was refused.
ghost use Rattle.std.specs.Prelude.{◌≡◌, ◌∷◌, IfOk, OnErr, drop, map};
ghost use Rattle.std.specs.Str.Lossy.{utf8_lossy};
ghost use Rattle.esc_values.specs.Clear.{semicolon_list};
ghost use Rattle.esc_values.specs.Scalars.{utf8_of};
ghost use Rattle.esc_osc_values.specs.Colors.{colors_of, pairs_of};
ghost use Rattle.esc_osc_values.specs.Lists.{lone_text, numbers_of, title_of};
ghost use Rattle.fallible_alloc.specs.Refusals.{Refused};

use crate::change_color_pair::ChangeColorPair;
use crate::color_or_query::ColorOrQuery;
use crate::read_color::read_spec;
use esc_values::scalar::{read_u8, text_of};
use esc_values::{Items, Text};
use std::alloc::{AllocError, Allocator};

/// Returns a copy of the parts.
pub fn copied<A: Allocator + Copy>(
    alloc: A,
    parts: &[&[u8]],
) -> Result<Items<Items<u8, A>, A>, AllocError>
    ensures ok { IfOk result (λ c. c ≡ map (λ p. p.now) parts.now) }
    ensures refused { OnErr result (Refused A) }
{
    let mut made = Vec::new(alloc);
    for part in parts {
        fallible_alloc::push(&mut made, Items::from_slice(alloc, part)?)?;
    }
    Ok(Items::from_vec(made))
}

/// Returns the parts joined by `;`, if there is one and they are a text.
pub fn read_title<A: Allocator + Copy>(
    alloc: A,
    args: &[&[u8]],
) -> Result<Option<Text<A>>, AllocError>
    ensures ok { IfOk result (λ t. t ≡ title_of (map (λ p. p.now) args.now)) }
    ensures refused { OnErr result (Refused A) }
{
    let Some((first, rest)) = args.split_first() else {
        return Ok(None);
    };
    Ok(text_of(joined(alloc, first, rest)?))
}

// Returns a part and those after it, with `;` between them.
fn joined<A: Allocator>(alloc: A, first: &[u8], rest: &[&[u8]]) -> Result<Vec<u8, A>, AllocError>
    ensures ok { IfOk result (λ b. b.items
        ≡ semicolon_list (first.now ∷ map (λ p. p.now) rest.now)) }
    ensures refused { OnErr result (Refused A) }
{
    let mut bytes = fallible_alloc::copied(alloc, first)?;
    for part in rest {
        fallible_alloc::push(&mut bytes, b';')?;
        fallible_alloc::extend(&mut bytes, part)?;
    }
    Ok(bytes)
}

/// Returns the text of one part alone; none if there are more parts or fewer.
pub fn read_lone_text<A: Allocator + Copy>(
    alloc: A,
    args: &[&[u8]],
) -> Result<Option<Text<A>>, AllocError>
    ensures ok { IfOk result (λ t. t ≡ lone_text (map (λ p. p.now) args.now)) }
    ensures refused { OnErr result (Refused A) }
{
    match args {
        [text] => read_text(alloc, text),
        _ => Ok(None),
    }
}

/// Returns these bytes as a text; none if they are no UTF-8.
pub fn read_text<A: Allocator>(alloc: A, bytes: &[u8]) -> Result<Option<Text<A>>, AllocError>
    ensures ok { IfOk result (λ t. t ≡ utf8_of bytes.now) }
    ensures refused { OnErr result (Refused A) }
{
    Ok(text_of(fallible_alloc::copied(alloc, bytes)?))
}

/// Reads pairs of a number and a colour; a last lone part is dropped.
pub fn read_pairs<A: Allocator>(
    alloc: A,
    args: &[&[u8]],
) -> Result<Option<Items<ChangeColorPair, A>>, AllocError>
    ensures ok { IfOk result (λ t. t ≡ pairs_of (map (λ p. p.now) args.now)) }
    ensures refused { OnErr result (Refused A) }
{
    let mut made = Vec::new(alloc);
    let mut left = args;
    while let [index, spec, rest @ ..] = left {
        let Some(palette_index) = read_u8(index) else {
            return Ok(None);
        };
        let Some(color) = read_spec(spec) else {
            return Ok(None);
        };
        fallible_alloc::push(
            &mut made,
            ChangeColorPair {
                palette_index,
                color,
            },
        )?;
        left = rest;
    }
    Ok(Some(Items::from_vec(made)))
}

/// Reads colours; none if a part is no colour.
pub fn read_colors<A: Allocator>(
    alloc: A,
    args: &[&[u8]],
) -> Result<Option<Items<ColorOrQuery, A>>, AllocError>
    ensures ok { IfOk result (λ t. t ≡ colors_of (map (λ p. p.now) args.now)) }
    ensures refused { OnErr result (Refused A) }
{
    let mut made = Vec::new(alloc);
    for part in args {
        let Some(color) = read_spec(part) else {
            return Ok(None);
        };
        fallible_alloc::push(&mut made, color)?;
    }
    Ok(Some(Items::from_vec(made)))
}

/// Reads numbers of 8 bits; an empty part is skipped. None if a part is no number.
pub fn read_numbers<A: Allocator>(
    alloc: A,
    args: &[&[u8]],
) -> Result<Option<Items<u8, A>>, AllocError>
    ensures ok { IfOk result (λ t. t ≡ numbers_of (map (λ p. p.now) args.now)) }
    ensures refused { OnErr result (Refused A) }
{
    let mut made = Vec::new(alloc);
    for part in args {
        if part.is_empty() {
            continue;
        }
        let Some(number) = read_u8(part) else {
            return Ok(None);
        };
        fallible_alloc::push(&mut made, number)?;
    }
    Ok(Some(Items::from_vec(made)))
}

/// Returns the lossy texts of the parts.
pub fn read_texts<A: Allocator + Copy>(
    alloc: A,
    args: &[&[u8]],
) -> Result<Items<Text<A>, A>, AllocError>
    ensures ok { IfOk result (λ t. t ≡ map utf8_lossy (map (λ p. p.now) args.now)) }
    ensures refused { OnErr result (Refused A) }
{
    let mut made = Vec::new(alloc);
    for part in args {
        fallible_alloc::push(
            &mut made,
            Text::from_string(fallible_alloc::lossy(alloc, part)?),
        )?;
    }
    Ok(Items::from_vec(made))
}

/// Returns a text without its first byte, if that is a text.
pub fn without_first<A: Allocator>(alloc: A, text: &str) -> Result<Option<Text<A>>, AllocError>
    ensures ok { IfOk result (λ t. t ≡ utf8_of (drop 1 text.now)) }
    ensures refused { OnErr result (Refused A) }
{
    let bytes = text.as_bytes();
    let Some((_, rest)) = bytes.split_first() else {
        return Ok(Some(Text::new(alloc)));
    };
    read_text(alloc, rest)
}
