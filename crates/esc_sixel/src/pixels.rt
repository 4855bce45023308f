//! Six pixels, many times.
ghost use Rattle.std.specs.Prelude.{◌≡◌, ◌<◌, ◌≤◌, ◌+◌, ◌++◌, ◌∷◌, [], length, map, take, drop, IfSome, OnOk, OnErr, vec_len, vec_capacity};
ghost use Rattle.std.specs.List.{All};
ghost use Rattle.fallible_alloc.specs.Refusals.{Refused};
ghost use Rattle.esc_sixel.specs.Appending.{Appends, BeginsWithPixels};
ghost use Rattle.esc_sixel.specs.Classes.{IsPixels, lowest};
ghost use Rattle.esc_sixel.specs.Lines.{Ends};
ghost use Rattle.esc_sixel.specs.Meaning.{drawn_data};
ghost use Rattle.esc_sixel.specs.declared.sixel_data.SixelData.TheVariants.{Data};

use crate::sixel_data::SixelData;
use core::mem::replace_with;
use esc_values::Items;
use std::alloc::{AllocError, Allocator};
use std::simd::prelude::*;

// Returns the lowest bit that is set, 16 if none is.
#[inline(always)]
fn lowest(mask: u64) -> usize
    ensures { result ≡ lowest mask 16 }
{
    if mask == 0 {
        16
    } else {
        mask.trailing_zeros() as usize
    }
}

// Returns how many of the 16 bytes from `at`, from the first, are 3F to 7E.
#[inline(always)]
fn run_in_lanes(bytes: &[u8], at: usize) -> usize
    requires { at + 16 ≤ length bytes.now }
    ensures run { All IsPixels (take result (drop at bytes.now)) }
    ensures few { result ≤ 16 }
{
    let v = u8x16::from_slice(&bytes[at..]);
    let stops = (v - u8x16::splat(0x3f)).simd_ge(u8x16::splat(0x40));
    lowest(stops.to_bitmask())
}

// Returns how many bytes, from the first, are 3F to 7E.
#[inline(always)]
pub(crate) fn pixels_run(bytes: &[u8]) -> usize
    ensures run { All IsPixels (take result bytes.now) }
    ensures few { result ≤ length bytes.now }
{
    let mut end = 0;
    if bytes.is_empty() || bytes[0] < 0x3f {
        return end;
    }
    'by_block: while bytes.len() - end >= 16 {
        let run = run_in_lanes(bytes, end);
        end += run;
        if run < 16 {
            return end;
        }
    }
    while end < bytes.len() && 0x3f <= bytes[end] && bytes[end] <= 0x7e {
        end += 1;
    }
    end
}

// Appends six pixels, for which there is room. The compiler joins the stores of a constant: this
// takes two, and a `push_reserved` of the value four.
#[inline(always)]
fn put<A: Allocator>(vec: &mut Vec<SixelData, A>, value: u8)
    requires { vec_len vec.old < vec_capacity vec.old }
    ensures { Appends vec.old 1 (Data value ∷ []) vec.new }
{
    let len = vec.len();
    vec.push_reserved(SixelData::Data(0));
    if let SixelData::Data(last) = &mut vec[len] {
        *last = value;
    }
}

// Eight bytes as pixels.
#[inline(always)]
fn values_of(block: &[u8]) -> [u8; 8]
    requires { BeginsWithPixels 8 block.now }
    ensures { map Data result ≡ drawn_data (take 8 block.now) }
{
    (u8x8::from_slice(block) - u8x8::splat(0x3f)).to_array()
}

// Four bytes as pixels.
#[inline(always)]
fn four_values_of(block: &[u8]) -> [u8; 4]
    requires { BeginsWithPixels 4 block.now }
    ensures { map Data result ≡ drawn_data (take 4 block.now) }
{
    (u8x4::from_slice(block) - u8x4::splat(0x3f)).to_array()
}

// Appends four times six pixels, for which there is room.
#[inline(always)]
fn put_four<A: Allocator>(vec: &mut Vec<SixelData, A>, values: [u8; 4])
    requires { vec_len vec.old + 4 ≤ vec_capacity vec.old }
    ensures { Appends vec.old 4 (map Data values) vec.new }
{
    put(vec, values[0]);
    put(vec, values[1]);
    put(vec, values[2]);
    put(vec, values[3]);
}

// Appends eight times six pixels, for which there is room.
#[inline(always)]
fn put_block<A: Allocator>(vec: &mut Vec<SixelData, A>, values: [u8; 8])
    requires { vec_len vec.old + 8 ≤ vec_capacity vec.old }
    ensures { Appends vec.old 8 (map Data values) vec.new }
{
    put_four(vec, [values[0], values[1], values[2], values[3]]);
    put_four(vec, [values[4], values[5], values[6], values[7]]);
}

// Appends the first two of these bytes as pixels, for which there is room.
#[inline(always)]
fn put_two<A: Allocator>(vec: &mut Vec<SixelData, A>, block: &[u8])
    requires room { vec_len vec.old + 2 ≤ vec_capacity vec.old }
    requires pixels { BeginsWithPixels 2 block.now }
    ensures { Appends vec.old 2 (drawn_data (take 2 block.now)) vec.new }
{
    put(vec, block[0] - 0x3f);
    put(vec, block[1] - 0x3f);
}

// Appends these bytes as pixels, for which there is room: by eights, and then by four, two and one.
#[inline(always)]
fn fill<A: Allocator>(vec: Vec<SixelData, A>, run: &[u8]) -> Vec<SixelData, A>
    requires room { vec_len vec + length run.now ≤ vec_capacity vec }
    requires pixels { All IsPixels run.now }
    ensures { result.items ≡ vec.items ++ drawn_data run.now }
{
    let mut vec = vec;
    let mut at = 0;
    'by_block: while run.len() - at >= 8 {
        put_block(&mut vec, values_of(&run[at..]));
        at += 8;
    }
    'by_four: while run.len() - at >= 4 {
        put_four(&mut vec, four_values_of(&run[at..]));
        at += 4;
    }
    'by_two: while run.len() - at >= 2 {
        put_two(&mut vec, &run[at..]);
        at += 2;
    }
    while at < run.len() {
        put(&mut vec, run[at] - 0x3f);
        at += 1;
    }
    vec
}

// The beginning of a line: a selected colour, six pixels so many times, and pixels, which are 3F to
// 7E.
#[derive(Clone, Copy)]
pub(crate) struct Line<'a> {
    pub(crate) selected: SixelData,
    pub(crate) repeated: SixelData,
    pub(crate) run: &'a [u8],
}

// Appends the beginning of a line. Memory for all, and for the end of the line, is taken first.
#[inline(always)]
fn append_line<A: Allocator>(
    items: Items<SixelData, A>,
    line: &Line<'_>,
) -> (Items<SixelData, A>, Result<(), AllocError>)
    requires { All IsPixels line.now.run.now }
    ensures ok { OnOk result.1 (result.0 ≡ items ++ line.now.selected ∷ line.now.repeated
        ∷ drawn_data line.now.run.now) }
    ensures err { OnErr result.1 (result.0 ≡ items) }
    ensures refused { OnErr result.1 (Refused A) }
{
    let run = line.run;
    let mut vec = items.into_vec();
    match fallible_alloc::reserve_for(&mut vec, run, 3) {
        Ok(()) => {
            vec.push_reserved(line.selected);
            vec.push_reserved(line.repeated);
            (Items::from_vec(fill(vec, run)), Ok(()))
        }
        Err(error) => (Items::from_vec(vec), Err(error)),
    }
}

// Appends the beginning of a line. The error is that memory was refused, and the items stay as they
// were.
#[inline(always)]
pub(crate) fn push_line<A: Allocator>(
    items: &mut Items<SixelData, A>,
    line: &Line<'_>,
) -> Result<(), AllocError>
    requires { All IsPixels line.now.run.now }
    ensures ok { OnOk result (items.new ≡ items.old ++ line.now.selected ∷ line.now.repeated
        ∷ drawn_data line.now.run.now) }
    ensures err { OnErr result (items.new ≡ items.old) }
    ensures refused { OnErr result (Refused A) }
{
    replace_with(items, line, append_line)
}

// Takes memory for as many items more as there are bytes.
fn with_room<A: Allocator>(
    items: Items<SixelData, A>,
    bytes: &[u8],
) -> (Items<SixelData, A>, Result<(), AllocError>)
    ensures same { result.0 ≡ items }
    ensures refused { OnErr result.1 (Refused A) }
{
    let mut vec = items.into_vec();
    let result = fallible_alloc::reserve_for(&mut vec, bytes, 0);
    (Items::from_vec(vec), result)
}

// Takes memory for as many items more as there are bytes. The error is that it was refused. The
// items stay as they were.
#[inline]
pub(crate) fn make_room<A: Allocator>(
    items: &mut Items<SixelData, A>,
    bytes: &[u8],
) -> Result<(), AllocError>
    ensures same { items.new ≡ items.old }
    ensures refused { OnErr result (Refused A) }
{
    replace_with(items, bytes, with_room)
}

// Appends these bytes as pixels. Memory for all, and for the end of their line, is taken first.
fn append<A: Allocator>(
    items: Items<SixelData, A>,
    run: &[u8],
) -> (Items<SixelData, A>, Result<(), AllocError>)
    requires { All IsPixels run.now }
    ensures ok { OnOk result.1 (result.0 ≡ items ++ drawn_data run.now) }
    ensures err { OnErr result.1 (result.0 ≡ items) }
    ensures refused { OnErr result.1 (Refused A) }
{
    let mut vec = items.into_vec();
    match fallible_alloc::reserve_for(&mut vec, run, 1) {
        Ok(()) => (Items::from_vec(fill(vec, run)), Ok(())),
        Err(error) => (Items::from_vec(vec), Err(error)),
    }
}

// Appends these bytes, which are 3F to 7E, as pixels. The error is that memory was refused, and the
// items stay as they were.
#[inline]
pub(crate) fn push_pixels<A: Allocator>(
    items: &mut Items<SixelData, A>,
    run: &[u8],
) -> Result<(), AllocError>
    requires { All IsPixels run.now }
    ensures ok { OnOk result (items.new ≡ items.old ++ drawn_data run.now) }
    ensures err { OnErr result (items.new ≡ items.old) }
    ensures refused { OnErr result (Refused A) }
{
    replace_with(items, run, append)
}

// Returns the data of a byte that ends a line; none for another.
#[inline(always)]
pub(crate) fn line_end(byte: u8) -> Option<SixelData>
    ensures { IfSome result (λ d. Ends byte d) }
{
    match byte {
        b'$' => Some(SixelData::CarriageReturn),
        b'-' => Some(SixelData::NewLine),
        _ => None,
    }
}
