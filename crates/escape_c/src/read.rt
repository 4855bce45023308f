//! Commands, images and queries as kinds and fields.
ghost use Rattle.std.specs.Prelude.{◌≡◌, ◌≢◌};
ghost use Rattle.esc_calls.specs.OscValues.{IsValue, table_in};
ghost use Rattle.esc_calls.specs.Reads.{Reads};
ghost use Rattle.fallible_alloc.specs.Refusals.{Refused};
ghost use Rattle.esc_calls.specs.ImageValues.{IsImage, image_table};
ghost use Rattle.esc_calls.specs.Output.{put_into};
ghost use Rattle.esc_calls.specs.SixelValues.{IsSixel, sixel_in, sixel_rows};
ghost use Rattle.esc_calls.specs.QueryValues.{IsQuery, query_table};

use esc_calls::image_value::ImageValue;
use esc_calls::osc_value::OscValue;
use esc_calls::query_value::QueryValue;
use esc_calls::sixel_value::SixelValue;
use esc_calls::{DONE, NO_MEMORY, kitty, osc, sixel, tcap};
use flat_values::{FieldRow, SixelRow};
use std::alloc::Global;

/// Writes to `value` the command that the text of an operating system command means, which lies
/// between `ESC ]` and its terminator: its kind, the number of its fields, and the number of bytes
/// of their texts. Writes to `fields` a row for each field, as many as there is room for, and to
/// `out` the texts of the fields one after another, as much of them as fits; the places in the rows
/// are places in `out`.
///
/// `NO_MEMORY` is the only other status.
#[unsafe(no_mangle)]
pub extern "C" fn escape_stream_read_osc(
    alloc: Global,
    text: &[u8],
    value: &mut OscValue,
    fields: &mut [FieldRow],
    out: &mut [u8],
) -> u32
    ensures { Reads (IsValue text.now) (table_in text.now) result
        (value.old, fields.old, out.old) (value.new, fields.new, out.new) }
{
    osc::read_osc(alloc, text, value, fields, out)
}

/// Writes to `value` the command of kitty's graphics protocol that the text of an application
/// program command is, which lies between `ESC _` and its terminator: its kind, 0 if it is none,
/// the number of its fields, and the number of bytes of their texts. Writes to `fields` a row for
/// each field, as many as there is room for, and to `out` the texts of the fields one after
/// another, as much of them as fits; the places in the rows are places in `out`.
///
/// `NO_MEMORY` is the only other status.
#[unsafe(no_mangle)]
pub extern "C" fn escape_stream_read_kitty(
    alloc: Global,
    text: &[u8],
    value: &mut ImageValue,
    fields: &mut [FieldRow],
    out: &mut [u8],
) -> u32
    ensures { Reads (IsImage text.now) (image_table text.now) result
        (value.old, fields.old, out.old) (value.new, fields.new, out.new) }
{
    kitty::read_kitty(alloc, text, value, fields, out)
}

/// Writes to `value` the sixel image whose header has these parameters, and whose data this is,
/// which lies between `q` and the terminator, and to `rows` a row for each item of its data, as
/// many as there is room for.
///
/// `NO_MEMORY` is the only other status.
#[unsafe(no_mangle)]
pub extern "C" fn escape_stream_read_sixel(
    alloc: Global,
    params: &[i64],
    text: &[u8],
    value: &mut SixelValue,
    rows: &mut [SixelRow],
) -> u32
    ensures value { result ≡ DONE → IsSixel (sixel_in params.now text.now) value.new }
    ensures written { result ≡ DONE
        → rows.new ≡ put_into (sixel_rows params.now text.now) rows.old }
    ensures refused { result ≢ DONE → (result ≡ NO_MEMORY) × (value.new ≡ value.old)
        × (rows.new ≡ rows.old) }
    ensures memory { result ≡ NO_MEMORY → Refused Global }
{
    sixel::read_sixel(alloc, params, text, value, rows)
}

/// Writes to `value` how many names of capabilities the data of a termcap query has, which lies
/// between `ESC P + q` and its terminator, and how many bytes. Writes to `fields` a row for each
/// name, as many as there is room for, and to `out` the names one after another, as much of them as
/// fits; the places in the rows are places in `out`.
///
/// `NO_MEMORY` is the only other status.
#[unsafe(no_mangle)]
pub extern "C" fn escape_stream_read_tcap(
    alloc: Global,
    text: &[u8],
    value: &mut QueryValue,
    fields: &mut [FieldRow],
    out: &mut [u8],
) -> u32
    ensures { Reads (IsQuery text.now) (query_table text.now) result
        (value.old, fields.old, out.old) (value.new, fields.new, out.new) }
{
    tcap::read_tcap(alloc, text, value, fields, out)
}
