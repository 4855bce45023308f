//! Device control strings and images in words.

use crate::fields::add_fields;
use crate::setting::add_setting;
use crate::values::{cut, first_word, number_in};
use dump_page::{Key, Name, Phrase};
use esc_sixel::SixelBuilder;
use std::alloc::AllocError;
use string_commands::{Begin, Row, StringKind, find};

// The parts of a device control string: its parameters, its private prefix and intermediates, two
// of which are kept, its final byte, and its data.
#[derive(Clone, Copy)]
struct Parts<'t> {
    params: &'t [u8],
    key: [u8; 3],
    count: usize,
    data: &'t [u8],
}

impl Parts<'_> {
    // Returns the prefix, the intermediates and the final byte.
    fn key(&self) -> &[u8] {
        match self.count {
            0 => &self.key[2..],
            1 => &self.key[1..],
            _ => &self.key,
        }
    }

    // Adds a prefix or an intermediate.
    fn add(&mut self, byte: u8) {
        if self.count == 0 {
            self.key[1] = byte;
        } else {
            self.key[0] = self.key[1];
            self.key[1] = byte;
        }
        self.count = self.count.saturating_add(1);
    }
}

// Returns the parts of a device control string of these bytes, if its header is whole.
fn parts_of(text: &[u8]) -> Option<Parts<'_>> {
    let mut parts = Parts {
        params: &[],
        key: [0; 3],
        count: 0,
        data: &[],
    };
    for at in 0..text.len() {
        match text[at] {
            0x40..=0x7e => {
                parts.key[2] = text[at];
                parts.params = digits_in(&text[..at]);
                parts.data = &text[at + 1..];
                return Some(parts);
            }
            0x20..=0x2f | 0x3c..=0x3f => parts.add(text[at]),
            _ => {}
        }
    }
    None
}

// Returns the parameters of a header: from the first digit on, up to a byte that is no parameter.
fn digits_in(header: &[u8]) -> &[u8] {
    let header = match header {
        [0x3c..=0x3f, rest @ ..] => rest,
        _ => header,
    };
    for at in 0..header.len() {
        if matches!(header[at], 0x20..=0x2f) {
            return &header[..at];
        }
    }
    header
}

/// Adds a device control string of these bytes in words: by the row of its final byte with its
/// intermediates; the data or the parameters tell some rows apart. For a whole sixel image it says
/// only the size. Returns its name.
pub fn add_device(text: &[u8], is_whole: bool, to: &mut Phrase) -> Name {
    let Some(parts) = parts_of(text) else {
        to.begin("DCS", "", "device control string");
        to.add_quoted(" ", text);
        return to.name();
    };
    if is_whole && parts.key() == b"q".as_slice() {
        add_sixel(parts, to);
        return to.name();
    }
    if let Some(row) = row_of(parts) {
        return add_row(row, parts.params, data_rest(row, parts.data), to);
    }
    to.begin_named(Name("DCS", "", Key::Bytes(parts.key)), "without a name");
    add_params(parts.params, to);
    if !parts.data.is_empty() {
        to.add_quoted(" ", parts.data);
    }
    to.name()
}

// Adds a sixel image by its size.
fn add_sixel(parts: Parts<'_>, to: &mut Phrase) {
    match dimensions_of(parts, to) {
        Ok((width, height)) => {
            to.begin("DCS", "sixel", "image, width ");
            to.add_digits(u64::from(width));
            to.add(", height ");
            to.add_digits(u64::from(height));
        }
        Err(_) => to.refuse(),
    }
}

// Returns the width and the height of a sixel image. The error is that memory was refused.
fn dimensions_of(parts: Parts<'_>, to: &Phrase) -> Result<(u32, u32), AllocError> {
    let mut numbers = Vec::new(to.alloc());
    match push_numbers(parts.params, &mut numbers) {
        Ok(()) => drawn(parts.data, &mut SixelBuilder::new(to.alloc(), &numbers)),
        Err(error) => Err(error),
    }
}

// Adds the numbers of parameters; 0, if one has none.
fn push_numbers(params: &[u8], numbers: &mut Vec<i64>) -> Result<(), AllocError> {
    let mut rest = Some(params);
    for _ in 0..u64::MAX {
        let Some(text) = rest else {
            break;
        };
        let (number, more) = cut(text, b';');
        numbers.push(number_in(number).unwrap_or(0))?;
        rest = more;
    }
    Ok(())
}

// Draws an image of these data, and returns its width and its height.
fn drawn(data: &[u8], image: &mut SixelBuilder) -> Result<(u32, u32), AllocError> {
    image.push_run(data)?;
    image.finish()?;
    Ok(image.sixel.dimensions())
}

// Returns the row of a device control string.
fn row_of(parts: Parts<'_>) -> Option<Row> {
    let mut key: u32 = 1;
    for byte in parts.key() {
        key = key.wrapping_mul(0x100).wrapping_add(u32::from(*byte));
    }
    match number_in(parts.params) {
        Some(number) => find(StringKind::Dcs, key, &[number], parts.data),
        None => find(StringKind::Dcs, key, &[], parts.data),
    }
}

// Returns the rest of the data after the beginning that a row has.
fn data_rest(row: Row, data: &[u8]) -> &[u8] {
    if row.told.begin == Begin::Bytes {
        &data[row.start.len().min(data.len())..]
    } else {
        data
    }
}

// Adds a device control string that a row has, and returns its name.
fn add_row(row: Row, params: &[u8], data: &[u8], to: &mut Phrase) -> Name {
    to.begin("DCS", first_word(row.name), row.said);
    let own = to.name();
    if row.params.is_empty() {
        add_params(params, to);
    } else if !params.is_empty() {
        add_fields(row.params, Some(params), to);
    }
    if !data.is_empty() {
        match row.fields.strip_prefix("S:") {
            Some(label) => add_setting(label, data, to),
            None => add_fields(row.fields, Some(data), to),
        }
    }
    own
}

// Adds the parameters as they are.
fn add_params(params: &[u8], to: &mut Phrase) {
    if !params.is_empty() {
        to.add(" ");
        to.add_bytes(params, usize::MAX);
    }
}
