//! The text of sixel data, which is gathered in an array and appended from there.
ghost use Rattle.std.specs.Prelude.{◌≡◌, ◌+◌, ◌<◌, ◌≤◌, ◌++◌, ◌∷◌, [], length, take, false, true, IfSome, IsNone, OnErr, OnOk};
ghost use Rattle.std.specs.Option.{is_some};
ghost use Rattle.std.specs.Fmt.{decimal};
ghost use Rattle.std.specs.List.{list_all};
ghost use Rattle.std.specs.Str.{IsAscii};
ghost use Rattle.fallible_alloc.specs.Refusals.{Refused};
ghost use Rattle.esc_sixel.specs.Putting.{HasRoom, Puts};
ghost use Rattle.esc_sixel.specs.Texts.{content_text, data_text, is_sixel, sixel_text};

use crate::sixel::Sixel;
use crate::sixel_data::SixelData;
use crate::write_data::least_percentage;
use crate::write_header::Header;
use esc_values::Text;
use esc_values::ascii::as_str;
use std::alloc::{AllocError, Allocator};

// Says how many bytes are gathered at most.
pub(crate) const ROOM: usize = 128;

// The room for a slice of data: up to four numbers of ten digits, and the separators between them.
const MOST: usize = 46;

impl<A: Allocator> Sixel<A> {
    /// Appends the text that Display writes. The error is that memory was refused, or that a value
    /// is over 63; a part of the text may have been appended then.
    pub fn append_to<B: Allocator>(&self, text: &mut Text<B>) -> Result<(), AllocError>
        ensures ok { OnOk result (text.new ≡ text.old ++ sixel_text self.now) }
        ensures refused { list_all is_sixel self.now.content ≡ true → OnErr result (Refused B) }
    {
        text.push_display(&Header(self))?;
        append_content(self.content.as_slice(), text)
    }
}

// Appends the text of the data.
fn append_content<B: Allocator>(content: &[SixelData], text: &mut Text<B>) -> Result<(), AllocError>
    ensures ok { OnOk result (text.new ≡ text.old ++ content_text content.now) }
    ensures refused { list_all is_sixel content.now ≡ true → OnErr result (Refused B) }
{
    let mut bytes = [0; ROOM];
    let mut at = 0;
    'runs: while at < content.len() {
        let (count, end) = gather(&content[at..], &mut bytes);
        if count == 0 {
            return Err(AllocError);
        }
        text.push_str(as_str(&bytes[..end]))?;
        at += count;
    }
    Ok(())
}

// Gathers the text of the data that comes first, up to a value over 63, as far as there is room for
// it. Returns the number of slices of this data, and of bytes.
pub(crate) fn gather(content: &[SixelData], bytes: &mut [u8; ROOM]) -> (usize, usize)
    requires { IsAscii bytes.old }
    ensures within { (result.0 ≤ length content.now) × (result.1 ≤ 128) }
    ensures puts { Puts bytes.old 0 (content_text (take result.0 content.now)) bytes.new result.1 }
    ensures none { result.0 ≡ 0 → 0 < length content.now → list_all is_sixel content.now ≡ false }
{
    let mut count = 0;
    let mut end = 0;
    'items: while count < content.len() && end <= ROOM - MOST {
        let run = put_pixels(bytes, end, &content[count..]);
        count += run;
        end += run;
        if count == content.len() || end > ROOM - MOST {
            break 'items;
        }
        match put(bytes, end, content[count]) {
            Some(next) => {
                end = next;
                count += 1;
            }
            None => break 'items,
        }
    }
    (count, end)
}

// Puts the characters of the pixels that come first at this place, as far as there is room for
// them, and returns how many these are.
#[inline(always)]
fn put_pixels(bytes: &mut [u8; ROOM], at: usize, content: &[SixelData]) -> usize
    requires { HasRoom bytes.old at 0 }
    ensures within { (at + result ≤ 128) × (result ≤ length content.now) }
    ensures puts { Puts bytes.old at (content_text (take result content.now)) bytes.new
        (at + result) }
{
    let most = content.len().min(ROOM - at);
    let mut count = 0;
    'pixels: while count < most {
        match content[count] {
            SixelData::Data(value) if value < 64 => {
                put_byte(bytes, at + count, value + 63);
                count += 1;
            }
            _ => break 'pixels,
        }
    }
    count
}

// Puts the text of a slice of data at this place, and returns the place after it; none if a value
// is over 63.
#[inline]
pub(crate) fn put(bytes: &mut [u8; ROOM], at: usize, item: SixelData) -> Option<usize>
    requires { HasRoom bytes.old at 46 }
    ensures puts { IfSome result (λ e. (e ≤ 128)
        × Puts bytes.old at (data_text item) bytes.new e) }
    ensures fits { is_some result ≡ is_sixel item }
    ensures none { IsNone result → bytes.new ≡ bytes.old }
{
    match item {
        SixelData::Data(value) if value < 64 => Some(put_byte(bytes, at, value + 63)),
        SixelData::Repeat {
            content,
            repeat_count,
        } if content < 64 => {
            let at = put_byte(bytes, at, b'!');
            let at = put_number(bytes, at, repeat_count);
            Some(put_byte(bytes, at, content + 63))
        }
        SixelData::Data(_) | SixelData::Repeat { .. } => None,
        SixelData::DefineColorMapRGB { color_number, rgb } => {
            let (red, green, blue) = rgb.to_tuple_rgb8();
            let red = least_percentage(red);
            let green = least_percentage(green);
            let blue = least_percentage(blue);
            Some(put_color(bytes, at, color_number, b'2', (red, green, blue)))
        }
        SixelData::DefineColorMapHSL {
            color_number,
            hue_angle,
            lightness,
            saturation,
        } => {
            let color = (
                u32::from(hue_angle),
                u32::from(lightness),
                u32::from(saturation),
            );
            Some(put_color(bytes, at, color_number, b'1', color))
        }
        SixelData::SelectColorMapEntry(number) => {
            let at = put_byte(bytes, at, b'#');
            Some(put_number(bytes, at, u32::from(number)))
        }
        SixelData::CarriageReturn => Some(put_byte(bytes, at, b'$')),
        SixelData::NewLine => Some(put_byte(bytes, at, b'-')),
    }
}

// Puts a colour for a number: `#`, the number, the coordinate system and three parameters.
fn put_color(
    bytes: &mut [u8; ROOM],
    at: usize,
    number: u16,
    system: u8,
    color: (u32, u32, u32),
) -> usize
    requires room { HasRoom bytes.old at 46 }
    requires small { system < 128 }
    ensures few { result ≤ at + 46 }
    ensures puts { Puts bytes.old at (0x23 ∷ (decimal number
        ++ 0x3b ∷ system ∷ 0x3b ∷ (decimal color.0
        ++ 0x3b ∷ (decimal color.1 ++ 0x3b ∷ decimal color.2)))) bytes.new result }
{
    let at = put_byte(bytes, at, b'#');
    let at = put_number(bytes, at, u32::from(number));
    let at = put_byte(bytes, at, b';');
    let at = put_byte(bytes, at, system);
    let at = put_parameter(bytes, at, color.0);
    let at = put_parameter(bytes, at, color.1);
    put_parameter(bytes, at, color.2)
}

// Puts a parameter, with the `;` before it.
fn put_parameter(bytes: &mut [u8; ROOM], at: usize, number: u32) -> usize
    requires { HasRoom bytes.old at 11 }
    ensures few { result ≤ at + 11 }
    ensures puts { Puts bytes.old at (0x3b ∷ decimal number) bytes.new result }
{
    let at = put_byte(bytes, at, b';');
    put_number(bytes, at, number)
}

// Puts a number at this place, and returns the place after it.
fn put_number(bytes: &mut [u8; ROOM], at: usize, number: u32) -> usize
    requires { HasRoom bytes.old at 10 }
    ensures place { result ≡ at + length (decimal number) }
    ensures few { result ≤ at + 10 }
    ensures puts { Puts bytes.old at (decimal number) bytes.new result }
{
    if number < 10 {
        return put_byte(bytes, at, 48 + number as u8);
    }
    let at = put_number(bytes, at, number / 10);
    put_byte(bytes, at, 48 + (number % 10) as u8)
}

// Puts a byte at this place, and returns the place after it.
#[inline(always)]
fn put_byte(bytes: &mut [u8; ROOM], at: usize, byte: u8) -> usize
    requires room { HasRoom bytes.old at 1 }
    requires small { byte < 128 }
    ensures place { result ≡ at + 1 }
    ensures puts { Puts bytes.old at (byte ∷ []) bytes.new result }
{
    bytes[at] = byte;
    at + 1
}
