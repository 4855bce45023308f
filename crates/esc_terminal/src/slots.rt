//! The slots of looks and links in the tables that find them.
ghost use Rattle.std.specs.Prelude.{◌≡◌, ◌<◌, ◌≤◌};
ghost use Rattle.std.specs.Option.{option_map};
ghost use Rattle.esc_terminal.specs.Slots.{color_number, flag_number, flags_number, id_number, link_slot, linked_slot, look_slot, text_number, underline_number};

use crate::chains::SLOTS;
use crate::styles::Linked;
use esc_osc::Hyperlink;
use esc_sequences::Underline;
use esc_style::{Color, Look};
use std::alloc::Allocator;

/// The slot of a look.
pub(crate) fn look_slot(look: &Look) -> u16
    ensures is { result ≡ look_slot look.now }
    ensures below { result < 0x400 }
{
    let colors = color_number(look.foreground) + 61 * color_number(look.background);
    ((colors + flags_number(look)) % SLOTS as u32) as u16
}

// A number of a colour.
#[inline]
fn color_number(color: Color) -> u32
    ensures is { result ≡ color_number color }
    ensures below { result ≤ 0x8000 }
{
    match color {
        Color::Default => 0,
        Color::Named(color) => 1 + color.index() as u32,
        Color::Palette(index) => 17 + index as u32,
        Color::Direct(color) => {
            let (red, green, blue) = color.to_tuple_rgb8();
            273 + red as u32 + 7 * green as u32 + 59 * blue as u32
        }
    }
}

#[inline]
fn flags_number(look: &Look) -> u32
    ensures is { result ≡ flags_number look.now }
    ensures below { result ≤ 0x1000 }
{
    flag_number(look.bold, 287)
        + flag_number(look.faint, 541)
        + flag_number(look.italic, 773)
        + flag_number(look.inverse, 389)
        + underline_number(look.underline)
}

#[inline]
fn flag_number(flag: bool, number: u32) -> u32
    ensures { result ≡ flag_number flag number }
{
    if flag { number } else { 0 }
}

#[inline]
fn underline_number(underline: Underline) -> u32
    ensures is { result ≡ underline_number underline }
    ensures below { result ≤ 653 }
{
    match underline {
        Underline::None => 0,
        Underline::Single => 131,
        Underline::Double | Underline::Curly | Underline::Dotted | Underline::Dashed => 653,
    }
}

/// The slot of a link.
pub(crate) fn link_slot<A: Allocator>(link: &Hyperlink<A>) -> u16
    ensures is { result ≡ link_slot link.now }
    ensures below { result < 0x400 }
{
    let id = id_number(link.params.get("id"));
    (text_number(id, link.uri.as_str().as_bytes()) % SLOTS as u32) as u16
}

fn id_number(id: Option<&str>) -> u32
    ensures is { result ≡ id_number (option_map (λ i. i.now) id.entry) }
    ensures below { result < 0x10000 }
{
    match id {
        Some(id) => text_number(0, id.as_bytes()),
        None => 0,
    }
}

// A number after each byte of a text.
fn text_number(number: u32, text: &[u8]) -> u32
    requires { number < 0x10000 }
    ensures is { result ≡ text_number number text.now }
    ensures below { result < 0x10000 }
{
    let mut number = number;
    let mut rest = text;
    while let Some((byte, more)) = rest.split_first() {
        number = (number * 33 + *byte as u32) % 0x10000;
        rest = more;
    }
    number
}

/// The slot of a look of characters that lead somewhere.
pub(crate) fn linked_slot(linked: Linked) -> u16
    ensures is { result ≡ linked_slot linked }
    ensures below { result < 0x400 }
{
    ((linked.link as u32 + 37 * linked.look as u32) % SLOTS as u32) as u16
}
