//! This module says how the header of a sixel image is written.
ghost use Rattle.std.specs.Prelude.{◌≡◌, Some, option_map};
ghost use Rattle.std.specs.Fmt.{DisplaysOnOk};
ghost use Rattle.esc_sixel.specs.Texts.{short_form, header_text, sized_header, short_header, ratio_header, flag_text, grid_text, background_text, ratio_text, size_text};

use crate::sixel::Sixel;
use std::alloc::Allocator;
use std::fmt;
use std::fmt::Display;

// The second parameter: whether the background is transparent.
#[derive(Clone, Copy)]
struct Flag(bool);

impl Display for Flag {
    ghost output = { λ p. Some (flag_text p.0) };

    fn fmt<W: fmt::Write>(&self, f: &mut fmt::Formatter<W>) -> fmt::Result {
        if self.0 {
            f.write_str("1")
        } else {
            f.write_str("0")
        }
    }
}

// The third parameter, if there is one, and the `;` before it.
#[derive(Clone, Copy)]
struct Grid(Option<i64>);

impl Display for Grid {
    ghost output = { λ p. Some (grid_text p.0) };

    fn fmt<W: fmt::Write>(&self, f: &mut fmt::Formatter<W>) -> fmt::Result {
        match self.0 {
            Some(size) => write!(f, ";{size}"),
            None => Ok(()),
        }
    }
}

// The second parameter and the third.
#[derive(Clone, Copy)]
struct Background(bool, Option<i64>);

impl Display for Background {
    ghost output = { λ p. Some (background_text p.0 p.1) };

    fn fmt<W: fmt::Write>(&self, f: &mut fmt::Formatter<W>) -> fmt::Result {
        let flag = Flag(self.0);
        let grid = Grid(self.1);
        write!(f, "{flag}{grid}")
    }
}

// Pan and pad, as raster attributes.
#[derive(Clone, Copy)]
struct Ratio(i64, i64);

impl Display for Ratio {
    ghost output = { λ p. Some (ratio_text p.0 p.1) };

    fn fmt<W: fmt::Write>(&self, f: &mut fmt::Formatter<W>) -> fmt::Result {
        let pan = self.0;
        let pad = self.1;
        write!(f, "{pan};{pad}")
    }
}

// A width and a height, as raster attributes: 0 if there is no height.
#[derive(Clone, Copy)]
struct Size(u32, Option<u32>);

impl Display for Size {
    ghost output = { λ p. Some (size_text p.0 p.1) };

    fn fmt<W: fmt::Write>(&self, f: &mut fmt::Formatter<W>) -> fmt::Result {
        let width = self.0;
        let height = self.1.unwrap_or(0);
        write!(f, "{width};{height}")
    }
}

// Returns the first parameter that means this pan and pad, if there is one.
fn macro_parameter(pan: i64, pad: i64) -> Option<&'static str>
    ensures { option_map (λ p. p.now) result ≡ short_form pan pad }
{
    if pad != 1 {
        return None;
    }
    match pan {
        2 => Some("0"),
        5 => Some("2"),
        3 => Some("3"),
        1 => Some("7"),
        _ => None,
    }
}

// The part of an image before its data.
#[derive(Drop)]
pub(crate) struct Header<'a, A: Allocator>(pub(crate) &'a Sixel<A>);

impl<'a, A: Allocator> Display for Header<'a, A> {
    ghost output = { λ h. Some (header_text h.0.now) };

    fn fmt<W: fmt::Write>(&self, f: &mut fmt::Formatter<W>) -> fmt::Result {
        write_header(self.0, f)
    }
}

// Writes the introducer, the parameters, the final byte, and raster attributes if the parameters do
// not suffice.
pub(crate) fn write_header<W: fmt::Write, A: Allocator>(
    sixel: &Sixel<A>,
    f: &mut fmt::Formatter<W>,
) -> fmt::Result
    ensures { DisplaysOnOk W.write_str_gives f.old result (Some (header_text sixel.now)) f.new }
{
    match sixel.pixel_width {
        Some(width) => write_sized(sixel, width, f),
        None => match macro_parameter(sixel.pan, sixel.pad) {
            Some(parameter) => write_short(parameter, sixel, f),
            None => write_ratio(sixel, f),
        },
    }
}

// Writes the header with raster attributes that have a width.
fn write_sized<W: fmt::Write, A: Allocator>(
    sixel: &Sixel<A>,
    width: u32,
    f: &mut fmt::Formatter<W>,
) -> fmt::Result
    ensures { DisplaysOnOk W.write_str_gives f.old result
        (Some (sized_header width sixel.now)) f.new }
{
    let background = Background(sixel.background_is_transparent, sixel.horizontal_grid_size);
    let ratio = Ratio(sixel.pan, sixel.pad);
    let size = Size(width, sixel.pixel_height);
    write!(f, "\x1bP;{background}q\"{ratio};{size}")
}

// Writes the header whose first parameter means pan and pad.
fn write_short<W: fmt::Write, A: Allocator>(
    parameter: &str,
    sixel: &Sixel<A>,
    f: &mut fmt::Formatter<W>,
) -> fmt::Result
    ensures { DisplaysOnOk W.write_str_gives f.old result
        (Some (short_header parameter.now sixel.now)) f.new }
{
    let background = Background(sixel.background_is_transparent, sixel.horizontal_grid_size);
    write!(f, "\x1bP{parameter};{background}q")
}

// Writes the header with raster attributes that have pan and pad alone.
fn write_ratio<W: fmt::Write, A: Allocator>(
    sixel: &Sixel<A>,
    f: &mut fmt::Formatter<W>,
) -> fmt::Result
    ensures { DisplaysOnOk W.write_str_gives f.old result (Some (ratio_header sixel.now)) f.new }
{
    let background = Background(sixel.background_is_transparent, sixel.horizontal_grid_size);
    let ratio = Ratio(sixel.pan, sixel.pad);
    write!(f, "\x1bP;{background}q\"{ratio}")
}
