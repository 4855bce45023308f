//! This module writes iTerm2's proprietary commands.
ghost use Rattle.std.specs.Prelude.{Some, ◌∷◌, ◌++◌, codes};
ghost use Rattle.std.specs.Fmt.{DisplaysOnOk};
ghost use Rattle.esc_values.specs.Base64.{base64_text};
ghost use Rattle.esc_iterm.specs.ITerms.{form_text, iterm_text, scale_text};
ghost use Rattle.esc_iterm.specs.Tenths.{tenths_text};
ghost use Rattle.esc_iterm.specs.Versions.{version_text};

use crate::proprietary::ITermProprietary;
use crate::tenths::Tenths;
use crate::unicode_version::ITermUnicodeVersionOp;
use esc_values::Text;
use esc_values::base64_text::Encoded;
use std::alloc::Allocator;
use std::fmt;
use std::fmt::Display;

/// Writes the text between `ESC ]` and the string terminator: `1337;` and the form of the command.
/// If it returns `Ok`, all of it was written.
impl<A: Allocator> fmt::Display for ITermProprietary<A> {
    ghost output = { λ c. Some (iterm_text c) };

    fn fmt<W: fmt::Write>(&self, f: &mut fmt::Formatter<W>) -> fmt::Result {
        f.write_str("1337;")?;
        write_form(self, f)
    }
}

// Writes the text after the code.
fn write_form<W: fmt::Write, A: Allocator>(
    command: &ITermProprietary<A>,
    f: &mut fmt::Formatter<W>,
) -> fmt::Result
    ensures { DisplaysOnOk W.write_str_gives f.old result (Some (form_text command.now)) f.new }
{
    match command {
        ITermProprietary::SetMark => f.write_str("SetMark"),
        ITermProprietary::StealFocus => f.write_str("StealFocus"),
        ITermProprietary::ClearScrollback => f.write_str("ClearScrollback"),
        ITermProprietary::CurrentDir(path) => write_text("CurrentDir=", path, f),
        ITermProprietary::SetProfile(profile) => write_text("SetProfile=", profile, f),
        ITermProprietary::CopyToClipboard(name) => write_text("CopyToClipboard=", name, f),
        ITermProprietary::EndCopy => f.write_str("EndCopy"),
        ITermProprietary::HighlightCursorLine(true) => f.write_str("HighlightCursorLine=yes"),
        ITermProprietary::HighlightCursorLine(false) => f.write_str("HighlightCursorLine=no"),
        ITermProprietary::RequestCellSize => f.write_str("ReportCellSize"),
        ITermProprietary::ReportCellSize {
            height_pixels,
            width_pixels,
            scale,
        } => write_cell_size(*height_pixels, *width_pixels, *scale, f),
        ITermProprietary::Copy(content) => write_encoded("Copy=;", content, f),
        ITermProprietary::ReportVariable(name) => write_encoded("ReportVariable=", name, f),
        ITermProprietary::SetUserVar { name, value } => write_variable(name, value, f),
        ITermProprietary::SetBadgeFormat(format) => write_encoded("SetBadgeFormat=", format, f),
        ITermProprietary::File(file) => file.as_ref().fmt(f),
        ITermProprietary::UnicodeVersion(version) => write_version(version, f),
    }
}

// Writes `before`, and then the text.
pub(crate) fn write_text<W: fmt::Write, A: Allocator>(
    before: &str,
    text: &Text<A>,
    f: &mut fmt::Formatter<W>,
) -> fmt::Result
    ensures { DisplaysOnOk W.write_str_gives f.old result (Some (before.now ++ text.now)) f.new }
{
    f.write_str(before)?;
    f.write_str(text.as_str())
}

// Writes `before`, and then the text in base64.
fn write_encoded<W: fmt::Write, A: Allocator>(
    before: &str,
    text: &Text<A>,
    f: &mut fmt::Formatter<W>,
) -> fmt::Result
    ensures { DisplaysOnOk W.write_str_gives f.old result
        (Some (before.now ++ base64_text text.now)) f.new }
{
    f.write_str(before)?;
    Encoded(text.as_bytes()).fmt(f)
}

// Writes the size of a cell.
fn write_cell_size<W: fmt::Write>(
    height: u32,
    width: u32,
    scale: Option<u32>,
    f: &mut fmt::Formatter<W>,
) -> fmt::Result
    ensures { DisplaysOnOk W.write_str_gives f.old result
        (Some (codes "ReportCellSize="
        ++ (tenths_text height ++ 0x3b ∷ (tenths_text width ++ scale_text scale)))) f.new }
{
    let height = Tenths(height);
    let width = Tenths(width);
    let scale = Scale(scale);
    write!(f, "ReportCellSize={height};{width}{scale}")
}

// Writes a variable and its value in base64.
fn write_variable<W: fmt::Write, A: Allocator>(
    name: &Text<A>,
    value: &Text<A>,
    f: &mut fmt::Formatter<W>,
) -> fmt::Result
    ensures { DisplaysOnOk W.write_str_gives f.old result
        (Some (codes "SetUserVar=" ++ name.now ++ 0x3d ∷ base64_text value.now)) f.new }
{
    write_text("SetUserVar=", name, f)?;
    write_encoded("=", value, f)
}

// Writes a version of Unicode.
fn write_version<W: fmt::Write, A: Allocator>(
    version: &ITermUnicodeVersionOp<A>,
    f: &mut fmt::Formatter<W>,
) -> fmt::Result
    ensures { DisplaysOnOk W.write_str_gives f.old result
        (Some (codes "UnicodeVersion=" ++ version_text version.now)) f.new }
{
    f.write_str("UnicodeVersion=")?;
    version.fmt(f)
}

// This is a scale, which prints after a `;`, if there is one.
#[derive(Clone, Copy)]
struct Scale(Option<u32>);

impl fmt::Display for Scale {
    ghost output = { λ s. Some (scale_text s.0) };

    fn fmt<W: fmt::Write>(&self, f: &mut fmt::Formatter<W>) -> fmt::Result {
        match self.0 {
            None => Ok(()),
            Some(scale) => {
                let scale = Tenths(scale);
                write!(f, ";{scale}")
            }
        }
    }
}
