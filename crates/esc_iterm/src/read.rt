//! This module reads the parts after the code.
ghost use Rattle.std.specs.Prelude.{◌≡◌, IfOk, OnErr, map, Some, None};
ghost use Rattle.std.specs.Str.Lossy.{utf8_lossy};
ghost use Rattle.esc_iterm.specs.ITerms.{lone_keyword, assigned_keyword, bare_keyword, cell_size, content_of, form_of, highlight_of, iterm_of, keyed_word, variable_of, with_one, with_two};
ghost use Rattle.std.specs.Option.{option_map};
ghost use Rattle.esc_values.specs.Base64.{base64_text_of};
ghost use Rattle.esc_iterm.specs.Files.{file_of};
ghost use Rattle.esc_iterm.specs.TextForms.{with_text};
ghost use Rattle.esc_iterm.specs.Versions.{version_of};
ghost use Rattle.esc_iterm.specs.declared.proprietary.ITermProprietary.TheVariants as iterm;
ghost use Rattle.fallible_alloc.specs.Refusals.{Refused};

use crate::file_data::ITermFileData;
use crate::proprietary::ITermProprietary;
use crate::read_version::read_version;
use crate::tenths::read_tenths;
use crate::text_form::TextForm;
use esc_values::base64_text::read_base64_text;
use esc_values::cut::key_and_value;
use esc_values::scalar::text_in;
use esc_values::{Boxed, Text};
use std::alloc::{AllocError, Allocator};

impl<A: Allocator + Copy> ITermProprietary<A> {
    /// Returns the command that the parts after the code `1337` mean, if they fit one. The error is
    /// that memory was refused.
    pub fn parse(alloc: A, args: &[&[u8]]) -> Result<Option<ITermProprietary<A>>, AllocError>
        ensures ok { IfOk result (λ c. c ≡ iterm_of (map (λ p. p.now) args.now)) }
        ensures refused { OnErr result (Refused A) }
    {
        let Some((first, more)) = args.split_first() else {
            return Ok(None);
        };
        if first.starts_with(b"File=") {
            return read_file(alloc, args);
        }
        read_lossy(alloc, first, more)
    }
}

// Reads a file.
fn read_file<A: Allocator + Copy>(
    alloc: A,
    args: &[&[u8]],
) -> Result<Option<ITermProprietary<A>>, AllocError>
    ensures ok { IfOk result
        (λ c. c ≡ option_map iterm.File (file_of (map (λ p. p.now) args.now))) }
    ensures refused { OnErr result (Refused A) }
{
    match ITermFileData::parse(alloc, args)? {
        Some(file) => Ok(Some(ITermProprietary::File(Boxed::new(alloc, file)?))),
        None => Ok(None),
    }
}

// Reads every other form, from the lossy text of the first part and the parts after it.
fn read_lossy<A: Allocator + Copy>(
    alloc: A,
    first: &[u8],
    more: &[&[u8]],
) -> Result<Option<ITermProprietary<A>>, AllocError>
    ensures ok { IfOk result (λ c. c ≡ form_of (utf8_lossy first.now) (map (λ p. p.now) more.now)) }
    ensures refused { OnErr result (Refused A) }
{
    match text_in(first) {
        Some(text) => read_form(alloc, text, more),
        None => {
            let text = fallible_alloc::lossy(alloc, first)?;
            read_form(alloc, text.as_str(), more)
        }
    }
}

// Reads every other form, from the first part as a text and the parts after it.
fn read_form<A: Allocator + Copy>(
    alloc: A,
    first: &str,
    more: &[&[u8]],
) -> Result<Option<ITermProprietary<A>>, AllocError>
    ensures ok { IfOk result (λ c. c ≡ form_of first.now (map (λ p. p.now) more.now)) }
    ensures refused { OnErr result (Refused A) }
{
    match key_and_value(first.as_bytes()) {
        Some((key, value)) => read_keyed(alloc, key, value, more),
        None => read_bare(alloc, first, more),
    }
}

// Reads a first part without `=`, and the parts after it.
fn read_bare<A: Allocator + Copy>(
    alloc: A,
    key: &str,
    more: &[&[u8]],
) -> Result<Option<ITermProprietary<A>>, AllocError>
    ensures ok { IfOk result (λ c. c ≡ bare_keyword key.now (map (λ p. p.now) more.now)) }
    ensures refused { OnErr result (Refused A) }
{
    match more {
        [] => Ok(read_alone(key)),
        [content] => read_content(alloc, key, content),
        _ => Ok(None),
    }
}

// Reads a keyword alone.
fn read_alone<A: Allocator>(key: &str) -> Option<ITermProprietary<A>>
    ensures { result ≡ lone_keyword key.now }
{
    match key {
        "SetMark" => Some(ITermProprietary::SetMark),
        "StealFocus" => Some(ITermProprietary::StealFocus),
        "ClearScrollback" => Some(ITermProprietary::ClearScrollback),
        "EndCopy" => Some(ITermProprietary::EndCopy),
        "ReportCellSize" => Some(ITermProprietary::RequestCellSize),
        _ => None,
    }
}

// Reads a first part with `=`, cut there, and the parts after it.
fn read_keyed<A: Allocator + Copy>(
    alloc: A,
    key: &str,
    value: &str,
    more: &[&[u8]],
) -> Result<Option<ITermProprietary<A>>, AllocError>
    ensures ok { IfOk result (λ c. c ≡ keyed_word key.now value.now (map (λ p. p.now) more.now)) }
    ensures refused { OnErr result (Refused A) }
{
    match more {
        [] => read_assigned(alloc, key, value),
        [second] => read_with_one(alloc, key, value, second),
        [second, third] => Ok(read_with_two(key, value, second, third)),
        _ => Ok(None),
    }
}

// Reads a keyword and its argument in one part.
fn read_assigned<A: Allocator + Copy>(
    alloc: A,
    key: &str,
    value: &str,
) -> Result<Option<ITermProprietary<A>>, AllocError>
    ensures ok { IfOk result (λ c. c ≡ assigned_keyword key.now value.now) }
    ensures refused { OnErr result (Refused A) }
{
    match key {
        "CurrentDir" => read_plain(alloc, TextForm::CurrentDir, value),
        "SetProfile" => read_plain(alloc, TextForm::SetProfile, value),
        "CopyToClipboard" => read_plain(alloc, TextForm::CopyToClipboard, value),
        "HighlightCursorLine" => Ok(read_highlight(value)),
        "SetUserVar" => read_variable(alloc, value),
        "SetBadgeFormat" => read_encoded(alloc, TextForm::SetBadgeFormat, value.as_bytes()),
        "UnicodeVersion" => read_unicode_version(alloc, value.as_bytes()),
        _ => Ok(None),
    }
}

// Reads a form with a text as it is.
fn read_plain<A: Allocator>(
    alloc: A,
    form: TextForm,
    text: &str,
) -> Result<Option<ITermProprietary<A>>, AllocError>
    ensures ok { IfOk result (λ c. c ≡ Some (with_text form text.now)) }
    ensures refused { OnErr result (Refused A) }
{
    Ok(Some(form.with_text(Text::from_str(alloc, text)?)))
}

// Reads a form with a text in base64.
fn read_encoded<A: Allocator>(
    alloc: A,
    form: TextForm,
    content: &[u8],
) -> Result<Option<ITermProprietary<A>>, AllocError>
    ensures ok { IfOk result (λ c. c ≡ option_map (with_text form) (base64_text_of content.now)) }
    ensures refused { OnErr result (Refused A) }
{
    match read_base64_text(alloc, content)? {
        Some(text) => Ok(Some(form.with_text(text))),
        None => Ok(None),
    }
}

// Reads a version of Unicode.
fn read_unicode_version<A: Allocator + Copy>(
    alloc: A,
    text: &[u8],
) -> Result<Option<ITermProprietary<A>>, AllocError>
    ensures ok { IfOk result (λ c. c ≡ option_map iterm.UnicodeVersion (version_of text.now)) }
    ensures refused { OnErr result (Refused A) }
{
    match read_version(alloc, text)? {
        Some(version) => Ok(Some(ITermProprietary::UnicodeVersion(version))),
        None => Ok(None),
    }
}

// Reads `yes` or `no`.
fn read_highlight<A: Allocator>(value: &str) -> Option<ITermProprietary<A>>
    ensures { result ≡ highlight_of value.now }
{
    match value {
        "yes" => Some(ITermProprietary::HighlightCursorLine(true)),
        "no" => Some(ITermProprietary::HighlightCursorLine(false)),
        _ => None,
    }
}

// Reads the name of a variable and its value in base64.
fn read_variable<A: Allocator + Copy>(
    alloc: A,
    text: &str,
) -> Result<Option<ITermProprietary<A>>, AllocError>
    ensures ok { IfOk result (λ c. c ≡ variable_of text.now) }
    ensures refused { OnErr result (Refused A) }
{
    let Some((name, value)) = key_and_value(text.as_bytes()) else {
        return Ok(None);
    };
    match read_base64_text(alloc, value.as_bytes())? {
        Some(value) => set_variable(alloc, name, value),
        None => Ok(None),
    }
}

// Returns the command that sets a variable of this name to this value.
fn set_variable<A: Allocator>(
    alloc: A,
    name: &str,
    value: Text<A>,
) -> Result<Option<ITermProprietary<A>>, AllocError>
    ensures ok { IfOk result (λ c. c ≡ Some (iterm.SetUserVar name.now value)) }
    ensures refused { OnErr result (Refused A) }
{
    let name = Text::from_str(alloc, name)?;
    Ok(Some(ITermProprietary::SetUserVar { name, value }))
}

// Reads a keyword and its argument in the first part, and one more part.
fn read_with_one<A: Allocator + Copy>(
    alloc: A,
    key: &str,
    value: &str,
    second: &[u8],
) -> Result<Option<ITermProprietary<A>>, AllocError>
    ensures ok { IfOk result (λ c. c ≡ with_one key.now value.now second.now) }
    ensures refused { OnErr result (Refused A) }
{
    if key == "ReportCellSize" {
        return Ok(read_cell_size(value.as_bytes(), second, None));
    }
    if !value.is_empty() {
        return Ok(None);
    }
    read_content(alloc, key, second)
}

// Reads a keyword, and a base64 text in the next part.
fn read_content<A: Allocator + Copy>(
    alloc: A,
    key: &str,
    content: &[u8],
) -> Result<Option<ITermProprietary<A>>, AllocError>
    ensures ok { IfOk result (λ c. c ≡ content_of key.now content.now) }
    ensures refused { OnErr result (Refused A) }
{
    match key {
        "Copy" => read_encoded(alloc, TextForm::Copy, content),
        "SetBadgeFormat" => read_encoded(alloc, TextForm::SetBadgeFormat, content),
        _ => Ok(None),
    }
}

// Reads a keyword and its argument in the first part, and two more parts.
fn read_with_two<A: Allocator>(
    key: &str,
    value: &str,
    second: &[u8],
    third: &[u8],
) -> Option<ITermProprietary<A>>
    ensures { result ≡ with_two key.now value.now second.now third.now }
{
    if key != "ReportCellSize" {
        return None;
    }
    let Some(scale) = read_tenths(third) else {
        return None;
    };
    read_cell_size(value.as_bytes(), second, Some(scale))
}

// Reads a height and a width, with the scale that was found.
fn read_cell_size<A: Allocator>(
    height: &[u8],
    width: &[u8],
    scale: Option<u32>,
) -> Option<ITermProprietary<A>>
    ensures { result ≡ cell_size height.now width.now scale }
{
    let Some(height_pixels) = read_tenths(height) else {
        return None;
    };
    let Some(width_pixels) = read_tenths(width) else {
        return None;
    };
    Some(ITermProprietary::ReportCellSize {
        height_pixels,
        width_pixels,
        scale,
    })
}
