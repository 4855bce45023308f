//! This module writes files.
ghost use Rattle.std.specs.Prelude.{◌≡◌, ◌&&◌, not, is_some, if◌then◌else◌, [], ◌∷◌, map, Some};
ghost use Rattle.std.specs.Fmt.{DisplaysOnOk};
ghost use Rattle.std.specs.Option.{option_map, unwrap_or};
ghost use Rattle.esc_values.specs.Base64.{base64_text};
ghost use Rattle.esc_values.specs.Clear.{semicolon_list};
ghost use Rattle.esc_values.specs.Scalars.{some_if};
ghost use Rattle.esc_iterm.specs.FileKeys.{entry, value_text};
ghost use Rattle.esc_values.specs.Fields.{entries};
ghost use Rattle.esc_iterm.specs.Files.{file_fields, key_slices, parts_after};

use crate::dimension::ITermDimension;
use crate::file_data::ITermFileData;
use esc_values::base64_text::Encoded;
use esc_values::{Items, Text};
use std::alloc::Allocator;
use std::fmt;
use std::fmt::Display;

// This is the value of a key, if it is written.
#[derive(Clone, Copy)]
pub(crate) enum Value<'a> {
    Size(Option<usize>),
    // It is written in base64.
    Name(Option<&'a str>),
    // It is written unless it is automatic.
    Dimension(ITermDimension),
    Word(Option<&'a str>),
}

// This is a key with its value.
#[derive(Clone, Copy)]
pub(crate) struct Key<'a>(pub(crate) &'a str, pub(crate) Value<'a>);

impl Value<'_> {
    fn is_written(&self) -> bool
        ensures { result ≡ is_some (value_text self.now) }
    {
        match self {
            Value::Size(size) => size.is_some(),
            Value::Name(name) => name.is_some(),
            Value::Dimension(ITermDimension::Automatic) => false,
            Value::Dimension(_) => true,
            Value::Word(word) => word.is_some(),
        }
    }
}

impl Display for Value<'_> {
    ghost output = { λ v. Some (unwrap_or (value_text v) []) };

    fn fmt<W: fmt::Write>(&self, f: &mut fmt::Formatter<W>) -> fmt::Result {
        match self {
            Value::Size(Some(size)) => write!(f, "{size}"),
            Value::Name(Some(name)) => Encoded(name.as_bytes()).fmt(f),
            Value::Dimension(ITermDimension::Automatic) => Ok(()),
            Value::Dimension(dimension) => dimension.fmt(f),
            Value::Word(Some(word)) => f.write_str(word),
            _ => Ok(()),
        }
    }
}

// Writes the keys with their values, `;` between them.
pub(crate) fn write_keys<W: fmt::Write, A: Allocator>(
    file: &ITermFileData<A>,
    f: &mut fmt::Formatter<W>,
) -> fmt::Result
    ensures { DisplaysOnOk W.write_str_gives f.old result
        (Some (semicolon_list (key_slices (entries file_fields file.now)))) f.new }
{
    let keys = [
        Key("size", Value::Size(file.size)),
        Key("name", Value::Name(text_of(&file.name))),
        Key("width", Value::Dimension(file.width)),
        Key("height", Value::Dimension(file.height)),
        Key(
            "preserveAspectRatio",
            Value::Word(word_if(!file.preserve_aspect_ratio, "0")),
        ),
        Key("inline", Value::Word(word_if(file.inline, "1"))),
        Key(
            "doNotMoveCursor",
            Value::Word(word_if(file.do_not_move_cursor, "1")),
        ),
    ];
    write_each(&keys, f)
}

// Writes the keys that have a value, with `;` between them.
fn write_each<W: fmt::Write>(keys: &[Key<'_>], f: &mut fmt::Formatter<W>) -> fmt::Result
    ensures { DisplaysOnOk W.write_str_gives f.old result
        (Some (semicolon_list (key_slices (map entry keys.now)))) f.new }
{
    let mut is_first = true;
    for key in keys {
        write_key(is_first, key, f)?;
        is_first = is_still_first(is_first, key);
    }
    Ok(())
}

// Writes a key with its value, if it is written, and a `;` before it, unless it is the first.
fn write_key<W: fmt::Write>(is_first: bool, key: &Key<'_>, f: &mut fmt::Formatter<W>) -> fmt::Result
    ensures { DisplaysOnOk W.write_str_gives f.old result
        (Some (parts_after is_first (key_slices (entry key.now ∷ [])))) f.new }
{
    if !key.1.is_written() {
        return Ok(());
    }
    let separator = separator(is_first);
    let Key(name, value) = *key;
    write!(f, "{separator}{name}={value}")
}

// Returns whether the next key is the first that is written.
fn is_still_first(is_first: bool, key: &Key<'_>) -> bool
    ensures { result ≡ (is_first && not (is_some (value_text key.now.1))) }
{
    is_first && !key.1.is_written()
}

// Returns the text before a key.
fn separator(is_first: bool) -> &'static str
    ensures { result.now ≡ (if is_first then [] else 0x3b ∷ []) }
{
    if is_first { "" } else { ";" }
}

// Returns the word, if it is wanted.
fn word_if(is_wanted: bool, word: &'static str) -> Option<&'static str>
    ensures { option_map (λ w. w.now) result ≡ some_if is_wanted word.now }
{
    if is_wanted { Some(word) } else { None }
}

// Returns the text, if there is one.
fn text_of<A: Allocator>(text: &Option<Text<A>>) -> Option<&str>
    ensures { option_map (λ t. t.now) result ≡ text.now }
{
    match text {
        Some(text) => Some(text.as_str()),
        None => None,
    }
}

// Writes `:`, and the content in base64.
pub(crate) fn write_content<W: fmt::Write, A: Allocator>(
    content: &Items<u8, A>,
    f: &mut fmt::Formatter<W>,
) -> fmt::Result
    ensures { DisplaysOnOk W.write_str_gives f.old result (Some (0x3a ∷ base64_text content.now))
        f.new }
{
    let content = Encoded(content.as_slice());
    write!(f, ":{content}")
}
