//! This module writes keys.
ghost use Rattle.std.specs.Prelude.{◌≡◌, ◌&&◌, not, [], map, Some};
ghost use Rattle.std.specs.Fmt.{DisplaysOnOk};
ghost use Rattle.std.specs.Option.{is_some, option_map, unwrap_or};
ghost use Rattle.esc_values.specs.Fields.{is_bare, present_pairs};
ghost use Rattle.esc_kitty.specs.Texts.{entry, entry_text, keys_text, separator, value_text};
ghost use Rattle.esc_kitty.specs.Words.{flag_word};

use std::fmt;

// This is the value of a key, if it is written.
#[derive(Clone, Copy)]
pub(crate) enum Value<'a> {
    Number(Option<u32>),
    Signed(Option<i32>),
    Letter(char),
    Word(Option<&'a str>),
}

impl Value<'_> {
    fn is_written(&self) -> bool
        ensures { result ≡ is_some (value_text self.now) }
    {
        match self {
            Value::Number(number) => number.is_some(),
            Value::Signed(number) => number.is_some(),
            Value::Letter(_) => true,
            Value::Word(word) => word.is_some(),
        }
    }
}

impl fmt::Display for Value<'_> {
    ghost output = { λ v. Some (unwrap_or (value_text v) []) };

    fn fmt<W: fmt::Write>(&self, f: &mut fmt::Formatter<W>) -> fmt::Result {
        match self {
            Value::Number(Some(number)) => write!(f, "{number}"),
            Value::Signed(Some(number)) => write!(f, "{number}"),
            Value::Letter(letter) => letter.fmt(f),
            Value::Word(Some(word)) => f.write_str(word),
            _ => Ok(()),
        }
    }
}

// This is a key with its value.
#[derive(Clone, Copy)]
pub(crate) struct Key<'a>(pub(crate) char, pub(crate) Value<'a>);

// Writes a key with its value, if it is written, and a `,` before it, unless it is the first.
fn write_key<W: fmt::Write>(key: &Key<'_>, is_first: bool, f: &mut fmt::Formatter<W>) -> fmt::Result
    ensures { DisplaysOnOk W.write_str_gives f.old result
        (Some (entry_text is_first (entry key.now))) f.new }
{
    if !key.1.is_written() {
        return Ok(());
    }
    let separator = separator(is_first);
    let Key(name, value) = *key;
    write!(f, "{separator}{name}={value}")
}

// Returns the text before a key.
fn separator(is_first: bool) -> &'static str
    ensures { result.now ≡ separator is_first }
{
    if is_first { "" } else { "," }
}

// Returns whether the next key is the first that is written.
fn is_still_first(is_first: bool, key: &Key<'_>) -> bool
    ensures { result ≡ (is_first && not (is_some (value_text key.now.1))) }
{
    is_first && !key.1.is_written()
}

// Writes the keys that have a value, with `,` between them.
pub(crate) fn write_keys<W: fmt::Write>(keys: &[Key<'_>], f: &mut fmt::Formatter<W>) -> fmt::Result
    ensures { DisplaysOnOk W.write_str_gives f.old result
        (Some (keys_text (present_pairs (map entry keys.now)))) f.new }
{
    let mut is_first = true;
    for key in keys {
        write_key(key, is_first, f)?;
        is_first = is_still_first(is_first, key);
    }
    Ok(())
}

// Returns whether no key is written.
pub(crate) fn is_bare(keys: &[Key<'_>]) -> bool
    ensures { result ≡ is_bare (present_pairs (map entry keys.now)) }
{
    for key in keys {
        if key.1.is_written() {
            return false;
        }
    }
    true
}

// Returns the value of a flag, if it is true.
pub(crate) fn flag_word(flag: bool) -> Option<&'static str>
    ensures { option_map (λ w. w.now) result ≡ flag_word flag }
{
    if flag { Some("1") } else { None }
}
