//! The options that a program has.
ghost use Rattle.std.specs.Prelude.{◌≡◌};
ghost use Rattle.std.specs.Option.{option_map};
ghost use Rattle.command_line.specs.Words.{is_named, joined_value, lacks_dash, may_take, option_joined, option_named, takes_value};

/// An option that a program has.
#[derive(Clone, Copy)]
pub struct Known {
    /// Its name, as `--limit`.
    pub name: &'static str,
    /// Its letter, as `-h`; empty if it has none.
    pub letter: &'static str,
    /// The value that it takes.
    pub takes: Takes,
}

impl Known {
    /// The file to write to, in place of the standard output.
    pub const OUTPUT: Known = Known {
        name: "--output",
        letter: "-o",
        takes: Takes::OneOf("file", &[]),
    };

    /// The purpose of the program, and its options.
    pub const HELP: Known = Known {
        name: "--help",
        letter: "-h",
        takes: Takes::Nothing,
    };

    /// Says which version of the program it is.
    pub const VERSION: Known = Known {
        name: "--version",
        letter: "-V",
        takes: Takes::Nothing,
    };
}

/// The value that an option takes.
#[derive(Clone, Copy)]
pub enum Takes {
    /// Nothing.
    Nothing,
    /// A size, in bytes.
    Size,
    /// One of these words, or any if there are none; and their name.
    OneOf(&'static str, &'static [&'static str]),
    /// Some of these words, at most 64, with `,` between them, and the name of each.
    SomeOf(&'static str, &'static [&'static str]),
    /// One of these words after `=`, or any if there are none, or nothing.
    Maybe(&'static str, &'static [&'static str]),
    /// Some of these words, as above, after `=`, or nothing.
    MaybeSome(&'static str, &'static [&'static str]),
}

// Returns the option of this name or letter.
pub fn option_named<'k>(known: &'k [Known], name: &str) -> Option<&'k Known>
    ensures { option_map (λ o. o.now) result ≡ option_named known.now name.now }
{
    for option in known {
        if is_named(option, name) {
            return Some(option);
        }
    }
    None
}

// Returns whether it is this option's name or letter.
fn is_named(option: &Known, name: &str) -> bool
    ensures { result ≡ is_named option.now name.now }
{
    option.name == name || option.letter == name
}

// Returns the first option with a value joined to its letter in this word, which has this name
// before `=`, and the value.
pub fn option_joined<'k, 'a>(
    known: &'k [Known],
    name: &str,
    word: &'a str,
) -> Option<(&'k Known, &'a str)>
    ensures { option_map (λ x. (x.0.now, x.1.now)) result
        ≡ option_joined known.now name.now word.now }
{
    for option in known {
        if let Some(value) = joined(option, name, word) {
            return Some((option, value));
        }
    }
    None
}

// Returns the value that is joined to the option's letter in this word, which has this name before
// `=`.
fn joined<'a>(option: &Known, name: &str, word: &'a str) -> Option<&'a str>
    ensures { option_map (λ v. v.now) result ≡ joined_value option.now name.now word.now }
{
    if !may_take(option) || option.letter.is_empty() || lacks_dash(option, name) {
        return None;
    }
    word.strip_prefix(option.letter)
}

// Returns whether an option takes a value, which is the next word if none follows its name.
pub fn takes_value(option: &Known) -> bool
    ensures { result ≡ takes_value option.now.takes }
{
    match option.takes {
        Takes::Size | Takes::OneOf(_, _) | Takes::SomeOf(_, _) => true,
        Takes::Nothing | Takes::Maybe(_, _) | Takes::MaybeSome(_, _) => false,
    }
}

// Returns whether an option takes something, or may take it.
pub fn may_take(option: &Known) -> bool
    ensures { result ≡ may_take option.now.takes }
{
    match option.takes {
        Takes::Nothing => false,
        Takes::Size | Takes::OneOf(_, _) | Takes::SomeOf(_, _) => true,
        Takes::Maybe(_, _) | Takes::MaybeSome(_, _) => true,
    }
}

// Returns whether it is the option's name without its first `-`.
fn lacks_dash(option: &Known, name: &str) -> bool
    ensures { result ≡ lacks_dash option.now name.now }
{
    match option.name.as_bytes().split_first() {
        Some((first, rest)) => *first == b'-' && rest == name.as_bytes(),
        None => false,
    }
}
