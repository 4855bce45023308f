//! This module reads a program's options and files from its words.
ghost use Rattle.std.specs.Prelude.{◌≡◌, ◌≤◌, ◌++◌, ◌∷◌, ◌||◌, ℕ, List, [], IfErr, IfOk, MatchResult, OnOk, drop, false, if◌then◌else◌, length, map, string_bytes, true, ◌<◌};
ghost use denote.Ref.{Bor};
ghost use Rattle.std.specs.List.{list_all, list_any};
ghost use Rattle.std.specs.Option.{option_map};
ghost use Rattle.command_line.specs.Given.{Gives, bit, bits_of, has_bit, is_among, is_one_of, is_place, is_value, parts, place_in, said_option, said_by};
ghost use Rattle.command_line.specs.Sizes.{is_size, size_value};
ghost use Rattle.command_line.specs.Words.{Decides, are_right, ends_options, files_of, first_of, given_by, is_file, is_next_right, is_right, name_in, next_is_right, option_in, options_of, takes_next, takes_value, value_in};

use crate::faults::{unknown, without_value, wrong_value};
use crate::sizes::size_of;
use crate::table::{Known, Takes, may_take, option_joined, option_named, takes_value};
use crate::wrong::Wrong;
use std::alloc::{AllocError, Allocator, Global};

/// The options and the files that a program's words name, each in order.
#[derive(Drop)]
pub struct Found<'a, A: Allocator = Global> {
    /// The options.
    pub options: Vec<Given<'a>, A>,
    /// The files.
    pub files: Vec<&'a str, A>,
}

/// An option that was given.
#[derive(Clone, Copy)]
pub struct Given<'a> {
    /// Its name in the table.
    pub name: &'static str,
    /// The word that it takes, one of those in the table if there are some, or a list of them;
    /// empty if it takes none.
    pub word: &'a str,
    /// The size that it takes; 0 if it takes none.
    pub size: usize,
    /// The words that it takes, if it takes some: a bit each, that of the first word 1, of the next
    /// 2, of the next 4.
    pub some: u64,
    /// The word after it, if it may take one and has none; empty if there is none. It takes only a
    /// value after `=`, so this is another option or a file.
    pub next: &'a str,
}

/// Returns the options and files that these words, a program's arguments, name, by the table of its
/// options; or the first word that is wrong.
///
/// A word that begins with `-` is an option, but for `-` itself, which is a file, and `--`, after
/// which all words are files. The value that an option takes is the next word, whatever it is, or
/// follows the name after `=`; a value that it may take follows `=`. Either may be joined to the
/// option's letter, as in `-ofile`, but in a word that is the option's name without the first `-`.
///
/// The error is [`Wrong::Memory`] if memory was refused, and another exactly if a word is wrong: if
/// it names no option, or gives one a value that it does not take, or none if it takes one.
pub fn read<'a, A: Allocator + Copy>(
    alloc: A,
    known: &[Known],
    words: &'a [String],
) -> Result<Found<'a, A>, Wrong<'a>>
    ensures files { IfOk result (λ found. map (λ f. f.now) found.files.items
        ≡ files_of known.now false (map string_bytes words.now)) }
    ensures options { IfOk result (λ found. map said_option found.options.items
        ≡ options_of known.now false (map string_bytes words.now)) }
    ensures right { Decides (are_right known.now false (map string_bytes words.now)) result }
{
    let mut found = Found {
        options: Vec::new(alloc),
        files: Vec::new(alloc),
    };
    match read_into(&mut found, known, words) {
        Ok(()) => Ok(found),
        Err(wrong) => Err(wrong),
    }
}

// Adds the options and files that these words name.
fn read_into<'a, A: Allocator + Copy>(
    found: &mut Found<'a, A>,
    known: &[Known],
    words: &'a [String],
) -> Result<(), Wrong<'a>>
    ensures files { IfOk result (λ _. map (λ f. f.now) found.new.files.items
        ≡ map (λ f. f.now) found.old.files.items
        ++ files_of known.now false (map string_bytes words.now)) }
    ensures options { IfOk result (λ _. map said_option found.new.options.items
        ≡ map said_option found.old.options.items
        ++ options_of known.now false (map string_bytes words.now)) }
    ensures right { Decides (are_right known.now false (map string_bytes words.now)) result }
{
    let mut rest = words;
    while let Some((word, after)) = rest.split_first() {
        match add_next(found, known, word.as_str(), after) {
            Ok(more) => rest = more,
            Err(wrong) => return Err(wrong),
        }
    }
    Ok(())
}

// Adds what a word names, with the words after it that belong to it: an option, a file, or after
// `--` files. Returns the words after these.
fn add_next<'a, A: Allocator>(
    found: &mut Found<'a, A>,
    known: &[Known],
    word: &'a str,
    after: &'a [String],
) -> Result<&'a [String], Wrong<'a>>
    ensures files { (ends_options word.now ≡ true → IfOk result (λ rest. (rest.now ≡ [])
        × (map (λ f. f.now) found.new.files.items
        ≡ map (λ f. f.now) found.old.files.items ++ map string_bytes after.now)))
        × (ends_options word.now ≡ false → is_file word.now ≡ true
        → IfOk result (λ rest. (rest.now ≡ after.now) × (map (λ f. f.now) found.new.files.items
        ≡ map (λ f. f.now) found.old.files.items ++ word.now ∷ []))) }
    ensures option { ends_options word.now ≡ false → is_file word.now ≡ false
        → IfOk result (λ rest.
        (rest.now ≡ drop (if takes_next known.now word.now then 1 else 0) after.now)
        × (map said_option found.new.options.items ≡ map said_option found.old.options.items
        ++ given_by known.now word.now (map string_bytes after.now))) }
    ensures kept { (ends_options word.now ≡ false → is_file word.now ≡ false
        → found.new.files ≡ found.old.files)
        × (ends_options word.now || is_file word.now ≡ true
        → found.new.options ≡ found.old.options) }
    ensures right { IfOk result (λ rest. length rest.now ≤ length after.now)
        × Decides (is_next_right known.now word.now (map string_bytes after.now)) result }
{
    if ends_options(word) {
        add_files(&mut found.files, after)
    } else if is_file(word) {
        add_file(&mut found.files, word, after)
    } else {
        add_option(&mut found.options, known, word, after)
    }
}

// Returns whether all words after this one are files.
fn ends_options(word: &str) -> bool
    ensures { result ≡ ends_options word.now }
{
    word == "--"
}

// Returns whether a word is a file by itself.
fn is_file(word: &str) -> bool
    ensures { result ≡ is_file word.now }
{
    word == "-" || !word.starts_with('-')
}

// Adds a file, and returns the words after it.
fn add_file<'a, A: Allocator>(
    files: &mut Vec<&'a str, A>,
    word: &'a str,
    after: &'a [String],
) -> Result<&'a [String], Wrong<'a>>
    ensures file { IfOk result (λ rest. (rest.now ≡ after.now) × (map (λ f. f.now) files.new.items
        ≡ map (λ f. f.now) files.old.items ++ word.now ∷ [])) }
    ensures memory { IfErr result (λ e. e ≡ Wrong.Memory) }
{
    match push(files, word) {
        Ok(()) => Ok(after),
        Err(_) => Err(Wrong::Memory),
    }
}

// Adds each of these words as a file, and returns none.
fn add_files<'a, A: Allocator>(
    files: &mut Vec<&'a str, A>,
    words: &'a [String],
) -> Result<&'a [String], Wrong<'a>>
    ensures files { IfOk result (λ rest. (rest.now ≡ [])
        × (map (λ f. f.now) files.new.items
        ≡ map (λ f. f.now) files.old.items ++ map string_bytes words.now)) }
    ensures memory { IfErr result (λ e. e ≡ Wrong.Memory) }
{
    match push_files(files, words) {
        Ok(()) => Ok(&words[words.len()..]),
        Err(_) => Err(Wrong::Memory),
    }
}

// Adds an item to a list.
fn push<T: Drop, A: Allocator>(list: &mut Vec<T, A>, item: T) -> Result<(), AllocError>
    ensures { OnOk result (list.new.items ≡ list.old.items ++ item ∷ []) }
{
    match list.push(item) {
        Ok(()) => Ok(()),
        Err(_) => Err(AllocError),
    }
}

// Adds each of these words as a file.
fn push_files<'a, A: Allocator>(
    files: &mut Vec<&'a str, A>,
    words: &'a [String],
) -> Result<(), AllocError>
    ensures { OnOk result (map (λ f. f.now) files.new.items
        ≡ map (λ f. f.now) files.old.items ++ map string_bytes words.now) }
{
    for word in words {
        files.push(word.as_str())?;
    }
    Ok(())
}

// Adds the option that a word names, with the word after it if it takes that; returns the words
// after these.
fn add_option<'a, A: Allocator>(
    options: &mut Vec<Given<'a>, A>,
    known: &[Known],
    word: &'a str,
    after: &'a [String],
) -> Result<&'a [String], Wrong<'a>>
    ensures rest { IfOk result (λ rest.
        rest.now ≡ drop (if takes_next known.now word.now then 1 else 0) after.now) }
    ensures given { IfOk result (λ _. map said_option options.new.items
        ≡ map said_option options.old.items
        ++ given_by known.now word.now (map string_bytes after.now)) }
    ensures right { Decides (is_right known.now word.now (map string_bytes after.now)) result }
{
    match option_in(known, word) {
        Some((option, Some(value))) => add_given(options, option, value, after),
        Some((option, None)) => add_alone(options, option, after),
        None => Err(unknown(known, word)),
    }
}

// Returns the option that a word names, and the value in the word, if there is one: after `=`, or
// joined to the option's letter.
fn option_in<'k, 'a>(known: &'k [Known], word: &'a str) -> Option<(&'k Known, Option<&'a str>)>
    ensures { option_map (λ x. (x.0.now, option_map (λ v. v.now) x.1)) result
        ≡ option_in known.now word.now }
{
    let (name, value) = name_and_value(word);
    match option_named(known, name) {
        Some(option) => Some((option, value)),
        None => match option_joined(known, name, word) {
            Some((option, value)) => Some((option, Some(value))),
            None => None,
        },
    }
}

// Returns the name in an option's word, and the value after `=`, if there is one.
pub(crate) fn name_and_value<'a>(word: &'a str) -> (&'a str, Option<&'a str>)
    ensures name { result.0.now ≡ name_in word.now }
    ensures value { option_map (λ v. v.now) result.1 ≡ value_in word.now }
{
    match word.split_once('=') {
        Some((name, value)) => (name, Some(value)),
        None => (word, None),
    }
}

// Adds an option that has no value in its word, with the word after it if it takes that; returns
// the words after these.
fn add_alone<'a, A: Allocator>(
    options: &mut Vec<Given<'a>, A>,
    option: &Known,
    after: &'a [String],
) -> Result<&'a [String], Wrong<'a>>
    ensures rest { IfOk result (λ rest.
        rest.now ≡ drop (if takes_value option.now.takes then 1 else 0) after.now) }
    ensures given { IfOk result (λ _. map said_option options.new.items
        ≡ map said_option options.old.items ++ said_by option.now
        (if takes_value option.now.takes then first_of (map string_bytes after.now) else []) ∷ []) }
    ensures right { Decides (next_is_right option.now (map string_bytes after.now)) result }
{
    if takes_value(option) {
        match after.split_first() {
            Some((value, after)) => add_given(options, option, value.as_str(), after),
            None => Err(without_value(option)),
        }
    } else {
        match push(options, given_before(option, after)) {
            Ok(()) => Ok(after),
            Err(_) => Err(Wrong::Memory),
        }
    }
}

// Adds an option with this value; returns the words after these.
fn add_given<'a, A: Allocator>(
    options: &mut Vec<Given<'a>, A>,
    option: &Known,
    value: &'a str,
    after: &'a [String],
) -> Result<&'a [String], Wrong<'a>>
    ensures rest { IfOk result (λ rest. rest.now ≡ after.now) }
    ensures given { IfOk result (λ _. map said_option options.new.items
        ≡ map said_option options.old.items ++ said_by option.now value.now ∷ []) }
    ensures right { Decides (is_value option.now.takes value.now) result }
{
    match given_with(*option, value) {
        Some(given) => match push(options, given) {
            Ok(()) => Ok(after),
            Err(_) => Err(Wrong::Memory),
        },
        None => Err(wrong_value(option, value)),
    }
}

// Returns an option with this value, if it takes it.
fn given_with<'a>(option: Known, value: &'a str) -> Option<Given<'a>>
    ensures { Gives (is_value option.takes value.now) (said_by option value.now) result }
{
    match option.takes {
        Takes::Nothing => None,
        Takes::Size => given_size(option.name, value),
        Takes::OneOf(_, words) | Takes::Maybe(_, words) => given_one(option.name, words, value),
        Takes::SomeOf(_, words) => given_some(option.name, words, value),
        Takes::MaybeSome(_, words) => {
            if value.is_empty() {
                None
            } else {
                given_some(option.name, words, value)
            }
        }
    }
}

// Returns an option of this name with a size.
fn given_size<'a>(name: &'static str, value: &'a str) -> Option<Given<'a>>
    ensures { Gives (is_size value.now) (name.now, [], size_value value.now, 0) result }
{
    match size_of(value) {
        Some(size) => Some(Given {
            name,
            word: "",
            size,
            some: 0,
            next: "",
        }),
        None => None,
    }
}

// Returns an option of this name with one of these words, or with any if there are none.
fn given_one<'a>(
    name: &'static str,
    words: &'static [&'static str],
    value: &'a str,
) -> Option<Given<'a>>
    ensures { Gives (is_one_of words.now value.now) (name.now, value.now, 0, 0) result }
{
    if is_one_of(words, value) {
        Some(taken(name, value, 0))
    } else {
        None
    }
}

// Returns an option of this name with some of these words.
fn given_some<'a>(
    name: &'static str,
    words: &'static [&'static str],
    value: &'a str,
) -> Option<Given<'a>>
    ensures { Gives (list_all (is_among words.now) (parts value.now))
        (name.now, value.now, 0, bits_of words.now (parts value.now)) result }
{
    match bits_of(words, value) {
        Ok(some) => Some(taken(name, value, some)),
        Err(_) => None,
    }
}

// Returns the bits of the words that a text has with `,` between them; or the first that is not one
// of the list.
pub(crate) fn bits_of<'a>(words: &[&'static str], text: &'a str) -> Result<u64, &'a str>
    ensures { MatchResult result
        (λ bits. (list_all (is_among words.now) (parts text.now) ≡ true)
        × (bits ≡ bits_of words.now (parts text.now)))
        (λ _. list_all (is_among words.now) (parts text.now) ≡ false) }
{
    let mut bits = 0;
    let mut rest = text;
    while let Some((part, more)) = rest.split_once(',') {
        match place_in(words, part) {
            Some(place) => bits |= bit(place),
            None => return Err(part),
        }
        rest = more;
    }
    match place_in(words, rest) {
        Some(place) => Ok(bits | bit(place)),
        None => Err(rest),
    }
}

// Returns the bit of the word at this place: none past the 64th.
fn bit(place: usize) -> u64
    ensures { result ≡ bit (Some place) }
{
    if place < 64 { 1 << place } else { 0 }
}

// Returns the place of a word in the list, from 0: that of the first that it is.
fn place_in(words: &[&'static str], text: &str) -> Option<usize>
    ensures { result ≡ place_in words.now text.now }
{
    let mut place = 0;
    for word in words {
        if *word == text {
            return Some(place);
        }
        place += 1;
    }
    None
}

/// The bits of an option that takes some of these words: that of the word at each place below 64 if
/// one of the parts between `,` is that word.
pub fn bits_are_words()
    ensures { (words : List (Bor (List ℕ))) (given : List (List ℕ)) (i : ℕ) → i < 64
        → has_bit i (bits_of words given)
        ≡ list_any (λ part. is_place i (place_in words part)) given }
{}

// Returns an option of this name, with a word and the bits of the words in it.
fn taken<'a>(name: &'static str, word: &'a str, some: u64) -> Given<'a>
    ensures { said_option result ≡ (name.now, word.now, 0, some) }
{
    Given {
        name,
        word,
        size: 0,
        some,
        next: "",
    }
}

// Returns the option without a value, before these words.
fn given_before<'a>(option: &Known, after: &'a [String]) -> Given<'a>
    ensures { said_option result ≡ (option.now.name.now, [], 0, 0) }
{
    Given {
        name: option.name,
        word: "",
        size: 0,
        some: 0,
        next: next_word(option, after),
    }
}

// Returns the first of these words, if there is one and the option may take a value; else an empty
// one.
fn next_word<'a>(option: &Known, after: &'a [String]) -> &'a str {
    match after.first() {
        Some(word) if may_take(option) => word.as_str(),
        _ => "",
    }
}

// Returns whether it is one of these words, or there are none.
fn is_one_of(words: &[&'static str], value: &str) -> bool
    ensures { result ≡ is_one_of words.now value.now }
{
    words.is_empty() || place_in(words, value).is_some()
}
