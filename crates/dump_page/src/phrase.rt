//! Words, one after another.
ghost use Rattle.std.specs.Prelude.{◌≡◌, true};
ghost use Rattle.std.specs.List.{list_all};
ghost use Rattle.dump_page.specs.Pages.{IsPage, IsPagePart, is_word};
ghost use Rattle.dump_page.specs.Quoted.{IsQuote, is_plain, is_word_byte};

use crate::hidden::Hidden;
use crate::member::Member;
use crate::name::{Key, Name};
use crate::plain::{are_words, boundary, digit, is_plain, plain_text, word_text};
use crate::quote::Quote;
use crate::quoted::{push_between, push_bytes_between, push_string_between};
use crate::room::Room;
use crate::short_base64;
use esc_values::Text;
use esc_values::base64_text::Encoded;
use std::alloc::Global;
use std::mem;
use unicode_visibility::is_shown;

/// The words of a line, to which more are added: static texts, numbers, and bytes of the stream
/// between quotes or escaped. Once memory is refused no more are, and
/// [`is_refused`](Phrase::is_refused) says so.
#[derive(Drop)]
pub struct Phrase {
    alloc: Global,
    text: Text,
    name: Name,
    hidden: Hidden,
    columns: usize,
    // Says where the name that was given last begins and ends.
    begun: usize,
    named: usize,
    room: Room,
    is_refused: bool,
    ghost safe: { ∥ IsPage text ∥₁ },
}

impl Phrase {
    /// Returns no words. Takes no memory.
    #[tactic(auto, using(crate::proofs::PagesMore::no_page))]
    pub fn new(alloc: Global) -> Phrase {
        Phrase {
            alloc,
            text: Text::new(alloc),
            name: Name("", "", Key::Nothing),
            hidden: Hidden::new(alloc),
            columns: 0,
            begun: 0,
            named: 0,
            room: Room::ANY,
            is_refused: false,
        }
    }

    /// Drops the words, and keeps the memory that they had; from now on no words are added after so
    /// many bytes, and of a text of the stream its first bytes alone.
    pub fn restart(&mut self, room: usize) {
        if !self.text.is_empty() {
            self.drop_text();
        }
        self.name = Name("", "", Key::Nothing);
        self.hidden.clear();
        self.columns = 0;
        self.begun = 0;
        self.named = 0;
        self.room = Room::of(room);
        self.is_refused = false;
    }

    // Drops the words, and keeps the memory that they had.
    #[tactic(auto, using(crate::proofs::PagesMore::no_page))]
    fn drop_text(&mut self) {
        let text = mem::replace(&mut self.text, Text::new(self.alloc));
        let mut string = text.into_string();
        string.clear();
        self.text = Text::from_string(string);
    }

    /// Says how many bytes of texts of the stream were left out, if any were, or that words were.
    /// Text that is added from now on is whole.
    pub fn add_left_out(&mut self) {
        let room = self.room;
        self.room = Room::ANY;
        if room.left_out() > 0 {
            self.add(", and ");
            self.add_digits(room.left_out());
            self.add(" bytes more");
        } else if room.is_short() {
            self.add(", and more words");
        }
    }

    /// Returns the words.
    pub fn as_str(&self) -> &str
        ensures { ∥ IsPage result.now ∥₁ }
    {
        self.text.as_str()
    }

    /// Returns the name that was given last; empty, if none was.
    pub fn name(&self) -> Name {
        self.name
    }

    /// Does the same, as words have it.
    pub fn name_bytes(&self) -> &[u8] {
        let bytes = self.text.as_bytes();
        bytes.get(self.begun..self.named).unwrap_or(b"")
    }

    /// Returns whether memory was refused, and words are left out.
    pub fn is_refused(&self) -> bool {
        self.is_refused
    }

    /// Notes that memory was refused.
    pub fn refuse(&mut self) {
        self.is_refused = true;
    }

    /// Adds a name, after those of other actions and `; `, and words after it, if there are any.
    pub fn begin(&mut self, kind: &'static str, name: &'static str, words: &'static str) {
        self.begin_named(Name(kind, name, Key::Nothing), words);
    }

    /// Does the same for a name that may have a key.
    pub fn begin_named(&mut self, name: Name, words: &'static str) {
        if !self.text.is_empty() {
            self.add("; ");
        }
        self.name = name;
        self.begun = self.text.len();
        self.add_name(name);
        self.named = self.text.len();
        self.add_word(words);
    }

    /// Returns whether there are words after the name that was given last.
    pub fn has_words(&self) -> bool {
        self.text.len() > self.named
    }

    /// Returns a phrase without words, of the same memory.
    pub fn empty(&self) -> Phrase {
        Phrase::new(self.alloc)
    }

    /// Returns the allocator.
    pub fn alloc(&self) -> Global {
        self.alloc
    }

    /// Adds a name.
    pub fn add_name(&mut self, name: Name) {
        name.add_to(self);
    }

    /// Adds a space and a word, if it is not empty.
    pub fn add_word(&mut self, word: &'static str) {
        if !word.is_empty() {
            self.add(" ");
            self.add(word);
        }
    }

    /// Adds words in parentheses, if there are any.
    pub fn add_note(&mut self, words: &'static str) {
        if !words.is_empty() {
            self.add_all(&[" (", words, ")"]);
        }
    }

    /// Adds words. A character that is not shown, and a `"`, becomes U+FFFD.
    pub fn add(&mut self, words: &'static str) {
        self.push_words(words);
    }

    /// Adds each of these words.
    pub fn add_all(&mut self, words: &[&'static str]) {
        for word in words {
            self.add(*word);
        }
    }

    /// Adds words and a number after them.
    pub fn add_integer(&mut self, before: &'static str, number: i64) {
        self.add(before);
        if number < 0 {
            self.add("-");
        }
        self.add_digits(number.unsigned_abs());
    }

    /// Adds how often something came, if that is more than once.
    pub fn add_times(&mut self, count: u64) {
        if count > 1 {
            self.add(", ");
            self.add_digits(count);
            self.add(" times");
        }
    }

    /// Adds a number in decimal.
    pub fn add_digits(&mut self, number: u64) {
        self.add_number(number, 0, 0);
    }

    /// Adds a number in decimal, after spaces if it has fewer digits than this, and so many spaces
    /// after it: 32 characters at most.
    pub fn add_number(&mut self, number: u64, width: usize, after: usize) {
        let mut text = [b' '; 32];
        let mut start = 32_usize.saturating_sub(after);
        let least = start.saturating_sub(width);
        let mut left = number;
        for _ in 0..20 {
            if start > 0 && start <= 32 {
                start -= 1;
                text[start] = b'0' + (left % 10) as u8;
            }
            left /= 10;
            if left == 0 {
                break;
            }
        }
        if let Some(text) = word_text(&text[start.min(least).min(32)..]) {
            self.push_ascii(text);
        }
    }

    /// Returns an empty quote.
    pub fn quote(&self) -> Quote {
        Quote::new(self.alloc)
    }

    /// Adds words and, between quotes, bytes of the stream, as far as there is room.
    pub fn add_quoted(&mut self, before: &'static str, bytes: &[u8]) {
        let room = self.room.left(self.text.len());
        if room < bytes.len() {
            return self.add_beginning(before, bytes, room);
        }
        if let Some(text) = plain_text(bytes) {
            self.add(before);
            return self.push_quote(text);
        }
        self.add(before);
        self.push_bytes(bytes);
    }

    // Adds words and, between quotes, the characters that are whole in so many bytes.
    fn add_beginning(&mut self, before: &'static str, bytes: &[u8], room: usize) {
        let (first, rest) = bytes.split_at(boundary(bytes, room));
        self.room.leave_out(rest.len());
        if !first.is_empty() {
            self.add(before);
            self.push_bytes(first);
        }
    }

    // Adds bytes of the stream between quotes, if there is room.
    fn push_bytes(&mut self, bytes: &[u8]) {
        if self.room.has_more(self.text.len()) {
            self.append_bytes(bytes);
        }
    }

    // Adds bytes of the stream between quotes.
    #[tactic(auto, using(crate::proofs::PagesMore::no_page))]
    fn append_bytes(&mut self, bytes: &[u8]) {
        if self.is_refused {
            return;
        }
        match push_bytes_between(bytes, &mut self.text, &mut self.hidden) {
            Ok(()) => {}
            Err(_) => {
                self.text = Text::new(self.alloc);
                self.is_refused = true;
            }
        }
    }

    /// Adds words and, between quotes, a quoted text.
    pub fn add_quote(&mut self, before: &'static str, quote: &Quote) {
        self.add(before);
        self.hidden.join(quote.hidden());
        self.is_refused = self.is_refused || quote.is_refused();
        self.push_quote(quote.as_str());
    }

    // Adds a quoted text, between quotes, if there is room.
    fn push_quote(&mut self, quoted: &str)
        requires { ∥ IsQuote quoted.now ∥₁ }
    {
        if self.room.has_more(self.text.len()) {
            self.append_quote(quoted);
        }
    }

    // Adds a quoted text, between quotes.
    #[tactic(auto, using(crate::proofs::PagesMore::no_page))]
    fn append_quote(&mut self, quoted: &str)
        requires { ∥ IsQuote quoted.now ∥₁ }
    {
        if self.is_refused {
            return;
        }
        match push_between(quoted, &mut self.text) {
            Ok(()) => {}
            Err(_) => {
                self.text = Text::new(self.alloc);
                self.is_refused = true;
            }
        }
    }

    /// Adds words and a string of JSON (RFC 8259, 7) after them, which has this value.
    pub fn add_string(&mut self, before: &'static str, value: &str) {
        if !before.is_empty() {
            self.add(before);
        }
        if is_plain(value.as_bytes()) {
            return self.push_quote(value);
        }
        if self.room.has_more(self.text.len()) {
            self.append_string(value);
        }
    }

    /// Adds a string of JSON that is these bytes, if they are ASCII that comes as it is, and
    /// returns whether they are.
    pub fn add_plain_string(&mut self, bytes: &[u8]) -> bool {
        match plain_text(bytes) {
            Some(text) => {
                self.push_quote(text);
                true
            }
            None => false,
        }
    }

    // Adds a string of JSON.
    #[tactic(auto, using(crate::proofs::PagesMore::no_page))]
    fn append_string(&mut self, value: &str) {
        if self.is_refused {
            return;
        }
        match push_string_between(value, &mut self.text) {
            Ok(()) => {}
            Err(_) => {
                self.text = Text::new(self.alloc);
                self.is_refused = true;
            }
        }
    }

    /// Adds a string of JSON that is the base64 (RFC 4648, 4) of these bytes.
    pub fn add_base64(&mut self, bytes: &[u8]) {
        if bytes.len() <= short_base64::MOST {
            return self.add_short_base64(bytes);
        }
        let mut text = Text::new(self.alloc);
        if text.push_display(&Encoded(bytes)).is_err() {
            return self.refuse();
        }
        if let Some(plain) = plain_text(text.as_bytes()) {
            self.push_quote(plain);
        }
    }

    // Does the same for few bytes.
    fn add_short_base64(&mut self, bytes: &[u8]) {
        let text = short_base64::encode(bytes);
        if let Some(plain) = plain_text(&text[..short_base64::length(bytes.len()).min(32)]) {
            self.push_quote(plain);
        }
    }

    /// Adds the text before the value of a member of a JSON object.
    pub fn add_member(&mut self, member: Member) {
        if !self.is_refused {
            self.is_refused = self.text.push_str(member.text()).is_err();
        }
    }

    /// Adds a byte as two hexadecimal digits, those from 10 on as the letters from this one on.
    pub fn add_hex(&mut self, byte: u8, ten: u8) {
        self.push(digit(byte / 16, ten));
        self.push(digit(byte % 16, ten));
    }

    /// Adds a code point as at least four hexadecimal digits, as Unicode writes it.
    pub fn add_code(&mut self, code: u32) {
        let [_, high, middle, low] = code.to_be_bytes();
        if high >= 16 {
            self.push(digit(high / 16, b'A'));
        }
        if high > 0 {
            self.push(digit(high % 16, b'A'));
        }
        self.add_hex(middle, b'A');
        self.add_hex(low, b'A');
    }

    /// Adds the names of characters that deceive which came since they were named.
    pub fn add_hidden_names(&mut self) {
        if self.hidden.is_empty() {
            return;
        }
        let hidden = mem::replace(&mut self.hidden, Hidden::new(self.alloc));
        self.is_refused = self.is_refused || hidden.is_refused();
        hidden.add_words(self);
    }

    /// Forgets which characters that deceive came.
    pub fn forget_hidden(&mut self) {
        self.hidden.clear();
    }

    /// Adds words.
    pub(crate) fn push_words(&mut self, words: &str) {
        if are_words(words.as_bytes()) {
            return self.push_ascii(words);
        }
        for c in words.chars() {
            self.push(c);
        }
    }

    /// Adds words of ASCII without a `\`.
    pub(crate) fn push_plain(&mut self, words: &str)
        requires { list_all is_plain words.now ≡ true }
    {
        self.push_ascii(words);
    }

    /// Adds words of ASCII.
    pub(crate) fn push_ascii(&mut self, words: &str)
        requires { list_all is_word_byte words.now ≡ true }
    {
        self.columns = self.columns.saturating_add(words.len());
        if self.room.has_more(self.text.len()) && !self.is_refused {
            self.is_refused = self.text.push_str(words).is_err();
        }
    }

    /// Notes that a character came which is not shown.
    pub(crate) fn note_hidden(&mut self, c: char) {
        self.hidden.note(c);
    }

    /// Returns the number of columns before the next text, but for quoted text.
    pub(crate) fn columns(&self) -> usize {
        self.columns
    }

    /// Adds another phrase.
    pub(crate) fn add_phrase(&mut self, phrase: &Phrase) {
        self.is_refused = self.is_refused || phrase.is_refused;
        if !self.is_refused {
            self.is_refused = self.text.push_str(phrase.as_str()).is_err();
        }
    }

    /// Adds a change of the colour or the end of a line.
    pub(crate) fn push_page_part(&mut self, page_part: &str)
        requires { IsPagePart page_part.now }
    {
        if !self.is_refused {
            self.is_refused = self.text.push_str(page_part).is_err();
        }
    }

    /// Ends the line.
    pub(crate) fn end_line(&mut self) {
        self.push_page_part("\n");
        self.columns = 0;
    }

    // Adds a character of words, or U+FFFD for one that is none.
    fn push(&mut self, c: char) {
        if is_shown(c) && c != '"' {
            self.push_word(c, 1);
        } else {
            self.push_word('\u{fffd}', 1);
        }
    }

    /// Adds a character of words, which takes so many columns.
    pub(crate) fn push_word(&mut self, c: char, width: usize)
        requires { is_word c ≡ true }
    {
        self.columns = self.columns.saturating_add(width);
        if self.room.has_more(self.text.len()) && !self.is_refused {
            self.is_refused = self.text.push(c).is_err();
        }
    }
}
