//! The writer of the actions that pass, which notes the changes that they leave.
ghost use Rattle.std.specs.Prelude.{◌≡◌, ◌∷◌, ◌<◌, [], false, true, length, map, IfOk, IsTrue, MatchResult, None, OnErr, OnOk, Some};
ghost use Rattle.std.specs.List.{list_all};
ghost use Rattle.std.specs.Str.{chars};
ghost use Rattle.esc_values.specs.Clear.{is_clear, parts_of};
ghost use Rattle.unicode_visibility.specs.Characters.{number_text};
ghost use Rattle.unicode_visibility.specs.Following.{last_of};
ghost use Rattle.esc_actions.specs.declared.action.Action.TheVariants as action;
ghost use Rattle.esc_parse.specs.Given.{Receives};
ghost use Rattle.fallible_alloc.specs.Refusals.{Refused};
ghost use Rattle.esc_write.specs.Plain.{IsPlain};
ghost use Rattle.esc_actions.specs.Values.{control, print, value_of};
ghost use Rattle.esc_filter.specs.Characters.{character_of, in_guard, in_return, replacement_values};
ghost use Rattle.esc_filter.specs.Noted.{AreKept, HasNoted, Notes, WriteDenies, Writes, WritesLink, WritesRendition, without_text, written_of};
ghost use Rattle.esc_filter.specs.Passing.{is_line_feed};

use crate::guard::Guard;
use crate::leaving::{is_other_end, leaves_all, renditions_after};
use crate::links::clean_link;
use crate::pens::{pen_after, pen_after_final, start_pen};
use crate::returns::{Returns, is_return};
use crate::terminal::Terminal;
use crate::text::emptied;
use crate::unicode::Unicode;
use esc_actions::{Action, ControlCode};
use esc_normal::TextSink;
use esc_parse::Sink;
use esc_pen::Pen;
use esc_values::CsiParam;
use esc_write::short_numbers::ShortNumbers;
use std::alloc::{AllocError, Allocator, Global};
use unicode_visibility::{
    has_deceiving, has_stray, is_deceiving, last_char, may_follow, number_text,
};

/// Appends the text of each action, but not of line feeds if lines are streams of their own.
#[derive(Drop)]
pub(crate) struct Written<A: Allocator = Global> {
    /// The text of the actions.
    pub spell: TextSink<A>,
    /// The changes that they left.
    pub left: Terminal,
    /// The way in which deceiving text is written.
    pub guard: Guard,
    /// Says whether line feeds are dropped.
    pub by_lines: bool,
    /// The character that was written last, if a character was.
    pub before: Option<char>,
    /// The renditions that are known to be on, if they are noted.
    pub pen: Option<Pen>,
}

impl<A: Allocator> Written<A> {
    /// Returns a writer of no action. Takes no memory.
    pub fn new(alloc: A, by_lines: bool, guard: Guard) -> Written<A>
        ensures text { result.spell.text ≡ [] }
        ensures noted { HasNoted by_lines guard [] result }
    {
        Written {
            spell: TextSink::new(alloc),
            left: Terminal::unchanged(),
            guard,
            by_lines,
            before: None,
            pen: start_pen(by_lines),
        }
    }

    /// Does the same without its text; the memory of the text is used again.
    #[inline]
    pub fn emptied(self) -> Written<A>
        ensures { result ≡ without_text self }
    {
        let Written {
            spell,
            left,
            guard,
            by_lines,
            before,
            pen,
        } = self;
        let TextSink {
            text,
            follows_string,
        } = spell;
        Written {
            spell: TextSink {
                text: emptied(text),
                follows_string,
            },
            left,
            guard,
            by_lines,
            before,
            pen,
        }
    }

    /// Begins a new stream. The text stays.
    pub fn restart(&mut self)
        ensures text { self.new.spell.text ≡ self.old.spell.text }
        ensures noted { HasNoted self.old.by_lines self.old.guard [] self.new }
    {
        self.spell.follows_string = false;
        self.left = Terminal::unchanged();
        self.before = None;
        self.pen = start_pen(self.by_lines);
    }
}

impl<A: Allocator> Written<A> {
    /// Returns whether nothing is written of the action, since it deceives.
    #[inline]
    pub fn drops(&self, action: &Action<A>) -> bool
        ensures { IsTrue result
            → written_of self.now.by_lines self.now.guard self.now.before
            (value_of action.now) ≡ [] }
    {
        match action {
            Action::Print(c) => self.guard.characters.drops(*c),
            Action::Control(code) => self.drops_control(*code),
            _ => false,
        }
    }

    /// Does the same for a control, since it is a carriage return.
    #[inline]
    pub fn drops_control(&self, code: ControlCode) -> bool
        ensures { IsTrue result
            → written_of {A = A} self.now.by_lines self.now.guard self.now.before
            (control code) ≡ [] }
    {
        self.guard.returns.drops(code)
    }

    /// Returns whether each of the characters is written as it is, if it is seen at once.
    #[inline]
    pub fn keeps(&self, text: &str) -> bool
        ensures { IsTrue result → AreKept self.now.guard self.now.before (chars text.now) }
    {
        match self.guard.characters {
            Unicode::Keep => true,
            Unicode::Join => !has_stray(self.before, text),
            Unicode::Show | Unicode::Drop => !has_deceiving(text),
        }
    }

    /// Appends a run of characters that are written as they are.
    #[inline]
    pub fn append_str(&mut self, text: &str) -> Result<(), AllocError>
        requires kept { AreKept self.old.guard self.old.before (chars text.now) }
        requires some { 0 < length text.now }
        requires clear { list_all is_clear (chars text.now) ≡ true }
        ensures { Receives ⊥ Notes WriteDenies result self.old
            (map action.Print (chars text.now)) self.new }
    {
        match self.spell.receive_str(text) {
            Ok(()) => {
                self.before = last_char(self.before, text);
                Ok(())
            }
            Err(error) => Err(error),
        }
    }

    // Appends the text that is written for a character.
    #[inline]
    fn append_char(&mut self, c: char) -> Result<(), AllocError>
        ensures ok { OnOk result
            (Writes self.old (in_guard self.old.guard self.old.before (print c)) self.new) }
        ensures refused { OnErr result (Refused A) }
    {
        if self.guard.keeps_characters() {
            return self.append_kept(c);
        }
        if !is_deceiving(c) {
            return self.append_kept(c);
        }
        self.append_instead(c)
    }

    // Appends the text in place of a character that deceives.
    fn append_instead(&mut self, c: char) -> Result<(), AllocError>
        ensures ok { OnOk result (Writes self.old
            (replacement_values self.old.guard.characters self.old.before c) self.new) }
        ensures refused { OnErr result (Refused A) }
    {
        match self.guard.characters {
            Unicode::Keep => self.append_kept(c),
            Unicode::Join => self.append_joined(c),
            Unicode::Show => self.append_number(c),
            Unicode::Drop => Ok(()),
        }
    }

    // Appends a character that deceives if it belongs to the one before it, or else its number.
    fn append_joined(&mut self, c: char) -> Result<(), AllocError>
        ensures ok { OnOk result
            (Writes self.old (replacement_values Unicode.Join self.old.before c) self.new) }
        ensures refused { OnErr result (Refused A) }
    {
        if may_follow(self.before, c) {
            self.append_kept(c)
        } else {
            self.append_number(c)
        }
    }

    // Appends a character.
    #[inline]
    fn append_kept(&mut self, c: char) -> Result<(), AllocError>
        ensures ok { OnOk result (Writes self.old (print c ∷ []) self.new) }
        ensures refused { OnErr result (Refused A) }
    {
        match self.spell.text.push(c) {
            Ok(()) => {
                self.spell.follows_string = false;
                self.before = Some(c);
                Ok(())
            }
            Err(error) => Err(error),
        }
    }

    // Appends the text of a character's number.
    fn append_number(&mut self, c: char) -> Result<(), AllocError>
        ensures ok { OnOk result (Writes self.old (map print (number_text c)) self.new) }
        ensures refused { OnErr result (Refused A) }
    {
        match self.spell.text.push_str(number_text(c).as_str()) {
            Ok(()) => {
                self.spell.follows_string = false;
                self.before = Some('>');
                Ok(())
            }
            Err(error) => Err(error),
        }
    }

    /// Appends a rendition of one number, or a colour of the palette, and notes the changes that it
    /// leaves. If a sequence of these parameters that ends in `m` is neither, it returns false.
    #[inline]
    pub fn append_rendition(&mut self, params: &[CsiParam]) -> Result<bool, AllocError>
        ensures taken { IfOk result (λ b. IsTrue b → WritesRendition self.old params.now self.new) }
        ensures left { IfOk result (λ b. b ≡ false → self.new ≡ self.old) }
        ensures refused { OnErr result (IsPlain params.now false 0x6d × Refused A) }
    {
        let Some(numbers) = ShortNumbers::of(params, b'm') else {
            return Ok(false);
        };
        match self.spell.write_short(numbers, b'm') {
            Ok(()) => {
                self.left.note_short(numbers, params, b'm');
                self.pen = pen_after_final(self.pen, params, b'm');
                self.before = None;
                Ok(true)
            }
            Err(error) => Err(error),
        }
    }

    /// Appends a link to an address that is written as it came, or the end of one, and notes it. If
    /// it is not seen at once that this is the command of this text, it returns false.
    #[inline]
    pub fn append_link(&mut self, text: &[u8]) -> Result<bool, AllocError>
        ensures taken { IfOk result (λ b. IsTrue b
            → WritesLink self.old (parts_of text.now) self.new) }
        ensures left { IfOk result (λ b. b ≡ false → self.new ≡ self.old) }
        ensures refused { OnErr result (Refused A) }
    {
        let Some(link) = clean_link::<A>(text) else {
            return Ok(false);
        };
        if is_other_end(link) {
            return Ok(false);
        }
        match self.spell.write_verbatim(link) {
            Ok(()) => {
                self.left.note_link::<A>(link);
                self.before = None;
                Ok(true)
            }
            Err(error) => Err(error),
        }
    }

    /// Appends a control, but no line feed if these are dropped.
    #[inline]
    pub fn append_control(&mut self, code: ControlCode) -> Result<(), AllocError>
        ensures ok { OnOk result (Notes self.old (action.Control code) self.new) }
        ensures refused { OnErr result (Refused A) }
    {
        if self.by_lines && is_line_feed(code) {
            return Ok(());
        }
        if is_return(code) {
            return self.append_return();
        }
        match self.spell.text.push(code.as_char()) {
            Ok(()) => {
                self.spell.follows_string = false;
                self.left.note_control(code);
                self.before = None;
                Ok(())
            }
            Err(error) => Err(error),
        }
    }

    // Appends the text that is written for a carriage return.
    #[inline]
    fn append_return(&mut self) -> Result<(), AllocError>
        ensures ok { OnOk result (Writes self.old (in_return self.old.guard.returns) self.new) }
        ensures refused { OnErr result (Refused A) }
    {
        match self.guard.returns {
            Returns::Keep => self.append_kept_return(),
            Returns::Show => self.append_shown_return(),
            Returns::Drop => Ok(()),
        }
    }

    // Appends a carriage return.
    fn append_kept_return(&mut self) -> Result<(), AllocError>
        ensures ok { OnOk result (Writes self.old (in_return Returns.Keep) self.new) }
        ensures refused { OnErr result (Refused A) }
    {
        match self.spell.text.push('\r') {
            Ok(()) => {
                self.spell.follows_string = false;
                self.before = None;
                Ok(())
            }
            Err(error) => Err(error),
        }
    }

    // Appends `^M`.
    fn append_shown_return(&mut self) -> Result<(), AllocError>
        ensures ok { OnOk result (Writes self.old (in_return Returns.Show) self.new) }
        ensures refused { OnErr result (Refused A) }
    {
        match self.spell.text.push_str("^M") {
            Ok(()) => {
                self.spell.follows_string = false;
                self.before = Some('M');
                Ok(())
            }
            Err(error) => Err(error),
        }
    }

    // Appends the text of an action, and notes the changes that it leaves, apart from the code that
    // takes characters.
    #[inline(never)]
    fn append(&mut self, action: Action<A>) -> Result<(), AllocError>
        ensures { MatchResult result (λ _. Writes self.old (value_of action ∷ []) self.new)
            (λ _. WriteDenies self.old action self.new) }
    {
        self.left.note(&action);
        self.pen = pen_after(self.pen, &action);
        self.before = character_of(&action);
        self.spell.receive(action)
    }
}

impl<A: Allocator> Sink<Action<A>> for Written<A> {
    ghost is_ready = { λ _. Unit {0} };

    ghost may = { λ _ _. Unit {0} };

    ghost takes = { Notes };

    ghost refuses = { WriteDenies };

    #[inline]
    fn receive(&mut self, action: Action<A>) -> Result<(), AllocError> {
        match action {
            Action::Print(c) => self.append_char(c),
            Action::Control(code) => self.append_control(code),
            Action::PrintString(_)
            | Action::Esc(_)
            | Action::CSI(_)
            | Action::OperatingSystemCommand(_)
            | Action::KittyImage(_)
            | Action::Sixel(_)
            | Action::XtGetTcap(_)
            | Action::DeviceControl(_) => self.append(action),
        }
    }

    #[inline]
    fn receive_text(&mut self, text: &[u8]) -> Result<(), AllocError> {
        match self.spell.receive_text(text) {
            Ok(()) => {
                self.before = last_byte(self.before, text);
                Ok(())
            }
            Err(error) => Err(error),
        }
    }

    #[inline]
    fn receive_sequence(
        &mut self,
        params: &[CsiParam],
        parameters_truncated: bool,
        control: u8,
    ) -> Result<bool, AllocError> {
        if parameters_truncated {
            return Ok(false);
        }
        if let Some(numbers) = ShortNumbers::of(params, control) {
            return match self.spell.write_short(numbers, control) {
                Ok(()) => {
                    self.left.note_short(numbers, params, control);
                    self.pen = pen_after_final(self.pen, params, control);
                    self.before = None;
                    Ok(true)
                }
                Err(error) => Err(error),
            };
        }
        let Some(is_on) = renditions_after(params, control) else {
            return Ok(false);
        };
        match self
            .spell
            .receive_sequence(params, parameters_truncated, control)
        {
            Ok(true) => {
                self.left.note_sequence(is_on, params, control);
                self.pen = pen_after_final(self.pen, params, control);
                self.before = None;
                Ok(true)
            }
            Ok(false) => Ok(false),
            Err(error) => Err(error),
        }
    }

    #[inline]
    fn receive_command(&mut self, text: &[u8]) -> Result<bool, AllocError> {
        if leaves_all::<A>(text) {
            return match self.spell.receive_command(text) {
                Ok(true) => {
                    self.before = None;
                    Ok(true)
                }
                Ok(false) => Ok(false),
                Err(error) => Err(error),
            };
        }
        self.append_link(text)
    }

    // The next methods are as by default, and written out: at the type of an action, a method that
    // is taken over from the trait costs a proof some seconds more.
    #[inline]
    fn drops_sequences(&self, _control: u8) -> bool {
        false
    }

    #[inline]
    fn drops_images(&self) -> bool {
        false
    }
}

// Returns the character that it is, if it is one.
#[inline]
fn character_of<A: Allocator>(action: &Action<A>) -> Option<char>
    ensures { result ≡ character_of (value_of action.now) }
{
    match action {
        Action::Print(c) => Some(*c),
        _ => None,
    }
}

// Returns the last of these characters of ASCII, or the one before them if there are none.
#[inline]
fn last_byte(before: Option<char>, text: &[u8]) -> Option<char>
    ensures { result ≡ last_of before text.now }
{
    if text.is_empty() {
        before
    } else {
        Some(text[text.len() - 1] as char)
    }
}

// Returns whether it is a line feed.
fn is_line_feed(code: ControlCode) -> bool
    ensures { result ≡ is_line_feed {A = Unit {0}} (control code) }
{
    matches!(code, ControlCode::LineFeed)
}
