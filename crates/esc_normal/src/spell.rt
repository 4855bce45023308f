//! The sink that writes the actions that it takes.
ghost use Rattle.std.specs.Prelude.{◌≡◌, ◌<◌, ◌++◌, [], Ok, OnErr, OnOk, false, true};
ghost use Rattle.std.specs.List.{list_all};
ghost use Rattle.esc_values.specs.Clear.{framed_text};
ghost use Rattle.esc_sequences.specs.Csis.{csi_text, unspecified};
ghost use Rattle.esc_frame.specs.Scans.{is_text_byte};
ghost use Rattle.esc_actions.specs.Texts.{has_text, is_string, text_after};
ghost use Rattle.esc_actions.specs.Values.{value_of};
ghost use Rattle.esc_write.specs.Plain.{short_text};
ghost use Rattle.esc_normal.specs.Spelled.{Denies};
ghost use Rattle.fallible_alloc.specs.Refusals.{Refused};

use esc_actions::Action;
use esc_parse::Sink;
use esc_values::{CsiParam, Text};
use esc_write::commands::verbatim;
use esc_write::direct::{append_csi_params, is_plain};
use esc_write::encoding::write_after;
use esc_write::short_numbers::ShortNumbers;
use std::alloc::{AllocError, Allocator, Global};
use std::str;

/// Appends the text of each action to a text: the text that [`encode`](esc_write::encode) writes
/// for all of them, without a list of them. Each action that a string terminator ends gets one
/// string terminator, and one directly after it in the stream is that one.
#[derive(Drop)]
pub struct TextSink<A: Allocator = Global> {
    /// The text so far.
    pub text: Text<A>,
    /// Says whether the last action was one that a string terminator ends.
    pub follows_string: bool,
}

impl<A: Allocator> TextSink<A> {
    /// Returns an empty sink. Takes no memory.
    pub fn new(alloc: A) -> TextSink<A>
        ensures text { result.text ≡ [] }
        ensures plain { result.follows_string ≡ false }
    {
        TextSink {
            text: Text::new(alloc),
            follows_string: false,
        }
    }

    /// Does the same with an empty text, in the memory of this one.
    #[inline]
    pub(crate) fn emptied(self) -> TextSink<A>
        ensures text { result.text ≡ [] }
        ensures same { result.follows_string ≡ self.follows_string }
    {
        let TextSink {
            text,
            follows_string,
        } = self;
        let mut string = text.into_string();
        string.clear();
        TextSink {
            text: Text::from_string(string),
            follows_string,
        }
    }

    // Appends the text of an action, apart from the code that takes characters.
    #[inline(never)]
    fn append(&mut self, action: Action<A>) -> Result<(), AllocError>
        ensures ok { OnOk result
            ((self.new.text ≡ self.old.text ++ text_after self.old.follows_string (value_of action))
            × (self.new.follows_string ≡ is_string (value_of action))) }
        ensures refused { OnErr result (has_text (value_of action) ≡ true → Refused A) }
    {
        write_after(&mut self.text, self.follows_string, &action)?;
        self.follows_string = action.is_string();
        Ok(())
    }
}

impl<A: Allocator> TextSink<A> {
    // Appends the text of a control sequence that has no name.
    fn write_sequence(
        &mut self,
        params: &[CsiParam],
        parameters_truncated: bool,
        control: u8,
    ) -> Result<(), AllocError>
        ensures ok { OnOk result
            ((self.new.text ≡ self.old.text
            ++ csi_text (unspecified params.now parameters_truncated control))
            × (self.new.follows_string ≡ false)) }
        ensures refused { OnErr result (Refused A) }
    {
        append_csi_params(&mut self.text, params, parameters_truncated, control)?;
        self.follows_string = false;
        Ok(())
    }

    /// Appends the text of one that is known by its numbers. The error is that memory was refused.
    #[inline(always)]
    pub fn write_short(&mut self, numbers: ShortNumbers, control: u8) -> Result<(), AllocError>
        requires { control < 128 }
        ensures ok { OnOk result ((self.new.text ≡ self.old.text ++ short_text numbers control)
            × (self.new.follows_string ≡ false)) }
        ensures refused { OnErr result (Refused A) }
    {
        numbers.append_to(&mut self.text, control)?;
        self.follows_string = false;
        Ok(())
    }

    /// Appends the text of a command that is written as it came: `ESC ]`, these bytes, and the
    /// string terminator. The error is that memory was refused.
    pub fn write_verbatim(&mut self, text: &str) -> Result<(), AllocError>
        ensures ok { OnOk result ((self.new.text ≡ self.old.text ++ framed_text text.now)
            × (self.new.follows_string ≡ true)) }
        ensures refused { OnErr result (Refused A) }
    {
        self.text.push_str("\x1b]")?;
        self.text.push_str(text)?;
        self.text.push_str("\x1b\\")?;
        self.follows_string = true;
        Ok(())
    }
}

/// After a refused call the text ends somewhere within that action's text. A sixel image with a
/// value over 63, which has no text, is refused too; no parser hands one out.
impl<A: Allocator> Sink<Action<A>> for TextSink<A> {
    ghost is_ready = { λ _. Unit {0} };

    ghost may = { λ _ _. Unit {0} };

    ghost takes = { λ p a q. (q.text ≡ p.text ++ text_after p.follows_string (value_of a))
        × (q.follows_string ≡ is_string (value_of a)) };

    ghost refuses = { Denies };

    #[inline]
    fn receive(&mut self, action: Action<A>) -> Result<(), AllocError> {
        match action {
            Action::Print(c) => {
                self.text.push(c)?;
                self.follows_string = false;
                Ok(())
            }
            Action::Control(code) => {
                self.text.push(code.as_char())?;
                self.follows_string = false;
                Ok(())
            }
            other => self.append(other),
        }
    }

    #[inline]
    fn receive_text(&mut self, text: &[u8]) -> Result<(), AllocError> {
        self.text.push_str(as_str(text))?;
        self.follows_string = false;
        Ok(())
    }

    #[inline]
    fn receive_str(&mut self, text: &str) -> Result<(), AllocError> {
        self.text.push_str(text)?;
        self.follows_string = false;
        Ok(())
    }

    // Appends the sequence if its text is the text of its parameters.
    fn receive_sequence(
        &mut self,
        params: &[CsiParam],
        parameters_truncated: bool,
        control: u8,
    ) -> Result<bool, AllocError> {
        if let Some(numbers) = ShortNumbers::of(params, control) {
            return match self.write_short(numbers, control) {
                Ok(()) => Ok(true),
                Err(error) => Err(error),
            };
        }
        if !is_plain(params, parameters_truncated, control) {
            return Ok(false);
        }
        match self.write_sequence(params, parameters_truncated, control) {
            Ok(()) => Ok(true),
            Err(error) => Err(error),
        }
    }

    // Appends the command if it is written as it came.
    fn receive_command(&mut self, text: &[u8]) -> Result<bool, AllocError> {
        let Some(text) = verbatim::<A>(text) else {
            return Ok(false);
        };
        match self.write_verbatim(text) {
            Ok(()) => Ok(true),
            Err(error) => Err(error),
        }
    }

    // The next methods are as by default, and written out: at the type of an action, a method that
    // is taken over from the trait costs a proof some seconds more.
    #[inline]
    fn drops_sequences(&self, _control: u8) -> bool {
        false
    }

    #[inline]
    fn drops_images(&self) -> bool {
        false
    }
}

// ASCII as a text.
fn as_str(text: &[u8]) -> &str
    requires { list_all is_text_byte text.now ≡ true }
    ensures { result.now ≡ text.now }
{
    unsafe { str::from_utf8_unchecked(text) }
}
