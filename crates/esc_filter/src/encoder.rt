//! Actions, written one at a time.
ghost use Rattle.std.specs.Prelude.{◌≡◌, ◌∷◌, ◌++◌, ◌↔◌, [], List, true, false, IfOk, IsErrOf, OnErr, OnOk, string_bytes};
ghost use Rattle.esc_actions.specs.Texts.{has_text, text_after};
ghost use Rattle.esc_actions.specs.Values.{Value, value_of};
ghost use Rattle.fallible_alloc.specs.Refusals.{Refused};

use esc_actions::Action;
use esc_values::Text;
use esc_write::EncodeError;
use esc_write::encoding::write_after;
use std::alloc::{AllocError, Allocator};

/// Writes actions one at a time, as [`encode`](esc_write::encode) writes all of them. It keeps one
/// bit: whether the last of them was a string, so that a string terminator which comes next writes
/// nothing.
#[derive(Clone, Copy, Debug, PartialEq, Eq)]
pub struct Encoder {
    follows_string: bool,
}

impl Encoder {
    ghost use Rattle.esc_filter.specs.Encoding.{AddsTo, HasWritten, IsNew};

    /// Returns an encoder that wrote nothing yet.
    pub fn new() -> Encoder
        ensures { IsNew result }
    {
        Encoder {
            follows_string: false,
        }
    }

    /// Appends the text that the action adds to the text of those before it. A string is ended at
    /// once, and a string terminator directly after it adds nothing.
    ///
    /// `EncodeError::Fmt` comes exactly if the action is a sixel image with a value over 63, and
    /// `EncodeError::Memory` says that a request for memory was refused. After an error the text
    /// and the encoder are as they were, so the text ends with an action.
    pub fn append<A: Allocator>(
        &mut self,
        alloc: A,
        action: &Action<A>,
        text: &mut String<A>,
    ) -> Result<(), EncodeError>
        ensures written { (vs : List (Value A)) → HasWritten vs self.old
            → OnOk result (HasWritten (vs ++ value_of action.now ∷ []) self.new
            × AddsTo vs (value_of action.now) (string_bytes text.old) (string_bytes text.new)) }
        ensures refused { OnErr result ((self.new ≡ self.old)
            × (string_bytes text.new ≡ string_bytes text.old)) }
        ensures no_text { IsErrOf result EncodeError.Fmt
            ↔ (has_text (value_of action.now) ≡ false) }
        ensures memory_refused { IsErrOf result EncodeError.Memory → Refused A }
    {
        append_after(alloc, self.follows_string, action, text)?;
        self.follows_string = action.is_string();
        Ok(())
    }
}

// Appends the text of an action. A string terminator directly after a string adds none.
fn append_after<A: Allocator>(
    alloc: A,
    follows_string: bool,
    action: &Action<A>,
    text: &mut String<A>,
) -> Result<(), EncodeError>
    ensures ok { OnOk result (string_bytes text.new ≡ string_bytes text.old
        ++ text_after follows_string (value_of action.now)) }
    ensures err { OnErr result (string_bytes text.new ≡ string_bytes text.old) }
    ensures no_text { IsErrOf result EncodeError.Fmt ↔ (has_text (value_of action.now) ≡ false) }
    ensures memory_refused { IsErrOf result EncodeError.Memory → Refused A }
{
    if !action.has_text() {
        return Err(EncodeError::Fmt);
    }
    let Ok(own) = own_text(alloc, follows_string, action) else {
        return Err(EncodeError::Memory);
    };
    match fallible_alloc::push_str(text, own.as_str()) {
        Ok(()) => Ok(()),
        Err(_) => Err(EncodeError::Memory),
    }
}

// Returns the text of an action that has one, by itself: so a refusal leaves the text of those
// before it.
fn own_text<A: Allocator>(
    alloc: A,
    follows_string: bool,
    action: &Action<A>,
) -> Result<Text<A>, AllocError>
    requires { has_text (value_of action.now) ≡ true }
    ensures ok { IfOk result (λ t. t ≡ text_after follows_string (value_of action.now)) }
    ensures refused { OnErr result (Refused A) }
{
    let mut text = Text::new(alloc);
    write_after(&mut text, follows_string, action)?;
    Ok(text)
}
