//! Lists of actions that grow at their end.
ghost use Rattle.std.specs.Prelude.{◌≡◌, ◌++◌, ◌∷◌, [], IfErr, IfOk, Ok, OnErr, OnOk, false, map, true};
ghost use Rattle.std.specs.Char.{encode_utf8};
ghost use Rattle.fallible_alloc.specs.Refusals.{Refused};
ghost use Rattle.esc_actions.specs.Appending.{appended_list, ends_in_characters, is_characters, joined_values};
ghost use Rattle.esc_actions.specs.Values.{print, value_of};

use crate::action::Action;
use esc_values::Text;
use std::alloc::{AllocError, Allocator};
use std::mem;

impl<A: Allocator + Copy> Action<A> {
    /// Appends the action to a list. A `Print` directly after a `Print` or a `PrintString` makes
    /// one `PrintString` with it, in its place.
    ///
    /// The error is that memory was refused: the list stays as it was, and the action comes back.
    #[tactic(auto, using(crate::proofs::Lists::ValueAtTheEnd::pushed_after_others, crate::proofs::Lists::ValueAtTheEnd::pushed_no_print))]
    pub fn append_to(self, dest: &mut Vec<Action<A>, A>) -> Result<(), Action<A>>
        ensures appended { OnOk result (map value_of dest.new.items
            ≡ appended_list (map value_of dest.old.items) (value_of self)) }
        ensures refused { IfErr result (λ a. (a ≡ self) × (dest.new.items ≡ dest.old.items)) }
        ensures memory_refused { OnErr result (Refused A) }
    {
        if let Action::Print(c) = &self {
            match join_last(dest, *c) {
                Ok(true) => return Ok(drop(self)),
                Ok(false) => {}
                Err(_) => return Err(self),
            }
        }
        match fallible_alloc::push(dest, self) {
            Ok(()) => Ok(()),
            Err(refused) => Err(refused.value),
        }
    }

    // Returns whether it is a character or a string of them.
    fn is_characters(&self) -> bool
        ensures { result ≡ is_characters (value_of self.now) }
    {
        matches!(self, Action::Print(_) | Action::PrintString(_))
    }

    // Appends a character to a character or a string of them. The error is that memory was refused,
    // and it stays as it was.
    fn push_char(&mut self, alloc: A, c: char) -> Result<(), AllocError>
        requires { is_characters (value_of self.old) ≡ true }
        ensures ok { OnOk result (value_of self.new ∷ []
            ≡ joined_values (value_of self.old) (print c)) }
        ensures err { OnErr result (self.new ≡ self.old) }
        ensures refused { OnErr result (Refused A) }
    {
        match self {
            Action::Print(before) => {
                let text = two_characters(alloc, *before, c)?;
                drop(mem::replace(self, Action::PrintString(text)));
                Ok(())
            }
            Action::PrintString(text) => text.push(c),
            _ => Ok(()),
        }
    }
}

// Returns the text of two characters.
fn two_characters<A: Allocator>(alloc: A, first: char, second: char) -> Result<Text<A>, AllocError>
    ensures ok { IfOk result (λ t. t ≡ encode_utf8 first ++ encode_utf8 second) }
    ensures refused { OnErr result (Refused A) }
{
    let mut text = Text::new(alloc);
    text.push(first)?;
    text.push(second)?;
    Ok(text)
}

// Lets a character join the characters at the end of the list, and returns whether there are any.
// The error is that memory was refused, and the list stays as it was.
#[tactic(auto, using(crate::proofs::Lists::ValueAtTheEnd::joined_said, crate::proofs::Lists::ValueAtTheEnd::ends_said))]
fn join_last<A: Allocator + Copy>(dest: &mut Vec<Action<A>, A>, c: char) -> Result<bool, AllocError>
    ensures joined { result ≡ Ok true
        → map value_of dest.new.items ≡ appended_list (map value_of dest.old.items) (print c) }
    ensures other { result ≡ Ok false → (dest.new.items ≡ dest.old.items)
        × (ends_in_characters (map value_of dest.old.items) ≡ false) }
    ensures refused { OnErr result (dest.new.items ≡ dest.old.items) }
    ensures memory_refused { OnErr result (Refused A) }
{
    let alloc = *dest.allocator();
    let Some(mut last) = dest.pop() else {
        return Ok(false);
    };
    let joins = last.is_characters();
    let done = if joins {
        last.push_char(alloc, c)
    } else {
        Ok(())
    };
    dest.push_reserved(last);
    done?;
    Ok(joins)
}
