//! The text that undoes the changes that are left at a terminal.
ghost use Rattle.std.specs.Prelude.{◌≡◌, ◌++◌, ◌&&◌, None, map, OnErr, OnOk};
ghost use Rattle.esc_actions.specs.Values.{value_of};
ghost use Rattle.esc_filter.specs.Closing.{escape, joined_lists, keeps_cursor};
ghost use Rattle.esc_filter.specs.GivenBack.{is_cursor_due, is_saved_due, main_part, margins_part, on_main, part, parts_back, saved_part, text_given_back};
ghost use Rattle.fallible_alloc.specs.Refusals.{Refused};

use crate::admit::Admit;
use crate::terminal::{Screen, Terminal};
use esc_actions::Action;
use esc_sequences::Esc;
use esc_values::Text;
use std::alloc::{AllocError, Allocator};

impl Terminal {
    /// Appends the text that undoes its changes; `keeps_cursor` says whether DECSC and DECRC may be
    /// written. The error is that memory was refused.
    pub fn give_back<A: Allocator>(
        &self,
        keeps_cursor: bool,
        text: &mut Text<A>,
    ) -> Result<(), AllocError>
        ensures ok { OnOk result (text.new ≡ text.old ++ text_given_back keeps_cursor self.now) }
        ensures refused { OnErr result (Refused A) }
    {
        push_all(text, &self.parts_back(keeps_cursor))
    }

    // Returns whether the text that undoes its changes depends on whether DECSC and DECRC may be
    // written: there are margins, or the state that is saved with the cursor is changed.
    fn is_cursor_due(&self) -> bool
        ensures { result ≡ is_cursor_due self.now }
    {
        self.margins || self.saved.is_changed()
    }

    // Returns the texts that undo its changes, one after another: the text that shows the main
    // screen, and those for the changes that are left once that is shown.
    fn parts_back(&self, keeps_cursor: bool) -> [&'static str; 17]
        ensures { map (λ s. s.now) result ≡ parts_back keeps_cursor self.now }
    {
        let after = self.on_main();
        [
            self.screen.main_part(),
            part(after.sides, "\x1b[?69l"),
            part(after.origin, "\x1b[?6l"),
            part(after.insert, "\x1b[4l"),
            part(after.hidden, "\x1b[?25h"),
            part(after.reverse, "\x1b[?5l"),
            part(after.no_wrap, "\x1b[?7h"),
            part(after.held, "\x1b[?2026l"),
            part(after.rendition, "\x1b[0m"),
            part(after.link, "\x1b]8;;\x1b\\"),
            part(after.sets.shifted, "\x0f"),
            part(after.sets.g0, "\x1b(B"),
            part(after.sets.g1, "\x1b)B"),
            part(after.sets.g2, "\x1b*B"),
            part(after.sets.g3, "\x1b+B"),
            part(after.margins, margins_part(keeps_cursor)),
            part(after.is_saved_due(keeps_cursor), saved_part(keeps_cursor)),
        ]
    }

    // Does the same with the main screen, as its sequence leaves it.
    fn on_main(&self) -> Terminal
        ensures { result ≡ on_main self.now }
    {
        let mut terminal = *self;
        match self.screen {
            Screen::Main => {}
            Screen::Alternate | Screen::Cleared => terminal.screen = Screen::Main,
            Screen::WithCursor => terminal.show_with_cursor(false),
        }
        terminal
    }

    // Returns whether the state that is saved with the cursor is to be restored, once the margins
    // were.
    fn is_saved_due(&self, keeps_cursor: bool) -> bool
        ensures { result ≡ is_saved_due keeps_cursor self.now }
    {
        self.saved.is_changed() && !(self.margins && keeps_cursor)
    }
}

impl Screen {
    // Returns the text that shows the main screen.
    fn main_part(self) -> &'static str
        ensures { result.now ≡ main_part self }
    {
        match self {
            Screen::Main => "",
            Screen::Alternate => "\x1b[?47l",
            Screen::Cleared => "\x1b[?1047l",
            Screen::WithCursor => "\x1b[?1049l",
        }
    }
}

// Returns a text, if its part is changed.
fn part(is_changed: bool, back: &'static str) -> &'static str
    ensures { result.now ≡ part is_changed back.now }
{
    if is_changed { back } else { "" }
}

// Returns the text that resets the margins, with the cursor at its place, or at home.
fn margins_part(keeps_cursor: bool) -> &'static str
    ensures { result.now ≡ margins_part keeps_cursor }
{
    if keeps_cursor {
        "\x1b7\x1b[r\x1b8"
    } else {
        "\x1b[r"
    }
}

// Returns the text that saves the cursor.
fn saved_part(keeps_cursor: bool) -> &'static str
    ensures { result.now ≡ saved_part keeps_cursor }
{
    if keeps_cursor { "\x1b7" } else { "\x1b[?1048h" }
}

// Appends these texts.
fn push_all<A: Allocator>(text: &mut Text<A>, parts: &[&'static str]) -> Result<(), AllocError>
    ensures ok { OnOk result (text.new ≡ text.old ++ joined_lists (map (λ s. s.now) parts.now)) }
    ensures refused { OnErr result (Refused A) }
{
    for part in parts {
        match text.push_str(*part) {
            Ok(()) => {}
            Err(error) => return Err(error),
        }
    }
    Ok(())
}

/// Returns whether the cursor is to be saved and restored as this terminal is restored: the text
/// depends on it, and the policy admits DECSC and DECRC.
pub(crate) fn keeps_cursor_of<A: Allocator, P: Admit<A>>(terminal: &Terminal, policy: &P) -> bool
    ensures { result ≡ (is_cursor_due terminal.now && keeps_cursor {A = A} (P.admits policy.now)) }
{
    terminal.is_cursor_due() && keeps_cursor(policy)
}

// Returns whether a policy admits them.
fn keeps_cursor<A: Allocator, P: Admit<A>>(policy: &P) -> bool
    ensures { result ≡ keeps_cursor {A = A} (P.admits policy.now) }
{
    policy.admits(&saving(b'7')) && policy.admits(&saving(b'8'))
}

// Returns an escape sequence of this final byte.
fn saving<A: Allocator>(control: u8) -> Action<A>
    ensures { value_of result ≡ escape None control }
{
    Action::Esc(Esc::Unspecified {
        intermediate: None,
        control,
    })
}
