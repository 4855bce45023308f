//! The groups of actions that the options name.
ghost use Rattle.std.specs.Prelude.{◌≡◌, ◌<◌, ◌^◌, ◌/◌, false, true};
ghost use Rattle.esc_filter.specs.Groups.{with_group};
ghost use Rattle.escfilter.specs.Choices.{IsChanged, IsLinked, IsMoving, begun, begun_by, groups_in, has_word, left_hidden, policy_named};

use esc_actions::Action;
use esc_filter::{Admit, Group, Groups, Known, Policy};
use esc_values::CsiParam;
use std::alloc::Allocator;
use std::fmt;
use std::fmt::Display;

// A row a group: the group, its name, and what is in it. The bits of the words in `DENIED` are in
// this order.
macro_rules! groups {
    ($each:ident) => {
        $each![
            Layout, "layout", "tab, line feed and carriage return";
            Sgr, "sgr", "colours and other renditions, but those of hidden";
            Hidden, "hidden", "renditions of which one conceals text (SGR 8)";
            Links, "links", "hyperlinks (OSC 8)";
            Controls, "controls", "bell, backspace, line tabulation and form feed";
            Cursor, "cursor", "cursor movement, its shape, what it saves, and tab stops";
            Erase, "erase", "erasing, inserting, deleting, copying and filling";
            Scroll, "scroll", "scrolling, index and next line, and margins";
            Modes, "modes", "modes of what is shown";
            Charsets, "charsets", "character sets, shifts, and the size of a line's characters";
            Palette, "palette", "colours of the palette";
            Titles, "titles", "titles of the window and of the icon";
            Clipboard, "clipboard", "the clipboard, set and cleared";
            Images, "images", "images of kitty and sixel";
            Other, "other", "anything else that can be written, queries too";
        ]
    };
}

macro_rules! names {
    ($($group:ident, $name:literal, $words:literal);+ $(;)?) => {
        &[$($name),+]
    };
}

macro_rules! names_and_policies {
    ($($group:ident, $name:literal, $words:literal);+ $(;)?) => {
        &["text", "color", "colour", "screen", "all", $($name),+]
    };
}

macro_rules! groups_alone {
    ($($group:ident, $name:literal, $words:literal);+ $(;)?) => {
        [$(Group::$group),+]
    };
}

macro_rules! rows {
    ($($group:ident, $name:literal, $words:literal);+ $(;)?) => {
        [$((Group::$group, $name, $words)),+]
    };
}

/// The words of `--allow`: policies, and groups.
pub const ALLOWED: &[&str] = groups!(names_and_policies);

/// The words of `--deny`: groups.
pub const DENIED: &[&str] = groups!(names);

// How many words of `ALLOWED` are policies.
const POLICIES: u32 = 5;

const GROUPS: [Group; 15] = groups!(groups_alone);

// The bit of `hidden` in the words of `DENIED`.
const HIDDEN: u64 = 4;

static ROWS: [(Group, &str, &str); 15] = groups!(rows);

/// The values that pass: those that a policy admits, or, if groups were added to it or taken away,
/// those of these groups.
#[derive(Clone, Copy)]
pub struct Choice<'a> {
    /// The policy.
    pub policy: Policy,
    /// The groups in place of it.
    pub groups: Option<Groups<'a>>,
}

impl<'a> Choice<'a> {
    /// Chooses the values that this policy admits.
    pub fn of(policy: Policy) -> Choice<'a>
        ensures { result ≡ begun policy }
    {
        Choice {
            policy,
            groups: None,
        }
    }

    /// Lets more pass, by the bits of the words in `ALLOWED`. If a policy is among them, the values
    /// that it admits and the groups pass, and nothing of the choice before.
    pub fn and(self, words: u64) -> Choice<'a>
        ensures { IsChanged (words / 2 ^ 5) true (begun_by (policy_named words) self.entry) result }
    {
        let begun = match policy_of(words) {
            Some(policy) => Choice::of(policy),
            None => self,
        };
        begun.with(words >> POLICIES, true)
    }

    /// Takes away these groups, by the bits of the words in `DENIED`.
    pub fn without(self, words: u64) -> Choice<'a>
        ensures { IsChanged words false self.entry result }
    {
        self.with(words, false)
    }

    /// The same, but without `hidden` if `sgr` does not pass: a rendition that ends it is of `sgr`,
    /// and without one all text after it would be hidden.
    pub fn settled(self) -> Choice<'a>
        ensures { IsChanged (left_hidden (groups_in self.entry)) false self.entry result }
    {
        let groups = self.all_groups();
        let words = if groups.has(Group::Hidden) && !groups.has(Group::Sgr) {
            HIDDEN
        } else {
            0
        };
        self.without(words)
    }

    /// Lets pass as before, but only links to addresses of these schemes.
    pub fn with_schemes(self, schemes: &'a str) -> Choice<'a>
        ensures { IsLinked schemes.now self.entry result }
    {
        Choice {
            policy: self.policy,
            groups: Some(self.all_groups().with_schemes(schemes)),
        }
    }

    /// The same, with all that changes the screen, backspaces too. The collapse obeys these and
    /// writes none of them.
    pub fn with_movements(self) -> Choice<'a>
        ensures { IsMoving self.entry result }
    {
        let groups = self
            .all_groups()
            .and(Group::Controls)
            .and(Group::Cursor)
            .and(Group::Erase)
            .and(Group::Scroll)
            .and(Group::Modes)
            .and(Group::Charsets);
        Choice {
            policy: self.policy,
            groups: Some(groups),
        }
    }

    // The groups of what passes.
    fn all_groups(self) -> Groups<'a>
        ensures { result ≡ groups_in self.entry }
    {
        match self.groups {
            Some(groups) => groups,
            None => Groups::of(self.policy),
        }
    }

    // Adds these groups, or takes them away.
    fn with(self, words: u64, passes: bool) -> Choice<'a>
        ensures { IsChanged words passes self.entry result }
    {
        if words == 0 {
            return self;
        }
        let mut groups = self.all_groups();
        let mut rest = words;
        for group in &GROUPS {
            if rest % 2 == 1 {
                groups = changed(groups, *group, passes);
            }
            rest /= 2;
        }
        Choice {
            policy: self.policy,
            groups: Some(groups),
        }
    }
}

// One policy for both, so that the program has one filter.
impl<'a, A: Allocator> Admit<A> for Choice<'a> {
    ghost use Rattle.escfilter.specs.Choices.{admits_choice};

    ghost admits = { λ c v. admits_choice c v };

    #[inline]
    fn admits(&self, action: &Action<A>) -> bool {
        match &self.groups {
            Some(groups) => groups.admits(action),
            None => self.policy.admits(action),
        }
    }

    #[inline]
    fn known(&self) -> Known {
        match &self.groups {
            Some(groups) => <Groups<'_> as Admit<A>>::known(groups),
            None => <Policy as Admit<A>>::known(&self.policy),
        }
    }

    #[inline]
    fn admits_text(&self, text: &[u8]) -> bool {
        match &self.groups {
            Some(groups) => <Groups<'_> as Admit<A>>::admits_text(groups, text),
            None => <Policy as Admit<A>>::admits_text(&self.policy, text),
        }
    }

    #[inline]
    fn admits_str(&self, text: &str) -> bool {
        match &self.groups {
            Some(groups) => <Groups<'_> as Admit<A>>::admits_str(groups, text),
            None => <Policy as Admit<A>>::admits_str(&self.policy, text),
        }
    }

    #[inline(always)]
    fn admits_sequence(&self, params: &[CsiParam], control: u8) -> Option<bool> {
        match &self.groups {
            Some(groups) => <Groups<'_> as Admit<A>>::admits_sequence(groups, params, control),
            None => <Policy as Admit<A>>::admits_sequence(&self.policy, params, control),
        }
    }

    #[inline]
    fn admits_command(&self, text: &[u8]) -> Option<bool> {
        match &self.groups {
            Some(groups) => <Groups<'_> as Admit<A>>::admits_command(groups, text),
            None => <Policy as Admit<A>>::admits_command(&self.policy, text),
        }
    }

    #[inline]
    fn admits_images(&self) -> bool {
        match &self.groups {
            Some(groups) => <Groups<'_> as Admit<A>>::admits_images(groups),
            None => <Policy as Admit<A>>::admits_images(&self.policy),
        }
    }
}

// The groups with this one, or without it.
fn changed(groups: Groups<'_>, group: Group, passes: bool) -> Groups<'_>
    ensures { result ≡ with_group groups.entry group passes }
{
    if passes {
        groups.and(group)
    } else {
        groups.without(group)
    }
}

// The policy that admits most of those whose bits are among these.
fn policy_of(words: u64) -> Option<Policy>
    ensures { result ≡ policy_named words }
{
    if has_word(4, words) {
        Some(Policy::All)
    } else if has_word(3, words) {
        Some(Policy::Screen)
    } else if has_word(2, words) || has_word(1, words) {
        Some(Policy::Color)
    } else if has_word(0, words) {
        Some(Policy::Text)
    } else {
        None
    }
}

/// Whether the word of this number, from 0, is among those whose bits are set.
pub(crate) fn has_word(at: u32, words: u64) -> bool
    requires { at < 64 }
    ensures { result ≡ has_word at words }
{
    (words >> at) % 2 == 1
}

/// The groups, a line each.
#[derive(Clone, Copy)]
pub struct Listed;

impl Display for Listed {
    fn fmt<W: fmt::Write>(&self, f: &mut fmt::Formatter<W>) -> fmt::Result {
        for (_, name, words) in &ROWS {
            writeln!(f, "  {name:<10}{words}")?;
        }
        Ok(())
    }
}
