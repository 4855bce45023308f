//! Runs of characters in a list of actions.
ghost use Rattle.std.specs.Prelude.{◌≡◌, ◌+◌, ◌<◌, ◌≤◌, ◌++◌, IsTrue, length, map, drop, IfSome, true};
ghost use Rattle.std.specs.Str.{IsAscii};
ghost use Rattle.std.specs.List.{list_all};
ghost use Rattle.esc_actions.specs.Texts.{has_text};
ghost use Rattle.esc_actions.specs.Values.{print, value_of};

use crate::short_text::ShortText;
use esc_actions::Action;
use std::alloc::Allocator;

// Returns the character that the action shows, if it is ASCII.
#[inline(always)]
fn ascii_of<A: Allocator>(action: &Action<A>) -> Option<u8>
    ensures ascii { IfSome result (λ b. b < 128) }
    ensures shown { IfSome result (λ b. value_of action.now ≡ print b) }
{
    match action {
        Action::Print(c) => { if *c < '\u{80}' { Some(*c as u8) } else { None } }
        _ => None,
    }
}

// Returns the characters of the first eight actions, if each is an ASCII character that is shown.
#[inline(always)]
fn eight_of<A: Allocator>(actions: &[Action<A>]) -> Option<[u8; 8]>
    ensures few { IfSome result (λ bs. 8 ≤ length actions.now) }
    ensures same { IfSome result (λ bs. map value_of actions.now ≡ map print bs
        ++ map value_of (drop 8 actions.now)) }
    ensures ascii { IfSome result (λ bs. IsAscii bs) }
{
    let [
        first,
        second,
        third,
        fourth,
        fifth,
        sixth,
        seventh,
        eighth,
        ..
    ] = actions
    else {
        return None;
    };
    let first = ascii_of(first)?;
    let second = ascii_of(second)?;
    let third = ascii_of(third)?;
    let fourth = ascii_of(fourth)?;
    let fifth = ascii_of(fifth)?;
    let sixth = ascii_of(sixth)?;
    let seventh = ascii_of(seventh)?;
    let eighth = ascii_of(eighth)?;
    Some([first, second, third, fourth, fifth, sixth, seventh, eighth])
}

// Gathers the ASCII characters that are shown at the start, eight at a time, as far as there is
// room for them, and returns the rest.
#[inline(always)]
pub(crate) fn gather_eights<'a, A: Allocator>(
    actions: &'a [Action<A>],
    run: &mut ShortText,
) -> &'a [Action<A>]
    ensures { map value_of actions.now ≡ map print run.new ++ map value_of result.now }
{
    run.clear();
    let mut rest = actions;
    'eights: while run.len() <= 120 {
        let Some(eight) = eight_of(rest) else {
            break 'eights;
        };
        run.push_eight(eight);
        let (_, more) = rest.split_at(8);
        rest = more;
    }
    rest
}

// Returns whether none of these actions is a sixel image.
#[inline(always)]
fn are_without_sixels<A: Allocator>(actions: &[Action<A>]) -> bool
    ensures { IsTrue result → list_all (λ a. has_text (value_of a)) actions.now ≡ true }
{
    for action in actions {
        if let Action::Sixel(_) = action {
            return false;
        }
    }
    true
}

// Returns whether all of them can be written.
#[inline(never)]
fn each_has_text<A: Allocator>(actions: &[Action<A>]) -> bool
    ensures { result ≡ list_all (λ a. has_text (value_of a)) actions.now }
{
    actions.iter().all(|action| action.has_text())
}

// Does the same, which looks for sixel images first: only those may have no text.
#[inline(always)]
fn few_have_texts<A: Allocator>(actions: &[Action<A>]) -> bool
    ensures { result ≡ list_all (λ a. has_text (value_of a)) actions.now }
{
    are_without_sixels(actions) || each_has_text(actions)
}

// Does the same, eight actions at a time.
pub(crate) fn have_texts<A: Allocator>(actions: &[Action<A>]) -> bool
    ensures { result ≡ list_all (λ a. has_text (value_of a)) actions.now }
{
    let mut rest = actions;
    'eights: while rest.len() >= 8 {
        let (eight, more) = rest.split_at(8);
        if !few_have_texts(eight) {
            return false;
        }
        rest = more;
    }
    each_has_text(rest)
}
