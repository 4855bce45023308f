//! Links, and their addresses.
ghost use Rattle.std.specs.Prelude.{◌≡◌, IfSome, true};
ghost use Rattle.std.specs.List.{list_all};
ghost use Rattle.esc_values.specs.Clear.{parts_of};
ghost use Rattle.esc_osc.specs.Reading.{meaning as command_meant};
ghost use Rattle.esc_actions.specs.Values.{value_of};
ghost use Rattle.esc_write.specs.Plain.{IsPlainLink};
ghost use Rattle.esc_filter.specs.Addresses.{address_in, has_parts, is_address, is_link_code};
ghost use Rattle.esc_filter.specs.Groups.{shows};
ghost use Rattle.esc_filter.specs.Rules.{are_clean_link, is_clean, is_clean_link, is_clean_pair, is_clean_part, is_hyperlink, is_link};

use crate::policy::are_shown;
use esc_actions::Action;
use esc_frame::runs::scans::data_run;
use esc_links::Hyperlink;
use esc_links::params::Iter;
use esc_osc::OperatingSystemCommand;
use esc_values::Items;
use esc_values::scalar::text_in;
use esc_write::plain_link;
use std::alloc::Allocator;
use unicode_visibility::has_deceiving;

/// Returns whether the action is no link with DEL or a character that deceives, or these pass too.
pub(crate) fn shows<A: Allocator>(all: bool, action: &Action<A>) -> bool
    ensures { result ≡ shows all (value_of action.now) }
{
    match action {
        Action::OperatingSystemCommand(command) => {
            let command = command.as_ref();
            !is_hyperlink(command) || is_link(command) || all
        }
        _ => true,
    }
}

// Returns whether it is a link, or the end of one.
fn is_hyperlink<A: Allocator>(command: &OperatingSystemCommand<A>) -> bool
    ensures { result ≡ is_hyperlink command.now }
{
    match command {
        OperatingSystemCommand::SetHyperlink(_) => true,
        OperatingSystemCommand::Unspecified(parts) => has_address(parts.as_slice()),
        _ => false,
    }
}

/// Returns whether it is a link, or the end of one, without DEL and without characters that
/// deceive.
pub(crate) fn is_link<A: Allocator>(command: &OperatingSystemCommand<A>) -> bool
    ensures { result ≡ is_link command.now }
{
    match command {
        OperatingSystemCommand::SetHyperlink(link) => is_clean_link(link),
        OperatingSystemCommand::Unspecified(parts) => are_clean_link(parts.as_slice()),
        _ => false,
    }
}

// Returns whether neither the parameters nor the address have such characters.
fn is_clean_link<A: Allocator>(link: &Option<Hyperlink<A>>) -> bool
    ensures { result ≡ is_clean_link link.now }
{
    match link {
        Some(link) => are_clean_pairs(link.params.iter()) && is_clean(link.uri.as_str()),
        None => true,
    }
}

// Does the same for keys and values.
fn are_clean_pairs<A: Allocator>(mut pairs: Iter<'_, A>) -> bool
    ensures { result ≡ list_all is_clean_pair pairs.entry }
{
    while let Some((key, value)) = pairs.next() {
        if !is_clean_pair(key, value) {
            return false;
        }
    }
    true
}

// Does the same for a key and a value.
fn is_clean_pair(key: &str, value: &str) -> bool
    ensures { result ≡ is_clean_pair (key.now, value.now) }
{
    is_clean(key) && is_clean(value)
}

// Does the same for a text.
fn is_clean(text: &str) -> bool
    ensures { result ≡ is_clean text.now }
{
    are_shown(text.as_bytes()) && !has_deceiving(text)
}

// Returns whether the parts of a command without another reading are those of a link, and such
// texts.
fn are_clean_link<A: Allocator>(parts: &[Items<u8, A>]) -> bool
    ensures { result ≡ are_clean_link parts.now }
{
    has_address(parts) && are_clean(parts)
}

// Returns whether all are such texts.
fn are_clean<A: Allocator>(parts: &[Items<u8, A>]) -> bool
    ensures { result ≡ list_all is_clean_part parts.now }
{
    parts.iter().all(is_clean_part)
}

fn is_clean_part<A: Allocator>(part: &Items<u8, A>) -> bool
    ensures { result ≡ is_clean_part part.now }
{
    match text_in(part.as_slice()) {
        Some(text) => is_clean(text),
        None => false,
    }
}

/// Returns whether they are those of a link.
pub(crate) fn has_address<A: Allocator>(parts: &[Items<u8, A>]) -> bool
    ensures { result ≡ has_parts (address_in parts.now) }
{
    match address_in(parts) {
        [_, ..] => true,
        [] => false,
    }
}

/// Returns the parts of the address of a link, if the command of these parts has no other reading.
pub(crate) fn address_in<A: Allocator>(parts: &[Items<u8, A>]) -> &[Items<u8, A>]
    ensures { result.now ≡ address_in parts.now }
{
    match parts {
        [code, _, address @ ..] if is_link_code(code.as_slice()) => address,
        _ => &[],
    }
}

// Returns whether it is the code of links.
fn is_link_code(code: &[u8]) -> bool
    ensures { result ≡ is_link_code code.now }
{
    match code {
        [digit] => *digit == b'8',
        _ => false,
    }
}

/// Returns whether these parts, with `;` between them, are an address, and not an empty text.
pub(crate) fn is_address<A: Allocator>(parts: &[Items<u8, A>]) -> bool
    ensures { result ≡ is_address parts.now }
{
    match parts {
        [] => false,
        [part] => !part.as_slice().is_empty(),
        _ => true,
    }
}

/// Returns the text of a link, or of the end of one, that is seen at once to be one: a plain link
/// of bytes 20 to 7E, as `esc_write` says.
#[tactic(auto, using(crate::proofs::Admission::PlainLinksAreLinks::plain_is_link))]
#[inline]
pub(crate) fn clean_link<A: Allocator>(text: &[u8]) -> Option<&str>
    ensures same { IfSome result (λ t. t.now ≡ text.now) }
    ensures plain { IfSome result (λ t. IsPlainLink A text.now) }
    ensures clean { IfSome result (λ t.
        is_link {A = A} (command_meant (parts_of text.now)) ≡ true) }
{
    if data_run(text) != text.len() {
        return None;
    }
    plain_link::<A>(text)
}
