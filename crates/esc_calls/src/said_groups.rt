//! The actions that pass, by the options of a sanitizer.
ghost use Rattle.std.specs.Prelude.{◌≡◌, IfErr, IfOk};
ghost use Rattle.std.specs.Option.{option_map};
ghost use Rattle.esc_filter.specs.Groups.{with_group};
ghost use Rattle.esc_calls.specs.SanitizerGroups.{AreSaid, AreWith, links_numbered, groups_with_moves};
ghost use Rattle.esc_calls.specs.SanitizerOptions.{IsFault};

use crate::fault::Fault;
use crate::sanitizer_options::SanitizerOptions;
use esc_filter::{Group, Groups, Policy};

const ALL_GROUPS: u32 = 0xffff;

const GROUPS: [Group; 16] = [
    Group::Characters,
    Group::Layout,
    Group::Sgr,
    Group::Hidden,
    Group::Links,
    Group::Controls,
    Group::Cursor,
    Group::Erase,
    Group::Scroll,
    Group::Modes,
    Group::Charsets,
    Group::Palette,
    Group::Titles,
    Group::Clipboard,
    Group::Images,
    Group::Other,
];

/// Returns the groups that pass: those of the policy and those that are allowed, but those that are
/// denied, and if rows may be written again the groups that change the screen; only links to
/// addresses of the schemes pass.
pub(crate) fn groups_said(
    options: &SanitizerOptions,
    policy: Policy,
) -> Result<Groups<'static>, Fault>
    ensures said { IfOk result (AreSaid options.now policy) }
    ensures fault { IfErr result (IsFault options.now) }
{
    if options.allowed > ALL_GROUPS || options.denied > ALL_GROUPS {
        return Err(Fault::Group);
    }
    let Some(schemes) = schemes_of(options.links) else {
        return Err(Fault::Links);
    };
    let groups = with_groups(Groups::of(policy), options.allowed, true);
    let groups = with_groups(groups, options.denied, false);
    let groups = with_movements(groups, options.rows);
    match schemes {
        Some(schemes) => Ok(groups.with_schemes(schemes)),
        None => Ok(groups),
    }
}

// Returns these groups, with those whose bits are set, or without them.
fn with_groups(groups: Groups<'static>, bits: u32, passes: bool) -> Groups<'static>
    ensures { AreWith bits passes groups.entry result }
{
    let mut groups = groups;
    let mut rest = bits;
    for group in &GROUPS {
        if rest % 2 == 1 {
            groups = with_group(groups, *group, passes);
        }
        rest /= 2;
    }
    groups
}

// Returns these groups, with this one or without it.
fn with_group(groups: Groups<'static>, group: Group, passes: bool) -> Groups<'static>
    ensures { result ≡ with_group groups.entry group passes }
{
    if passes {
        groups.and(group)
    } else {
        groups.without(group)
    }
}

// Returns these groups, and if rows may be written again the groups that change the screen, and
// backspaces.
fn with_movements(groups: Groups<'static>, rows: u32) -> Groups<'static>
    ensures { result ≡ groups_with_moves rows groups.entry }
{
    if rows == 0 {
        return groups;
    }
    groups
        .and(Group::Controls)
        .and(Group::Cursor)
        .and(Group::Erase)
        .and(Group::Scroll)
        .and(Group::Modes)
        .and(Group::Charsets)
}

// Returns the schemes of the links that pass; all schemes if there are none.
fn schemes_of(links: u32) -> Option<Option<&'static str>>
    ensures { option_map (option_map (λ s. s.now)) result ≡ links_numbered links }
{
    match links {
        0 => Some(None),
        1 => Some(Some("http")),
        2 => Some(Some("https")),
        3 => Some(Some("http,https")),
        4 => Some(Some("mailto")),
        5 => Some(Some("http,mailto")),
        6 => Some(Some("https,mailto")),
        7 => Some(Some("http,https,mailto")),
        _ => None,
    }
}
