//! A choice of groups.
ghost use Rattle.std.specs.Prelude.{◌≡◌, ◌<◌, Some, false, true};
ghost use Rattle.std.specs.List.{list_all, list_any};
ghost use Rattle.esc_sequences.specs.Csis.{csi_of};
ghost use Rattle.esc_filter.specs.Groups.{IsWithSchemes, groups_of, has, has_sequence, place, with_group};

use crate::admit::Admit;
use crate::concealed::conceals;
use crate::group::{Group, group_of_body};
use crate::known::Known;
use crate::links::shows;
use crate::policy::{Policy, are_plain, are_shown};
use crate::schemes::leads;
use esc_actions::Action;
use esc_values::CsiParam;
use std::alloc::Allocator;

/// A policy by groups: the actions of some groups pass, and no others. It may admit only those
/// links whose address has one of some schemes, and the ends of links. If the group `Other` does
/// not pass, links with DEL or characters that deceive do not either.
#[derive(Clone, Copy, Debug)]
pub struct Groups<'a> {
    // says whether each group passes, in their order
    allowed: [bool; 16],
    // the schemes of the links that pass, with `,` between them; if there are none, all schemes
    // pass
    schemes: Option<&'a str>,
}

impl<'a> Groups<'a> {
    /// Returns the groups of the actions that a policy admits, which together admit the same.
    pub fn of(policy: Policy) -> Groups<'a>
        ensures { result ≡ groups_of policy }
    {
        Groups {
            allowed: allowed_by(policy),
            schemes: None,
        }
    }

    /// Returns these groups, and this one.
    pub fn and(&self, group: Group) -> Groups<'a>
        ensures { result ≡ with_group self.now group true }
    {
        self.with(group, true)
    }

    /// Returns these groups but this one.
    pub fn without(&self, group: Group) -> Groups<'a>
        ensures { result ≡ with_group self.now group false }
    {
        self.with(group, false)
    }

    /// Returns these groups; but only those links pass whose address has one of these schemes, and
    /// the ends of links. `schemes` has them with `,` between them, as `http,https`. An address has
    /// a scheme if it begins with it, in either case, and a colon (RFC 3986, 3.1).
    pub fn with_schemes(&self, schemes: &'a str) -> Groups<'a>
        ensures { IsWithSchemes self.now schemes.now result }
    {
        Groups {
            allowed: self.allowed,
            schemes: Some(schemes),
        }
    }

    /// Returns whether the actions of this group pass.
    pub fn has(&self, group: Group) -> bool
        ensures { result ≡ has self.now group }
    {
        self.allowed[place(group)]
    }

    // Returns these groups, with this one or without it.
    fn with(&self, group: Group, is: bool) -> Groups<'a>
        ensures { result ≡ with_group self.now group is }
    {
        let mut allowed = self.allowed;
        allowed[place(group)] = is;
        Groups {
            allowed,
            schemes: self.schemes,
        }
    }

    // Returns whether the actions of a control sequence pass; not known if it is renditions, one of
    // which conceals text, and those pass and others do not, or the other way round.
    #[tactic(auto, using(crate::proofs::Admission::ChoicesAdmit::choices))]
    fn has_sequence(&self, params: &[CsiParam], control: u8) -> Option<bool>
        ensures passes { result ≡ Some true → list_all (has_sequence self.now)
            (csi_of params.now false control) ≡ true }
        ensures stays { result ≡ Some false → list_any (has_sequence self.now)
            (csi_of params.now false control) ≡ false }
    {
        if control != b'm' {
            return Some(self.has(group_of_body(params, control)));
        }
        if are_plain(params) && !conceals(params) {
            return Some(self.has(Group::Sgr));
        }
        None
    }
}

impl<'a, A: Allocator> Admit<A> for Groups<'a> {
    ghost use Rattle.esc_filter.specs.Groups.{admits_groups};

    ghost admits = { λ g v. admits_groups g v };

    // Out of the way of a policy that a program has in the same place.
    #[inline(never)]
    fn admits(&self, action: &Action<A>) -> bool {
        leads(&self.schemes, action)
            && (shows(self.has(Group::Other), action) && self.has(Group::of(action)))
    }

    #[inline(never)]
    fn known(&self) -> Known {
        Known {
            text: self.has(Group::Characters) && self.has(Group::Layout),
            renditions: self.has(Group::Sgr) && self.has(Group::Hidden),
            links: self.has(Group::Links) && self.schemes.is_none(),
            no_functions: false,
            no_commands: false,
            no_escapes: false,
        }
    }

    #[inline]
    fn admits_text(&self, text: &[u8]) -> bool {
        self.has(Group::Characters) && are_shown(text)
    }

    #[inline]
    fn admits_str(&self, text: &str) -> bool {
        self.has(Group::Characters) && are_shown(text.as_bytes())
    }

    fn admits_sequence(&self, params: &[CsiParam], control: u8) -> Option<bool> {
        self.has_sequence(params, control)
    }

    #[tactic(auto, using(crate::proofs::Admission::ChoicesAdmit::images_stay))]
    fn admits_images(&self) -> bool {
        self.has(Group::Images)
    }
}

// Returns whether each group is one of this policy.
fn allowed_by(policy: Policy) -> [bool; 16]
    ensures { result ≡ (groups_of policy).allowed }
{
    match policy {
        Policy::Text => [
            true, true, false, false, false, false, false, false, false, false, false, false,
            false, false, false, false,
        ],
        Policy::Color => [
            true, true, true, true, true, false, false, false, false, false, false, false, false,
            false, false, false,
        ],
        Policy::Screen => [
            true, true, true, true, true, true, true, true, true, true, true, true, false, false,
            false, false,
        ],
        Policy::All => [
            true, true, true, true, true, true, true, true, true, true, true, true, true, true,
            true, true,
        ],
    }
}

// Returns the place of a group in their order.
fn place(group: Group) -> usize
    ensures place { result ≡ place group }
    ensures below { result < 16 }
{
    group as usize
}
