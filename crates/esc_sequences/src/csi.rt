//! Control sequences (ECMA-48,
//! <https://ecma-international.org/publications-and-standards/standards/ecma-48/>; xterm's list,
//! <https://invisible-island.net/xterm/ctlseqs/ctlseqs.html>).
ghost use Rattle.std.specs.Prelude.{◌≡◌, ◌+◌, ◌<◌, ◌≤◌, ◌∷◌, [], length, drop, IfNone, IfOk, IfSome, IsOk, OnErr, IsTrue, false, true, is_some, map, Some};
ghost use Rattle.std.specs.Option.{option_map};
ghost use Rattle.std.specs.List.{position_or_len, slice_split};
ghost use Rattle.esc_sequences.specs.Csis.{csi_value, csi_of, csi_text, is_separator, renditions, sgr, unspecified};
ghost use Rattle.fallible_alloc.specs.Refusals.{Refused};

use crate::sgr::Sgr;
use crate::unspecified::Unspecified;
use esc_values::{Boxed, CsiParam, Items};
use std::alloc::{AllocError, Allocator, Global};
use std::fmt;
use std::fmt::Display;

/// A control sequence, or an item of one that has several: `ESC [`, a body of parameter and
/// intermediate bytes, and a final byte (ECMA-48, 5.4; xterm's list of control sequences).
///
/// Contracts see it by `csi_value`, which leaves out its place in memory.
#[derive(Drop)]
#[derive_where(Debug, PartialEq)]
pub enum CSI<A: Allocator = Global> {
    /// A rendition (ECMA-48, 8.3.117, SGR).
    Sgr(Sgr),
    /// Any other control sequence, as it is.
    Unspecified(Boxed<Unspecified<A>, A>),
}

/// Returns whether [`parse`](CSI::parse) returns for these parameters one `Unspecified` of them,
/// which needs no value to be written: a [`BorrowedSequence`](crate::BorrowedSequence) is written
/// as it is.
pub fn is_unspecified(params: &[CsiParam], parameters_truncated: bool, control: u8) -> bool
    ensures { IsTrue result
        → csi_of params.now parameters_truncated control
        ≡ unspecified params.now parameters_truncated control ∷ [] }
{
    control != b'm' || parameters_truncated || !are_renditions(params)
}

/// Returns the rendition that [`parse`](CSI::parse) returns, if the body is one number or nothing
/// and this names one. It takes no memory. `None` says nothing about the sequence.
#[inline]
pub fn short_rendition(params: &[CsiParam], parameters_truncated: bool, control: u8) -> Option<Sgr>
    ensures { IfSome result (λ s. csi_of params.now parameters_truncated control ≡ sgr s ∷ []) }
{
    if control != b'm' || parameters_truncated {
        return None;
    }
    lone_param(params)
}

// Returns the rendition of at most one parameter.
#[inline]
fn lone_param(params: &[CsiParam]) -> Option<Sgr>
    ensures { IfSome result (λ s. renditions (slice_split is_separator params.now)
        ≡ Some (sgr s ∷ [])) }
{
    if params.len() > 1 {
        return None;
    }
    Sgr::from_item(params)
}

impl<A: Allocator + Copy> CSI<A> {
    /// Returns the values of the parameters of a body and of a final byte. If the final byte is
    /// `m`, no parameter was left out, and the parameters are items between `;` that are all
    /// renditions, these renditions, in order; no parameter is one empty item. Anything else is one
    /// `Unspecified` of the same parameters. The error is that memory was refused.
    ///
    /// Renditions are: nothing and 0, reset; 1 bold, 2 faint, 22 neither; 3 slanted, 23 not; 4
    /// underlined, 21 twice, 24 not; and `4:0` to `4:5`, the kinds of underlines from none to
    /// dashes.
    pub fn parse(
        alloc: A,
        params: &[CsiParam],
        parameters_truncated: bool,
        control: u8,
    ) -> Result<Vec<CSI<A>, A>, AllocError>
        ensures ok { IfOk result (λ v.
            map csi_value v.items ≡ csi_of params.now parameters_truncated control) }
        ensures refused { OnErr result (Refused A) }
    {
        if control == b'm' && !parameters_truncated {
            if let Some(read) = read_renditions(alloc, params)? {
                return Ok(read);
            }
        }
        let mut read = Vec::new(alloc);
        fallible_alloc::push(
            &mut read,
            as_it_came(alloc, params, parameters_truncated, control)?,
        )?;
        Ok(read)
    }

    /// Returns the value that [`parse`](CSI::parse) returns, if it is one, with no list made for
    /// it; `None` if there are several. The error is that memory was refused, which renditions do
    /// not want.
    #[inline]
    pub fn parse_one(
        alloc: A,
        params: &[CsiParam],
        parameters_truncated: bool,
        control: u8,
    ) -> Result<Option<CSI<A>>, AllocError>
        ensures one { IfOk result (λ o.
            IfSome o (λ c. csi_of params.now parameters_truncated control ≡ csi_value c ∷ [])) }
        ensures several { IfOk result (λ o.
            IfNone o (2 ≤ length (csi_of params.now parameters_truncated control))) }
        ensures free { control ≡ 0x6d → parameters_truncated ≡ false
            → is_some (renditions (slice_split is_separator params.now)) ≡ true → IsOk result }
        ensures refused { OnErr result (Refused A) }
    {
        if control == b'm' && !parameters_truncated && are_renditions(params) {
            return Ok(lone_rendition(params).map(|sgr| CSI::Sgr(sgr)));
        }
        let read = as_it_came(alloc, params, parameters_truncated, control)?;
        Ok(Some(read))
    }
}

/// Returns the sequence of these parameters and this final byte as it is, without a look for
/// renditions. The error is that memory was refused.
#[inline]
pub fn as_it_came<A: Allocator + Copy>(
    alloc: A,
    params: &[CsiParam],
    parameters_truncated: bool,
    control: u8,
) -> Result<CSI<A>, AllocError>
    ensures ok { IfOk result (λ c.
        csi_value c ≡ unspecified params.now parameters_truncated control) }
    ensures refused { OnErr result (Refused A) }
{
    let kept = Unspecified {
        params: Items::from_vec(fallible_alloc::copied(alloc, params)?),
        parameters_truncated,
        control,
    };
    Ok(CSI::Unspecified(Boxed::new(alloc, kept)?))
}

// Returns the rendition, if there is one item.
fn lone_rendition(params: &[CsiParam]) -> Option<Sgr>
    ensures one { IfSome result (λ s. renditions (slice_split is_separator params.now)
        ≡ Some (sgr s ∷ [])) }
    ensures several { IfNone result
        (IfSome (renditions (slice_split is_separator params.now)) (λ vs.
        2 ≤ length vs)) }
{
    if item_len(params) == params.len() {
        Sgr::from_item(params)
    } else {
        None
    }
}

// Returns whether each item is a rendition.
fn are_renditions(params: &[CsiParam]) -> bool
    ensures { result ≡ is_some (renditions (slice_split is_separator params.now)) }
{
    let mut left = params;
    'items: loop {
        let len = item_len(left);
        let Some(_) = Sgr::from_item(&left[..len]) else {
            return false;
        };
        if len == left.len() {
            return true;
        }
        left = after_item(left, len);
    }
}

// Returns the renditions of the items between `;`, if each item is one.
fn read_renditions<A: Allocator + Copy>(
    alloc: A,
    params: &[CsiParam],
) -> Result<Option<Vec<CSI<A>, A>>, AllocError>
    ensures ok { IfOk result (λ o. option_map (λ v. map csi_value v.items) o
        ≡ renditions (slice_split is_separator params.now)) }
    ensures refused { OnErr result (Refused A) }
{
    let mut read = Vec::new(alloc);
    let mut rest = params;
    'items: loop {
        let len = item_len(rest);
        let Some(sgr) = Sgr::from_item(&rest[..len]) else {
            return Ok(None);
        };
        fallible_alloc::push(&mut read, CSI::Sgr(sgr))?;
        if len == rest.len() {
            return Ok(Some(read));
        }
        rest = after_item(rest, len);
    }
}

// Returns how many parameters the first item has.
fn item_len(params: &[CsiParam]) -> usize
    ensures first { result ≡ position_or_len is_separator params.now }
    ensures few { result ≤ length params.now }
{
    let mut len = 0;
    while len < params.len() && !is_separator(&params[len]) {
        len += 1;
    }
    len
}

// Returns the parameters after an item of this many parameters and the `;` that ends it.
fn after_item(params: &[CsiParam], len: usize) -> &[CsiParam]
    requires { len < length params.now }
    ensures { result.now ≡ drop (len + 1) params.now }
{
    &params[len + 1..]
}

// Returns whether it separates items.
fn is_separator(param: &CsiParam) -> bool
    ensures { result ≡ is_separator param.now }
{
    *param == CsiParam::P(b';')
}

/// Writes the control sequence as a terminal reads it. If it returns `Ok`, all of it was written.
impl<A: Allocator> fmt::Display for CSI<A> {
    ghost output = { λ c. Some (csi_text (csi_value c)) };

    fn fmt<W: fmt::Write>(&self, f: &mut fmt::Formatter<W>) -> fmt::Result {
        match self {
            CSI::Sgr(sgr) => sgr.fmt(f),
            CSI::Unspecified(unspecified) => unspecified.fmt(f),
        }
    }
}
