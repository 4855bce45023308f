//! Texts, colours, parameters and renditions of control sequences, escape sequences and links.
ghost use Rattle.std.specs.Prelude.{◌≡◌, ◌↔◌, IsTrue};

use esc_links::{Hyperlink, Params};
use esc_sequences::{Esc, EscCode, Intensity, Sgr, Underline, Unspecified};
use esc_values::{CsiParam, RgbColor, Text};
use std::alloc::Allocator;

/// Returns whether two texts are the same.
pub fn same_text<A: Allocator>(a: &Text<A>, b: &Text<A>) -> bool
    ensures { IsTrue result ↔ (a.now ≡ b.now) }
{
    a == b
}

/// Returns whether two colours are the same.
pub fn same_rgb_color(a: &RgbColor, b: &RgbColor) -> bool
    ensures { IsTrue result ↔ (a.now ≡ b.now) }
{
    a == b
}

/// Returns whether two parameters of control sequences are the same.
pub fn same_csi_param(a: &CsiParam, b: &CsiParam) -> bool
    ensures { IsTrue result ↔ (a.now ≡ b.now) }
{
    a == b
}

/// Returns whether two intensities are the same.
pub fn same_intensity(a: &Intensity, b: &Intensity) -> bool
    ensures { IsTrue result ↔ (a.now ≡ b.now) }
{
    a == b
}

/// Returns whether two underlines are the same.
pub fn same_underline(a: &Underline, b: &Underline) -> bool
    ensures { IsTrue result ↔ (a.now ≡ b.now) }
{
    a == b
}

/// Returns whether two renditions are the same.
pub fn same_sgr(a: &Sgr, b: &Sgr) -> bool
    ensures { IsTrue result ↔ (a.now ≡ b.now) }
{
    a == b
}

/// Returns whether two control sequences that are no renditions are the same.
#[tactic(auto, using(crate::proofs::BelowSame::param_lists))]
pub fn same_unspecified<A: Allocator>(a: &Unspecified<A>, b: &Unspecified<A>) -> bool
    ensures { IsTrue result ↔ (a.now ≡ b.now) }
{
    a == b
}

/// Returns whether two escape sequences are the same.
pub fn same_esc(a: &Esc, b: &Esc) -> bool
    ensures { IsTrue result ↔ (a.now ≡ b.now) }
{
    a == b
}

/// Returns whether two escape sequences with a name are the same.
pub fn same_esc_code(a: &EscCode, b: &EscCode) -> bool
    ensures { IsTrue result ↔ (a.now ≡ b.now) }
{
    a == b
}

/// Returns whether two lists of a link's parameters are the same.
#[tactic(auto, using(crate::proofs::BelowSame::params))]
pub fn same_params<A: Allocator>(a: &Params<A>, b: &Params<A>) -> bool
    ensures { IsTrue result ↔ (a.now ≡ b.now) }
{
    a == b
}

/// Returns whether two links are the same.
#[tactic(auto, using(crate::proofs::BelowSame::params, crate::proofs::Same::texts))]
pub fn same_hyperlink<A: Allocator>(a: &Hyperlink<A>, b: &Hyperlink<A>) -> bool
    ensures { IsTrue result ↔ (a.now ≡ b.now) }
{
    a == b
}
