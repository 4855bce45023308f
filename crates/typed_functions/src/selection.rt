//! A rendition with its entries.

use crate::rendition::Rendition;
use esc_values::CsiParam;

/// A part of the parameters of a control sequence SGR that asks for one rendition.
#[derive(Clone, Copy, Debug, PartialEq)]
pub struct Selection<'a> {
    /// The rendition that it asks for. `None` if it is not known, or a number of it is missing or
    /// too large.
    pub rendition: Option<Rendition>,
    /// Its parameters, as they came. The `;` after it is not among them.
    pub entries: &'a [CsiParam],
}
