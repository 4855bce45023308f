//! This module defines changes of the palette.

use crate::color_or_query::ColorOrQuery;

/// A pair names a place of the palette, and the colour that it is to have, or asks for its colour.
#[derive(Clone, Debug, Drop, PartialEq)]
pub struct ChangeColorPair {
    /// The place, from 0 to 255.
    pub palette_index: u8,
    /// The colour.
    pub color: ColorOrQuery,
}
