//! This module says how an image is shown.

/// A placement says how an image is shown.
#[derive(Clone, Copy, Debug, PartialEq, Eq)]
pub struct KittyImagePlacement {
    /// The left edge of the part of the image that is shown, in pixels, key `x`.
    pub x: Option<u32>,
    /// The top edge of the part of the image that is shown, in pixels, key `y`.
    pub y: Option<u32>,
    /// The width of the part of the image that is shown, in pixels, key `w`. Without it the part is
    /// as wide as the image.
    pub w: Option<u32>,
    /// The height of the part of the image that is shown, in pixels, key `h`. Without it the part
    /// is as high as the image.
    pub h: Option<u32>,
    /// The distance from the left edge of the first cell, in pixels, key `X`.
    pub x_offset: Option<u32>,
    /// The distance from the top edge of the first cell, in pixels, key `Y`.
    pub y_offset: Option<u32>,
    /// The number of columns that it is scaled to, key `c`.
    pub columns: Option<u32>,
    /// The number of rows that it is scaled to, key `r`.
    pub rows: Option<u32>,
    /// The id of the placement, key `p`.
    pub placement_id: Option<u32>,
    /// Says whether the cursor stays at its cell, key `C`. Else it moves after the image.
    pub do_not_move_cursor: bool,
    /// Its order above and below others, key `z`. Below 0 it is shown below the text.
    pub z_index: Option<i32>,
    /// Says whether placeholder characters, U+10EEEE, show it, key `U`.
    pub unicode_placeholder: bool,
}
