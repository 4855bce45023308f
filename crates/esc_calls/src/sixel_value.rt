//! A sixel image, but for its data.

/// A sixel image, for its caller, and how much room its data needs.
#[repr(C)]
#[derive(Clone, Copy)]
pub struct SixelValue {
    /// The pixel aspect ratio is pan to pad: a pixel is so many units high.
    pub pan: i64,
    /// A pixel is so many units wide.
    pub pad: i64,
    /// The horizontal grid size, or 0.
    pub grid_size: i64,
    /// The width in pixels that raster attributes gave, or 0.
    pub pixel_width: u32,
    /// The height in pixels that raster attributes gave, or 0.
    pub pixel_height: u32,
    /// The width in pixels: that of the raster attributes, if they gave both, and else that of the
    /// drawing.
    pub width: u32,
    /// The height in pixels in the same way.
    pub height: u32,
    /// Says whether the header has a horizontal grid size.
    pub has_grid_size: bool,
    /// Says whether raster attributes gave a width.
    pub has_pixel_width: bool,
    /// Says whether raster attributes gave a height.
    pub has_pixel_height: bool,
    /// Says whether pixels of 0 leave the old pixels.
    pub background_is_transparent: bool,
    /// Says how many items its data has.
    pub item_count: usize,
}
