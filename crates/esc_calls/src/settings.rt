//! How a stream in chunks is sanitized.

use esc_decode::ByteOrder;
use esc_filter::Groups;
use esc_sanitize::FilterOptions;

/// How a stream in chunks is sanitized.
#[derive(Clone, Copy)]
pub struct Settings {
    /// How it is filtered.
    pub filter: FilterOptions<Groups<'static>>,
    /// The order of bytes in a stream of UTF-16. The filter gets such a stream as UTF-8.
    pub order: Option<ByteOrder>,
}
