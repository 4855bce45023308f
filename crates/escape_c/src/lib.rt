//! The normal form, the filter, the HTML and the parts of streams of terminal escape sequences, for
//! C and for programs that link C's libraries. `include/escape_stream.h` declares the calls for C.
//!
//! A call that takes a stream whole returns a status: `DONE`, or why nothing was written. A text
//! goes into the caller's buffer, as much of it as fits, and its whole length into `needed`. The
//! filter, the sanitizer, the HTML, the normal form and the screen of a stream in chunks are each
//! an `InChunks` of the caller's. Other calls name a function or a string, or read and write
//! commands, images and queries. The crate `esc_calls` does the work of each call.
//!
//! ```text
//! const uint8_t stream[] = "a\x1b]0;a title\x07 \x1b[1;31mred";
//! escape_stream_filter(ESCAPE_STREAM_POLICY_TEXT, 4096, stream, sizeof stream - 1,
//!                      out, sizeof out, &needed);     // out: "a red"; needed: 5
//! ```
#![tactic(auto)]

mod filter;
mod function;
mod html;
mod normal;
mod read;
mod sanitizer;
mod screen;
mod string;
mod write_kitty;
mod write_osc;
mod write_sixel;
mod write_tcap;

pub use esc_calls::account_row::AccountRow;
pub use esc_calls::cell_row::CellRow;
pub use esc_calls::function_row::FunctionRow;
pub use esc_calls::image_value::ImageValue;
pub use esc_calls::in_chunks::InChunks;
pub use esc_calls::osc_value::OscValue;
pub use esc_calls::query_value::QueryValue;
pub use esc_calls::request_row::RequestRow;
pub use esc_calls::sanitizer_options::SanitizerOptions;
pub use esc_calls::screen_row::ScreenRow;
pub use esc_calls::sixel_value::SixelValue;
pub use esc_calls::string_row::StringRow;
pub use esc_calls::{
    DONE, NO_COMMAND, NO_MEMORY, NOT_BEGUN, NOT_WRITABLE, TOO_MANY_COLUMNS, TOO_MANY_ROWS,
    UNKNOWN_CHARACTERS, UNKNOWN_ENCODING, UNKNOWN_FRAMING, UNKNOWN_GROUP, UNKNOWN_LINKS,
    UNKNOWN_POLICY, UNKNOWN_RETURNS, UNKNOWN_SHOW, UNKNOWN_SIZE,
};
pub use filter::{
    escape_stream_filter, escape_stream_filter_begin, escape_stream_filter_end,
    escape_stream_filter_feed, escape_stream_filter_finish, escape_stream_filter_output,
};
pub use function::{
    escape_stream_control_function, escape_stream_escape_function, escape_stream_function,
};
pub use html::{
    escape_stream_html_begin, escape_stream_html_end, escape_stream_html_feed,
    escape_stream_html_finish, escape_stream_html_output,
};
pub use normal::{
    escape_stream_is_normal, escape_stream_normal, escape_stream_normal_begin,
    escape_stream_normal_end, escape_stream_normal_feed, escape_stream_normal_finish,
    escape_stream_normal_output,
};
pub use read::{
    escape_stream_read_kitty, escape_stream_read_osc, escape_stream_read_sixel,
    escape_stream_read_tcap,
};
pub use sanitizer::{
    escape_stream_sanitizer_account, escape_stream_sanitizer_begin, escape_stream_sanitizer_end,
    escape_stream_sanitizer_feed, escape_stream_sanitizer_finish, escape_stream_sanitizer_output,
};
pub use screen::{
    escape_stream_screen_begin, escape_stream_screen_cells, escape_stream_screen_changed,
    escape_stream_screen_end, escape_stream_screen_feed, escape_stream_screen_icon_name,
    escape_stream_screen_link, escape_stream_screen_link_id, escape_stream_screen_requests,
    escape_stream_screen_resize, escape_stream_screen_scrolled, escape_stream_screen_state_of,
    escape_stream_screen_text, escape_stream_screen_title,
};
pub use string::{
    escape_stream_apc_function, escape_stream_dcs_function, escape_stream_osc_function,
    escape_stream_string_named, escape_stream_string_row,
};
pub use write_kitty::escape_stream_write_kitty;
pub use write_osc::escape_stream_write_osc;
pub use write_sixel::escape_stream_write_sixel;
pub use write_tcap::escape_stream_write_tcap;
