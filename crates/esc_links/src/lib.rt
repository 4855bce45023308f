//! This crate has hyperlinks, after "Hyperlinks in terminal emulators"
//! (<https://gist.github.com/egmontkob/eb114294efbcd5adb1944c9f3cb5feda>).
//!
//! `OSC 8 ; id=a ; https://example.com ST` opens a link: `Hyperlink::new_with_id(alloc,
//! "https://example.com", "a")?` is its value, which prints as `8;id=a;https://example.com`.
//!
//! A user of this library takes these names from `esc_below` or `esc_osc`.
#![tactic(auto)]

pub mod hyperlink;
pub mod laws;
pub mod params;

pub use hyperlink::Hyperlink;
pub use params::Params;
