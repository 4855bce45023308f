//! A filter for terminal streams of unknown origin: it writes only those actions of a stream that a
//! policy admits, as they come.
//!
//! [`filter_stream`] reads a stream and writes the text of those of its actions that a [`Policy`],
//! or an [`Admit`] of the caller's own, admits; [`Filter`] does it chunk by chunk. The output reads
//! back as these actions and as nothing else, so no text of the stream becomes a sequence, however
//! broken it is. A [`Guard`] says how characters and carriage returns that hide or reorder text are
//! written. [`Encoder`] writes actions one at a time.
//!
//! ```text
//! let mut filter = Filter::new(alloc, 65_536, Policy::Color);
//! filter.feed(b"\x1b]0;title\x07\x1b[1mbold")?;
//! filter.output()     // "\x1b[1mbold"
//! ```
#![tactic(auto)]

mod admit;
mod concealed;
mod encoder;
mod feeding;
mod filter;
mod filtering;
mod function_groups;
mod giving_back;
mod group;
mod groups;
mod guard;
mod kept_modes;
mod known;
mod laws;
mod leaving;
mod line_filter;
mod links;
mod passing;
mod pens;
mod plain_lines;
mod policy;
mod resuming;
mod returns;
mod saved;
mod schemes;
mod screen;
mod terminal;
mod text;
mod unicode;
mod written;

pub use admit::{Admit, passes};
pub use encoder::Encoder;
pub use esc_normal::{FilterError, MOST_READS, StreamFilter, pump};
pub use filter::Filter;
pub use filtering::{filter_lines, filter_stream};
pub use group::Group;
pub use groups::Groups;
pub use guard::Guard;
pub use known::Known;
pub use laws::{
    closing_comes_last, lines_read_back, lines_written, nothing_given_back_twice, nothing_strays,
    passed_more, passed_reads_back, policies_are_groups, rest_is_whole, screen_is_not_answered,
    some_groups_admit_less, terminal_as_at_the_start, writes_color_text, writes_plain_text,
    written_lines_read_back, written_reads_back,
};
pub use line_filter::{LineFilter, line_length};
pub use policy::Policy;
pub use resuming::ResumingFilter;
pub use returns::Returns;
pub use schemes::is_scheme;
pub use unicode::Unicode;
pub use unicode_visibility::{is_deceiving, may_follow};
