//! The account of a filter: the fate of every byte of a stream.
//!
//! A stream is cut into segments, as a parser cuts it, and a [`Judge`] says the fate of each: a
//! [`PolicyJudge`] judges as a filter does. Its bytes are counted by their [`Fate`], so that each
//! byte of the input is in the output as it came, or in one of the other sums. An [`Account`] goes
//! on line by line, or from one place without an unfinished segment to the next. A line that was
//! written as it came passed, and is not cut.
//!
//! ```
//! let judge = PolicyJudge::by_lines(alloc, 65_536, Policy::Color, Unicode::Keep);
//! let line = b"a\x1b]0;title\x1b\\b\n";
//! let account = Account::new().line_entered(&judge, line, b"ab\n")?;
//! account.sums.passed       // 3
//! account.sums.left_out     // 11: the title and its terminator
//! ```
#![tactic(auto)]

pub mod account;
mod at_once;
pub mod audience;
pub mod audited;
pub mod book;
mod brief;
mod command;
pub mod entry;
pub mod fate;
mod feeds;
mod first;
pub mod judge;
mod kept;
pub mod laws;
pub mod ledger;
pub mod line_ledger;
mod line_run;
pub mod place;
pub mod policy_judge;
pub mod reading;
mod rendition;
mod room;
pub mod row;
mod same_lines;
mod sequence;
pub mod sums;
pub mod table;
mod terminator;
mod text;
pub mod verdict;
mod weighed;
mod weighing;
mod whole_lines;

pub use account::Account;
pub use audience::Tap;
pub use audited::Audited;
pub use book::{Book, NoBook};
pub use entry::Entry;
pub use fate::Fate;
pub use judge::Judge;
pub use ledger::Ledger;
pub use line_ledger::LineLedger;
pub use place::Place;
pub use policy_judge::PolicyJudge;
pub use reading::{read_segment, read_short};
pub use row::Row;
pub use sums::Sums;
pub use table::Table;
pub use verdict::Verdict;
