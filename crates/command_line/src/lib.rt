//! The parts that the programs have in common: the reading of their words, the text of a word, the
//! streams that they read, and the ways in which one ends and why.
#![tactic(auto)]

mod apart;
mod arguments;
mod ending;
mod faults;
mod files;
mod nearness;
mod noting;
mod packed;
mod reading;
mod reason;
mod showing;
mod sizes;
mod table;
mod wrong;

pub use apart::{Apart, wrong_apart};
pub use arguments::{NO_TEXT, is_text, program_words};
pub use ending::{
    DONE, Ended, FAULT, Place, USAGE_FAULT, ended_by, last_status, refused, status_after,
    status_of_text, tell, unread, unwritable, unwritten,
};
pub use files::{INPUT, OUTPUT, Work, take_opened, work_through};
pub use noting::ErrorCapture;
pub use output_file::open_closed;
pub use packed::{Packed, PackedFile, packed_in};
pub use reading::{Found, Given, bits_are_words, read};
pub use reason::Reason;
pub use showing::Shown;
pub use table::{Known, Takes};
pub use unicode_visibility::is_shown;
pub use wrong::Wrong;
