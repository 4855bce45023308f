// SPDX-License-Identifier: MIT
//! Readers that stand before a page of a log: of its first or last lines ([`Window`]), with links
//! around addresses in its text ([`Linking`]), with renditions in the place of overstruck
//! characters ([`Striking`]), group after group ([`Sections`]), up to each image in it
//! ([`Pictures`]), and of the text of a recording ([`Casting`]).
#![tactic(auto)]

mod address;
mod canvas;
mod carried;
mod casting;
mod colors;
mod commands;
mod deflate;
mod emphasis;
mod files;
mod found;
mod leads;
mod linker;
mod linking;
mod marks;
mod picture;
mod pictures;
mod png;
mod sections;
mod sixels;
mod stamp;
mod striker;
mod striking;
mod titles;
mod window;

pub use casting::{Casting, Recorded};
pub use linking::Linking;
pub use marks::Mark;
pub use picture::{Kind, MOST_PIXELS, Picture};
pub use pictures::{LeftOut, Pictures};
pub use sections::{MOST_DEPTH, Sections};
pub use stamp::{Stamp, stamp_of};
pub use striking::Striking;
pub use window::{Cut, Window};
