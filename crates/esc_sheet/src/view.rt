//! The view of a screen.

use esc_links::Hyperlink;
use esc_screen::{Cell, Content, Screen};
use esc_sgr::is_first;
use esc_style::Look;
use esc_terminal::Styles;
use std::alloc::{Allocator, Global};

/// The visible part of a screen: its cells, their looks, and the names of its window.
#[derive(Clone, Copy)]
pub struct View<'a> {
    /// The screen.
    pub screen: &'a Screen,
    /// The looks of its cells and their links, by the numbers that they have.
    pub styles: &'a Styles,
    /// The title of its window, if it has one.
    pub title: Option<&'a str>,
    /// The name of its icon, if it has one.
    pub icon_name: Option<&'a str>,
    /// Says whether looks and links are seen. If not, all cells look plain.
    pub has_looks: bool,
}

impl<'a> View<'a> {
    /// Returns the cells of a row, from 0 on.
    pub fn row(&self, at: u16) -> &'a [Cell] {
        self.screen.row(at as usize)
    }

    /// Says how its cells look.
    pub(crate) fn seen(&self) -> Seen<'a, Global> {
        Seen {
            styles: self.styles,
            has_looks: self.has_looks,
            is_reversed: self.screen.modes().reversed,
        }
    }

    /// Says how a cell looks.
    pub(crate) fn look_of(&self, cell: &Cell) -> Look {
        self.seen().look_of(cell)
    }

    /// Says how cells look that have the look of this number.
    pub fn look_at(&self, number: u16) -> Look {
        self.seen().look_at(number)
    }

    /// Returns the link of a cell, if it has one.
    pub(crate) fn link_of(&self, cell: &Cell) -> Option<&'a Hyperlink> {
        self.seen().link_at(cell.look)
    }

    /// Returns whether nothing is seen of a cell: it is blank and looks plain.
    pub(crate) fn hides(&self, cell: &Cell) -> bool {
        self.seen().hides(cell)
    }
}

/// The looks of cells and their links, by their numbers.
#[derive(Clone, Copy)]
pub(crate) struct Seen<'a, A: Allocator> {
    /// The looks and links that have these numbers.
    pub styles: &'a Styles<A>,
    /// Says whether looks and links are seen. If not, all cells look plain.
    pub has_looks: bool,
    /// Says whether every cell is inverse.
    pub is_reversed: bool,
}

impl<'a, A: Allocator + Copy> Seen<'a, A> {
    /// Says how a cell looks.
    pub(crate) fn look_of(&self, cell: &Cell) -> Look {
        self.look_at(cell.look)
    }

    /// Says how cells look that have the look of this number.
    pub(crate) fn look_at(&self, number: u16) -> Look {
        if !self.has_looks {
            return Look::plain();
        }
        let mut look = self.styles.look_at(number);
        look.inverse = look.inverse != self.is_reversed;
        look
    }

    /// Returns the number of the link to which cells of this number lead, if they lead somewhere.
    pub(crate) fn link_number(&self, number: u16) -> Option<u16> {
        if self.has_looks {
            self.styles.link_number(number)
        } else {
            None
        }
    }

    /// Returns the link to which cells of this number lead.
    pub(crate) fn link_at(&self, number: u16) -> Option<&'a Hyperlink<A>> {
        if self.has_looks {
            self.styles.link_at(number)
        } else {
            None
        }
    }

    /// Returns whether nothing is seen of a cell: it is blank and looks plain.
    pub(crate) fn hides(&self, cell: &Cell) -> bool {
        match cell.content {
            Content::Blank => is_first(&self.look_of(cell)),
            Content::Narrow(_, _) | Content::Wide(_, _) | Content::Rest => false,
        }
    }

    /// Returns whether nothing is seen of cells.
    pub(crate) fn hides_all(&self, cells: &[Cell]) -> bool {
        for cell in cells {
            if !self.hides(cell) {
                return false;
            }
        }
        true
    }
}
