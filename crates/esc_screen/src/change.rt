//! Changes of cells.

use crate::area::Area;

/// A change of the cells of a screen, other than by printing. No wrap is pending after one that
/// erases, inserts or deletes cells, nor after a line feed.
#[derive(Clone, Copy)]
pub enum Change {
    /// A row down; at the bottom margin the rows within the margins move up: IND.
    Index,
    /// A row up; at the top margin the rows within the margins move down: RI.
    ReverseIndex,
    /// As [`Change::Index`], and to the first column if [`Mode::NewLine`](crate::Mode::NewLine) is
    /// set or the screen [returns](crate::Screen::returning): LF.
    LineFeed,
    /// As [`Change::Index`], and to the first column if the mode is set: VT, FF.
    FormFeed,
    /// As [`Change::Index`], and to the first column: NEL.
    NextLine,
    /// The cell at the cursor and all after it in the row become blank: EL 0.
    EraseRight,
    /// The cell at the cursor and all before it in the row become blank: EL 1.
    EraseLeft,
    /// The row becomes blank: EL 2.
    EraseRow,
    /// The cell at the cursor, all after it and all rows below become blank: ED 0.
    EraseBelow,
    /// The cell at the cursor, all before it and all rows above become blank: ED 1.
    EraseAbove,
    /// All cells become blank: ED 2.
    EraseAll,
    /// So many cells from the cursor on become blank: ECH.
    EraseCells(u16),
    /// So many blank cells are put in at the cursor, and the last ones go: ICH.
    InsertCells(u16),
    /// So many cells from the cursor on go, and blank ones come at the end: DCH.
    DeleteCells(u16),
    /// So many blank rows are put in at the cursor, within the margins: IL.
    InsertRows(u16),
    /// So many rows from the cursor on go, within the margins: DL.
    DeleteRows(u16),
    /// The rows within the margins move up by so many: SU.
    ScrollUp(u16),
    /// The rows within the margins move down by so many: SD.
    ScrollDown(u16),
    /// The cells of the rows within the margins, if the cursor is within them, move so many columns
    /// back: SL.
    ScrollLeft(u16),
    /// The cells of the rows within the margins, if the cursor is within them, move so many columns
    /// on: SR.
    ScrollRight(u16),
    /// So many blank columns are put in at the cursor, within the margins: DECIC.
    InsertColumns(u16),
    /// So many columns from the cursor on go, within the margins: DECDC.
    DeleteColumns(u16),
    /// A column back; in the first one, a blank column is put in there, within the margins: DECBI.
    BackIndex,
    /// A column on; in the last one, the first column goes, within the margins: DECFI.
    ForwardIndex,
    /// The cells of a rectangle become blank: DECERA. The cursor stays, and so does a wrap that is
    /// pending.
    EraseArea(Area),
    /// The cells of a rectangle become this character of one column, which looks as characters do
    /// that come: DECFRA. The cursor stays, and so does a wrap that is pending.
    FillArea(char, Area),
    /// An `E` in every cell, no margins, and the cursor at home: DECALN.
    Align,
}
