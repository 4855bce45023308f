//! Movements of the cursor.

/// A movement of the cursor. Rows and columns are counted from 0, and a movement past the screen
/// stops at its edge.
#[derive(Clone, Copy)]
pub enum Motion {
    /// To the first column: CR.
    RowStart,
    /// So many columns back: BS, CUB, HPB.
    Left(u16),
    /// So many columns on: CUF, HPR.
    Right(u16),
    /// So many rows up, not past the top margin from below it: CUU.
    Up(u16),
    /// So many rows down, not past the bottom margin from above it: CUD.
    Down(u16),
    /// The same as up, and to the first column: CPL.
    UpToStart(u16),
    /// The same as down, and to the first column: CNL.
    DownToStart(u16),
    /// To this column: CHA, HPA.
    Column(u16),
    /// To this row, from the top margin on in origin mode: VPA.
    Row(u16),
    /// To this row and column: CUP, HVP.
    Position(u16, u16),
    /// So many tab stops on: HT, CHT. A wrap that is pending stays so.
    Tab(u16),
    /// So many tab stops back: CBT.
    BackTab(u16),
}
