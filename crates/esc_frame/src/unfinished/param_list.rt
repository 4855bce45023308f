//! This module defines a list of parameters that takes no memory.
#![tactic(auto)]

ghost use Rattle.std.specs.Prelude.{◌≡◌, ◌<◌, ◌++◌, [], ◌∷◌, length};

use esc_values::csi_param::CsiParam;
use std::marker::Model;

/// The list has at most 256 parameters, in an array that is filled at the first of them: an empty
/// list costs nothing to make. Contracts see the parameters.
#[derive(Drop)]
pub struct ParamList {
    cells: Option<[CsiParam; 256]>,
    count: usize,
}

impl Model for ParamList {
    ghost use Rattle.std.specs.Prelude.{List};
    ghost use Rattle.esc_values.specs.declared.csi_param.CsiParam.{CsiParam as Entry};
    ghost use Rattle.esc_frame.specs.Machine.Cells.{first_cells, HasCells};

    ghost Value = { List Entry };

    ghost view = { λ e. first_cells e.count e.cells };

    ghost invariant = { λ e. HasCells e.count e.cells };
}

impl ParamList {
    /// Returns an empty list.
    #[inline(always)]
    pub fn new() -> Self
        ensures { result ≡ [] }
    {
        ParamList {
            cells: None,
            count: 0,
        }
    }

    /// Drops all parameters.
    #[inline(always)]
    pub fn clear(&mut self)
        ensures { self.new ≡ [] }
    {
        self.count = 0;
    }

    /// Returns the number of parameters.
    #[inline(always)]
    pub fn len(&self) -> usize
        ensures { result ≡ length self.now }
    {
        self.count
    }

    /// Returns the parameters, in order.
    #[inline(always)]
    pub fn as_slice(&self) -> &[CsiParam]
        ensures { result.now ≡ self.now }
    {
        match &self.cells {
            Some(cells) => &cells[..self.count],
            None => &[],
        }
    }

    /// Adds a parameter at the end.
    #[inline(always)]
    pub fn push(&mut self, entry: CsiParam)
        requires { length self.old < 256 }
        ensures { self.new ≡ self.old ++ entry ∷ [] }
    {
        match &mut self.cells {
            Some(cells) => {
                cells[self.count] = entry;
                self.count += 1;
            }
            None => self.push_first(entry),
        }
    }

    // Adds the first parameter, for which the array is filled.
    #[inline(never)]
    fn push_first(&mut self, entry: CsiParam)
        requires { self.old ≡ [] }
        ensures { self.new ≡ entry ∷ [] }
    {
        let mut cells = [CsiParam::Integer(0); 256];
        cells[0] = entry;
        self.cells = Some(cells);
        self.count = 1;
    }
}
