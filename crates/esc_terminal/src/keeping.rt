//! A terminal that hands out the rows that are scrolled off.
ghost use Rattle.std.specs.Prelude.{◌≡◌, ◌⊎◌, IsTrue, OnErr, OnOk, map, take};
ghost use Rattle.std.specs.List.{FoldsTo};
ghost use Rattle.esc_actions.specs.declared.action.Action.TheVariants as action;
ghost use Rattle.esc_frame.specs.Scans.{IsRun, is_text_byte};
ghost use Rattle.esc_sequences.specs.Csis.{csi_value};
ghost use Rattle.esc_screen.specs.Scrolled.{gone_by, main_rows};
ghost use Rattle.esc_screen.specs.Screens.{grid_of, size_of};
ghost use Rattle.esc_terminal.specs.Kept.{HandsOut, HasColumns, KeepsAction, KeepsFunction, KeepsSequence, KeepsStep, has_room};
ghost use Rattle.esc_terminal.specs.Resized.{KeepsSize};
ghost use Rattle.typed_functions.specs.Functions.{value_of as function_value};
ghost use Rattle.fallible_alloc.specs.Refusals.{Refused};

use crate::rectangles::csi_step;
use crate::request::request_of;
use crate::rows::Rows;
use crate::state::State;
use crate::steps::{control_step, one_step, print_step};
use esc_actions::Action;
use esc_parse::Sink;
use esc_screen::Step;
use esc_sequences::CSI;
use memchr::memchr;
use std::alloc::{AllocError, Allocator, Global};
use typed_functions::Function;

/// The state of a terminal, and the sink of the rows that are scrolled off its screen.
#[derive(Drop)]
pub(crate) struct Keeping<R, A: Allocator = Global> {
    /// The state.
    pub state: State<A>,
    /// The sink.
    pub rows: R,
}

impl<R: Rows, A: Allocator + Copy> Keeping<R, A> {
    // Hands out the rows that a step is going to scroll off, other than REP.
    fn hand_out(&mut self, step: Step) -> Result<(), AllocError>
        ensures ok { OnOk result (HandsOut R.takes self.old
            (take (gone_by (size_of self.old.state.screen) (grid_of self.old.state.screen) step)
            self.old.state.screen.rows.items) self.new) }
        ensures failed { OnErr result R.fails }
    {
        for at in 0..self.state.screen.leaving(step) {
            let screen = &self.state.screen;
            let used = screen.used(at);
            self.rows
                .take_used(screen.row(at), used, &self.state.styles)?;
        }
        Ok(())
    }

    // Takes a step, once the rows that it scrolls off are handed out.
    fn take_step(&mut self, step: Step) -> Result<(), AllocError>
        ensures ok { OnOk result (KeepsStep R.takes self.old step self.new) }
        ensures failed { OnErr result R.fails }
    {
        let (part, count) = self.state.screen.parts(step);
        for _ in 0..count {
            self.state.screen.join_for(part);
            self.hand_out(part)?;
            self.state.screen.take(part);
        }
        Ok(())
    }

    // Hands out the first so many rows of the main screen.
    fn hand_out_first(&mut self, count: usize) -> Result<(), AllocError>
        ensures ok { OnOk result (HandsOut R.takes self.old
            (take count (main_rows (grid_of self.old.state.screen))) self.new) }
        ensures failed { OnErr result R.fails }
    {
        for at in 0..count.min(self.state.screen.main_height()) {
            let row = self.state.screen.main_row(at);
            self.rows.take_row(row, &self.state.styles)?;
        }
        Ok(())
    }

    /// Gives the screen so many columns and rows, once the rows that leave it are handed out.
    pub fn resize(&mut self, columns: u16, rows: u16) -> Result<(), AllocError>
        ensures ok { OnOk result (KeepsSize R.takes self.old rows columns self.new) }
        ensures failed { OnErr result (Refused A ⊎ R.fails) }
    {
        let leaving = self.state.screen.leaving_rows(rows);
        self.hand_out_first(leaving)?;
        self.state.resize(columns, rows)
    }

    // Whether the row of the cursor has columns for so many characters.
    fn has_room(&self, count: usize) -> bool
        ensures { result ≡ has_room count self.now.state }
    {
        let cursor = self.state.screen.cursor();
        let columns = self.state.screen.width();
        !cursor.pending && count <= columns.saturating_sub(cursor.column) as usize
    }

    // Whether that of the cursor has columns for these, and none is DEL.
    fn has_columns(&self, text: &[u8]) -> bool
        requires { IsRun is_text_byte text.now }
        ensures { IsTrue result → HasColumns text.now self.now.state }
    {
        match memchr(0x7f, text) {
            None => self.has_room(text.len()),
            Some(_) => false,
        }
    }

    // Prints characters for which its row has columns.
    fn print_here(&mut self, text: &[u8])
        requires run { IsRun is_text_byte text.now }
        requires fits { HasColumns text.now self.old.state }
        ensures { FoldsTo (KeepsAction R.takes) self.old (map action.Print text.now) self.new }
    {
        self.state.print_all(text);
    }

    // Prints characters, one byte each, one by one.
    fn print_each(&mut self, text: &[u8]) -> Result<(), AllocError>
        ensures ok { OnOk result (FoldsTo (KeepsAction R.takes) self.old
            (map action.Print text.now) self.new) }
        ensures failed { OnErr result R.fails }
    {
        for b in text {
            self.take_step(print_step(*b as char))?;
        }
        Ok(())
    }

    // Takes what a function asks for.
    fn take_function(&mut self, function: Function<'_>) -> Result<(), AllocError>
        ensures ok { OnOk result (KeepsFunction R.takes self.old (function_value function.entry)
            self.new) }
        ensures failed { OnErr result (Refused A ⊎ R.fails) }
    {
        match one_step(self.state.screen.cursor(), function) {
            Some(step) => {
                self.take_step(step)?;
                self.state.ask(request_of(function))
            }
            None => self.state.take_function(function),
        }
    }

    // Takes a control sequence. A step of a rectangle scrolls nothing off.
    fn take_csi(&mut self, csi: &CSI<A>) -> Result<(), AllocError>
        ensures ok { OnOk result (KeepsSequence R.takes self.old (csi_value csi.now) self.new) }
        ensures failed { OnErr result (Refused A ⊎ R.fails) }
    {
        let function = Function::of(csi);
        self.take_function(function)?;
        self.state.screen.take(csi_step(csi));
        Ok(())
    }
}

/// Each action has the effect of its value.
impl<R: Rows, A: Allocator + Copy> Sink<Action<A>> for Keeping<R, A> {
    ghost is_ready = { λ _. Unit {0} };

    ghost may = { λ _ _. Unit {0} };

    ghost takes = { KeepsAction R.takes };

    ghost refuses = { λ p a q. Refused A ⊎ R.fails };

    #[tactic(auto, using(crate::proofs::Handed::lead_rows))]
    fn receive(&mut self, action: Action<A>) -> Result<(), AllocError> {
        match action {
            Action::Print(c) => self.take_step(print_step(c)),
            Action::Control(code) => self.take_step(control_step(code)),
            Action::Esc(esc) => self.take_function(Function::of_escape(esc)),
            Action::CSI(csi) => self.take_csi(&csi),
            Action::OperatingSystemCommand(command) => {
                self.state.take(Action::OperatingSystemCommand(command))
            }
            other => self.state.take(other),
        }
    }

    fn receive_text(&mut self, text: &[u8]) -> Result<(), AllocError> {
        if self.has_columns(text) {
            self.print_here(text);
            return Ok(());
        }
        self.print_each(text)
    }

    fn drops_images(&self) -> bool {
        true
    }
}
