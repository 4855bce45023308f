//! The text that a stream prints.
ghost use Rattle.std.specs.Prelude.{◌≡◌, ◌-◌, get_or, length};
ghost use Rattle.esc_actions.specs.Values.{value_of};
ghost use Rattle.esc_sequences.specs.Csis.{csi_value};
ghost use Rattle.esc_values.specs.declared.csi_param.CsiParam.TheVariants.{P};
ghost use Rattle.typed_functions.specs.Functions.{value_of as function_value};
ghost use Rattle.line_collapse.specs.PrintedText.{bytes_of, chars_of, drawn_by, fills, is_dollar, made_by, made_in, repeated_by};

use crate::amount::Amount;
use esc_actions::Action;
use esc_parse::Sink;
use esc_sequences::CSI;
use esc_values::CsiParam;
use std::alloc::{AllocError, Allocator};
use typed_functions::{Edit, Escape, Function};

/// Counts the text that is printed on a screen of so many rows and columns.
#[derive(Clone, Copy)]
pub(crate) struct Printed {
    /// How many rows.
    pub rows: u16,
    /// How many columns.
    pub columns: u16,
    /// How much text.
    pub amount: Amount,
}

impl Printed {
    // How many characters a function makes at most.
    fn made_by(self, function: Function<'_>) -> u64
        ensures { result ≡ made_by self.rows self.columns (function_value function.entry) }
    {
        match function {
            Function::Edit(edit) => repeated_by(self.columns, edit),
            Function::Escape(escape) => drawn_by(self.rows, self.columns, escape),
            _ => 0,
        }
    }

    // How many characters an action prints or makes at most.
    fn chars_of<A: Allocator>(self, action: &Action<A>) -> u64
        ensures { result ≡ chars_of self.rows self.columns (value_of action.now) }
    {
        match action {
            Action::Print(_) => 1,
            Action::Esc(esc) => self.made_by(Function::of_escape(*esc)),
            Action::CSI(csi) => self.made_in(csi),
            _ => 0,
        }
    }

    // How many characters a control sequence makes at most.
    fn made_in<A: Allocator>(self, csi: &CSI<A>) -> u64
        ensures { result ≡ made_in self.rows self.columns (csi_value csi.now) }
    {
        if fills(csi) {
            (self.rows as u64).saturating_mul(self.columns as u64)
        } else {
            self.made_by(Function::of(csi))
        }
    }
}

// How many characters REP repeats at most on a row of so many columns.
fn repeated_by(columns: u16, edit: Edit) -> u64
    ensures { result ≡ repeated_by columns edit }
{
    match edit {
        Edit::Repeat(count) => count.as_one_based().min(columns as u64),
        _ => 0,
    }
}

// How many characters DECALN draws.
fn drawn_by(rows: u16, columns: u16, escape: Escape) -> u64
    ensures { result ≡ drawn_by rows columns escape }
{
    match escape {
        Escape::DecScreenAlignmentDisplay => (rows as u64).saturating_mul(columns as u64),
        _ => 0,
    }
}

// Whether it is DECFRA, which draws a character in each cell of a rectangle.
fn fills<A: Allocator>(csi: &CSI<A>) -> bool
    ensures { result ≡ fills (csi_value csi.now) }
{
    match csi {
        CSI::Sgr(_) => false,
        CSI::Unspecified(sequence) => {
            let sequence = sequence.as_ref();
            sequence.control == b'x' && ends_in_dollar(sequence.params.as_slice())
        }
    }
}

fn ends_in_dollar(params: &[CsiParam]) -> bool
    ensures { result ≡ is_dollar (get_or params.now (length params.now - 1) (P 0)) }
{
    match params.last() {
        Some(param) => is_dollar(*param),
        None => false,
    }
}

fn is_dollar(param: CsiParam) -> bool
    ensures { result ≡ is_dollar param }
{
    match param {
        CsiParam::P(byte) => byte == b'$',
        CsiParam::Integer(_) => false,
    }
}

// How many bytes the character has that an action prints.
fn bytes_of<A: Allocator>(action: &Action<A>) -> u64
    ensures { result ≡ bytes_of (value_of action.now) }
{
    match action {
        Action::Print(c) => c.len_utf8() as u64,
        _ => 0,
    }
}

impl<A: Allocator> Sink<Action<A>> for Printed {
    ghost use Rattle.line_collapse.specs.Tallies.{Prints};

    ghost is_ready = { λ _. Unit {0} };

    ghost may = { λ _ _. Unit {0} };

    ghost takes = { Prints };

    ghost refuses = { λ _ _ _. ⊥ };

    fn receive(&mut self, action: Action<A>) -> Result<(), AllocError> {
        let chars = self.chars_of(&action);
        let bytes = bytes_of(&action);
        self.amount.add(chars, bytes);
        Ok(())
    }

    fn receive_text(&mut self, text: &[u8]) -> Result<(), AllocError> {
        let count = text.len() as u64;
        self.amount.add(count, count);
        Ok(())
    }
}
