//! Storing a machine in a parser's numbers.
#![tactic(auto)]

ghost use Rattle.std.specs.Prelude.{◌≡◌, ℕ, List, Some};
ghost use Rattle.esc_frame.specs.Leads.{Unfinished, Holds};
ghost use Rattle.esc_frame.specs.Machine.Prefixes.{prefix_of};
ghost use Rattle.esc_frame.specs.Machine.Keeps.{Keeps, KeepsBody, KeepsDcs};
ghost use Rattle.heapless_parser.specs.States.{FirstIn, HeaderIn, BodyIn, KeptIn};
ghost use Rattle.heapless_parser.specs.Runs.{IsDueAs};
ghost use Rattle.heapless_parser.specs.Steps.{IsPlacedAt, KeepsParts};

use crate::csi_params::put_body;
use crate::named::Named;
use crate::no_memory::NoMemory;
use crate::numbers::{number_of_form, number_of_state, numbers_of_pending};
use crate::parser::EscParser;
use crate::text::BorrowedText;
use esc_frame::machine::{Machine, State};
use esc_frame::unfinished::header::DcsHeader;
use esc_frame::unfinished::intermediates::Intermediates;
use esc_frame::unfinished::store::TextRoom;
use esc_frame::utf8::sequence::Pending;

#[tactic(auto, using(crate::proofs::KeptState::PartsOfMachine::first_stored))]
fn put_first(parser: &mut EscParser, first: &Intermediates)
    ensures first { (x : List ℕ) → Keeps first.now x → FirstIn parser.new x }
    ensures due { IsDueAs parser.new parser.old }
{
    parser.intermediates = first.bytes;
    parser.kept = first.kept;
    parser.has_more = first.ignored;
}

fn put_header(parser: &mut EscParser, header: &DcsHeader)
    ensures header { (x : List ℕ) → KeepsDcs header.now x → HeaderIn parser.new x }
    ensures due { IsDueAs parser.new parser.old }
{
    put_first(parser, &header.intermediates);
    parser.form = number_of_form(header.form);
}

// Stores the numbers that are kept in each state.
fn put_place(parser: &mut EscParser, state: State, pending: Pending, text: usize, is_over: bool)
    ensures place { IsPlacedAt parser.new state (prefix_of pending) text is_over }
    ensures parts { KeepsParts parser }
    ensures due { IsDueAs parser.new parser.old }
{
    let (count, first, second, third) = numbers_of_pending(pending);
    parser.state = number_of_state(state);
    parser.pending = count;
    parser.first = first;
    parser.second = second;
    parser.third = third;
    parser.text = text;
    parser.is_over = is_over;
}

// Stores the numbers that are kept in some states alone.
fn put_parts<K: TextRoom>(parser: &mut EscParser, machine: &Machine<K, NoMemory>)
    ensures first { (x : List ℕ) → machine.now.state ≡ State.Escape
        → Keeps machine.now.intermediates x → FirstIn parser.new x }
    ensures body { (x : List ℕ) → machine.now.state ≡ State.Csi → KeepsBody machine.now.body x
        → BodyIn parser.new x }
    ensures header { (x : List ℕ) → machine.now.state ≡ State.Dcs → KeepsDcs machine.now.header x
        → HeaderIn parser.new x }
    ensures due { IsDueAs parser.new parser.old }
{
    match machine.state {
        State::Escape => put_first(parser, &machine.intermediates),
        State::Csi => put_body(parser, &machine.body),
        State::Dcs => put_header(parser, &machine.header),
        State::Ground | State::Osc | State::Data | State::Ignored | State::Apc => {}
    }
}

/// Stores a machine in a parser's numbers, and in the memory that it was lent.
pub fn unload<'a, N: Named>(
    parser: &mut EscParser,
    machine: &Machine<BorrowedText<'a, N>, NoMemory>,
)
    ensures kept { (u : Unfinished)
        → Holds ⟦<BorrowedText<'a, N> as TextRoom>⟧.keeps (Some N.room) machine.now u
        → KeptIn parser.new machine.now.text.memory.now u }
    ensures due { IsDueAs parser.new parser.old }
{
    put_parts(parser, machine);
    put_place(
        parser,
        machine.state,
        machine.pending,
        machine.text.count,
        machine.text.is_over,
    );
}
