//! One step of the machine, over the references that a call is lent.
#![tactic(auto)]

ghost use Rattle.std.specs.Prelude.{◌≡◌, ◌||◌, ℕ, true, false, length, Ok};
ghost use Rattle.heapless_parser.specs.Asked.{Asked};
ghost use Rattle.heapless_parser.specs.Next.{both};
ghost use Rattle.heapless_parser.specs.Steps.{IsGivenBack, IsLentToNote, IsLentToStep, TakesStep};

use crate::event::{EscEvent, NONE};
use crate::load::load;
use crate::named::Named;
use crate::no_memory::NoMemory;
use crate::parser::EscParser;
use crate::recorder::Recorder;
use crate::text::BorrowedText;
use crate::unload::unload;
use esc_frame::machine::Machine;
use std::alloc::AllocError;
use std::marker::{Brand, PhantomData};

/// The references that were lent for a step, and its outcome.
#[derive(Drop)]
pub struct Borrow<'a, 'b, 'c> {
    pub memory: &'a mut [u8],
    pub out: &'b mut [u8],
    pub event: &'c mut EscEvent,
    /// The number of bytes taken.
    pub taken: usize,
    pub has_failed: bool,
}

// Takes a prefix of the bytes, at least one, and notes their events.
fn step_in<'a, 'b, 'c, N: Named>(
    parser: &mut EscParser,
    memory: &'a mut [u8],
    out: &'b mut [u8],
    event: &'c mut EscEvent,
    bytes: &[u8],
) -> Borrow<'a, 'b, 'c>
    requires asked { Asked event.old bytes.now }
    requires lent { IsLentToStep N.Named memory.ghost_name out.ghost_name event.ghost_name
        (length memory.old) (length out.old) }
    ensures step { TakesStep parser (both memory.old out.old)
        (both result.memory.now result.out.now) event.old result.event.now bytes.now result.taken
        result.has_failed }
    ensures lent { IsGivenBack memory.entry.ghost_name (length memory.old) out.entry.ghost_name
        event.entry.ghost_name result }
{
    let mut machine: Machine<BorrowedText<'a, N>, NoMemory> = load(parser, memory);
    let mut recorder: Recorder<'b, 'c, N> = listen(out, event);
    let (taken, has_failed) = taken_of(machine.parse_until_event(bytes, &mut recorder));
    parser.queued_kind = recorder.queued_kind;
    parser.queued_value = recorder.queued_value;
    unload(parser, &machine);
    into_parts(machine, recorder, taken, has_failed)
}

// Returns how many bytes were taken, and whether that failed.
fn taken_of(outcome: Result<usize, AllocError>) -> (usize, bool)
    ensures ok { result.1 ≡ false → outcome ≡ Ok (result.0) }
    ensures fails { (n : ℕ) → outcome ≡ Ok n → result.1 ≡ false }
    ensures none { result.1 ≡ true → result.0 ≡ 0 }
{
    match outcome {
        Ok(n) => (n, false),
        Err(_) => (0, true),
    }
}

// Returns a recorder that has noted nothing yet.
fn listen<'b, 'c, N: Named>(out: &'b mut [u8], event: &'c mut EscEvent) -> Recorder<'b, 'c, N>
    requires { IsLentToNote N.Named out.ghost_name event.ghost_name (length out.old) }
    ensures now { (result.out.now ≡ out.old) × (result.event.now ≡ event.old) }
    ensures queued { result.queued_kind ≡ NONE }
    ensures lost { result.is_lost ≡ false }
{
    Recorder {
        event,
        out,
        queued_kind: NONE,
        queued_value: 0,
        is_lost: false,
        of: PhantomData,
    }
}

// Gives back the references that were lent.
fn into_parts<'a, 'b, 'c, N: Named>(
    machine: Machine<BorrowedText<'a, N>, NoMemory>,
    recorder: Recorder<'b, 'c, N>,
    taken: usize,
    has_failed: bool,
) -> Borrow<'a, 'b, 'c>
    ensures lent { IsGivenBack N.kept N.room N.out N.event result }
    ensures now { (result.memory.now ≡ machine.entry.text.memory.now)
        × (result.out.now ≡ recorder.entry.out.now)
        × (result.event.now ≡ recorder.entry.event.now) }
    ensures taken { result.taken ≡ taken }
    ensures failed { result.has_failed ≡ (has_failed || recorder.entry.is_lost) }
{
    let Machine {
        state: _,
        pending: _,
        intermediates: _,
        body: _,
        short: _,
        header: _,
        text,
        alloc: _,
        limit: _,
    } = machine;
    let BorrowedText {
        memory,
        count: _,
        is_over: _,
        of: _,
    } = text;
    let Recorder {
        event,
        out,
        queued_kind: _,
        queued_value: _,
        is_lost,
        of: _,
    } = recorder;
    Borrow {
        memory,
        out,
        event,
        taken,
        has_failed: has_failed | is_lost,
    }
}

/// Takes a prefix of the bytes, at least one, and notes their events. Returns how many bytes were
/// taken, and whether that failed; no sound state fails. It is a function of its own, so that bytes
/// that need no machine need not pay for it.
#[inline(never)]
pub fn step(
    parser: &mut EscParser,
    memory: &mut [u8],
    out: &mut [u8],
    event: &mut EscEvent,
    bytes: &[u8],
) -> (usize, bool)
    requires { Asked event.old bytes.now }
    ensures { TakesStep parser (both memory.old out.old) (both memory.new out.new) event.old
        event.new bytes.now result.0 result.1 }
{
    let borrow = step_in::<Brand>(parser, memory, out, event, bytes);
    (borrow.taken, borrow.has_failed)
}
