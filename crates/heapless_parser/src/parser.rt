//! The state of a parser between two calls, as numbers alone.
#![tactic(auto)]

ghost use Rattle.std.specs.Prelude.{◌≡◌, ◌↔◌, List, ℕ, [], IsTrue, false, true};
ghost use Rattle.esc_frame.specs.Events.{Event};
ghost use Rattle.esc_frame.specs.Stream.{IsAtGround};
ghost use Rattle.heapless_parser.specs.States.{HasConsumed};

use crate::event::EscEntry;
use crate::numbers::{pending_in, state_of};
use esc_frame::machine::State;
use esc_frame::utf8::sequence::Pending;

/// A parser, in the caller's memory. Its fields are its own: a caller reads none and writes none.
#[repr(C)]
#[derive(Drop)]
pub struct EscParser {
    /// The number of its state.
    pub state: u32,
    /// The number of bytes of a character that have come, and these bytes.
    pub pending: u32,
    pub first: u8,
    pub second: u8,
    pub third: u8,
    /// The intermediates of an escape sequence or of the header of a device control string.
    pub intermediates: [u8; 2],
    pub kept: usize,
    pub has_more: bool,
    /// The number of the form of the body of a control sequence, or of that header, so far.
    pub form: u32,
    /// The parameters of a control sequence.
    pub count: usize,
    pub csi_params: [EscEntry; 256],
    pub is_truncated: bool,
    /// Whether digits come last, and their number.
    pub is_open: bool,
    pub number: u64,
    /// The length of the kept text of a string, and whether the string is past the limit.
    pub text: usize,
    pub is_over: bool,
    /// The queued character or control, which the next call hands out.
    pub queued_kind: u32,
    pub queued_value: u32,
    /// Whether the parser has failed.
    pub has_failed: bool,
}

impl EscParser {
    /// Returns a parser at the beginning of a stream.
    #[tactic(auto, unfolding(crate::specs::States::HasConsumed, esc_frame::specs::Stream::events_within))]
    pub fn new() -> Self
        ensures { (memory : List ℕ) → HasConsumed [] [] result memory }
    {
        EscParser {
            state: 0,
            pending: 0,
            first: 0,
            second: 0,
            third: 0,
            intermediates: [0; 2],
            kept: 0,
            has_more: false,
            form: 0,
            count: 0,
            csi_params: [EscEntry::none(); 256],
            is_truncated: false,
            is_open: false,
            number: 0,
            text: 0,
            is_over: false,
            queued_kind: 0,
            queued_value: 0,
            has_failed: false,
        }
    }

    /// Returns whether no character, sequence or string of the stream so far is unfinished. After a
    /// failure it is false.
    pub fn is_ground(&self) -> bool
        ensures ground { (s : List ℕ) (es : List Event) (memory : List ℕ)
            → HasConsumed s es self.now memory → IsTrue result ↔ IsAtGround s }
        ensures failed { self.now.has_failed ≡ true → result ≡ false }
    {
        if self.has_failed {
            return false;
        }
        match (state_of(self.state), pending_in(self)) {
            (State::Ground, Pending::Nothing) => true,
            _ => false,
        }
    }
}
