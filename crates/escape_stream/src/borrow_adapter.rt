//! A sink that hands actions on as borrowed ones, from their place in the parser.
ghost use Rattle.std.specs.Prelude.{◌≡◌, [], ◌∷◌, IsTrue, true};
ghost use Rattle.std.specs.List.{list_all};
ghost use Rattle.esc_frame.specs.Scans.{is_text_byte};
ghost use Rattle.esc_sequences.specs.Csis.{csi_of, unspecified};
ghost use Rattle.esc_actions.specs.Values.{value_of};
ghost use Rattle.escape_stream.specs.Borrowed.{HasClearText, values_of};
ghost use Rattle.escape_stream.specs.Lent.{Lends, LendsNot, MayLend};

use crate::borrowed::ActionRef;
use crate::borrowing::BorrowingSink;
use esc_actions::Action;
use esc_parse::Sink;
use esc_sequences::CSI;
use esc_sequences::csi::{is_unspecified, short_rendition};
use esc_values::CsiParam;
use std::alloc::{AllocError, Allocator};
use std::str;

/// Hands each action on to a sink of borrowed actions. A run of text, a control sequence that has
/// no name and a command are borrowed from their place in the parser.
#[derive(Drop)]
pub struct BorrowAdapter<S> {
    /// The sink.
    pub sink: S,
    /// The characters of a run that were begun: none between two calls. Proofs alone speak of
    /// others, since a run is one call for all its characters.
    pub begun: [char; 0],
}

impl<S> BorrowAdapter<S> {
    /// Hands on to this sink.
    pub fn new(sink: S) -> BorrowAdapter<S>
        ensures sink { result.sink ≡ sink }
        ensures begun { result.begun ≡ [] }
    {
        BorrowAdapter { sink, begun: [] }
    }

    /// Returns the sink.
    pub fn into_sink(self) -> S
        ensures sink { result ≡ self.sink }
        ensures begun { self.begun ≡ [] }
    {
        let BorrowAdapter { sink, begun: _ } = self;
        sink
    }

    // Between two calls no character is begun, since there is no room for one.
    #[inline]
    fn nothing_begun(&self)
        ensures { self.now.begun ≡ [] }
    {
        let _begun = self.begun;
    }
}

impl<A: Allocator, S: BorrowingSink<Action<A>>> Sink<Action<A>> for BorrowAdapter<S> {
    ghost is_ready = { λ p. S.is_ready p.sink };

    ghost may = { λ p a. MayLend S.may p a };

    ghost takes = { λ p a q. Lends S.takes p a q };

    ghost refuses = { λ p a q. LendsNot S.refuses p a q };

    #[inline]
    fn receive(&mut self, action: Action<A>) -> Result<(), AllocError> {
        self.nothing_begun();
        self.sink.receive(lent(action))
    }

    #[inline]
    fn receive_text(&mut self, text: &[u8]) -> Result<(), AllocError> {
        self.nothing_begun();
        self.sink.receive(ActionRef::Text(as_str(text)))
    }

    #[inline]
    fn receive_str(&mut self, text: &str) -> Result<(), AllocError> {
        self.nothing_begun();
        self.sink.receive(ActionRef::Text(text))
    }

    // Hands the sequence on if it has no name. A rendition is made and received.
    #[inline]
    fn receive_sequence(
        &mut self,
        params: &[CsiParam],
        parameters_truncated: bool,
        control: u8,
    ) -> Result<bool, AllocError> {
        if !has_no_name(params, parameters_truncated, control) {
            return Ok(false);
        }
        self.nothing_begun();
        match self.sink.receive(ActionRef::Sequence {
            params,
            parameters_truncated,
            control,
        }) {
            Ok(()) => Ok(true),
            Err(error) => Err(error),
        }
    }

    #[inline]
    fn receive_command(&mut self, text: &[u8]) -> Result<bool, AllocError> {
        self.nothing_begun();
        match self.sink.receive(ActionRef::Command(text)) {
            Ok(()) => Ok(true),
            Err(error) => Err(error),
        }
    }

    // The next methods are as by default, and written out: at the type of an action, a method that
    // is taken over from the trait costs a proof some seconds more.
    #[inline]
    fn drops_sequences(&self, _control: u8) -> bool {
        false
    }

    #[inline]
    fn drops_images(&self) -> bool {
        false
    }
}

// Returns an action in the form in which it is handed on: by value if it is small.
#[inline(always)]
fn lent<'a, A: Allocator>(action: Action<A>) -> ActionRef<'a, Action<A>>
    ensures value { values_of result ≡ value_of action ∷ [] }
    ensures text { HasClearText result }
{
    match action {
        Action::Print(c) => ActionRef::Print(c),
        Action::Control(code) => ActionRef::Control(code),
        Action::CSI(CSI::Sgr(sgr)) => ActionRef::Sgr(sgr),
        other => ActionRef::Owned(other),
    }
}

// Returns whether a control sequence has no name, with one short rendition recognised first.
#[inline]
fn has_no_name(params: &[CsiParam], parameters_truncated: bool, control: u8) -> bool
    ensures { IsTrue result → csi_of params.now parameters_truncated control
        ≡ unspecified params.now parameters_truncated control ∷ [] }
{
    short_rendition(params, parameters_truncated, control).is_none()
        && is_unspecified(params, parameters_truncated, control)
}

// ASCII as a text.
#[inline]
fn as_str(text: &[u8]) -> &str
    requires { list_all is_text_byte text.now ≡ true }
    ensures { result.now ≡ text.now }
{
    unsafe { str::from_utf8_unchecked(text) }
}
