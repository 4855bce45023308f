//! Making a machine of a parser's numbers.
#![tactic(auto)]

ghost use Rattle.std.specs.Prelude.{◌≡◌, ℕ, List, length, Some};
ghost use Rattle.esc_frame.specs.Leads.{Unfinished, Holds};
ghost use Rattle.esc_frame.specs.Machine.Keeps.{Keeps, KeepsDcs};
ghost use Rattle.heapless_parser.specs.States.{FirstIn, HeaderIn, KeptIn};

use crate::csi_params::body_in;
use crate::named::Named;
use crate::no_memory::NoMemory;
use crate::numbers::{CSI_STATE, form_of, pending_in, state_of};
use crate::parser::EscParser;
use crate::text::BorrowedText;
use esc_frame::machine::Machine;
use esc_frame::unfinished::body::CsiBody;
use esc_frame::unfinished::header::DcsHeader;
use esc_frame::unfinished::intermediates::Intermediates;
use esc_frame::unfinished::store::TextRoom;
use esc_values::csi_param::CsiParam;
use std::marker::PhantomData;

#[tactic(auto, using(crate::proofs::KeptState::PartsOfMachine::first_loaded))]
fn first_in(parser: &EscParser) -> Intermediates
    ensures { (x : List ℕ) → FirstIn parser.now x → Keeps result x }
{
    Intermediates {
        bytes: parser.intermediates,
        kept: parser.kept.min(2),
        ignored: parser.has_more,
    }
}

fn header_in(parser: &EscParser) -> DcsHeader
    ensures { (x : List ℕ) → HeaderIn parser.now x → KeepsDcs result x }
{
    DcsHeader {
        form: form_of(parser.form),
        intermediates: first_in(parser),
    }
}

/// Returns the machine of this parser, over the memory that it was lent, whose length is its limit.
pub fn load<'a, N: Named>(
    parser: &EscParser,
    memory: &'a mut [u8],
) -> Machine<BorrowedText<'a, N>, NoMemory>
    requires same { memory.ghost_name ≡ N.kept }
    requires room { length memory.old ≡ N.room }
    ensures holds { (u : Unfinished) → KeptIn parser.now memory.old u
        → Holds ⟦<BorrowedText<'a, N> as TextRoom>⟧.keeps (Some N.room) result u }
    ensures limit { result.limit ≡ Some N.room }
{
    let room = memory.len();
    let count = parser.text.min(room);
    Machine {
        state: state_of(parser.state),
        pending: pending_in(parser),
        intermediates: first_in(parser),
        body: if parser.state == CSI_STATE {
            body_in(parser)
        } else {
            CsiBody::new()
        },
        short: [CsiParam::Integer(0); 32],
        header: header_in(parser),
        text: BorrowedText {
            memory,
            count,
            is_over: parser.is_over,
            of: PhantomData,
        },
        alloc: NoMemory,
        limit: Some(room),
    }
}
