//! Streams that come in chunks.
ghost use Rattle.std.specs.Prelude.{◌≡◌, IfErr, IfOk, IsOkAnd, map};
ghost use Rattle.std.specs.List.{flat_map};
ghost use Rattle.esc_actions.specs.Headline.{Headline};
ghost use Rattle.esc_actions.specs.Meaning.{meaning};
ghost use Rattle.esc_actions.specs.Values.{value_of};
ghost use Rattle.fallible_alloc.specs.Refusals.{Refused};

use esc_actions::{Action, laws};
use esc_frame::error::ParseError;
use esc_parse::{Collect, Parser};
use std::alloc::Allocator;

/// Returns the actions of a stream that comes in these chunks, whatever the chunks are.
///
/// The clause `returned` has no premise. It says of each list that the call returns: the stream has
/// exactly one cut into segments; the actions are the readings of the segments, in order; each is
/// writable, but for four exceptions; and if the stream is the text of a writable list, they are
/// the list's normal list, which has the same text. The clause `headline` adds that the call
/// returns a list while no request for memory is refused. So the two say in one statement how this
/// crate reads and writes.
///
/// `ParseError::Memory` says that a request for memory was refused; the actions so far are dropped.
pub fn parse_chunks<A: Allocator + Copy>(
    alloc: A,
    input_chunks: &[&[u8]],
) -> Result<Vec<Action<A>, A>, ParseError>
    ensures given { IfOk result (λ v.
        map value_of v.items ≡ meaning (flat_map (λ p. p.now) input_chunks.now)) }
    ensures returned { IfOk result (λ v.
        Headline (flat_map (λ p. p.now) input_chunks.now) (map value_of v.items)) }
    ensures headline { (Refused A → ⊥)
        → IsOkAnd result (λ v. Headline (flat_map (λ p. p.now) input_chunks.now)
        (map value_of v.items)) }
    ensures refused { IfErr result (λ e. (e ≡ ParseError.Memory) × Refused A) }
{
    laws::headline::<A>();
    join_chunks(alloc, input_chunks)
}

fn join_chunks<A: Allocator + Copy>(
    alloc: A,
    input_chunks: &[&[u8]],
) -> Result<Vec<Action<A>, A>, ParseError>
    ensures given { IfOk result (λ v.
        map value_of v.items ≡ meaning (flat_map (λ p. p.now) input_chunks.now)) }
    ensures refused { IfErr result (λ e. (e ≡ ParseError.Memory) × Refused A) }
{
    let mut parser = Parser::new(alloc);
    let mut actions = Vec::new(alloc);
    for input_chunk in input_chunks {
        let (result, Collect { actions: more }) = parser.parse_into(
            input_chunk,
            Collect { actions },
        );
        actions = more;
        result?;
    }
    Ok(actions)
}
