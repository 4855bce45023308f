//! The work of the program.
ghost use Rattle.std.specs.Prelude.{◌≡◌, ◌<◌, ℕ, Option, IfOk, IfSome, None, OnOk, Some, map, string_bytes};
ghost use Rattle.std.specs.Io.KnownBytes.{Appends, IsAtEnd};
ghost use Rattle.escnorm.specs.Tasks.{IsNormalised, IsVerdict, task_of};
ghost use Rattle.esc_normal.specs.Io.{inner_of};
ghost use Rattle.esc_normal.specs.Normalising.{normal_form};
ghost use Rattle.esc_normal.specs.Whole.{WritesText};
ghost use Rattle.esc_actions.specs.Meaning.{meaning_within};
ghost use Rattle.esc_actions.specs.Texts.{list_text};

use crate::task::Task;
use esc_normal::{
    FilterError, NormaliseError, Watched, is_normal, is_normal_limited, normalise,
    normalise_limited, normalise_stream,
};
use std::alloc::Allocator;
use std::io::{Read, Write};

const DONE: u8 = 0;

const FAULT: u8 = 1;

const USAGE: u8 = 2;

const DIFFERENT: u8 = 3;

/// When the program writes.
#[derive(Clone, Copy)]
pub enum Order {
    /// It writes as it reads.
    AsItReads,
    /// It writes once it has read all, if the output is also the input: the input has an end then.
    OnceRead,
}

/// Does the task of these words, the program's arguments, and returns the status it ends with.
///
/// Without words it normalises `input` to `output`, in this order: status 0. With `--check` it
/// compares `input` with its normal form, and writes nothing: status 0 if they are equal, 3 if they
/// differ. With `--limit` and a number after these it does so through a parser that keeps no more
/// bytes of a segment. If a fault stops that, status 1, with a line on `faults` that names the
/// fault; then a prefix of the normal form was written. Any other words are status 2, with the
/// usage on `faults`, and nothing is read or written. If a line cannot be written the status stays.
pub fn run<A: Allocator + Copy, R: Read, W: Write, E: Write>(
    alloc: A,
    words: &[String],
    order: Order,
    input: &mut Watched<R>,
    output: &mut Watched<W>,
    faults: &mut E,
) -> u8
    ensures usage { task_of (map string_bytes words.now) ≡ None
        → (result ≡ 2) × (input.new ≡ input.old) × (output.new ≡ output.old) }
    ensures normalised { (limit : Option ℕ)
        → task_of (map string_bytes words.now) ≡ Some (Task.Normalise limit)
        → IsNormalised A limit (R.remaining (inner_of input.old)) (R.remaining (inner_of input.new))
        (W.contents (inner_of output.old)) (W.contents (inner_of output.new)) result }
    ensures checked { (limit : Option ℕ)
        → task_of (map string_bytes words.now) ≡ Some (Task.Check limit)
        → IfSome (R.remaining (inner_of input.old)) (λ s. IsVerdict A limit s result)
        × (output.new ≡ output.old) }
{
    let done = match Task::of(words) {
        Some(Task::Normalise(limit)) => normalised(alloc, order, input, output, limit),
        Some(Task::Check(limit)) => checked(alloc, input, limit),
        None => {
            let _ = writeln!(faults, "usage: escnorm [--check] [--limit n]");
            return USAGE;
        }
    };
    match done {
        Ok(status) => status,
        Err(fault) => {
            let _ = writeln!(faults, "escnorm: {fault}");
            FAULT
        }
    }
}

// Returns the status once the input is normalised.
fn normalised<A: Allocator + Copy, R: Read, W: Write>(
    alloc: A,
    order: Order,
    input: &mut Watched<R>,
    output: &mut Watched<W>,
    limit: Option<usize>,
) -> Result<u8, FilterError>
    ensures { IfOk result (λ n. IsNormalised A limit
        (R.remaining (inner_of input.old)) (R.remaining (inner_of input.new))
        (W.contents (inner_of output.old)) (W.contents (inner_of output.new)) n) }
{
    normalise_in(alloc, order, input, output, limit)?;
    Ok(DONE)
}

// Normalises in this order, and flushes the writer.
fn normalise_in<A: Allocator + Copy, R: Read, W: Write>(
    alloc: A,
    order: Order,
    reader: &mut Watched<R>,
    writer: &mut Watched<W>,
    limit: Option<usize>,
) -> Result<(), FilterError>
    ensures read_all { OnOk result (IsAtEnd (R.remaining (inner_of reader.new))) }
    ensures written { OnOk result (IfSome (R.remaining (inner_of reader.old)) (λ s.
        Appends (W.contents (inner_of writer.old)) (W.contents (inner_of writer.new))
        (list_text (meaning_within {A = A} limit s)))) }
{
    match order {
        Order::AsItReads => normalise_stream(alloc, reader, writer, limit),
        Order::OnceRead => match normalise_and_flush(alloc, reader, writer, limit) {
            Ok(()) => Ok(()),
            Err(error) => Err(fault_of(error)),
        },
    }
}

// Returns the status once the input is compared with its normal form.
fn checked<A: Allocator + Copy, R: Read>(
    alloc: A,
    input: &mut Watched<R>,
    limit: Option<usize>,
) -> Result<u8, FilterError>
    ensures { IfOk result
        (λ n. IfSome (R.remaining (inner_of input.old)) (λ s. IsVerdict A limit s n)) }
{
    match compared(alloc, input, limit) {
        Ok(status) => Ok(status),
        Err(error) => Err(fault_of(error)),
    }
}

// Does the same fault, as the error of a stream that is written as it is read.
fn fault_of(error: NormaliseError) -> FilterError {
    match error {
        NormaliseError::Read => FilterError::Read,
        NormaliseError::Write => FilterError::Write,
        NormaliseError::Memory => FilterError::Memory,
    }
}

// Does the same with the error of `is_normal`.
fn compared<A: Allocator + Copy, R: Read>(
    alloc: A,
    input: &mut Watched<R>,
    limit: Option<usize>,
) -> Result<u8, NormaliseError>
    ensures { IfOk result
        (λ n. IfSome (R.remaining (inner_of input.old)) (λ s. IsVerdict A limit s n)) }
{
    let is_same = match limit {
        None => is_normal(alloc, input)?,
        Some(limit) => is_normal_limited(alloc, input, limit)?,
    };
    if is_same { Ok(DONE) } else { Ok(DIFFERENT) }
}

// Normalises once all is read, then flushes the writer. An error of the flush is a write fault.
fn normalise_and_flush<A: Allocator + Copy, R: Read, W: Write>(
    alloc: A,
    reader: &mut Watched<R>,
    writer: &mut Watched<W>,
    limit: Option<usize>,
) -> Result<(), NormaliseError>
    ensures { WritesText A R.Read W.Write (normal_form A limit) result reader writer }
{
    match limit {
        None => normalise(alloc, reader, writer)?,
        Some(limit) => normalise_limited(alloc, reader, writer, limit)?,
    }
    if writer.flush().is_err() {
        return Err(NormaliseError::Write);
    }
    Ok(())
}
