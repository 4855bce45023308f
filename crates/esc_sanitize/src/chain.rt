//! The filters of a stream, by options.
ghost use Rattle.std.specs.Prelude.{◌≡◌, [], true};
ghost use Rattle.esc_sanitize.specs.Chains.{Begins};
ghost use Rattle.esc_sanitize.specs.Stages.{Runs, options_of};
ghost use Rattle.esc_sanitize.specs.Written.{closed_by, closed_of, going_by, opened_of};

use crate::auditor::Auditor;
use crate::either::Either;
use crate::hearing::Hearing;
use crate::options::FilterOptions;
use crate::staged::Staged;
use caret_notation::{Reveal, Revealing};
use esc_account::Book;
use esc_filter::{Admit, Filter, LineFilter, ResumingFilter, StreamFilter};
use std::alloc::{Allocator, Global};

/// A filter of lines, in which renditions go on, or do not.
pub type Lined<P, A> = Either<ResumingFilter<P, A>, LineFilter<P, A>>;

/// A filter of lines, or of a whole stream.
pub type Framed<P, A> = Either<Lined<P, A>, Filter<P, A>>;

/// The same, if bytes that do not pass may be shown.
pub type Chain<P, A> = Either<Framed<P, A>, Revealing<Framed<P, A>, P, A>>;

/// A filter by options, with an auditor, as a taker of a stream in chunks: that of a program that
/// gets its stream in a format of its own, such as a recording.
pub type Sanitizing<P, B, A = Global> = Staged<Chain<P, A>, P, B, A>;

/// A filter by these options, with an auditor who writes the bytes that did not pass into this
/// book; at the beginning of a stream. It takes no memory but for rows that may be written again:
/// if that is refused, the first call says so.
pub fn sanitizing<P: Admit<A> + Copy + Drop, B: Book<A> + Drop, A: Allocator + Copy>(
    alloc: A,
    options: FilterOptions<P>,
    book: B,
) -> Sanitizing<P, B, A>
    ensures begins { B.was_given book []
        → Runs ⟦<Chain<P, A> as StreamFilter<A>>⟧ P.Admit B.Book result [] }
    ensures options { options_of result ≡ options }
{
    let auditor = Auditor::new(alloc, options, book);
    let hearing = Hearing::new(alloc, options, chain(alloc, options), auditor);
    Staged::new(alloc, hearing)
}

// The filters of what a stream becomes by its encoding.
fn chain<P: Admit<A> + Copy, A: Allocator + Copy>(
    alloc: A,
    options: FilterOptions<P>,
) -> Chain<P, A>
    ensures { Begins ⟦<Chain<P, A> as StreamFilter<A>>⟧ result (opened_of P.Admit options)
        (closed_of P.Admit options) }
{
    let filter = framed(alloc, options);
    match options.show {
        None => Either::First(filter),
        Some(marking) => {
            let reveal = Reveal::with_marking(
                alloc,
                options.limit,
                options.policy,
                options.by_lines,
                marking,
            );
            Either::Second(Revealing::new(alloc, reveal, filter))
        }
    }
}

// The filter of lines, or of the whole.
fn framed<P: Admit<A> + Copy, A: Allocator + Copy>(
    alloc: A,
    options: FilterOptions<P>,
) -> Framed<P, A>
    ensures { Begins ⟦<Framed<P, A> as StreamFilter<A>>⟧ result
        (going_by options.resumes options.guard options.by_lines options.limit
        (P.admits options.policy))
        (closed_by options.resumes options.guard options.by_lines options.limit
        (P.admits options.policy)) }
{
    let by_lines = options.by_lines;
    if by_lines {
        Either::First(lined(alloc, options))
    } else {
        let FilterOptions {
            policy,
            limit,
            guard,
            ..
        } = options;
        Either::Second(Filter::with_guard(alloc, limit, policy, guard))
    }
}

// The filter of lines.
fn lined<P: Admit<A> + Copy, A: Allocator + Copy>(
    alloc: A,
    options: FilterOptions<P>,
) -> Lined<P, A>
    ensures { Begins ⟦<Lined<P, A> as StreamFilter<A>>⟧ result
        (going_by options.resumes options.guard true options.limit (P.admits options.policy))
        (closed_by options.resumes options.guard true options.limit (P.admits options.policy)) }
{
    let FilterOptions {
        policy,
        limit,
        resumes,
        guard,
        ..
    } = options;
    if resumes {
        Either::First(ResumingFilter::new(alloc, limit, policy, guard, true))
    } else {
        Either::Second(LineFilter::with_guard(alloc, limit, policy, guard))
    }
}
