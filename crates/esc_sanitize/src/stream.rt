//! One stream, from its reader to its writer.
ghost use Rattle.std.specs.Prelude.{◌≡◌, ℕ, IsErrOf, List, OnOk, []};
ghost use Rattle.fallible_alloc.specs.Refusals.{Refused};
ghost use Rattle.esc_normal.specs.Streams.{Filters, IsEither};
ghost use Rattle.esc_sanitize.specs.Audits.{HasAccount, way_by};
ghost use Rattle.esc_sanitize.specs.Ended.{HasHeardAll};
ghost use Rattle.esc_sanitize.specs.Overwritten.{lost_of_stream};
ghost use Rattle.esc_sanitize.specs.Stages.{Runs, options_of};
ghost use Rattle.esc_sanitize.specs.Written.{IsOfTokens, IsWritten, going_of, passed_of, text_of};

use crate::auditor::Auditor;
use crate::chain::sanitizing;
use crate::laws::writes_chunks;
use crate::options::FilterOptions;
use crate::staged::Staged;
use crate::told::{Known, Told};
use esc_account::Book;
use esc_filter::{
    Admit, FilterError, StreamFilter, pump, written_lines_read_back, written_reads_back,
};
use esc_normal::Watched;
use std::alloc::{Allocator, Global};
use std::io::{Read, Write};
use std::marker::Brand;

/// How a stream was filtered.
#[derive(Drop)]
pub struct Sanitized<P, B, A: Allocator = Global> {
    /// Whether that failed.
    pub outcome: Result<(), FilterError>,
    /// The account of it.
    pub auditor: Auditor<P, B, A>,
}

/// Writes on `writer` the values of the stream of `reader` that pass by the options, as they come:
/// those of each line, or of the whole stream; the visible form of those that do not pass, if the
/// options show it; and of all this the rest of the lines, if rows may be written again. It returns
/// the results of [`filter_lines`](esc_filter::filter_lines), or of
/// [`filter_stream`](esc_filter::filter_stream). If the policy admits no more than `Policy::Color`,
/// the output is made of characters, renditions and links.
///
/// On `Ok` the auditor has the account of the stream by the options, if they ask for one and it has
/// less than 2^62 bytes: of the lines of the decoded stream, each with the text that passed of it
/// before rows were written again, or of its cut. The sums add up to its length. The bytes that did
/// not pass were written into the book.
pub fn sanitize_stream<
    P: Admit<A> + Copy + Drop,
    B: Book<A> + Drop,
    R: Read,
    W: Write,
    A: Allocator + Copy,
>(
    alloc: A,
    options: FilterOptions<P>,
    book: B,
    reader: &mut Watched<R>,
    writer: &mut Watched<W>,
) -> Sanitized<P, B, A>
    requires { B.was_given book [] }
    ensures holds { Filters R.Read W.Write (text_of P.Admit options) (IsWritten P.Admit options)
        result.outcome reader writer × IsOfTokens P.Admit options }
    ensures refused { IsErrOf result.outcome FilterError.Memory → Refused A }
    ensures account { OnOk result.outcome
        (HasAccount P.Admit B.Book R.Read options result.auditor reader) }
{
    writes_chunks::<P, A>();
    written_lines_read_back::<A>();
    written_reads_back::<A>();
    let staged = sanitizing(alloc, options, book);
    told::<_, _, _, Brand, _, _, _>(alloc, staged, reader, writer)
}

// The same by this filter, which was fed nothing, part by part.
fn told<
    F: StreamFilter<A> + Drop,
    P: Admit<A> + Drop,
    B: Book<A> + Drop,
    N: Known,
    R: Read,
    W: Write,
    A: Allocator + Copy,
>(
    alloc: A,
    staged: Staged<F, P, B, A>,
    reader: &mut Watched<R>,
    writer: &mut Watched<W>,
) -> Sanitized<P, B, A>
    requires { Runs F.StreamFilter P.Admit B.Book staged []
        × ((options_of staged).encoding ≡ N.encoding)
        × (way_by P.Admit (options_of staged) ≡ N.way)
        × ((s : List ℕ) → passed_of P.Admit (options_of staged) s ≡ N.text s)
        × ((s : List ℕ) → lost_of_stream P.Admit (options_of staged) s ≡ N.lost s) }
    ensures holds { Filters R.Read W.Write (text_of P.Admit (options_of staged))
        (IsEither (text_of P.Admit (options_of staged)) (going_of P.Admit (options_of staged)))
        result.outcome reader writer }
    ensures refused { IsErrOf result.outcome FilterError.Memory → Refused A }
    ensures heard { OnOk result.outcome (HasHeardAll P.Admit B.Book R.Read N.encoding N.way N.text
        N.lost result.auditor reader) }
{
    let mut filter = Told::<_, _, _, N, _>::new(staged);
    let outcome = pump(alloc, &mut filter, reader, writer);
    Sanitized {
        outcome,
        auditor: filter.into_auditor(),
    }
}
