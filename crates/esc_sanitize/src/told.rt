//! A filter with its auditor, as a taker of a stream in chunks.
ghost use Rattle.std.specs.Prelude.{◌≡◌, ℕ, List};
ghost use Rattle.esc_account.specs.Ways.{Way, silent_way};
ghost use Rattle.esc_decode.specs.declared.encoding.Encoding.{Encoding as Coding};
ghost use Rattle.esc_decode.specs.declared.encoding.Encoding.TheVariants.{Utf8};

use crate::auditor::Auditor;
use crate::staged::Staged;
use esc_account::Book;
use esc_filter::{Admit, StreamFilter};
use std::alloc::{AllocError, Allocator, Global};
use std::marker::{Brand, PhantomData};

/// The settings that stay the same while a stream is filtered, for proofs.
pub trait Known {
    // the stream's encoding
    ghost encoding: { Coding };

    // the settings of the account
    ghost way: { Way };

    // the text of what passes of a stream that has ended
    ghost text: { List ℕ → List ℕ };

    // how much of that is lost
    ghost lost: { List ℕ → ℕ };
}

impl Known for Brand {
    ghost encoding = { Utf8 };

    ghost way = { silent_way };

    ghost text = { λ s. s };

    ghost lost = { λ _. 0 };
}

/// A filter with its auditor, whose options say this.
#[derive(Drop)]
pub struct Told<F, P, B, N, A: Allocator = Global> {
    staged: Staged<F, P, B, A>,
    of: PhantomData<N>,
}

impl<F: Drop, P: Drop, B: Drop, N: Known, A: Allocator> Told<F, P, B, N, A> {
    /// This filter.
    pub fn new(staged: Staged<F, P, B, A>) -> Told<F, P, B, N, A>
        ensures { result.staged ≡ staged }
    {
        Told {
            staged,
            of: PhantomData,
        }
    }

    /// The auditor of the whole stream.
    pub fn into_auditor(self) -> Auditor<P, B, A>
        ensures { result ≡ self.staged.hearing.auditor }
    {
        let Told { staged, of: _ } = self;
        staged.into_auditor()
    }
}

impl<F: StreamFilter<A>, P: Admit<A>, B: Book<A>, N: Known, A: Allocator + Copy> StreamFilter<A>
    for Told<F, P, B, N, A> {
    ghost use Rattle.esc_sanitize.specs.Stages.{HasListened, IsRun, auditor_of, staged_added};

    ghost gives = { λ f m c s.
        IsRun F.StreamFilter P.Admit B.Book N.encoding N.way N.text N.lost f.staged m c s };

    ghost added = { λ f. staged_added F.StreamFilter f.staged };

    ghost has_ended = { λ f _ s.
        HasListened P.Admit B.Book N.encoding N.way N.text N.lost (auditor_of f.staged) s };

    fn feed(&mut self, bytes: &[u8]) -> Result<(), AllocError> {
        self.staged.feed(bytes)
    }

    fn finish(&mut self) -> Result<(), AllocError> {
        self.staged.finish()
    }

    fn output(&self) -> &str {
        self.staged.output()
    }
}
