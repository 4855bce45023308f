//! A filter with its auditor, and the rest of the lines of its text.
ghost use Rattle.std.specs.Prelude.{◌≡◌, ◌++◌, ℕ, List, [], OnErr, OnOk};
ghost use Rattle.fallible_alloc.specs.Refusals.{Refused};

use crate::auditor::Auditor;
use crate::hearing::Hearing;
use crate::left::Left;
use crate::options::FilterOptions;
use esc_account::Book;
use esc_filter::{Admit, StreamFilter};
use std::alloc::{AllocError, Allocator, Global};

/// A filter of a stream with its auditor, and the rest of the lines of its text.
#[derive(Drop)]
pub struct Staged<F, P, B, A: Allocator = Global> {
    hearing: Hearing<F, P, B, A>,
    left: Left<A>,
}

impl<F: StreamFilter<A>, P: Admit<A>, B: Book<A>, A: Allocator + Copy> Staged<F, P, B, A> {
    ghost use Rattle.esc_sanitize.specs.Hearings.{Follows};
    ghost use Rattle.esc_sanitize.specs.Stages.{HasFinished, Runs, options_of, staged_added};
    ghost use Rattle.esc_sanitize.specs.Written.{going_of, passing_of, text_of};

    /// This filter, which is at the beginning of a stream.
    pub fn new(alloc: A, hearing: Hearing<F, P, B, A>) -> Staged<F, P, B, A>
        ensures begins { Follows F.StreamFilter P.Admit B.Book hearing []
            → Runs F.StreamFilter P.Admit B.Book result [] }
        ensures options { options_of result ≡ hearing.options }
    {
        let left = Left::new(alloc, hearing.options().window);
        Staged { hearing, left }
    }

    /// Takes bytes more.
    pub fn feed(&mut self, bytes: &[u8]) -> Result<(), AllocError>
        ensures given { (s : List ℕ) → Runs F.StreamFilter P.Admit B.Book self.old s
            → OnOk result (Runs F.StreamFilter P.Admit B.Book self.new (s ++ bytes.now)
            × (going_of P.Admit (options_of self.old) (s ++ bytes.now)
            ≡ going_of P.Admit (options_of self.old) s ++ staged_added F.StreamFilter self.new)) }
        ensures refused { (s : List ℕ) → Runs F.StreamFilter P.Admit B.Book self.old s
            → OnErr result (Refused A) }
        ensures options { options_of self.new ≡ options_of self.old }
    {
        self.hearing.feed(bytes)?;
        self.left.take(self.hearing.output())
    }

    /// Ends the stream.
    pub fn finish(&mut self) -> Result<(), AllocError>
        ensures ended { (s : List ℕ) → Runs F.StreamFilter P.Admit B.Book self.old s
            → OnOk result (HasFinished P.Admit B.Book self.new s
            × (text_of P.Admit (options_of self.old) s
            ≡ going_of P.Admit (options_of self.old) s ++ staged_added F.StreamFilter self.new)) }
        ensures refused { (s : List ℕ) → Runs F.StreamFilter P.Admit B.Book self.old s
            → OnErr result (Refused A) }
        ensures options { options_of self.new ≡ options_of self.old }
    {
        self.hearing.finish()?;
        self.left.close(self.hearing.output())?;
        self.hearing.note(self.left.lost());
        Ok(())
    }

    /// The text that the last call added.
    pub fn output(&self) -> &str
        ensures { result.now ≡ staged_added F.StreamFilter self.now }
    {
        self.left.added(self.hearing.output())
    }
}

impl<F: StreamFilter<A>, P: Admit<A>, B: Book<A>, A: Allocator + Copy> StreamFilter<A>
    for Staged<F, P, B, A> {
    ghost use Rattle.esc_sanitize.specs.Stages.{Gives, HasFinished, staged_added};

    ghost gives = { λ f m c s. Gives F.StreamFilter P.Admit B.Book f m c s };

    ghost added = { λ f. staged_added F.StreamFilter f };

    ghost has_ended = { λ f _ s. HasFinished P.Admit B.Book f s };

    fn feed(&mut self, bytes: &[u8]) -> Result<(), AllocError> {
        self.feed(bytes)
    }

    fn finish(&mut self) -> Result<(), AllocError> {
        self.finish()
    }

    fn output(&self) -> &str {
        Staged::output(self)
    }
}

impl<F, P, B, A: Allocator> Staged<F, P, B, A> {
    ghost use Rattle.esc_sanitize.specs.Stages.{auditor_of, options_of};

    /// How the stream is filtered.
    pub fn options(&self) -> &FilterOptions<P>
        ensures { result.now ≡ options_of self.now }
    {
        self.hearing.options()
    }

    /// The auditor.
    pub fn auditor(&self) -> &Auditor<P, B, A>
        ensures { result.now ≡ auditor_of self.now }
    {
        self.hearing.auditor()
    }
}

impl<F: Drop, P: Drop, B: Drop, A: Allocator> Staged<F, P, B, A> {
    ghost use Rattle.esc_sanitize.specs.Stages.{auditor_of};

    /// The auditor of the whole stream.
    pub fn into_auditor(self) -> Auditor<P, B, A>
        ensures { result ≡ auditor_of self }
    {
        let Staged { hearing, left: _ } = self;
        hearing.into_auditor()
    }
}
