//! Laws of termcap queries: a query that is written reads back, and one that is read can be
//! written.
ghost use Rattle.std.specs.Prelude.{ℕ, List};
ghost use Rattle.xtgettcap.specs.Names.{AreWritable, WritesBack, names_of};

/// A query of at least one name is written as data of digits and `;`, from which the same names are
/// read.
pub fn writes_back()
    ensures { (ns : List (List ℕ)) → AreWritable ns → WritesBack ns }
{}

/// The names that any data means are texts, at least one.
#[tactic(auto, using(crate::proofs::ReadsBack::data_is_writable))]
pub fn data_is_writable()
    ensures { (bs : List ℕ) → AreWritable (names_of bs) }
{}
