//! Laws of the table: a name is that of one row, and no row hides another.
ghost use Rattle.std.specs.Prelude.{◌≡◌, ◌<◌, ℕ, [], Some, get_or};
ghost use Rattle.string_commands.specs.declared.table.TheConstants.{COUNT};
ghost use Rattle.string_commands.specs.Rows.{entry_at, names, only, place_named, place_of, starts};

/// A row is found by its name, so no two rows have one name.
#[tactic(auto, using(crate::proofs::TableLaws::found_by_name))]
pub fn found_by_name()
    ensures { (i : ℕ) → i < COUNT → place_named (get_or names i []) ≡ Some i }
{}

/// Two rows of one name are one row.
#[tactic(auto, using(crate::proofs::TableLaws::one_of_a_name))]
pub fn one_of_a_name()
    ensures { (i j : ℕ) → i < COUNT → j < COUNT → get_or names i [] ≡ get_or names j [] → i ≡ j }
{}

/// A row is found by its beginning: no row before it hides it.
#[tactic(auto, using(crate::proofs::TableLaws::found_by_start))]
pub fn found_by_start()
    ensures { (i : ℕ) → i < COUNT → let e = entry_at i in
        place_of e.kind e.key (only e) (get_or starts i []) ≡ Some i }
{}
