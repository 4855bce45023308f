//! The columns of the table, with one entry or one text for each row.
ghost use Rattle.std.specs.Prelude.{◌≡◌, length, map};
ghost use Rattle.string_commands.specs.declared.table.TheConstants.{COUNT, ENTRIES};
ghost use Rattle.string_commands.specs.Rows.{names, starts, words};

use crate::entry::Entry;
use crate::table::{ALONE, ENTRIES, FIELDS, NAMES, PARAMS, SAID, STARTS, WORDS};

// Returns the entries.
pub(crate) fn entries() -> &'static [Entry]
    ensures entries { result.now ≡ ENTRIES }
    ensures count { length result.now ≡ COUNT }
{
    &ENTRIES
}

// Returns the texts that the rows begin with.
#[tactic(auto, unfolding(crate::specs::Rows::starts))]
pub(crate) fn starts() -> &'static [&'static str]
    ensures texts { map (λ t. t.now) result.now ≡ starts }
    ensures count { length result.now ≡ COUNT }
{
    &STARTS
}

// Returns the names.
#[tactic(auto, unfolding(crate::specs::Rows::names))]
pub(crate) fn names() -> &'static [&'static str]
    ensures texts { map (λ t. t.now) result.now ≡ names }
    ensures count { length result.now ≡ COUNT }
{
    &NAMES
}

// Returns the descriptions.
#[tactic(auto, unfolding(crate::specs::Rows::words))]
pub(crate) fn words() -> &'static [&'static str]
    ensures texts { map (λ t. t.now) result.now ≡ words }
    ensures count { length result.now ≡ COUNT }
{
    &WORDS
}

// Returns the words before the parts; `=` where they are the description.
pub(crate) fn said() -> &'static [&'static str]
    ensures { length result.now ≡ COUNT }
{
    &SAID
}

// Returns the words of the rows without a part.
pub(crate) fn alone() -> &'static [&'static str]
    ensures { length result.now ≡ COUNT }
{
    &ALONE
}

// Returns the parameters, as fields.
pub(crate) fn params() -> &'static [&'static str]
    ensures { length result.now ≡ COUNT }
{
    &PARAMS
}

// Returns the fields.
pub(crate) fn fields() -> &'static [&'static str]
    ensures { length result.now ≡ COUNT }
{
    &FIELDS
}
