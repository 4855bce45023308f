//! Laws of accounts, for every rule that says the fate of a segment, and for the rule of a policy.
#![tactic(auto)]

ghost use Rattle.std.specs.Prelude.{◌≡◌, ◌++◌, ◌∷◌, ◌<◌, ℕ, Bool, List, Option, Some, [], false, length, true};
ghost use Rattle.std.specs.List.{list_all};
ghost use Rattle.esc_frame.specs.Segments.{Segment as Shape, bytes_of, joined_bytes};
ghost use Rattle.esc_frame.specs.Stream.{IsAtGround};
ghost use Rattle.esc_actions.specs.Readings.{reading_within};
ghost use Rattle.esc_actions.specs.Texts.{list_text};
ghost use Rattle.esc_actions.specs.Values.{Value};
ghost use Rattle.esc_filter.specs.declared.guard.Guard.{Guard};
ghost use Rattle.esc_account.specs.Accounts.{Counts, GoesOn, IsAccount, Rule, all_passed, begun, count_of, run, total};
ghost use Rattle.esc_account.specs.Entries.{AllLie, Entry, bytes_with, entries, is_passed, noted_entries};
ghost use Rattle.esc_account.specs.Ledgers.{HasRun, IsLineAccount, LineRuns};
ghost use Rattle.esc_filter.specs.Lines.{IsLine, ends_line, has_line_feed};
ghost use Rattle.esc_account.specs.Rules.{IsAsItCame, is_written, last_written, rule_of};
ghost use Rattle.esc_filter.specs.Characters.{in_guard, last_after};
ghost use Rattle.esc_account.specs.declared.account.Account.{Account};
ghost use Rattle.esc_account.specs.declared.fate.Fate.{Fate as End};

use crate::fate::Fate;
use std::alloc::Allocator;

/// Each byte of a stream has one fate: the sums add up to the length of the stream.
pub fn each_byte_has_one_fate()
    ensures { (r : Rule) (gs : List Shape) → total (run r begun gs).sums
        ≡ length (joined_bytes gs) }
{}

/// The account goes on if no segment is unfinished: into whatever blocks a stream is divided there,
/// it is the same.
pub fn blocks_go_on()
    ensures { (r : Rule) (s b : List ℕ) (x y : Account) → IsAtGround s → IsAccount r s x
        → GoesOn r x b y → IsAccount r (s ++ b) y }
{
    esc_frame::laws::one_cut();
    esc_frame::laws::has_cut();
}

/// The account of lines goes on line by line: with the line that comes next, and its text; with
/// lines that were written as they came; and with a last line that no line feed ends.
pub fn lines_go_on()
    ensures line { (r : Rule) (s t l w : List ℕ) (x y : Account) (es fs : List Entry)
        → HasRun r s t x es → IsLine l → IsLine w → LineRuns r x l w y fs
        → Counts x (length l) y → HasRun r (s ++ l) (t ++ w) y (es ++ fs) }
    ensures same { (r : Rule) (s t u : List ℕ) (x : Account) (es : List Entry)
        → HasRun r s t x es → ends_line true u ≡ true → 0 < length u
        → Counts x (length u) (all_passed u x)
        → HasRun r (s ++ u) (t ++ u) (all_passed u x) es }
    ensures last { (r : Rule) (s t : List ℕ) (b : ℕ) (l w : List ℕ) (x y : Account)
        (es fs : List Entry) → HasRun r s t x es → has_line_feed (b ∷ l) ≡ false
        → has_line_feed w ≡ false → LineRuns r x (b ∷ l) w y fs
        → IsLineAccount r (s ++ b ∷ l) (t ++ w) y (es ++ fs) }
{}

/// The place of each entry is that of its segment in the stream, and its bytes are the segment's.
pub fn each_lies_at_its_place()
    ensures { (r : Rule) (gs : List Shape) → AllLie (joined_bytes gs) (entries r begun gs) }
{}

/// Entries add up: a stream has so many bytes of each fate but `Passed` as its entries have.
pub fn entries_add_up()
    ensures whole { (f : End) (r : Rule) (gs : List Shape) → is_passed f ≡ false
        → count_of f (run r begun gs).sums ≡ bytes_with f (noted_entries (entries r begun gs)) }
    ensures lines { (f : End) (r : Rule) (s t : List ℕ) (x : Account) (es : List Entry)
        → is_passed f ≡ false → IsLineAccount r s t x es
        → count_of f x.sums ≡ bytes_with f es }
{
    esc_frame::laws::has_cut();
}

/// By the rule of a policy a segment that means nothing is swallowed, so that nothing vanishes from
/// the account.
pub fn nothing_vanishes<A: Allocator>()
    ensures { (by_lines : Bool) (u : Guard) (limit : ℕ) (admits : Value A → Bool) (b : Option ℕ)
        (g : Shape) (finished : Bool) → reading_within {A = A} (Some limit) g finished ≡ []
        → (rule_of by_lines u limit admits b g finished).fate ≡ Fate.Swallowed }
{}

/// By the rule of a policy all that a segment means is written if the segment passed, and the text
/// of that is its bytes, as they came, but for the `ESC \` that ends a string.
pub fn passed_as_it_came<A: Allocator>()
    ensures written { (by_lines : Bool) (u : Guard) (limit : ℕ) (admits : Value A → Bool)
        (b : Option ℕ) (g : Shape) (finished : Bool)
        → (rule_of by_lines u limit admits b g finished).fate ≡ Fate.Passed
        → list_all (is_written by_lines u admits)
        (reading_within {A = A} (Some limit) g finished) ≡ true }
    ensures text { (by_lines : Bool) (u : Guard) (limit : ℕ) (admits : Value A → Bool)
        (b : Option ℕ) (g : Shape) (finished : Bool)
        → (rule_of by_lines u limit admits b g finished).fate ≡ Fate.Passed
        → IsAsItCame (bytes_of g)
        (list_text (reading_within {A = A} (Some limit) g finished)) }
{}

/// By the rule of a policy, the character before the next text is the one that a filter writes last
/// of a value, after the same character.
pub fn before_as_written<A: Allocator>()
    ensures { (u : Guard) (b : Option ℕ) (v : Value A)
        → last_written u b v ≡ last_after b (in_guard u b v) }
{}
