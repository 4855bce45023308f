//! Laws of the actions that pass a filter. Each holds for every allocator `A`, which the type of
//! the actions names.
ghost use Rattle.std.specs.Prelude.{◌≡◌, ◌++◌, [], ℕ, Bool, List, None, Option, Some, false, map, not, true};
ghost use Rattle.std.specs.List.{filter};
ghost use Rattle.esc_actions.specs.Meaning.{yield_within};
ghost use Rattle.esc_actions.specs.Texts.{list_text};
ghost use Rattle.esc_actions.specs.Values.{Value};
ghost use Rattle.esc_frame.specs.Segments.{is_empty};
ghost use Rattle.esc_filter.specs.Characters.{in_values, keeps_characters, some_strays};
ghost use Rattle.esc_filter.specs.Closing.{IsAtStart, after_values, closed_values, closing};
ghost use Rattle.esc_filter.specs.Terminal.{as_at_start};
ghost use Rattle.esc_filter.specs.Lines.{IsFilteredByLines, IsFilteredByLinesAs, IsLine, closed_by_lines_as, has_line_feed, line_text, lines, lines_text, lines_text_as, text_by_lines_as};
ghost use Rattle.esc_sequences.specs.Csis.{CsiValue};
ghost use Rattle.esc_sequences.specs.declared.esc.Esc.{Esc};
ghost use Rattle.control_functions.specs.Effects.{is_answered};
ghost use Rattle.control_functions.specs.EscapeEffects.{is_answered as escape_is_answered};
ghost use Rattle.control_functions.specs.Escapes.{escape_of_name as escape_named};
ghost use Rattle.control_functions.specs.Functions.{function_of_csi};
ghost use Rattle.control_functions.specs.declared.control_function.ControlFunction.{ControlFunction};
ghost use Rattle.control_functions.specs.declared.escape_function.EscapeFunction.{EscapeFunction};
ghost use Rattle.esc_filter.specs.Groups.{admits_groups, groups_of, has};
ghost use Rattle.esc_filter.specs.Passing.{IsFiltered, IsFilteredAs, closed_text, closed_text_as, passed_values, passed_text, passed_text_as, passes};
ghost use Rattle.esc_filter.specs.Tokens.{AdmitsAtMost, IsColorText, IsPlainText};
ghost use Rattle.esc_filter.specs.Rules.{admits, is_screen_escape, is_screen_sequence};
ghost use Rattle.esc_filter.specs.declared.groups.Groups.{Groups};
ghost use Rattle.esc_filter.specs.declared.group.Group.{Group};
ghost use Rattle.esc_filter.specs.declared.policy.Policy.{Policy};
ghost use Rattle.esc_filter.specs.declared.policy.Policy.TheVariants as policy;
ghost use Rattle.esc_filter.specs.declared.guard.Guard.{Guard};

use esc_actions::laws;
use std::alloc::Allocator;

/// The text of the actions of a stream that pass reads back as these actions, whatever is admitted,
/// and so does the text of a stream that has ended, with the actions that undo the changes that are
/// left.
pub fn passed_reads_back<A: Allocator>()
    ensures goes_on { (limit : Option ℕ) (admits : Value A → Bool) (s : List ℕ)
        → IsFiltered false limit admits s (passed_text limit admits s) }
    ensures ended { (limit : Option ℕ) (admits : Value A → Bool) (s : List ℕ)
        → IsFiltered true limit admits s (closed_text limit admits s) }
{
    written_reads_back::<A>();
}

/// Does the same, whatever is written for deceiving text.
pub fn written_reads_back<A: Allocator>()
    ensures goes_on { (u : Guard) (limit : Option ℕ) (admits : Value A → Bool) (s : List ℕ)
        → IsFilteredAs u false limit admits s (passed_text_as u limit admits s) }
    ensures ended { (u : Guard) (limit : Option ℕ) (admits : Value A → Bool) (s : List ℕ)
        → IsFilteredAs u true limit admits s (closed_text_as u limit admits s) }
{
    laws::handed_out::<A>();
    laws::reads_back::<A>();
    laws::reads_by_itself::<A>();
}

/// If characters that deceive are not kept, none of them is written unless it belongs to the
/// character that is written directly before it: so none that changes the direction of text, and no
/// tag.
pub fn nothing_strays<A: Allocator>()
    ensures { (u : Guard) (vs : List (Value A)) → keeps_characters u.characters ≡ false
        → some_strays None (in_values u vs) ≡ false }
{}

/// The actions of a stream that pass also pass in each longer one, and come first in it.
pub fn passed_more<A: Allocator>()
    ensures { (limit : Option ℕ) (admits : Value A → Bool) (s b : List ℕ)
        → passed_values limit admits (s ++ b) ≡ passed_values limit admits s
        ++ filter (passes admits)
        (yield_within limit s b) }
{
    laws::meaning_of_more::<A>();
}

/// The text of a stream that has ended is the text before its end, and then the text that undoes
/// the changes that are left.
pub fn closing_comes_last<A: Allocator>()
    ensures { (limit : Option ℕ) (admits : Value A → Bool) (s : List ℕ)
        → closed_text limit admits s
        ≡ passed_text limit admits s ++ list_text (closing admits (passed_values limit admits s)) }
{}

/// Once the values that undo the changes are written, the terminal is as at the start, whatever the
/// values and the policy are.
pub fn terminal_as_at_the_start<A: Allocator>()
    ensures { (admits : Value A → Bool) (vs : List (Value A))
        → IsAtStart (after_values (closed_values admits vs) as_at_start) }
{}

/// The values that undo the changes leave nothing to undo.
pub fn nothing_given_back_twice<A: Allocator>()
    ensures { (admits : Value A → Bool) (vs : List (Value A))
        → closing admits (closed_values admits vs) ≡ [] }
{}

/// If the lines of a stream are streams of their own, the text of the actions that pass reads back
/// as these actions, line by line, whatever is admitted.
pub fn lines_read_back<A: Allocator>()
    ensures { (has_ended : Bool) (limit : ℕ) (admits : Value A → Bool) (s : List ℕ)
        → IsFilteredByLines has_ended limit admits s (lines_text has_ended limit admits s) }
{
    written_lines_read_back::<A>();
}

/// Does the same, whatever is written for deceiving text.
pub fn written_lines_read_back<A: Allocator>()
    ensures { (has_ended : Bool) (u : Guard) (limit : ℕ) (admits : Value A → Bool) (s : List ℕ)
        → IsFilteredByLinesAs has_ended u limit admits s
        (lines_text_as has_ended u limit admits s) }
{
    written_reads_back::<A>();
    laws::reads_by_itself::<A>();
}

/// Each line of a stream is written as one line. A line that has ended is written as one that has,
/// whatever its segments hold; a last line without a line feed is written without one, and so is
/// the text that undoes the changes that it leaves. So the lines of the output are the texts of the
/// lines, in order, but for an empty text of the last.
pub fn lines_written<A: Allocator>()
    ensures ended { (u : Guard) (limit : ℕ) (admits : Value A → Bool) (l : List ℕ) → IsLine l
        → IsLine (line_text u limit admits l) }
    ensures last { (u : Guard) (limit : ℕ) (admits : Value A → Bool) (l : List ℕ)
        → has_line_feed l ≡ false → has_line_feed (line_text u limit admits l) ≡ false }
    ensures closed { (u : Guard) (limit : ℕ) (admits : Value A → Bool) (l : List ℕ)
        → has_line_feed l ≡ false
        → has_line_feed (closed_by_lines_as u limit admits l) ≡ false }
    ensures lines { (u : Guard) (limit : ℕ) (admits : Value A → Bool) (s : List ℕ)
        → lines (text_by_lines_as u limit admits s)
        ≡ filter (λ t. not (is_empty t)) (map (line_text u limit admits) (lines s)) }
{
    written_reads_back::<A>();
    laws::meaning_of_the_cut::<A>();
    laws::has_cut();
    esc_osc::laws::writes_clear::<A>();
    esc_kitty::laws::reads_back::<A>();
    esc_sixel::laws::writes_back::<A>();
    xtgettcap::laws::writes_back();
}

/// No control or escape sequence that `Policy::Screen` admits as such has a function that a
/// terminal answers.
pub fn screen_is_not_answered()
    ensures sequences { (c : CsiValue) (f : ControlFunction) → function_of_csi c ≡ Some f
        → is_screen_sequence c ≡ true → is_answered f ≡ false }
    ensures escapes { (s : Esc) (f : EscapeFunction) → escape_named s ≡ Some f
        → is_screen_escape s ≡ true → escape_is_answered f ≡ false }
{}

/// The groups of a policy admit the values that the policy admits.
#[tactic(auto, using(crate::proofs::Admission::GroupsAreThePolicy::same))]
pub fn policies_are_groups<A: Allocator>()
    ensures { (p : Policy) (v : Value A) → admits_groups (groups_of p) v ≡ admits p v }
{}

/// Under a policy that admits no more than `Policy::Text`, the text of a stream that goes on, and
/// of one that has ended, whole and by lines, is made of tabs, line feeds, carriage returns and
/// characters from U+0020 to U+007E and from U+00A0 on: no other control, no DEL and no ESC.
pub fn writes_plain_text<A: Allocator>()
    ensures goes_on { (u : Guard) (limit : Option ℕ) (f : Value A → Bool)
        → AdmitsAtMost policy.Text f → (s : List ℕ) → IsPlainText (passed_text_as u limit f s) }
    ensures ended { (u : Guard) (limit : Option ℕ) (f : Value A → Bool)
        → AdmitsAtMost policy.Text f → (s : List ℕ) → IsPlainText (closed_text_as u limit f s) }
    ensures by_lines { (u : Guard) (limit : ℕ) (f : Value A → Bool)
        → AdmitsAtMost policy.Text f → (s : List ℕ) → IsPlainText (text_by_lines_as u limit f s) }
    ensures ended_by_lines { (u : Guard) (limit : ℕ) (f : Value A → Bool)
        → AdmitsAtMost policy.Text f
        → (s : List ℕ) → IsPlainText (closed_by_lines_as u limit f s) }
{
    written_reads_back::<A>();
}

/// Under one that admits no more than `Policy::Color`, it is made of these and of whole renditions
/// and links: `ESC [`, digits, `:` and `;`, `m`; and `ESC ]`, a text that begins with `8;` and has
/// no control of C0 or C1 and no DEL, `ESC \`.
pub fn writes_color_text<A: Allocator>()
    ensures goes_on { (u : Guard) (limit : Option ℕ) (f : Value A → Bool)
        → AdmitsAtMost policy.Color f → (s : List ℕ) → IsColorText (passed_text_as u limit f s) }
    ensures ended { (u : Guard) (limit : Option ℕ) (f : Value A → Bool)
        → AdmitsAtMost policy.Color f → (s : List ℕ) → IsColorText (closed_text_as u limit f s) }
    ensures by_lines { (u : Guard) (limit : ℕ) (f : Value A → Bool)
        → AdmitsAtMost policy.Color f → (s : List ℕ) → IsColorText (text_by_lines_as u limit f s) }
    ensures ended_by_lines { (u : Guard) (limit : ℕ) (f : Value A → Bool)
        → AdmitsAtMost policy.Color f
        → (s : List ℕ) → IsColorText (closed_by_lines_as u limit f s) }
{
    written_reads_back::<A>();
}

/// Groups that are all of a policy's admit no more than the policy does, whatever schemes links
/// have to have.
#[tactic(auto, using(crate::proofs::Admission::GroupsAreThePolicy::at_most))]
pub fn some_groups_admit_less<A: Allocator>()
    ensures { (p : Policy) (g : Groups)
        → ((c : Group) → has g c ≡ true → has (groups_of p) c ≡ true)
        → AdmitsAtMost {A = A} p (admits_groups g) }
{}

/// The rest of such a text after a prefix that is such a text is one too, since no character,
/// rendition or link begins with another. So a filter adds whole parts for bytes that it is fed,
/// and for the end of a stream, wherever the bytes are cut.
pub fn rest_is_whole()
    ensures plain { (x t : List ℕ) → IsPlainText x → IsPlainText (x ++ t) → IsPlainText t }
    ensures color { (x t : List ℕ) → IsColorText x → IsColorText (x ++ t) → IsColorText t }
{}
