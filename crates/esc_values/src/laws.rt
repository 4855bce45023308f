//! Laws of clear texts: how they split at `;` and join again.
ghost use Rattle.std.specs.Prelude.{◌≡◌, ℕ, List};
ghost use Rattle.esc_values.specs.Clear.{IsClearText, AreTextParts, parts_of, semicolon_list};

/// A clear text splits into clear parts, and not into one empty part.
#[tactic(auto, using(crate::proofs::Clear::SplitAndJoined::text_parts))]
pub fn text_parts()
    ensures { (t : List ℕ) → IsClearText t → AreTextParts (parts_of t) }
{}

/// Clear parts, but not one empty part, joined are a clear text that splits into them.
#[tactic(auto, using(crate::proofs::Clear::SplitAndJoined::parts_text))]
pub fn parts_text()
    ensures { (ps : List (List ℕ)) → AreTextParts ps → IsClearText (semicolon_list ps)
        × (parts_of (semicolon_list ps) ≡ ps) }
{}

/// The parts of a text, joined, are the text.
#[tactic(auto, using(crate::proofs::Clear::SplitAndJoined::joined_parts))]
pub fn joined_parts()
    ensures { (t : List ℕ) → semicolon_list (parts_of t) ≡ t }
{}
