//! Laws of semantic prompts say that a written prompt reads back, and that a prompt that was read
//! from clear parts can be written.
ghost use Rattle.std.specs.Prelude.{◌≡◌, List, ℕ, Some};
ghost use Rattle.esc_values.specs.Clear.{AreClearParts};
ghost use Rattle.esc_prompts.specs.Prompts.{IsWritablePrompt, WritesBack, prompt_of};
ghost use Rattle.esc_prompts.specs.declared.prompt.FinalTermSemanticPrompt.{FinalTermSemanticPrompt};

use std::alloc::Allocator;

/// A writable prompt writes the code and clear parts, from which the same prompt is read.
#[tactic(auto, using(crate::proofs::ReadsBack::writes_back))]
pub fn writes_back<A: Allocator>()
    ensures { (p : FinalTermSemanticPrompt A) → IsWritablePrompt p → WritesBack p }
{}

/// A prompt that is read from clear parts is writable.
#[tactic(auto, using(crate::proofs::ClearArgs::clear_is_writable))]
pub fn clear_is_writable<A: Allocator>()
    ensures { (args : List (List ℕ)) → AreClearParts args → (p : FinalTermSemanticPrompt A)
        → prompt_of args ≡ Some p → IsWritablePrompt p }
{}
