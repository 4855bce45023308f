//! Semantic prompts.
ghost use Rattle.std.specs.Prelude.{◌≡◌, ◌↔◌, IsTrue};

use esc_prompts::{FinalTermClick, FinalTermPromptKind, FinalTermSemanticPrompt};
use std::alloc::Allocator;

/// Returns whether two kinds of clicks are the same.
pub fn same_click(a: &FinalTermClick, b: &FinalTermClick) -> bool
    ensures { IsTrue result ↔ (a.now ≡ b.now) }
{
    a == b
}

/// Returns whether two kinds of prompts are the same.
pub fn same_prompt_kind(a: &FinalTermPromptKind, b: &FinalTermPromptKind) -> bool
    ensures { IsTrue result ↔ (a.now ≡ b.now) }
{
    a == b
}

/// Returns whether two semantic prompts are the same.
pub fn same_prompt<A: Allocator>(
    a: &FinalTermSemanticPrompt<A>,
    b: &FinalTermSemanticPrompt<A>,
) -> bool
    ensures { IsTrue result ↔ (a.now ≡ b.now) }
{
    a == b
}
