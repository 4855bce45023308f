//! This module reads semantic prompts.
ghost use Rattle.std.specs.Prelude.{◌≡◌, IfOk, OnErr, map};
ghost use Rattle.std.specs.Option.{option_map};
ghost use Rattle.esc_prompts.specs.Prompts.{aid_and_click, aid_of, lone_prompt, click_in, kind_among, kind_in, prompt_of_letter, prompt_of, status_of};
ghost use Rattle.fallible_alloc.specs.Refusals.{Refused};

use crate::click::FinalTermClick;
use crate::keys::read_keys;
use crate::prompt::FinalTermSemanticPrompt;
use crate::prompt_kind::FinalTermPromptKind;
use esc_values::Text;
use esc_values::scalar::read_i32;
use std::alloc::{AllocError, Allocator};

impl<A: Allocator> FinalTermSemanticPrompt<A> {
    /// Returns the prompt of these parts, which follow the code `133`; none if they are no prompt.
    ///
    /// The first part is a letter. `L`, `B` and `I` come alone. After `A`, `N`, `C` and `P`, and
    /// after the status of `D`, the parts are keys and values with `=` between them, or empty; a
    /// later value of a key replaces an earlier one, and other keys are ignored. Any other part, a
    /// word of `cl` that is unknown after `A` or `N`, or one of `k` after `P`, is no prompt. A
    /// status that is absent, or is no number of 32 bits, is 0.
    ///
    /// The error is that memory was refused.
    pub fn parse(alloc: A, args: &[&[u8]]) -> Result<Option<FinalTermSemanticPrompt<A>>, AllocError>
        ensures ok { IfOk result (λ p. p ≡ prompt_of (map (λ p. p.now) args.now)) }
        ensures refused { OnErr result (Refused A) }
    {
        let Some((first, rest)) = args.split_first() else {
            return Ok(None);
        };
        let Some((letter, more)) = first.split_first() else {
            return Ok(None);
        };
        if !more.is_empty() {
            return Ok(None);
        }
        read_by_letter(alloc, *letter, rest)
    }
}

// Reads the parts after the letter.
fn read_by_letter<A: Allocator>(
    alloc: A,
    letter: u8,
    args: &[&[u8]],
) -> Result<Option<FinalTermSemanticPrompt<A>>, AllocError>
    ensures ok { IfOk result (λ p. p ≡ prompt_of_letter letter (map (λ p. p.now) args.now)) }
    ensures refused { OnErr result (Refused A) }
{
    match letter {
        b'L' => Ok(read_alone(FinalTermSemanticPrompt::FreshLine, args)),
        b'A' => read_start(alloc, args),
        b'N' => read_end(alloc, args),
        b'P' => Ok(read_start_of_kind(args)),
        b'B' => {
            let mark = FinalTermSemanticPrompt::MarkEndOfPromptAndStartOfInputUntilNextMarker;
            Ok(read_alone(mark, args))
        }
        b'I' => {
            let mark = FinalTermSemanticPrompt::MarkEndOfPromptAndStartOfInputUntilEndOfLine;
            Ok(read_alone(mark, args))
        }
        b'C' => read_output(alloc, args),
        b'D' => read_status(alloc, args),
        _ => Ok(None),
    }
}

// Returns the prompt, if no part follows the letter.
fn read_alone<A: Allocator>(
    prompt: FinalTermSemanticPrompt<A>,
    args: &[&[u8]],
) -> Option<FinalTermSemanticPrompt<A>>
    ensures { result ≡ lone_prompt prompt (map (λ p. p.now) args.now) }
{
    if args.is_empty() { Some(prompt) } else { None }
}

// Reads a prompt that begins on a new line.
fn read_start<A: Allocator>(
    alloc: A,
    args: &[&[u8]],
) -> Result<Option<FinalTermSemanticPrompt<A>>, AllocError>
    ensures ok { IfOk result (λ p. p ≡ prompt_of_letter 0x41 (map (λ p. p.now) args.now)) }
    ensures refused { OnErr result (Refused A) }
{
    match read_aid_and_click(alloc, args)? {
        Some((aid, cl)) => Ok(Some(FinalTermSemanticPrompt::FreshLineAndStartPrompt { aid, cl })),
        None => Ok(None),
    }
}

// Reads the end of a command, and a prompt that begins on a new line.
fn read_end<A: Allocator>(
    alloc: A,
    args: &[&[u8]],
) -> Result<Option<FinalTermSemanticPrompt<A>>, AllocError>
    ensures ok { IfOk result (λ p. p ≡ prompt_of_letter 0x4e (map (λ p. p.now) args.now)) }
    ensures refused { OnErr result (Refused A) }
{
    let Some((aid, cl)) = read_aid_and_click(alloc, args)? else {
        return Ok(None);
    };
    Ok(Some(FinalTermSemanticPrompt::MarkEndOfCommandWithFreshLine { aid, cl }))
}

// Reads a prompt of some kind.
fn read_start_of_kind<A: Allocator>(args: &[&[u8]]) -> Option<FinalTermSemanticPrompt<A>>
    ensures { result ≡ prompt_of_letter 0x50 (map (λ p. p.now) args.now) }
{
    match read_kind_among(args) {
        Some(kind) => Some(FinalTermSemanticPrompt::StartPrompt(kind)),
        None => None,
    }
}

// Reads the output of a command.
fn read_output<A: Allocator>(
    alloc: A,
    args: &[&[u8]],
) -> Result<Option<FinalTermSemanticPrompt<A>>, AllocError>
    ensures ok { IfOk result (λ p. p ≡ prompt_of_letter 0x43 (map (λ p. p.now) args.now)) }
    ensures refused { OnErr result (Refused A) }
{
    match read_aid(alloc, args)? {
        Some(aid) => Ok(Some(FinalTermSemanticPrompt::MarkEndOfInputAndStartOfOutput { aid })),
        None => Ok(None),
    }
}

// Reads the values of `aid` and `cl`.
fn read_aid_and_click<A: Allocator>(
    alloc: A,
    args: &[&[u8]],
) -> Result<Option<(Option<Text<A>>, Option<FinalTermClick>)>, AllocError>
    ensures ok { IfOk result (λ f. f ≡ aid_and_click (map (λ p. p.now) args.now)) }
    ensures refused { OnErr result (Refused A) }
{
    let Some(keys) = read_keys(args) else {
        return Ok(None);
    };
    let Some(cl) = read_click(keys.cl) else {
        return Ok(None);
    };
    Ok(Some((copied(alloc, keys.aid)?, cl)))
}

// Reads the value of `aid`.
fn read_aid<A: Allocator>(alloc: A, args: &[&[u8]]) -> Result<Option<Option<Text<A>>>, AllocError>
    ensures ok { IfOk result (λ a. a ≡ aid_of (map (λ p. p.now) args.now)) }
    ensures refused { OnErr result (Refused A) }
{
    let Some(keys) = read_keys(args) else {
        return Ok(None);
    };
    Ok(Some(copied(alloc, keys.aid)?))
}

// Reads a status, and the value of `aid` after it.
fn read_status<A: Allocator>(
    alloc: A,
    args: &[&[u8]],
) -> Result<Option<FinalTermSemanticPrompt<A>>, AllocError>
    ensures ok { IfOk result (λ p. p ≡ status_of (map (λ p. p.now) args.now)) }
    ensures refused { OnErr result (Refused A) }
{
    let Some((status, rest)) = args.split_first() else {
        return Ok(Some(FinalTermSemanticPrompt::CommandStatus {
            status: 0,
            aid: None,
        }));
    };
    let status = read_i32(status).unwrap_or(0);
    match read_aid(alloc, rest)? {
        Some(aid) => Ok(Some(FinalTermSemanticPrompt::CommandStatus { status, aid })),
        None => Ok(None),
    }
}

// Reads the value of `k`.
fn read_kind_among(args: &[&[u8]]) -> Option<FinalTermPromptKind>
    ensures { result ≡ kind_among (map (λ p. p.now) args.now) }
{
    let keys = read_keys(args)?;
    read_kind(keys.k)
}

// Reads a word of `cl`, if it is there.
fn read_click(word: Option<&str>) -> Option<Option<FinalTermClick>>
    ensures { result ≡ click_in (option_map (λ w. w.now) word.entry) }
{
    let Some(word) = word else {
        return Some(None);
    };
    match FinalTermClick::try_from(word) {
        Ok(click) => Some(Some(click)),
        Err(_) => None,
    }
}

// Reads a word of `k`; the initial kind if it is absent.
fn read_kind(word: Option<&str>) -> Option<FinalTermPromptKind>
    ensures { result ≡ kind_in (option_map (λ w. w.now) word.entry) }
{
    let Some(word) = word else {
        return Some(FinalTermPromptKind::default());
    };
    match FinalTermPromptKind::try_from(word) {
        Ok(kind) => Some(kind),
        Err(_) => None,
    }
}

// Returns a copy of the text, if there is one.
fn copied<A: Allocator>(alloc: A, text: Option<&str>) -> Result<Option<Text<A>>, AllocError>
    ensures ok { IfOk result (λ t. t ≡ option_map (λ s. s.now) text.entry) }
    ensures refused { OnErr result (Refused A) }
{
    match text {
        Some(text) => Ok(Some(Text::from_str(alloc, text)?)),
        None => Ok(None),
    }
}
