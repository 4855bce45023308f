//! The text of a list of actions.
ghost use Rattle.std.specs.Prelude.{◌≡◌, ◌<◌, ◌↔◌, ◌++◌, false, true, IfOk, IsErrOf, OnErr, OnOk, length, string_bytes, map};
ghost use Rattle.std.specs.List.{list_all};
ghost use Rattle.fallible_alloc.specs.Refusals.{Refused};
ghost use Rattle.esc_actions.specs.Texts.{has_text, is_string, list_text, text_after, value_text};
ghost use Rattle.esc_actions.specs.Values.{value_of};
ghost use Rattle.esc_actions.specs.Writable.{AreWritable};
ghost use Rattle.esc_sixel.specs.Texts.{is_sixel, sixel_text};
ghost use Rattle.esc_write.specs.Encoding.{AppendsFirst, HaveTexts, ReadsBack};

use crate::direct::append_csi;
use crate::encode_error::EncodeError;
use crate::runs::{gather_eights, have_texts};
use crate::short_text::ShortText;
use esc_actions::{Action, laws};
use esc_sixel::Sixel;
use esc_values::Text;
use std::alloc::{AllocError, Allocator};

/// Returns the text of these actions: their texts, one after another. After each operating system
/// command, kitty image, sixel image, termcap query, short device control and end of a mode comes
/// exactly one string terminator `ESC \`; a `StringTerminator` directly after it in the list is
/// that one, and not a second.
///
/// The text of a writable list reads back as the list's normal list, and is the text of that list
/// too. `EncodeError::Fmt` comes exactly if a sixel image of the list has a value over 63; that is
/// seen before any memory is taken. `EncodeError::Memory` says that a request for memory for the
/// text was refused. The empty list takes no memory.
pub fn encode<A: Allocator>(alloc: A, actions: &[Action<A>]) -> Result<String<A>, EncodeError>
    ensures text { IfOk result (λ t. string_bytes t ≡ list_text (map value_of actions.now)) }
    ensures reads_back { AreWritable (map value_of actions.now)
        → IfOk result (λ t. ReadsBack (map value_of actions.now) (string_bytes t)) }
    ensures no_text { IsErrOf result EncodeError.Fmt
        ↔ (list_all (λ a. has_text (value_of a)) actions.now ≡ false) }
    ensures refused { IsErrOf result EncodeError.Memory → (0 < length actions.now) × Refused A }
{
    if !have_texts(actions) {
        return Err(EncodeError::Fmt);
    }
    laws::reads_back::<A>();
    laws::same_text::<A>();
    match spell(alloc, actions) {
        Ok(text) => Ok(text.into_string()),
        Err(_) => Err(EncodeError::Memory),
    }
}

// Returns the text of these actions.
fn spell<A: Allocator>(alloc: A, actions: &[Action<A>]) -> Result<Text<A>, AllocError>
    ensures text { IfOk result (λ t. t ≡ list_text (map value_of actions.now)) }
    ensures refused { OnErr result (0 < length actions.now) }
    ensures memory_refused { HaveTexts actions.now → OnErr result (Refused A) }
{
    let mut text = Text::new(alloc);
    let mut run = ShortText::new();
    let mut follows_string = false;
    let mut rest = actions;
    'actions: while rest.len() > 0 {
        let (left, follows) = write_some(&mut text, &mut run, follows_string, rest)?;
        rest = left;
        follows_string = follows;
    }
    Ok(text)
}

// Appends the text of the first of these actions: of a run of ASCII characters, or of a few actions
// one by one. Returns the actions after them, and whether they come directly after a string action.
#[inline(always)]
fn write_some<'a, A: Allocator>(
    text: &mut Text<A>,
    run: &mut ShortText,
    follows_string: bool,
    actions: &'a [Action<A>],
) -> Result<(&'a [Action<A>], bool), AllocError>
    requires { 0 < length actions.now }
    ensures { AppendsFirst text.old follows_string actions.now result text.new }
{
    let rest = gather_eights(actions, run);
    if run.len() < 8 {
        return write_few(text, follows_string, actions);
    }
    text.push_str(run.as_str())?;
    Ok((rest, false))
}

// Does the same, for at most eight actions, one by one. Looking for a run again only after eight of
// them keeps short runs cheap.
fn write_few<'a, A: Allocator>(
    text: &mut Text<A>,
    follows_string: bool,
    actions: &'a [Action<A>],
) -> Result<(&'a [Action<A>], bool), AllocError>
    requires { 0 < length actions.now }
    ensures { AppendsFirst text.old follows_string actions.now result text.new }
{
    let mut follows = follows_string;
    let mut rest = actions;
    'few: for _i in 0..8usize {
        let Some((action, more)) = rest.split_first() else {
            break 'few;
        };
        follows = write_next(text, follows, action)?;
        rest = more;
    }
    Ok((rest, follows))
}

// Appends the text of an action, and returns whether it is a string action, so that the next text
// follows one. It looks for characters first.
#[inline(always)]
fn write_next<A: Allocator>(
    text: &mut Text<A>,
    follows_string: bool,
    action: &Action<A>,
) -> Result<bool, AllocError>
    ensures ok { IfOk result (λ f.
        (text.new ≡ text.old ++ text_after follows_string (value_of action.now))
        × (f ≡ is_string (value_of action.now))) }
    ensures refused { has_text (value_of action.now) ≡ true → OnErr result (Refused A) }
{
    if let Action::Print(c) = action {
        text.push(*c)?;
        return Ok(false);
    }
    write_other(text, follows_string, action)
}

// Does the same, apart from the code that writes characters.
#[inline(never)]
fn write_other<A: Allocator>(
    text: &mut Text<A>,
    follows_string: bool,
    action: &Action<A>,
) -> Result<bool, AllocError>
    ensures ok { IfOk result (λ f.
        (text.new ≡ text.old ++ text_after follows_string (value_of action.now))
        × (f ≡ is_string (value_of action.now))) }
    ensures refused { has_text (value_of action.now) ≡ true → OnErr result (Refused A) }
{
    write_after(text, follows_string, action)?;
    Ok(action.is_string())
}

/// Appends the text of an action. A string terminator directly after a string action adds none.
#[inline]
pub fn write_after<A: Allocator>(
    text: &mut Text<A>,
    follows_string: bool,
    action: &Action<A>,
) -> Result<(), AllocError>
    ensures ok { OnOk result (text.new
        ≡ text.old ++ text_after follows_string (value_of action.now)) }
    ensures refused { has_text (value_of action.now) ≡ true → OnErr result (Refused A) }
{
    match action {
        Action::Print(c) => text.push(*c),
        Action::Control(code) => text.push(code.as_char()),
        _ => write_whole(text, follows_string, action),
    }
}

// Does the same, but it looks for a string terminator first.
#[inline(always)]
fn write_whole<A: Allocator>(
    text: &mut Text<A>,
    follows_string: bool,
    action: &Action<A>,
) -> Result<(), AllocError>
    ensures ok { OnOk result (text.new
        ≡ text.old ++ text_after follows_string (value_of action.now)) }
    ensures refused { has_text (value_of action.now) ≡ true → OnErr result (Refused A) }
{
    if action.is_terminator() && follows_string {
        return Ok(());
    }
    write_alone(text, action)?;
    if action.is_left_open() {
        text.push_str("\x1b\\")?;
    }
    Ok(())
}

// Appends the text of an action by itself.
#[inline]
fn write_alone<A: Allocator>(text: &mut Text<A>, action: &Action<A>) -> Result<(), AllocError>
    ensures ok { OnOk result (text.new ≡ text.old ++ value_text (value_of action.now)) }
    ensures refused { has_text (value_of action.now) ≡ true → OnErr result (Refused A) }
{
    match action {
        Action::Print(c) => text.push(*c),
        Action::Control(code) => text.push(code.as_char()),
        Action::PrintString(string) => text.push_str(string.as_str()),
        Action::CSI(csi) => append_csi(text, csi),
        Action::Esc(_)
        | Action::OperatingSystemCommand(_)
        | Action::KittyImage(_)
        | Action::XtGetTcap(_)
        | Action::DeviceControl(_) => text.push_display(action),
        Action::Sixel(image) => write_image(text, image),
    }
}

// Appends the text of a sixel image, apart from the code that writes all else.
#[inline(never)]
fn write_image<A: Allocator>(text: &mut Text<A>, image: &Sixel<A>) -> Result<(), AllocError>
    ensures ok { OnOk result (text.new ≡ text.old ++ sixel_text image.now) }
    ensures refused { list_all is_sixel image.now.content ≡ true → OnErr result (Refused A) }
{
    image.append_to(text)
}
