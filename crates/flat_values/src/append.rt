//! This module appends the fields of commands, each in a clause of its own. An error is that memory
//! was refused.
ghost use Rattle.std.specs.Prelude.{◌≡◌, OnOk, OnErr};
ghost use Rattle.flat_values.specs.Commands.{fields_of};
ghost use Rattle.flat_values.specs.Fields.{with_fields};
ghost use Rattle.esc_osc.specs.declared.command.OperatingSystemCommand.TheVariants as command;
ghost use Rattle.fallible_alloc.specs.Refusals.{Refused};

use crate::append_items::append_progress;
use crate::append_link::append_link;
use crate::append_prompt::append_prompt;
use crate::append_proprietary::append_proprietary;
use crate::field_name::FieldName;
use crate::fielded::{append_each, append_texts};
use crate::fields::Fields;
use esc_osc::OperatingSystemCommand as Command;
use esc_osc_values::{ColorOrQuery, DynamicColorNumber, Selection};
use esc_values::Text;
use std::alloc::{AllocError, Global};

// Appends the fields of a command.
pub(crate) fn append(command: &Command, fields: &mut Fields) -> Result<(), AllocError>
    ensures ok { OnOk result (fields.new ≡ with_fields fields.old (fields_of command.now)) }
    ensures refused { OnErr result (Refused Global) }
{
    match command {
        Command::SetIconNameAndWindowTitle(text)
        | Command::SetWindowTitle(text)
        | Command::SetWindowTitleSun(text)
        | Command::SetIconName(text)
        | Command::SetIconNameSun(text)
        | Command::SystemNotification(text) => fields.push_text(FieldName::Text, text.as_bytes()),
        Command::SetHyperlink(link) => append_link(link, fields),
        Command::ClearSelection(selection) | Command::QuerySelection(selection) => {
            append_selection(selection, fields)
        }
        Command::SetSelection(selection, text) => append_content(selection, text, fields),
        Command::ITermProprietary(command) => append_proprietary(command, fields),
        Command::FinalTermSemanticPrompt(prompt) => append_prompt(prompt, fields),
        Command::ChangeColorNumber(pairs) => append_each(pairs.as_slice(), fields),
        Command::ChangeDynamicColors(number, colors) => append_dynamic(
            *number,
            colors.as_slice(),
            fields,
        ),
        Command::ResetDynamicColor(number) => append_number(*number, fields),
        Command::CurrentWorkingDirectory(path) => {
            fields.push_text(FieldName::Directory, path.as_bytes())
        }
        Command::ResetColors(indices) => append_each(indices.as_slice(), fields),
        Command::RxvtExtension(texts) => {
            append_texts(FieldName::Part, texts.as_slice(), fields)
        },
        Command::ConEmuProgress(progress) => append_progress(progress, fields),
        Command::Unspecified(parts) => append_each(parts.as_slice(), fields),
    }
}

// Appends the selections.
fn append_selection(selection: &Selection, fields: &mut Fields) -> Result<(), AllocError>
    ensures ok { OnOk result (fields.new
        ≡ with_fields fields.old (fields_of {A = Global} (command.ClearSelection selection.now))) }
    ensures refused { OnErr result (Refused Global) }
{
    fields.push_number(FieldName::Selection, i64::from(selection.bits()))
}

// Appends the selections, and their text.
fn append_content(selection: &Selection, text: &Text, fields: &mut Fields) -> Result<(), AllocError>
    ensures ok { OnOk result (fields.new
        ≡ with_fields fields.old (fields_of {A = Global}
        (command.SetSelection selection.now text.now))) }
    ensures refused { OnErr result (Refused Global) }
{
    append_selection(selection, fields)?;
    fields.push_text(FieldName::Text, text.as_bytes())
}

// Appends a dynamic colour, and colours for it and those after it.
fn append_dynamic(
    number: DynamicColorNumber,
    colors: &[ColorOrQuery],
    fields: &mut Fields,
) -> Result<(), AllocError>
    ensures ok { OnOk result (fields.new
        ≡ with_fields fields.old (fields_of {A = Global}
        (command.ChangeDynamicColors number colors.now))) }
    ensures refused { OnErr result (Refused Global) }
{
    append_number(number, fields)?;
    append_each(colors, fields)
}

// Appends a dynamic colour.
fn append_number(number: DynamicColorNumber, fields: &mut Fields) -> Result<(), AllocError>
    ensures ok { OnOk result (fields.new
        ≡ with_fields fields.old (fields_of {A = Global} (command.ResetDynamicColor number))) }
    ensures refused { OnErr result (Refused Global) }
{
    fields.push_number(FieldName::DynamicColor, i64::from(number.number()))
}
