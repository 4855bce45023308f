//! Laws of operating system commands say that a written command reads back, that the command of
//! clear parts can be written, and that dynamic colours have their numbers.
ghost use Rattle.std.specs.Prelude.{◌≡◌, List, ℕ};
ghost use Rattle.std.specs.Fmt.{decimal};
ghost use Rattle.esc_values.specs.Clear.{AreTextParts, IsClearText, parts_of};
ghost use Rattle.esc_osc_values.specs.Codes.{change_code, code_text};
ghost use Rattle.esc_osc.specs.Commands.{inner_text};
ghost use Rattle.esc_osc.specs.Reading.{meaning};
ghost use Rattle.esc_osc.specs.Writable.{IsWritable};
ghost use Rattle.esc_osc.specs.declared.command.OperatingSystemCommand.{OperatingSystemCommand};

use esc_osc_values::dynamic_color_number::DynamicColorNumber;
use std::alloc::Allocator;

/// A writable command writes a clear text between `ESC ]` and the string terminator.
#[tactic(auto, using(crate::proofs::ReadsBack::writes_clear))]
pub fn writes_clear<A: Allocator>()
    ensures { (c : OperatingSystemCommand A) → IsWritable c → IsClearText (inner_text c) }
{}

/// The parts of the text of a writable command mean that command.
#[tactic(auto, using(crate::proofs::ReadsBack::reads_back))]
pub fn reads_back<A: Allocator>()
    ensures { (c : OperatingSystemCommand A) → IsWritable c
        → meaning (parts_of (inner_text c)) ≡ c }
{}

/// The command that clear parts mean is writable, unless they are one empty part.
#[tactic(auto, using(crate::proofs::ReadsBack::clear_is_writable))]
pub fn clear_is_writable<A: Allocator>()
    ensures { (ps : List (List ℕ)) → AreTextParts ps → IsWritable {A = A} (meaning {A = A} ps) }
{}

/// The number of a dynamic colour, from 10 to 19, is the text of the code that changes it.
pub fn number_of_color(color: DynamicColorNumber) -> u8
    ensures { decimal result ≡ code_text (change_code color) }
{
    color.number()
}
