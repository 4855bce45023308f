//! The parameters that were kept of a control sequence which had too many.
ghost use Rattle.std.specs.Prelude.{◌≡◌, ◌≤◌, length};
ghost use Rattle.std.specs.Option.{option_map};
ghost use Rattle.typed_functions.specs.Selections.{separator_count, whole_entries};

use crate::entries::is_byte;
use crate::renditions::len_before;
use esc_values::CsiParam;

// Returns the entries before the last `;`: those of items that are whole, if more entries came
// after these.
// `None` if there is no `;`.
pub(crate) fn whole_entries(entries: &[CsiParam]) -> Option<&[CsiParam]>
    ensures { option_map (λ x. x.now) result ≡ whole_entries entries.now }
{
    let count = separator_count(entries);
    if count == 0 {
        None
    } else {
        Some(&entries[..len_before(count - 1, entries)])
    }
}

// Returns how many `;` there are.
fn separator_count(entries: &[CsiParam]) -> usize
    ensures same { result ≡ separator_count entries.now }
    ensures few { result ≤ length entries.now }
{
    let mut count = 0;
    for entry in entries {
        if is_byte(b';', *entry) {
            count += 1;
        }
    }
    count
}
