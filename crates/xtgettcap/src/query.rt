//! This module says how a termcap query is written.
ghost use Rattle.std.specs.Prelude.{◌∷◌, Some};
ghost use Rattle.std.specs.Fmt.{DisplaysOnOk};
ghost use Rattle.std.specs.List.{flat_map};
ghost use Rattle.xtgettcap.specs.Names.{hex_text, names_text, query_text};

use crate::name::Hex;
use esc_values::Text;
use std::alloc::{Allocator, Global};
use std::fmt;

/// A query for the capabilities of these names.
#[derive_where(Clone, Copy)]
pub struct TcapQuery<'a, A: Allocator = Global>(pub &'a [Text<A>]);

/// Writes `ESC P + q` and the names, with `;` between them and two lower-case digits a byte,
/// without the string terminator. No names are written as one empty name is.
///
/// Takes no memory, and errs only if the formatter's writer errs.
impl<A: Allocator> fmt::Display for TcapQuery<'_, A> {
    ghost output = { λ q. Some (query_text q.0.now) };

    fn fmt<W: fmt::Write>(&self, f: &mut fmt::Formatter<W>) -> fmt::Result {
        f.write_str("\x1bP+q")?;
        write_names(self.0, f)
    }
}

// Writes the names with `;` between them.
fn write_names<W: fmt::Write, A: Allocator>(
    names: &[Text<A>],
    f: &mut fmt::Formatter<W>,
) -> fmt::Result
    ensures { DisplaysOnOk W.write_str_gives f.old result (Some (names_text names.now)) f.new }
{
    let Some((first, rest)) = names.split_first() else {
        return Ok(());
    };
    let first = Hex(first);
    write!(f, "{first}")?;
    write_more(rest, f)
}

// Writes the names with `;` before each.
fn write_more<W: fmt::Write, A: Allocator>(
    rest: &[Text<A>],
    f: &mut fmt::Formatter<W>,
) -> fmt::Result
    ensures { DisplaysOnOk W.write_str_gives f.old result
        (Some (flat_map (λ n. 0x3b ∷ hex_text n) rest.now)) f.new }
{
    for name in rest {
        let name = Hex(name);
        write!(f, ";{name}")?;
    }
    Ok(())
}
