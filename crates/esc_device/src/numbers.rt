//! Parameters, written in decimal.
ghost use Rattle.std.specs.Prelude.{◌∷◌, Some};
ghost use Rattle.std.specs.Fmt.{DisplaysOnOk, signed_decimal};
ghost use Rattle.std.specs.List.{flat_map};
ghost use Rattle.esc_device.specs.Texts.{params_text};

use std::fmt;
use std::fmt::Display;

// The numbers print with `;` between them.
#[derive(Clone, Copy)]
pub(crate) struct Numbers<'a>(pub(crate) &'a [i64]);

impl Display for Numbers<'_> {
    ghost output = { λ n. Some (params_text n.0.now) };

    fn fmt<W: fmt::Write>(&self, f: &mut fmt::Formatter<W>) -> fmt::Result {
        let Some((first, rest)) = self.0.split_first() else {
            return Ok(());
        };
        write!(f, "{first}")?;
        write_more(rest, f)
    }
}

// Writes the numbers with `;` before each.
fn write_more<W: fmt::Write>(rest: &[i64], f: &mut fmt::Formatter<W>) -> fmt::Result
    ensures { DisplaysOnOk W.write_str_gives f.old result
        (Some (flat_map (λ n. 0x3b ∷ signed_decimal n) rest.now)) f.new }
{
    for number in rest {
        write!(f, ";{number}")?;
    }
    Ok(())
}
