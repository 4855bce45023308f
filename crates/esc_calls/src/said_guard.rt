//! The way for characters and carriage returns that hide or reorder text, by the options of a
//! sanitizer.
ghost use Rattle.std.specs.Prelude.{◌≡◌, IfErr, IfOk};
ghost use Rattle.esc_calls.specs.SanitizerOptions.{IsFault, SaysGuard, stream_returns};

use crate::fault::Fault;
use crate::said::{characters_of, returns_of};
use crate::sanitizer_options::SanitizerOptions;
use esc_filter::{Guard, Returns};

/// Returns the way in which characters and carriage returns that hide or reorder text are written,
/// if this is the usual one. Carriage returns are kept in a stream that is one.
pub(crate) fn guard_said(
    options: &SanitizerOptions,
    usual: Guard,
    by_lines: bool,
) -> Result<Guard, Fault>
    ensures said { IfOk result (SaysGuard options.now usual by_lines) }
    ensures fault { IfErr result (IsFault options.now) }
{
    let Some(characters) = characters_of(options.characters, usual.characters) else {
        return Err(Fault::Characters);
    };
    let Some(returns) = returns_of(options.returns, usual.returns) else {
        return Err(Fault::Returns);
    };
    Ok(Guard {
        characters,
        returns: framed(returns, by_lines),
    })
}

// Returns the way in which carriage returns are written by lines, or in a stream that is one.
fn framed(returns: Returns, by_lines: bool) -> Returns
    ensures { result ≡ stream_returns returns by_lines }
{
    if by_lines { returns } else { Returns::Keep }
}
