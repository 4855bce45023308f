//! This module says how sixel data is written.
ghost use Rattle.std.specs.Prelude.{◌≡◌};
ghost use Rattle.std.specs.Fmt.{DisplaysOnOk};
ghost use Rattle.esc_sixel.specs.Texts.{least_percent, content_output};

use crate::appending::{ROOM, gather};
use crate::sixel_data::SixelData;
use esc_values::ascii::as_str;
use std::fmt;

// Returns the least percentage that is read as no less than this channel of a colour.
pub(crate) fn least_percentage(channel: u8) -> u32
    ensures { result ≡ least_percent channel }
{
    (100 * u32::from(channel) + 254) / 255
}

// Writes the data, as much of it at once as has room in an array.
pub(crate) fn write_content<W: fmt::Write>(
    content: &[SixelData],
    f: &mut fmt::Formatter<W>,
) -> fmt::Result
    ensures { DisplaysOnOk W.write_str_gives f.old result (content_output content.now) f.new }
{
    let mut bytes = [0; ROOM];
    let mut at = 0;
    'runs: while at < content.len() {
        let (count, end) = gather(&content[at..], &mut bytes);
        if count == 0 {
            return Err(fmt::Error);
        }
        f.write_str(as_str(&bytes[..end]))?;
        at += count;
    }
    Ok(())
}
