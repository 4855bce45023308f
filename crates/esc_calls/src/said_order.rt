//! The order of bytes in a stream of UTF-16, by the options of a sanitizer.
ghost use Rattle.std.specs.Prelude.{◌≡◌};
ghost use Rattle.esc_calls.specs.SanitizerOptions.{order_numbered};

use esc_decode::ByteOrder;

/// The order of bytes, if the number is that of an encoding of UTF-16.
pub(crate) fn order_of(number: u32) -> Option<ByteOrder>
    ensures { result ≡ order_numbered number }
{
    match number {
        13 => Some(ByteOrder::Marked),
        14 => Some(ByteOrder::Little),
        15 => Some(ByteOrder::Big),
        _ => None,
    }
}
