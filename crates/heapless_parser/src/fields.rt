//! Reading a body of a control sequence into the parameters of an event.
#![tactic(auto)]

ghost use Rattle.heapless_parser.specs.Emitted.{param_of};

use crate::event::EscEntry;
use esc_frame::unfinished::fields::Param;

impl Param for EscEntry {
    ghost param = { param_of };

    #[inline(always)]
    fn of_byte(byte: u8) -> Self {
        EscEntry {
            number: 0,
            byte,
            is_byte: true,
        }
    }

    #[inline(always)]
    fn of_number(number: u64) -> Self {
        EscEntry {
            number: number as i64,
            byte: 0,
            is_byte: false,
        }
    }
}
