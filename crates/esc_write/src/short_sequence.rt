//! Control sequences as short texts.
ghost use Rattle.std.specs.Prelude.{◌≡◌, ◌+◌, ◌<◌, ◌≤◌, ◌++◌, [], Bool, IsTrue, length};
ghost use Rattle.std.specs.Fmt.{decimal};
ghost use Rattle.esc_sequences.specs.Csis.{csi_text, unspecified};
ghost use Rattle.esc_values.specs.Params.{param_text};

use crate::short_text::{ROOM, ShortText};
use esc_values::CsiParam;

impl ShortText {
    // Appends the text of a control sequence that has no name, if it is short: its parameters are
    // ASCII characters and numbers under 256, and there is room for it.
    pub(crate) fn push_sequence(&mut self, params: &[CsiParam], control: u8) -> bool
        requires { self.old ≡ [] }
        ensures { (more : Bool) → IsTrue result
            → self.new ≡ csi_text (unspecified params.now more control) }
    {
        self.push(0x1b);
        self.push(b'[');
        for param in params {
            if !self.push_param(*param) {
                return false;
            }
        }
        if control >= 128 || self.len() == ROOM {
            return false;
        }
        self.push(control);
        true
    }

    // Appends the text of a parameter, if that is short and there is room for three bytes.
    #[inline(always)]
    fn push_param(&mut self, param: CsiParam) -> bool
        ensures { IsTrue result → self.new ≡ self.old ++ param_text param }
    {
        if self.len() > ROOM - 3 {
            return false;
        }
        match param {
            CsiParam::P(byte) => {
                if byte >= 128 {
                    return false;
                }
                self.push(byte);
                true
            }
            CsiParam::Integer(number) => match u8::try_from(number) {
                Ok(small) => {
                    self.push_number(small);
                    true
                }
                Err(_) => false,
            },
        }
    }

    // Appends a number of at most three digits in decimal.
    #[inline(always)]
    fn push_number(&mut self, number: u8)
        requires { length self.old ≤ 125 }
        ensures { self.new ≡ self.old ++ decimal number }
    {
        if number < 10 {
            self.push(48 + number);
        } else if number < 100 {
            self.push(48 + number / 10);
            self.push(48 + number % 10);
        } else {
            self.push(48 + number / 100);
            self.push(48 + number / 10 % 10);
            self.push(48 + number % 10);
        }
    }
}
