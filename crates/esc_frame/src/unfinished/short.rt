//! This module reads the body of a short control sequence by itself.
#![tactic(auto)]

ghost use Rattle.std.specs.Prelude.{◌≡◌, ◌≤◌, length, take};
ghost use Rattle.esc_frame.specs.Machine.Shorts.{IsShort};

use crate::unfinished::fields::read_body;
use esc_values::csi_param::CsiParam;

/// The value has at most 32 parameters. They take no memory.
#[derive(Drop)]
pub struct Short {
    pub items: [CsiParam; 32],
    pub count: usize,
    ghost fits: { count ≤ 32 },
}

impl Short {
    /// Returns a value without parameters.
    pub fn new() -> Self {
        Short {
            items: [CsiParam::P(0); 32],
            count: 0,
        }
    }

    /// Returns the parameters, in order.
    #[inline(always)]
    pub fn as_slice(&self) -> &[CsiParam]
        ensures { result.now ≡ take self.now.count self.now.items }
    {
        &self.items[..self.count]
    }

    /// Reads the body that comes first, as far as it has a private prefix, numbers and separators
    /// and at most 32 parameters, and returns its length.
    #[inline(always)]
    pub fn read(&mut self, rest: &[u8]) -> usize
        ensures few { result ≤ length rest.now }
        ensures keeps { IsShort (take self.new.count self.new.items) (take result rest.now) }
    {
        let body = read_body(&mut self.items, rest, true);
        self.count = body.count;
        body.length
    }
}
