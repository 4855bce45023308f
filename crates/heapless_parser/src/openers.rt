//! Openers of a sequence or a string whose bytes come in chunks.
#![tactic(auto)]

ghost use Rattle.std.specs.Prelude.{◌≡◌, ℕ, List, false};
ghost use Rattle.esc_frame.specs.Machine.Moves.{unfinished_at_opener};
ghost use Rattle.esc_frame.specs.Segments.{Opener};
ghost use Rattle.heapless_parser.specs.Runs.{IsDueAs};
ghost use Rattle.heapless_parser.specs.States.{KeptIn};

use crate::numbers::{
    APC_STATE, CSI_STATE, ESCAPED, GROUND, HEADER_STATE, IGNORED_STATE, OSC_STATE,
};
use crate::parser::EscParser;
use esc_frame::classes::Kind;

/// Begins an escape sequence.
#[inline(always)]
pub fn escape(parser: &mut EscParser)
    ensures state { (parser.new.state ≡ ESCAPED) × (parser.new.kept ≡ 0)
        × (parser.new.has_more ≡ false) }
    ensures queued { IsDueAs parser.new parser.old }
{
    parser.state = ESCAPED;
    parser.kept = 0;
    parser.has_more = false;
}

/// Begins a sequence or a string of this kind.
#[inline(always)]
pub fn open_kind(parser: &mut EscParser, kind: Kind)
    ensures queued { IsDueAs parser.new parser.old }
    ensures opened { (o : Opener) (memory : List ℕ)
        → KeptIn parser.new memory (unfinished_at_opener kind o) }
{
    parser.text = 0;
    parser.is_over = false;
    parser.form = 0;
    match kind {
        Kind::Csi => {
            parser.count = 0;
            parser.is_truncated = false;
            parser.is_open = false;
            parser.state = CSI_STATE;
        }
        Kind::Osc => {
            parser.pending = 0;
            parser.state = OSC_STATE;
        }
        Kind::Dcs => {
            parser.kept = 0;
            parser.has_more = false;
            parser.state = HEADER_STATE;
        }
        Kind::Sos | Kind::Pm => parser.state = IGNORED_STATE,
        Kind::Apc => parser.state = APC_STATE,
    }
}
