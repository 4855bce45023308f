//! The parameters of a control sequence, as numbers.
#![tactic(auto)]

ghost use Rattle.std.specs.Prelude.{◌≡◌, ◌≤◌, ℕ, List, map, take, length};
ghost use Rattle.esc_frame.specs.Machine.Keeps.{KeepsBody};
ghost use Rattle.heapless_parser.specs.States.{BodyIn};
ghost use Rattle.heapless_parser.specs.Emitted.{param_of};
ghost use Rattle.heapless_parser.specs.Runs.{IsDueAs};

use crate::event::EscEntry;
use crate::numbers::{form_of, number_of_form};
use crate::parser::EscParser;
use esc_frame::unfinished::body::CsiBody;
use esc_frame::unfinished::csi_params::Params;
use esc_frame::unfinished::param_list::ParamList;
use esc_values::csi_param::CsiParam;

// Returns the entry of a parameter.
fn param_of_list(param: CsiParam) -> EscEntry
    ensures { param_of result ≡ param }
{
    match param {
        CsiParam::Integer(number) => EscEntry {
            number,
            byte: 0,
            is_byte: false,
        },
        CsiParam::P(byte) => EscEntry {
            number: 0,
            byte,
            is_byte: true,
        },
    }
}

/// Writes the parameters to the first places.
pub fn put_csi_params(csi_params: &mut [EscEntry], params: &[CsiParam])
    requires { length params.now ≤ length csi_params.old }
    ensures { map param_of (take (length params.now) csi_params.new) ≡ params.now }
{
    for (i, param) in params.iter().enumerate() {
        csi_params[i] = param_of_list(*param);
    }
}

// Returns the parameter of an entry.
fn param_from(entry: EscEntry) -> CsiParam
    ensures { result ≡ param_of entry }
{
    if entry.is_byte {
        CsiParam::P(entry.byte)
    } else {
        CsiParam::Integer(entry.number)
    }
}

// Returns the parameters of these entries.
fn list_of(csi_params: &[EscEntry]) -> ParamList
    requires { length csi_params.now ≤ 256 }
    ensures { result ≡ map param_of csi_params.now }
{
    let mut items = ParamList::new();
    for entry in csi_params {
        items.push(param_from(*entry));
    }
    items
}

/// Returns the body of a control sequence that a parser keeps.
#[tactic(auto, using(crate::proofs::KeptState::PartsOfMachine::body_loaded))]
pub fn body_in(parser: &EscParser) -> CsiBody
    ensures { (x : List ℕ) → BodyIn parser.now x → KeepsBody result x }
{
    let count = parser.count.min(256);
    CsiBody {
        csi_params: Params {
            items: list_of(&parser.csi_params[..count]),
            limit: 256,
            is_truncated: parser.is_truncated,
            is_open: parser.is_open,
            number: parser.number.min(0x7fff_ffff_ffff_ffff),
        },
        form: form_of(parser.form),
    }
}

/// Keeps the body in the parser's numbers.
pub fn put_body(parser: &mut EscParser, body: &CsiBody)
    ensures body { (x : List ℕ) → KeepsBody body.now x → BodyIn parser.new x }
    ensures due { IsDueAs parser.new parser.old }
{
    let items = body.csi_params.items.as_slice();
    if items.len() <= 256 {
        put_csi_params(&mut parser.csi_params, items);
    }
    parser.count = items.len();
    parser.is_truncated = body.csi_params.is_truncated;
    parser.is_open = body.csi_params.is_open;
    parser.number = body.csi_params.number;
    parser.form = number_of_form(body.form);
}
