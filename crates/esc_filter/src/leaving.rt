//! The changes that the actions that pass leave at a terminal.
ghost use Rattle.std.specs.Prelude.{List, Option, ◌≡◌, ◌≢◌, ◌∷◌, codes, [], false, pos, IfSome, IsTrue};
ghost use Rattle.esc_values.specs.Clear.{parts_of};
ghost use Rattle.esc_sequences.specs.Csis.{CsiValue, csi_of, csi_value};
ghost use Rattle.esc_values.specs.declared.csi_param.CsiParam.{CsiParam};
ghost use Rattle.esc_values.specs.declared.csi_param.CsiParam.TheVariants.{Integer};
ghost use Rattle.esc_actions.specs.Values.{value_of};
ghost use Rattle.esc_osc.specs.Reading.{meaning as command_meant};
ghost use Rattle.esc_filter.specs.Closing.{BeginsWith, IsAfter, Turns, after_address, after_body, after_command, after_control, after_escape, after_sequence, after_value, ends_in_semicolon, is_reset, lights, noted_terminal, opens, turned_terminal};
ghost use Rattle.esc_filter.specs.Pens.{pen_after_final, pen_after_sequence};
ghost use Rattle.esc_pen.specs.declared.pen.Pen.{Pen};
ghost use Rattle.esc_filter.specs.Terminal.{after_escape_function, after_named_escape};
ghost use Rattle.esc_filter.specs.declared.terminal.Terminal.{Terminal};
ghost use Rattle.esc_write.specs.Plain.{AreParams, IsPlainLink};

use crate::links::{address_in, is_address};
use crate::policy::{are_plain, has_other_code};
use crate::terminal::Terminal;
use control_functions::{ControlFunction, EscapeFunction};
use esc_actions::{Action, ControlCode};
use esc_links::Hyperlink;
use esc_osc::{OperatingSystemCommand, laws};
use esc_sequences::csi::is_unspecified;
use esc_sequences::{CSI, Esc, Sgr};
use esc_values::{CsiParam, Items};
use esc_write::short_numbers::ShortNumbers;
use std::alloc::Allocator;

impl Terminal {
    /// Notes an action.
    pub fn note<A: Allocator>(&mut self, action: &Action<A>)
        ensures { self.new ≡ after_value (value_of action.now) self.old }
    {
        match action {
            Action::Control(code) => self.note_control(*code),
            Action::Esc(esc) => self.note_escape(*esc),
            Action::CSI(csi) => self.note_csi(csi),
            Action::OperatingSystemCommand(command) => self.note_command(command.as_ref()),
            _ => {}
        }
    }

    /// Notes a control: SO uses G1, and SI uses G0.
    #[inline]
    pub fn note_control(&mut self, code: ControlCode)
        ensures { self.new ≡ after_control code self.old }
    {
        match code {
            ControlCode::ShiftOut => self.sets.shifted = true,
            ControlCode::ShiftIn => self.sets.shifted = false,
            _ => {}
        }
    }

    fn note_escape(&mut self, esc: Esc)
        ensures { self.new ≡ after_escape esc self.old }
    {
        match esc {
            Esc::Unspecified { control, .. } => self.note_escape_function(
                EscapeFunction::of(esc),
                control,
            ),
            Esc::Code(_) => {}
        }
    }

    // Notes an escape sequence of this function, if it has one, with this final byte.
    fn note_escape_function(&mut self, function: Option<EscapeFunction>, control: u8)
        ensures { self.new ≡ after_named_escape function control self.old }
    {
        match function {
            Some(function) => self.change_by_escape(function, control),
            None => {}
        }
    }

    // Does the same for a function.
    fn change_by_escape(&mut self, function: EscapeFunction, control: u8)
        ensures { self.new ≡ after_escape_function function control self.old }
    {
        match function {
            EscapeFunction::DECSC => self.save(),
            EscapeFunction::DECRC => self.restore(),
            EscapeFunction::GZD4 => self.sets.g0 = control != b'B',
            EscapeFunction::G1D4 => self.sets.g1 = control != b'B',
            EscapeFunction::G2D4 => self.sets.g2 = control != b'B',
            EscapeFunction::G3D4 => self.sets.g3 = control != b'B',
            EscapeFunction::GZDM4 => self.sets.g0 = true,
            EscapeFunction::G1D6 => self.sets.g1 = true,
            EscapeFunction::G2D6 => self.sets.g2 = true,
            EscapeFunction::G3D6 => self.sets.g3 = true,
            EscapeFunction::LS2 => self.sets.shifted = true,
            EscapeFunction::LS3 => self.sets.shifted = true,
            _ => {}
        }
    }

    fn note_csi<A: Allocator>(&mut self, csi: &CSI<A>)
        ensures { self.new ≡ after_sequence (csi_value csi.now) self.old }
    {
        match csi {
            CSI::Sgr(sgr) => self.rendition = !is_reset(*sgr),
            CSI::Unspecified(sequence) => {
                let sequence = sequence.as_ref();
                self.note_body(sequence.params.as_slice(), sequence.control);
            }
        }
    }

    fn note_command<A: Allocator>(&mut self, command: &OperatingSystemCommand<A>)
        ensures { self.new ≡ after_command command.now self.old }
    {
        match command {
            OperatingSystemCommand::SetHyperlink(link) => self.link = opens(link),
            OperatingSystemCommand::Unspecified(parts) => {
                self.note_address(address_in(parts.as_slice()));
            }
            _ => {}
        }
    }

    // Notes a link to an address in these parts; none are no link.
    fn note_address<A: Allocator>(&mut self, address: &[Items<u8, A>])
        ensures { self.new ≡ after_address address.now self.old }
    {
        match address {
            [_, ..] => self.link = is_address(address),
            [] => {}
        }
    }

    // Notes a control sequence that has no name of its own.
    fn note_body(&mut self, params: &[CsiParam], control: u8)
        ensures { self.new ≡ after_body params.now control self.old }
    {
        match ControlFunction::of_csi_params(params, control) {
            Some(function) => self.change(function, params),
            None => {}
        }
    }

    /// Notes a control sequence that is known by its numbers.
    #[inline]
    pub fn note_short(&mut self, numbers: ShortNumbers, params: &[CsiParam], control: u8)
        requires { AreParams numbers params.now control }
        ensures { IsAfter params.now control self.old self.new }
    {
        if control == b'm' {
            self.rendition = lights(numbers);
            return;
        }
        if may_change(control) {
            self.note_body(params, control);
        }
    }

    /// Notes a control sequence, after which renditions are on, or not, if that is known.
    #[inline]
    pub fn note_sequence(&mut self, is_on: Option<bool>, params: &[CsiParam], control: u8)
        ensures { self.new ≡ noted_terminal is_on params.now control self.old }
    {
        if let Some(is_on) = is_on {
            self.rendition = is_on;
            return;
        }
        if may_change(control) {
            self.note_body(params, control);
        }
    }

    /// Notes a link to an address of this text, or the end of one, `8;;`.
    #[inline]
    pub fn note_link<A: Allocator>(&mut self, link: &str)
        requires link { IsPlainLink A link.now }
        requires address { link.now ≢ codes "8;;" → ends_in_semicolon false link.now ≡ false }
        ensures { self.new ≡ after_command (command_meant {A = A} (parts_of link.now)) self.old }
    {
        laws::reads_back::<A>();
        if link == "8;;" {
            self.link = false;
        } else {
            self.link = true;
        }
    }
}

// Returns whether a link to an address is open after it.
fn opens<A: Allocator>(link: &Option<Hyperlink<A>>) -> bool
    ensures { result ≡ opens link.now }
{
    match link {
        Some(link) => !link.uri.as_bytes().is_empty(),
        None => false,
    }
}

/// Returns whether this link, which is written as it came, may be without an address and not
/// written as the end of a link is.
#[inline]
pub(crate) fn is_other_end(link: &str) -> bool
    ensures { result ≡ false → link.now ≢ codes "8;;" → ends_in_semicolon false link.now ≡ false }
{
    link != "8;;" && ends_in_semicolon(link.as_bytes())
}

// Returns whether a semicolon comes last.
fn ends_in_semicolon(bytes: &[u8]) -> bool
    ensures { result ≡ ends_in_semicolon false bytes.now }
{
    !bytes.is_empty() && bytes[bytes.len() - 1] == b';'
}

// Returns whether a control sequence with this final byte may leave anything changed, or give it
// back.
#[inline]
fn may_change(control: u8) -> bool
    ensures { result ≡ false → (es : List CsiParam) (t : Terminal)
        → after_body es control t ≡ t }
{
    matches!(
        control,
        b'h' | b'l' | b'm' | b'p' | b'q' | b'r' | b's' | b'u' | b'}'
    )
}

// Returns whether the renditions of these numbers leave any on.
#[inline]
fn lights(numbers: ShortNumbers) -> bool
    ensures { result ≡ lights numbers }
{
    match numbers {
        ShortNumbers::Lone(number) => number != 0,
        ShortNumbers::Nothing | ShortNumbers::Pair(_, _) | ShortNumbers::Palette(_) => true,
    }
}

// Returns whether a rendition resets all.
fn is_reset(sgr: Sgr) -> bool
    ensures { result ≡ is_reset sgr }
{
    matches!(sgr, Sgr::Reset)
}

/// Returns whether the command of this text leaves all as it was, if that is seen at once.
#[tactic(auto, using(crate::proofs::Admission::CommandsAreKnown::other_leaves))]
#[inline]
pub(crate) fn leaves_all<A: Allocator>(text: &[u8]) -> bool
    ensures { IsTrue result → (t : Terminal)
        → after_command (command_meant {A = A} (parts_of text.now)) t ≡ t }
{
    has_other_code(text)
}

// Returns the natural number that a parameter is.
#[inline]
fn natural(param: CsiParam) -> Option<u64>
    ensures { IfSome result (λ n. param ≡ Integer (pos n)) }
{
    let CsiParam::Integer(number) = param else {
        return None;
    };
    match u64::try_from(number) {
        Ok(natural) => Some(natural),
        Err(_) => None,
    }
}

// Returns the natural number that is the only parameter.
#[inline]
fn lone_number(params: &[CsiParam]) -> Option<u64>
    ensures { IfSome result (λ n. params.now ≡ Integer (pos n) ∷ []) }
{
    let [param] = params else {
        return None;
    };
    natural(*param)
}

// Returns the natural number that comes first.
#[inline]
fn first_number(params: &[CsiParam]) -> Option<u64>
    ensures { IfSome result (λ n. BeginsWith n params.now) }
{
    let [first, _rest @ ..] = params else {
        return None;
    };
    natural(*first)
}

/// Returns whether renditions are on after a control sequence, or that its body says which changes
/// it leaves, if it is seen at once that it is one action.
#[inline]
pub(crate) fn renditions_after(params: &[CsiParam], control: u8) -> Option<Option<bool>>
    ensures { IfSome result (λ is_on. (v : CsiValue) × (csi_of params.now false control ≡ v ∷ [])
        × ((t : Terminal) → after_sequence v t ≡ noted_terminal is_on params.now control t)
        × ((p : Option Pen) → pen_after_sequence v p ≡ pen_after_final params.now control p)) }
{
    if control != b'm' {
        return Some(None);
    }
    match are_on(params) {
        Some(is_on) => Some(Some(is_on)),
        None => None,
    }
}

// Returns whether renditions are on after a sequence of these parameters and `m`, if it is seen at
// once that this is one action.
#[tactic(auto, using(crate::proofs::GivingBack::RenditionsAfterSequence::turning))]
#[inline]
fn are_on(params: &[CsiParam]) -> Option<bool>
    ensures { IfSome result (λ b. Turns params.now b) }
{
    if params.len() == 0 {
        return Some(false);
    }
    if let Some(number) = lone_number(params) {
        return Some(number != 0);
    }
    match first_number(params) {
        Some(number) if number > 24 && are_plain(params) => Some(true),
        _ => are_unnamed(params),
    }
}

// Does the same, if the sequence has no name of its own.
fn are_unnamed(params: &[CsiParam]) -> Option<bool>
    ensures { IfSome result (λ b. Turns params.now b) }
{
    if is_unspecified(params, false, b'm') && are_plain(params) {
        Some(true)
    } else {
        None
    }
}
