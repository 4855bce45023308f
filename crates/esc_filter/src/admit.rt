//! The rules that say which actions a filter lets through.
ghost use Rattle.std.specs.Prelude.{◌≡◌, Bool, IfSome, IsTrue, Some, false, true};
ghost use Rattle.std.specs.List.{list_all, list_any};
ghost use Rattle.std.specs.Str.{chars};
ghost use Rattle.esc_values.specs.Clear.{parts_of};
ghost use Rattle.esc_sequences.specs.Csis.{csi_of};
ghost use Rattle.esc_actions.specs.Values.{Value, csi, device_value, osc, print, value_of};
ghost use Rattle.esc_osc.specs.Reading.{meaning as command_meant};
ghost use Rattle.esc_parse.specs.Images.{is_image};
ghost use Rattle.esc_filter.specs.Known.{IsKnown};
ghost use Rattle.esc_filter.specs.Passing.{is_whole, passes};

use crate::known::Known;
use esc_actions::Action;
use esc_actions::exceptions::{has_high_byte, is_opening, is_truncated};
use esc_device::DeviceControlMode;
use esc_values::CsiParam;
use std::alloc::Allocator;

/// Says which actions may pass a filter: a [`Policy`](crate::Policy), or a rule of the caller's
/// own.
///
/// A filter asks it only about actions that can be written by themselves. So an implementation
/// cannot let through an action that would read back as another.
pub trait Admit<A: Allocator> {
    // the values that it admits
    ghost admits: { Self → Value A → Bool };

    /// Returns whether the action may pass. It is asked about each action once, in order, but for
    /// the characters of a run that [`admits_text`](Admit::admits_text) lets through, and for
    /// actions that [`admits_sequence`](Admit::admits_sequence) or
    /// [`admits_command`](Admit::admits_command) decides. At the end of a stream, and by lines at
    /// the end of a line, that leaves margins or a state saved with the cursor, it is asked about
    /// DECSC and DECRC, since these would restore it.
    fn admits(&self, action: &Action<A>) -> bool
        ensures { result ≡ admits self.now (value_of action.now) };

    /// Returns the decisions about all actions of a kind. It is not asked about these, and
    /// [`leaves_out`](Admit::leaves_out) is not shown those that do not pass. By default there are
    /// none, and it is asked about each.
    #[inline]
    fn known(&self) -> Known
        ensures { IsKnown (admits self.now) result }
    {
        Known::nothing()
    }

    /// Returns whether each character of a run of text, 20 to 7F and one byte each, may pass. If it
    /// returns false, it is asked about each of them by itself; so it does by default.
    #[inline]
    fn admits_text(&self, _text: &[u8]) -> bool
        ensures { IsTrue result → list_all (λ c. admits self.now (print c)) _text.now ≡ true }
    {
        false
    }

    /// Does the same for a run of characters as UTF-8.
    #[inline]
    fn admits_str(&self, _text: &str) -> bool
        ensures { IsTrue result → list_all (λ c. admits self.now (print c))
            (chars _text.now) ≡ true }
    {
        false
    }

    /// Returns whether the actions of a control sequence with all its parameters pass: true if each
    /// is admitted, and false if none is and [`leaves_out`](Admit::leaves_out) need not be shown
    /// them. They are not made then. If it returns `None`, each is made and asked about by itself;
    /// so it does by default.
    #[inline]
    fn admits_sequence(&self, _params: &[CsiParam], _control: u8) -> Option<bool>
        ensures passes { result ≡ Some true → list_all (λ c. admits self.now (csi c))
            (csi_of _params.now false _control) ≡ true }
        ensures stays { result ≡ Some false → list_any (λ c. admits self.now (csi c))
            (csi_of _params.now false _control) ≡ false }
    {
        None
    }

    /// Does the same for the operating system command of this text, whose parts are between `;`.
    #[inline]
    fn admits_command(&self, _text: &[u8]) -> Option<bool>
        ensures { IfSome result (λ b.
            admits self.now (osc (command_meant (parts_of _text.now))) ≡ b) }
    {
        None
    }

    /// Returns whether an image, of kitty's protocol or sixel, may be admitted. If it returns
    /// false, as it does not by default, none is made.
    #[inline]
    fn admits_images(&self) -> bool
        ensures { result ≡ false → (v : Value A) → is_image v ≡ true → admits self.now v ≡ false }
    {
        true
    }

    /// Is shown each action that does not pass, also one about which no policy is asked, and each
    /// character that [`Unicode::Drop`](crate::Unicode::Drop) leaves out, but for actions for which
    /// [`admits_sequence`](Admit::admits_sequence), [`admits_command`](Admit::admits_command) or
    /// [`admits_images`](Admit::admits_images) returns false. It does nothing, unless an
    /// implementation does.
    fn leaves_out(&self, _action: &Action<A>) {}
}

/// Returns whether an action that a parser handed out passes a filter of this policy: it can be
/// written by itself, and is admitted.
#[inline]
pub fn passes<A: Allocator, P: Admit<A>>(policy: &P, action: &Action<A>) -> bool
    ensures { result ≡ passes (P.admits policy.now) (value_of action.now) }
{
    is_whole(action) && policy.admits(action)
}

// Returns whether an action that a parser handed out can be written by itself.
fn is_whole<A: Allocator>(action: &Action<A>) -> bool
    ensures { result ≡ is_whole (value_of action.now) }
{
    match action {
        Action::Print(_)
        | Action::PrintString(_)
        | Action::Control(_)
        | Action::OperatingSystemCommand(_)
        | Action::KittyImage(_)
        | Action::Sixel(_)
        | Action::XtGetTcap(_) => true,
        Action::Esc(esc) => !is_opening(esc),
        Action::CSI(csi) => !is_truncated(csi),
        Action::DeviceControl(mode) => is_plain_short(mode),
    }
}

// Returns whether it is a short control without a byte A0 to FF.
fn is_plain_short<A: Allocator>(mode: &DeviceControlMode<A>) -> bool
    ensures { result ≡ is_whole (device_value mode.now) }
{
    match mode {
        DeviceControlMode::ShortDeviceControl(short) => {
            !has_high_byte(short.as_ref().content.as_slice())
        }
        DeviceControlMode::Enter(_) | DeviceControlMode::Data(_) | DeviceControlMode::Exit => false,
    }
}
