//! The actions that stay if those that a page leaves out are shown.
ghost use Rattle.std.specs.Prelude.{◌≡◌};
ghost use Rattle.esc_actions.specs.Values.{value_of};
ghost use Rattle.esc_sequences.specs.Csis.{csi_value};
ghost use Rattle.esc_style.specs.Looks.{look_after};
ghost use Rattle.eschtml.specs.Written.{disguised_look, disguises, is_uncovered};

use esc_actions::Action;
use esc_filter::{Admit, Policy};
use esc_html::{Look, is_shown};
use esc_sequences::CSI;
use memchr::memchr;
use std::alloc::Allocator;

/// Admits the actions that a page shows, but for renditions after which text looks as shown text or
/// is not seen, and for those that end reverse video, as the end of shown text does; and if the
/// final lines are shown, actions that change the screen, since these decide them.
#[derive(Clone, Copy)]
pub struct Kept {
    /// Whether actions that change the screen stay.
    pub moves: bool,
}

impl<A: Allocator> Admit<A> for Kept {
    ghost use Rattle.eschtml.specs.Written.{is_kept};

    ghost admits = { λ k v. is_kept k.moves v };

    fn admits(&self, action: &Action<A>) -> bool {
        !disguises(action) && (is_shown(action) || (self.moves && Policy::Screen.admits(action)))
    }

    #[inline]
    fn admits_text(&self, text: &[u8]) -> bool {
        match memchr(0x7f, text) {
            Some(_) => false,
            None => true,
        }
    }
}

// Whether plain text is in reverse video after an action, as shown text is, or concealed; or the
// action ends reverse video, and is no reset.
fn disguises<A: Allocator>(action: &Action<A>) -> bool
    ensures { result ≡ disguises (value_of action.now) }
{
    match action {
        Action::CSI(csi) => {
            let mut look = Look::plain();
            look.apply(csi);
            look.inverse || look.concealed || uncovers(csi)
        }
        Action::Print(_)
        | Action::PrintString(_)
        | Action::Control(_)
        | Action::Esc(_)
        | Action::OperatingSystemCommand(_)
        | Action::KittyImage(_)
        | Action::Sixel(_)
        | Action::XtGetTcap(_)
        | Action::DeviceControl(_) => false,
    }
}

// Whether a control sequence ends reverse video, but not the rendition that conceals.
fn uncovers<A: Allocator>(csi: &CSI<A>) -> bool
    ensures { result ≡ is_uncovered (look_after disguised_look (csi_value csi.now)) }
{
    let mut look = Look::plain();
    look.inverse = true;
    look.concealed = true;
    look.apply(csi);
    look.concealed && !look.inverse
}
