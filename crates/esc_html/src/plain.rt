//! Looks that need no span.
ghost use Rattle.std.specs.Prelude.{◌≡◌, is_none};
ghost use Rattle.esc_html.specs.Plain.{is_colorless, is_markless, is_own};
ghost use Rattle.esc_style.specs.Looks.{is_plain, underline_class};

use esc_sequences::Underline;
use esc_style::{Color, Look};

// Whether a look needs no span: it is as at first. It makes no list of classes to see that, and
// looks at colours first, which most looks that are not plain have.
#[inline]
pub(crate) fn is_plain(look: &Look) -> bool
    ensures { result ≡ is_plain look.now }
{
    is_colorless(look) && is_markless(look)
}

// Whether none of the renditions but colours holds.
pub(crate) fn is_markless(look: &Look) -> bool
    ensures { result ≡ is_markless look.now }
{
    !look.bold
        && !look.faint
        && !look.italic
        && is_none(look.underline)
        && !look.blink
        && !look.inverse
        && !look.concealed
        && !look.strikethrough
        && !look.overline
}

fn is_none(underline: Underline) -> bool
    ensures { result ≡ is_none (underline_class underline) }
{
    match underline {
        Underline::None => true,
        Underline::Single
        | Underline::Double
        | Underline::Curly
        | Underline::Dotted
        | Underline::Dashed => false,
    }
}

// Whether all colours are the page's own.
fn is_colorless(look: &Look) -> bool
    ensures { result ≡ is_colorless look.now }
{
    is_own(look.foreground) && is_own(look.background) && is_own(look.underline_color)
}

pub(crate) fn is_own(color: Color) -> bool
    ensures { result ≡ is_own color }
{
    match color {
        Color::Default => true,
        Color::Named(_) | Color::Palette(_) | Color::Direct(_) => false,
    }
}
