//! This module says how characters are written from here on.
ghost use Rattle.std.specs.Prelude.{◌≡◌, ◌∷◌, [], IsTrue};
ghost use Rattle.esc_pen.specs.Pens.{pen_by, pen_by_all, pen_by_optional, plain_pen, with_intensity};
ghost use Rattle.typed_functions.specs.Selections.{renditions_left, selection_of, selections};

use crate::ink::Ink;
use esc_sequences::{Intensity, Underline};
use esc_values::CsiParam;
use typed_functions::{Blink, ColorSpec, Rendition, Renditions};

/// Says how characters are written from here on: the renditions that hold for them (ECMA-48,
/// 8.3.117, SGR; xterm's list, "Character Attributes (SGR)"). Fonts, frames, marks of ideograms,
/// and how high and how wide characters are are no part of it.
#[derive(Clone, Copy, Debug, PartialEq, Eq)]
pub struct Pen {
    /// Says whether they are bold.
    pub bold: bool,
    /// Says whether they are faint, which they may be beside bold.
    pub faint: bool,
    /// Says whether they are slanted.
    pub italic: bool,
    /// Says how they are underlined.
    pub underline: Underline,
    /// Says how they blink.
    pub blink: Blink,
    /// Says whether their colour and that of the background are exchanged.
    pub inverse: bool,
    /// Says whether they are hidden.
    pub concealed: bool,
    /// Says whether they are crossed out.
    pub strikethrough: bool,
    /// Says whether they have a line above.
    pub overline: bool,
    /// Their colour.
    pub foreground: Ink,
    /// The colour of the background.
    pub background: Ink,
    /// The colour of their underline.
    pub underline_color: ColorSpec,
}

impl Pen {
    /// Returns a pen as at first: none of the renditions holds.
    pub fn plain() -> Pen
        ensures { result ≡ plain_pen }
    {
        Pen {
            bold: false,
            faint: false,
            italic: false,
            underline: Underline::None,
            blink: Blink::None,
            inverse: false,
            concealed: false,
            strikethrough: false,
            overline: false,
            foreground: Ink::Other(ColorSpec::Default),
            background: Ink::Other(ColorSpec::Default),
            underline_color: ColorSpec::Default,
        }
    }

    /// Takes one rendition.
    #[inline]
    pub fn select(&mut self, rendition: Rendition)
        ensures { self.new ≡ pen_by self.old rendition }
    {
        match rendition {
            Rendition::Reset => *self = Pen::plain(),
            Rendition::Intensity(intensity) => self.select_intensity(intensity),
            Rendition::Italic(is_on) => self.italic = is_on,
            Rendition::Underline(underline) => self.underline = underline,
            Rendition::Blink(blink) => self.blink = blink,
            Rendition::Inverse(is_on) => self.inverse = is_on,
            Rendition::Invisible(is_on) => self.concealed = is_on,
            Rendition::StrikeThrough(is_on) => self.strikethrough = is_on,
            Rendition::Overline(is_on) => self.overline = is_on,
            Rendition::AnsiForeground(color) => self.foreground = Ink::Named(color),
            Rendition::AnsiBackground(color) => self.background = Ink::Named(color),
            Rendition::Foreground(color) => self.foreground = Ink::Other(color),
            Rendition::Background(color) => self.background = Ink::Other(color),
            Rendition::UnderlineColor(color) => self.underline_color = color,
            Rendition::Font(_)
            | Rendition::Proportional(_)
            | Rendition::Frame(_)
            | Rendition::Ideogram(_)
            | Rendition::VerticalAlign(_) => {}
        }
    }

    // Takes bold, faint, or neither.
    #[inline]
    fn select_intensity(&mut self, intensity: Intensity)
        ensures { self.new ≡ with_intensity self.old intensity }
    {
        match intensity {
            Intensity::Normal => {
                self.bold = false;
                self.faint = false;
            }
            Intensity::Bold => self.bold = true,
            Intensity::Half => self.faint = true,
        }
    }

    /// Takes renditions, one after another. One that is not known leaves it.
    pub fn select_all(&mut self, renditions: Renditions<'_>)
        ensures { self.new ≡ pen_by_all self.old (renditions_left renditions.entry) }
    {
        for selection in renditions {
            self.select_optional(selection.rendition);
        }
    }

    /// Takes the renditions of these parameters, one after another. A number alone and a colour of
    /// the palette are read at once.
    #[inline]
    pub fn select_params(&mut self, params: &[CsiParam])
        ensures { self.new ≡ pen_by_all self.old (selections params.now) }
    {
        if is_one(params) {
            self.select_optional(Rendition::of_entries(params));
        } else {
            self.select_all(Renditions::new(params));
        }
    }

    // Takes one, if it is known.
    #[inline]
    fn select_optional(&mut self, rendition: Option<Rendition>)
        ensures { self.new ≡ pen_by_optional self.old rendition }
    {
        if let Some(rendition) = rendition {
            self.select(rendition);
        }
    }
}

// Returns whether the parameters are of one rendition, if that is seen at once: a number, or the
// numbers of a colour of the palette.
#[inline]
fn is_one(params: &[CsiParam]) -> bool
    ensures { IsTrue result → selections params.now ≡ selection_of params.now ∷ [] }
{
    match params {
        [CsiParam::Integer(_)] => true,
        [
            CsiParam::Integer(38 | 48),
            CsiParam::P(b';'),
            CsiParam::Integer(5),
            CsiParam::P(b';'),
            CsiParam::Integer(_),
        ] => true,
        _ => false,
    }
}
