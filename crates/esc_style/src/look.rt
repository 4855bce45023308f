//! This module says how characters look.
ghost use Rattle.std.specs.Prelude.{◌≡◌, is_none};
ghost use Rattle.std.specs.List.{list_all};
ghost use Rattle.esc_style.specs.Looks.{background_class, background_style, class_if, foreground_class, foreground_style, is_blinking, is_plain, look_after, look_by, look_by_all, look_by_optional, look_classes, look_styles, plain_look, seen_foreground, shown_background, shown_foreground, underline_class, underline_color_class, underline_color_style, with_intensity};
ghost use Rattle.esc_sequences.specs.Csis.{csi_value};
ghost use Rattle.typed_functions.specs.Selections.{renditions_left};

use crate::class::Class;
use crate::color::Color;
use crate::style::Style;
use esc_sequences::{CSI, Intensity, Underline};
use std::alloc::Allocator;
use typed_functions::{Blink, Function, Rendition, Renditions};

/// Says how characters look: the renditions that hold for them (ECMA-48, 8.3.117, SGR; xterm's
/// list, "Character Attributes (SGR)").
#[derive(Clone, Copy, Debug, PartialEq, Eq)]
pub struct Look {
    /// Says whether they are bold.
    pub bold: bool,
    /// Says whether they are faint. Bold characters may be faint too.
    pub faint: bool,
    /// Says whether they are slanted.
    pub italic: bool,
    /// Says how they are underlined.
    pub underline: Underline,
    /// Says whether they blink.
    pub blink: bool,
    /// Says whether their colour and that around them are exchanged.
    pub inverse: bool,
    /// Says whether they are hidden.
    pub concealed: bool,
    /// Says whether they are crossed out.
    pub strikethrough: bool,
    /// Says whether they have a line above.
    pub overline: bool,
    /// Their colour.
    pub foreground: Color,
    /// The colour around them.
    pub background: Color,
    /// The colour of their underline.
    pub underline_color: Color,
}

impl Look {
    /// Returns a look as at first: none of the renditions holds.
    pub fn plain() -> Look
        ensures { result ≡ plain_look }
    {
        Look {
            bold: false,
            faint: false,
            italic: false,
            underline: Underline::None,
            blink: false,
            inverse: false,
            concealed: false,
            strikethrough: false,
            overline: false,
            foreground: Color::Default,
            background: Color::Default,
            underline_color: Color::Default,
        }
    }

    /// Takes the request of a control sequence: its renditions, one after another, if its function
    /// is SGR. Any other leaves it, and so does a rendition that is not known.
    pub fn apply<A: Allocator>(&mut self, csi: &CSI<A>)
        ensures { self.new ≡ look_after self.old (csi_value csi.now) }
    {
        match Function::of(csi) {
            Function::Sgr(renditions) => self.select_all(renditions),
            _ => {}
        }
    }

    /// Takes one rendition. Fonts, frames, marks of ideograms, and how high and how wide characters
    /// are change nothing.
    pub fn select(&mut self, rendition: Rendition)
        ensures { self.new ≡ look_by self.old rendition }
    {
        match rendition {
            Rendition::Reset => *self = Look::plain(),
            Rendition::Intensity(intensity) => self.set_intensity(intensity),
            Rendition::Italic(is_on) => self.italic = is_on,
            Rendition::Underline(underline) => self.underline = underline,
            Rendition::Blink(blink) => self.blink = is_blinking(blink),
            Rendition::Inverse(is_on) => self.inverse = is_on,
            Rendition::Invisible(is_on) => self.concealed = is_on,
            Rendition::StrikeThrough(is_on) => self.strikethrough = is_on,
            Rendition::Overline(is_on) => self.overline = is_on,
            Rendition::AnsiForeground(color) => self.foreground = Color::Named(color),
            Rendition::AnsiBackground(color) => self.background = Color::Named(color),
            Rendition::Foreground(color) => self.foreground = Color::of(color),
            Rendition::Background(color) => self.background = Color::of(color),
            Rendition::UnderlineColor(color) => self.underline_color = Color::of(color),
            Rendition::Font(_)
            | Rendition::Proportional(_)
            | Rendition::Frame(_)
            | Rendition::Ideogram(_)
            | Rendition::VerticalAlign(_) => {}
        }
    }

    // Bold and faint may hold together (xterm and kitty); SGR 22 ends both (ECMA-48, 8.3.117).
    fn set_intensity(&mut self, intensity: Intensity)
        ensures { self.new ≡ with_intensity self.old intensity }
    {
        match intensity {
            Intensity::Normal => {
                self.bold = false;
                self.faint = false;
            }
            Intensity::Bold => self.bold = true,
            Intensity::Half => self.faint = true,
        }
    }

    // Takes renditions, one after another.
    pub fn select_all(&mut self, renditions: Renditions<'_>)
        ensures { self.new ≡ look_by_all self.old (renditions_left renditions.entry) }
    {
        for selection in renditions {
            self.select_optional(selection.rendition);
        }
    }

    // Takes one, if it is known.
    fn select_optional(&mut self, rendition: Option<Rendition>)
        ensures { self.new ≡ look_by_optional self.old rendition }
    {
        if let Some(rendition) = rendition {
            self.select(rendition);
        }
    }

    /// Returns whether it needs no span: it has neither a class nor a style.
    pub fn is_plain(&self) -> bool
        ensures { result ≡ is_plain self.now }
    {
        are_no_classes(&self.classes()) && are_no_styles(&self.styles())
    }

    // Returns the colour in which characters are shown.
    fn shown_foreground(&self) -> Color
        ensures { result ≡ shown_foreground self.now }
    {
        if self.inverse {
            self.background
        } else {
            self.foreground
        }
    }

    /// Returns the colour in which characters are shown, but for concealed ones, which are seen in
    /// none.
    pub fn seen_foreground(&self) -> Color
        ensures { result ≡ seen_foreground self.now }
    {
        if self.concealed {
            Color::Default
        } else {
            self.shown_foreground()
        }
    }

    /// Returns the colour that is shown around them.
    pub fn shown_background(&self) -> Color
        ensures { result ≡ shown_background self.now }
    {
        if self.inverse {
            self.foreground
        } else {
            self.background
        }
    }

    // Returns its classes, each if it is there.
    pub fn classes(&self) -> [Option<Class>; 12]
        ensures { result ≡ look_classes self.now }
    {
        [
            class_if(self.bold, Class::Bold),
            class_if(self.faint, Class::Faint),
            class_if(self.italic, Class::Italic),
            underline_class(self.underline),
            class_if(self.blink, Class::Blink),
            class_if(self.inverse, Class::Inverse),
            class_if(self.concealed, Class::Concealed),
            class_if(self.strikethrough, Class::Strikethrough),
            class_if(self.overline, Class::Overline),
            foreground_class(self.seen_foreground()),
            background_class(self.shown_background()),
            underline_color_class(self.underline_color),
        ]
    }

    // Returns its styles, each if it is there.
    pub fn styles(&self) -> [Option<Style>; 3]
        ensures { result ≡ look_styles self.now }
    {
        [
            foreground_style(self.seen_foreground()),
            background_style(self.shown_background()),
            underline_color_style(self.underline_color),
        ]
    }
}

// Returns whether no class is there.
fn are_no_classes(classes: &[Option<Class>]) -> bool
    ensures { result ≡ list_all is_none classes.now }
{
    classes.iter().all(|class| class.is_none())
}

// Returns whether no style is there.
fn are_no_styles(styles: &[Option<Style>]) -> bool
    ensures { result ≡ list_all is_none styles.now }
{
    styles.iter().all(|style| style.is_none())
}

// Returns whether characters blink.
fn is_blinking(blink: Blink) -> bool
    ensures { result ≡ is_blinking blink }
{
    match blink {
        Blink::None => false,
        Blink::Slow | Blink::Rapid => true,
    }
}

fn class_if(holds: bool, class: Class) -> Option<Class>
    ensures { result ≡ class_if holds class }
{
    if holds { Some(class) } else { None }
}

fn underline_class(underline: Underline) -> Option<Class>
    ensures { result ≡ underline_class underline }
{
    match underline {
        Underline::None => None,
        Underline::Single => Some(Class::Underline),
        Underline::Double => Some(Class::DoubleUnderline),
        Underline::Curly => Some(Class::CurlyUnderline),
        Underline::Dotted => Some(Class::DottedUnderline),
        Underline::Dashed => Some(Class::DashedUnderline),
    }
}

fn foreground_class(color: Color) -> Option<Class>
    ensures { result ≡ foreground_class color }
{
    match color {
        Color::Named(color) => Some(Class::Foreground(color)),
        Color::Palette(index) => Some(Class::PaletteForeground(index)),
        Color::Default | Color::Direct(_) => None,
    }
}

fn background_class(color: Color) -> Option<Class>
    ensures { result ≡ background_class color }
{
    match color {
        Color::Named(color) => Some(Class::Background(color)),
        Color::Palette(index) => Some(Class::PaletteBackground(index)),
        Color::Default | Color::Direct(_) => None,
    }
}

fn underline_color_class(color: Color) -> Option<Class>
    ensures { result ≡ underline_color_class color }
{
    match color {
        Color::Named(color) => Some(Class::UnderlineColor(color)),
        Color::Palette(index) => Some(Class::PaletteUnderline(index)),
        Color::Default | Color::Direct(_) => None,
    }
}

fn foreground_style(color: Color) -> Option<Style>
    ensures { result ≡ foreground_style color }
{
    match color {
        Color::Direct(color) => {
            let (red, green, blue) = color.to_tuple_rgb8();
            Some(Style::Color(red, green, blue))
        }
        Color::Default | Color::Named(_) | Color::Palette(_) => None,
    }
}

fn background_style(color: Color) -> Option<Style>
    ensures { result ≡ background_style color }
{
    match color {
        Color::Direct(color) => {
            let (red, green, blue) = color.to_tuple_rgb8();
            Some(Style::BackgroundColor(red, green, blue))
        }
        Color::Default | Color::Named(_) | Color::Palette(_) => None,
    }
}

fn underline_color_style(color: Color) -> Option<Style>
    ensures { result ≡ underline_color_style color }
{
    match color {
        Color::Direct(color) => {
            let (red, green, blue) = color.to_tuple_rgb8();
            Some(Style::TextDecorationColor(red, green, blue))
        }
        Color::Default | Color::Named(_) | Color::Palette(_) => None,
    }
}
