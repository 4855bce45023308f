//! Renditions that logs have most besides colours.
ghost use Rattle.std.specs.Prelude.{◌≡◌, false};
ghost use Rattle.esc_html.specs.PageParts.{page_part_text, span};
ghost use Rattle.esc_html.specs.Plain.{mark_look, marking};
ghost use Rattle.esc_style.specs.Looks.{look_by};

use esc_sequences::Underline;
use esc_style::Look;

/// A rendition that logs have most besides colours.
#[derive(Clone, Copy)]
pub(crate) enum Mark {
    /// SGR 1: bold.
    Bold,
    /// SGR 2: faint.
    Faint,
    /// SGR 3: slanted.
    Italic,
    /// SGR 4: underlined.
    Underlined,
    /// SGR 7: the colours are exchanged.
    Inverse,
    /// SGR 9: crossed out.
    Strikethrough,
}

impl Mark {
    /// Puts it on characters.
    #[inline]
    pub fn put_on(self, look: &mut Look)
        ensures { look.new ≡ look_by look.old (marking self) }
    {
        match self {
            Mark::Bold => look.bold = true,
            Mark::Faint => look.faint = true,
            Mark::Italic => look.italic = true,
            Mark::Underlined => look.underline = Underline::Single,
            Mark::Inverse => look.inverse = true,
            Mark::Strikethrough => look.strikethrough = true,
        }
    }

    /// The start tag of a span whose look has it and nothing else.
    pub fn tag(self) -> &'static str
        ensures { result.now ≡ page_part_text (span false (mark_look self)) }
    {
        match self {
            Mark::Bold => "<span class=\"es-bold\">",
            Mark::Faint => "<span class=\"es-faint\">",
            Mark::Italic => "<span class=\"es-italic\">",
            Mark::Underlined => "<span class=\"es-underline\">",
            Mark::Inverse => "<span class=\"es-inverse\">",
            Mark::Strikethrough => "<span class=\"es-strikethrough\">",
        }
    }
}
