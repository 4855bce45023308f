//! The look of the next characters of a page.
ghost use Rattle.std.specs.Prelude.{◌≡◌, ◌++◌, OnErr, OnOk, true};
ghost use Rattle.esc_html.specs.PageParts.{html_text, page_part_text, span};
ghost use Rattle.esc_html.specs.Pages.{span_unless};
ghost use Rattle.esc_html.specs.Plain.{is_colored, is_colored_alone, is_named, is_of_kind, marking};
ghost use Rattle.esc_style.specs.Looks.{is_plain, look_by, look_by_all, plain_look};
ghost use Rattle.esc_style.specs.declared.look.Look.{Look as LookValue};
ghost use Rattle.fallible_alloc.specs.Refusals.{Refused};
ghost use Rattle.typed_functions.specs.Selections.{renditions_left};
ghost use Rattle.typed_functions.specs.declared.ansi_color.AnsiColor.{AnsiColor as AnsiColorValue};
ghost use Rattle.typed_functions.specs.declared.rendition.Rendition.TheVariants.{AnsiForeground};

use crate::colored::is_colored_alone;
use crate::mark::Mark;
use crate::markup::Markup;
use crate::plain::is_plain;
use esc_style::{Color, Look};
use std::alloc::{AllocError, Allocator};
use typed_functions::{AnsiColor, Rendition, Renditions};

/// Which spans a look needs, so that its fields are not looked at for each.
#[derive(Clone, Copy)]
pub(crate) enum Kind {
    /// None: it is as at first.
    Plain,
    /// That of a colour by its name, and of nothing else.
    Colored,
    /// That of a mark, and of nothing else.
    Marked(Mark),
    /// Another one.
    Other,
}

/// A look, and its kind.
#[derive(Drop)]
pub(crate) struct PageLook {
    /// The look.
    pub look: Look,
    kind: Kind,
    ghost is_kind: { is_of_kind kind look ≡ true },
}

impl PageLook {
    /// As at first.
    pub fn plain() -> PageLook
        ensures { result.look ≡ plain_look }
    {
        PageLook {
            look: Look::plain(),
            kind: Kind::Plain,
        }
    }

    /// Whether it needs no span.
    #[inline]
    pub fn is_plain(&self) -> bool
        ensures { result ≡ is_plain self.now.look }
    {
        match self.kind {
            Kind::Plain => true,
            Kind::Colored => false,
            Kind::Marked(_) => false,
            Kind::Other => false,
        }
    }

    /// Takes all renditions back.
    #[inline]
    pub fn reset(&mut self)
        ensures { self.new.look ≡ plain_look }
    {
        *self = PageLook::plain();
    }

    /// Takes a colour of the characters, by its name.
    #[inline]
    pub fn color(&mut self, color: AnsiColor)
        ensures { self.new.look ≡ look_by self.old.look (AnsiForeground color) }
    {
        self.look.foreground = Color::Named(color);
        self.kind = self.kind.colored();
    }

    /// Takes a mark.
    #[inline]
    pub fn mark(&mut self, mark: Mark)
        ensures { self.new.look ≡ look_by self.old.look (marking mark) }
    {
        mark.put_on(&mut self.look);
        self.kind = self.kind.marked(mark);
    }

    /// Takes a rendition.
    pub fn select(&mut self, rendition: Rendition)
        ensures { self.new.look ≡ look_by self.old.look rendition }
    {
        self.look.select(rendition);
        self.kind = kind_of(&self.look);
    }

    /// Takes renditions, one after another.
    pub fn select_all(&mut self, renditions: Renditions<'_>)
        ensures { self.new.look ≡ look_by_all self.old.look (renditions_left renditions.entry) }
    {
        self.look.select_all(renditions);
        self.kind = kind_of(&self.look);
    }

    /// Opens its span, if it needs one.
    pub fn open<A: Allocator>(&self, html: &mut Markup<A>, inline: bool) -> Result<(), AllocError>
        ensures ok { OnOk result (html.new ≡ html.old
            ++ html_text (span_unless inline (is_plain self.now.look) self.now.look)) }
        ensures refused { OnErr result (Refused A) }
    {
        if self.is_plain() {
            return Ok(());
        }
        match self.kind {
            Kind::Colored => self.open_colored(html, inline),
            Kind::Marked(mark) => html.push_marked(inline, mark, &self.look),
            Kind::Plain | Kind::Other => html.push_span(inline, &self.look),
        }
    }

    // Opens its span, if it has nothing but a colour.
    #[inline]
    fn open_colored<A: Allocator>(
        &self,
        html: &mut Markup<A>,
        inline: bool,
    ) -> Result<(), AllocError>
        requires { is_colored_alone self.now.look ≡ true }
        ensures ok { OnOk result (html.new ≡ html.old
            ++ page_part_text (span inline self.now.look)) }
        ensures refused { OnErr result (Refused A) }
    {
        match self.look.foreground {
            Color::Named(color) => html.push_colored(inline, color, &self.look),
            Color::Default | Color::Palette(_) | Color::Direct(_) => html.push_span(
                inline, &self.look,
            ),
        }
    }
}

impl Kind {
    // The kind after a colour of the characters, by its name.
    #[inline]
    fn colored(self) -> Kind
        ensures { (l : LookValue) (c : AnsiColorValue) → is_of_kind self l ≡ true
            → is_of_kind result (look_by l (AnsiForeground c)) ≡ true }
    {
        match self {
            Kind::Plain => Kind::Colored,
            Kind::Colored => Kind::Colored,
            Kind::Marked(_) => Kind::Other,
            Kind::Other => Kind::Other,
        }
    }

    // The kind after a mark.
    #[inline]
    fn marked(self, mark: Mark) -> Kind
        ensures { (l : LookValue) → is_of_kind self l ≡ true
            → is_of_kind result (look_by l (marking mark)) ≡ true }
    {
        match self {
            Kind::Plain => Kind::Marked(mark),
            Kind::Colored => Kind::Other,
            Kind::Marked(_) => Kind::Other,
            Kind::Other => Kind::Other,
        }
    }
}

// The kind of a look.
fn kind_of(look: &Look) -> Kind
    ensures { is_of_kind result look.now ≡ true }
{
    if is_plain(look) {
        return Kind::Plain;
    }
    if is_colored(look) {
        return Kind::Colored;
    }
    Kind::Other
}

// Whether nothing holds but a colour of the characters by its name.
fn is_colored(look: &Look) -> bool
    ensures { result ≡ is_colored look.now }
{
    is_colored_alone(look) && is_named(look.foreground)
}

fn is_named(color: Color) -> bool
    ensures { result ≡ is_named color }
{
    match color {
        Color::Named(_) => true,
        Color::Default | Color::Palette(_) | Color::Direct(_) => false,
    }
}
