//! Which tags of a page are open.
ghost use Rattle.std.specs.Prelude.{◌≡◌, ◌++◌};
ghost use Rattle.esc_html.specs.Pages.{link_end_if, span_end_unless, without_span};
ghost use Rattle.esc_html.specs.PageParts.{html_text};

/// Which tags of a page are open: those of a link, and in it those of a span, if there are such.
#[derive(Clone, Copy)]
pub(crate) enum Tags {
    /// None.
    Closed,
    /// That of the link.
    Link,
    /// Both.
    Open,
}

impl Tags {
    /// The same, but for the span.
    pub fn without_span(self) -> Tags
        ensures { result ≡ without_span self }
    {
        match self {
            Tags::Closed => Tags::Closed,
            Tags::Link | Tags::Open => Tags::Link,
        }
    }
}

/// The end tag of a span, unless the look is plain.
pub(crate) fn span_end(is_plain: bool) -> &'static str
    ensures { result.now ≡ html_text (span_end_unless is_plain) }
{
    if is_plain { "" } else { "</span>" }
}

/// The end tag of a link, if there is one.
pub(crate) fn link_end(has_link: bool) -> &'static str
    ensures { result.now ≡ html_text (link_end_if has_link) }
{
    if has_link { "</a>" } else { "" }
}

/// Both.
pub(crate) fn closing_tags(is_plain: bool, has_link: bool) -> &'static str
    ensures { result.now ≡ html_text (span_end_unless is_plain ++ link_end_if has_link) }
{
    match (is_plain, has_link) {
        (true, false) => "",
        (false, false) => "</span>",
        (true, true) => "</a>",
        (false, true) => "</span></a>",
    }
}
