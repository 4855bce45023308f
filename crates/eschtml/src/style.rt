//! The style sheet.

use crate::options::Theme;
use esc_html::{Style, is_deep, palette};
use esc_style::palettes::{Palette, Rgb, Scheme};
use esc_values::RgbColor;
use std::alloc::AllocError;
use std::str;

// The entries of the palette of 256 that have no names.
const FIRST: u8 = 16;

const LAST: u8 = 255;

// The colours of a light page, and of looks that are exchanged on it.
const LIGHT: &str = "\
.es-stream { --es-text: #1f2328; --es-page: #ffffff; --es-dim: #6e7781; --es-mark: #fff8c5;
  --es-black: #24292f; --es-red: #b3261e; --es-green: #116329; --es-yellow: #7d4e00;
  --es-blue: #0550ae; --es-magenta: #8250df; --es-cyan: #0b6b75; --es-white: #6e7781;
  --es-bright-black: #57606a; --es-bright-red: #cf222e; --es-bright-green: #1a7f37;
  --es-bright-yellow: #9a6700; --es-bright-blue: #0969da; --es-bright-magenta: #9a3fd5;
  --es-bright-cyan: #1b7c83; --es-bright-white: #424a53; }
.es-stream .es-inverse {
  --es-red: #ff7b72; --es-green: #3fb950; --es-yellow: #d29922; --es-blue: #58a6ff;
  --es-magenta: #bc8cff; --es-cyan: #39c5cf; --es-bright-black: #8b949e; --es-bright-red: #ffa198;
  --es-bright-green: #56d364; --es-bright-yellow: #e3b341; --es-bright-blue: #79c0ff;
  --es-bright-magenta: #d2a8ff; --es-bright-cyan: #56d4dd; }
";

// Those of a dark page.
const DARK: &str = "\
.es-stream { --es-text: #e6edf3; --es-page: #0d1117; --es-dim: #7d8590; --es-mark: #2d2a1c;
  --es-black: #7d8590; --es-red: #ff7b72; --es-green: #3fb950; --es-yellow: #d29922;
  --es-blue: #58a6ff; --es-magenta: #bc8cff; --es-cyan: #39c5cf; --es-white: #b1bac4;
  --es-bright-black: #8b949e; --es-bright-red: #ffa198; --es-bright-green: #56d364;
  --es-bright-yellow: #e3b341; --es-bright-blue: #79c0ff; --es-bright-magenta: #d2a8ff;
  --es-bright-cyan: #56d4dd; --es-bright-white: #ffffff; }
.es-stream .es-inverse {
  --es-red: #b3261e; --es-green: #116329; --es-yellow: #7d4e00; --es-blue: #0550ae;
  --es-magenta: #8250df; --es-cyan: #0b6b75; --es-bright-black: #57606a; --es-bright-red: #cf222e;
  --es-bright-green: #1a7f37; --es-bright-yellow: #9a6700; --es-bright-blue: #0969da;
  --es-bright-magenta: #9a3fd5; --es-bright-cyan: #1b7c83; }
";

// Grounds have colours of their own: black and white can be read on each, and any other colour on a
// deeper one, or on one that is nearly white.
const OWN_GROUNDS: &str = "\
.es-stream {
  --es-on-black: #24292f; --es-on-red: #dd313d; --es-on-green: #258640; --es-on-yellow: #927100;
  --es-on-blue: #0a71eb; --es-on-magenta: #8959e1; --es-on-cyan: #1c8289; --es-on-white: #d0d7de;
  --es-on-bright-black: #6e7680; --es-on-bright-red: #eb060b; --es-on-bright-green: #178817;
  --es-on-bright-yellow: #986e1d; --es-on-bright-blue: #2672e0; --es-on-bright-magenta: #c64191;
  --es-on-bright-cyan: #098194; --es-on-bright-white: #eaeef2; }
";

// The rules for each class that a span can have, all below `.es-stream`, with names of their own. A
// line through, over or under characters adds to the others; a blinking one does not. A link has a
// dashed line, lower than that of a rendition. The ground of a line touches that of the next.
const RULES: &str = "\
.es-stream { color: var(--es-text); background-color: var(--es-page);
  font: 0.875rem/1.45 ui-monospace, SFMono-Regular, Menlo, Consolas, monospace; }
.es-stream pre { margin: 0; padding: 0.5rem 1rem; font: inherit; overflow-x: auto; tab-size: 8; }
.es-stream .es-line { display: block; width: max-content; min-width: 100%; box-sizing: border-box;
  padding-left: 8ch; text-indent: -8ch; counter-increment: es-line; }
.es-stream .es-line > [tabindex] { position: sticky; left: 0; display: inline-block; width: 6ch;
  padding-right: 2ch; text-indent: 0; text-align: right; color: var(--es-dim);
  text-decoration: none; user-select: none; -webkit-user-select: none; }
.es-stream .es-line > [tabindex]::before { content: counter(es-line); }
.es-stream .es-line > [tabindex]:hover { color: var(--es-text); }
.es-stream .es-line:target { background-color: var(--es-mark);
  box-shadow: inset 3px 0 var(--es-dim); }
.es-stream .es-line:target > [tabindex] { color: var(--es-text); font-weight: bold; }
.es-stream pre a { color: inherit; text-decoration: underline dashed;
  text-underline-offset: 0.25em; }
.es-stream pre a:hover { text-decoration-style: solid; }
.es-stream pre span { text-decoration-line: var(--es-under,) var(--es-through,) var(--es-over,);
  text-decoration-style: var(--es-kind, solid); text-underline-offset: auto; }
.es-stream .es-time { color: var(--es-dim); user-select: none; -webkit-user-select: none; }
.es-stream .es-image { display: block; max-width: 100%; height: auto; }
.es-stream .es-bold { font-weight: bold; }
.es-stream .es-faint { opacity: 0.8; }
.es-stream .es-italic { font-style: italic; }
.es-stream .es-underline { --es-under: underline; }
.es-stream .es-double-underline { --es-under: underline; --es-kind: double; }
.es-stream .es-curly-underline { --es-under: underline; --es-kind: wavy; }
.es-stream .es-dotted-underline { --es-under: underline; --es-kind: dotted; }
.es-stream .es-dashed-underline { --es-under: underline; --es-kind: dashed; }
.es-stream .es-strikethrough { --es-through: line-through; }
.es-stream .es-overline { --es-over: overline; }
.es-stream .es-inverse { color: var(--es-page); background-color: var(--es-text); }
";

// The rule for characters with a colour that has a name on any ground: lighter colours.
const ON_GROUNDS: &str = "\
.es-stream [class*=\"es-bg-\"] {
  --es-black: #000000; --es-white: #ffffff; --es-bright-white: #ffffff;
  --es-red: #ff7b72; --es-green: #3fb950; --es-yellow: #d29922; --es-blue: #58a6ff;
  --es-magenta: #bc8cff; --es-cyan: #39c5cf; --es-bright-black: #98a1ab; --es-bright-red: #ffa198;
  --es-bright-green: #56d364; --es-bright-yellow: #e3b341; --es-bright-blue: #79c0ff;
  --es-bright-magenta: #d2a8ff; --es-bright-cyan: #56d4dd; }
";

// The rule for grounds on which black can be read better, after their names: darker colours.
const ON_LIGHT: &str = " {
  --es-red: #b3261e; --es-green: #116329; --es-yellow: #7d4e00; --es-blue: #0550ae;
  --es-magenta: #8250df; --es-cyan: #0b6b75; --es-bright-black: #57606a; --es-bright-red: #cf222e;
  --es-bright-green: #1a7f37; --es-bright-yellow: #9a6700; --es-bright-blue: #0969da;
  --es-bright-magenta: #9a3fd5; --es-bright-cyan: #1b7c83; }
";

// The grounds that have names.
const GROUNDS: &str = "\
.es-stream .es-fg-red, .es-stream .es-fg-green, .es-stream .es-fg-yellow, .es-stream .es-fg-blue,
.es-stream .es-fg-magenta, .es-stream .es-fg-cyan, .es-stream .es-fg-bright-black,
.es-stream .es-fg-bright-red, .es-stream .es-fg-bright-green, .es-stream .es-fg-bright-yellow,
.es-stream .es-fg-bright-blue, .es-stream .es-fg-bright-magenta, .es-stream .es-fg-bright-cyan {
  --es-on-red: #681117; --es-on-green: #103c1c; --es-on-yellow: #413200; --es-on-blue: #043369;
  --es-on-magenta: #3f1885; --es-on-cyan: #0c3a3d; --es-on-bright-black: #24292f;
  --es-on-bright-red: #6e0305; --es-on-bright-green: #0a3d0a; --es-on-bright-yellow: #43310d;
  --es-on-bright-blue: #0f3367; --es-on-bright-magenta: #5b1b42; --es-on-bright-cyan: #043a42;
  --es-on-white: #f6f8fa; --es-on-bright-white: #f6f8fa; }
.es-stream .es-bg-white.es-fg-white,
.es-stream .es-bg-white.es-fg-bright-white,
.es-stream .es-bg-bright-white.es-fg-white,
.es-stream .es-bg-bright-white.es-fg-bright-white {
  --es-on-white: #6e7680; --es-on-bright-white: #6e7680; }
.es-stream .es-bg-black.es-fg-black { --es-on-black: #6e7680; }
.es-stream .es-bg-black { color: #ffffff; background-color: var(--es-on-black); }
.es-stream .es-bg-red { color: #ffffff; background-color: var(--es-on-red); }
.es-stream .es-bg-green { color: #ffffff; background-color: var(--es-on-green); }
.es-stream .es-bg-yellow { color: #ffffff; background-color: var(--es-on-yellow); }
.es-stream .es-bg-blue { color: #ffffff; background-color: var(--es-on-blue); }
.es-stream .es-bg-magenta { color: #ffffff; background-color: var(--es-on-magenta); }
.es-stream .es-bg-cyan { color: #ffffff; background-color: var(--es-on-cyan); }
.es-stream .es-bg-white { color: #000000; background-color: var(--es-on-white); }
.es-stream .es-bg-bright-black { color: #ffffff; background-color: var(--es-on-bright-black); }
.es-stream .es-bg-bright-red { color: #ffffff; background-color: var(--es-on-bright-red); }
.es-stream .es-bg-bright-green { color: #ffffff; background-color: var(--es-on-bright-green); }
.es-stream .es-bg-bright-yellow { color: #ffffff; background-color: var(--es-on-bright-yellow); }
.es-stream .es-bg-bright-blue { color: #ffffff; background-color: var(--es-on-bright-blue); }
.es-stream .es-bg-bright-magenta { color: #ffffff; background-color: var(--es-on-bright-magenta); }
.es-stream .es-bg-bright-cyan { color: #ffffff; background-color: var(--es-on-bright-cyan); }
.es-stream .es-bg-bright-white { color: #000000; background-color: var(--es-on-bright-white); }
";

// The colours of characters and of underlines that have names.
const COLORS: &str = "\
.es-stream .es-fg-black { color: var(--es-black); }
.es-stream .es-fg-red { color: var(--es-red); }
.es-stream .es-fg-green { color: var(--es-green); }
.es-stream .es-fg-yellow { color: var(--es-yellow); }
.es-stream .es-fg-blue { color: var(--es-blue); }
.es-stream .es-fg-magenta { color: var(--es-magenta); }
.es-stream .es-fg-cyan { color: var(--es-cyan); }
.es-stream .es-fg-white { color: var(--es-white); }
.es-stream .es-fg-bright-black { color: var(--es-bright-black); }
.es-stream .es-fg-bright-red { color: var(--es-bright-red); }
.es-stream .es-fg-bright-green { color: var(--es-bright-green); }
.es-stream .es-fg-bright-yellow { color: var(--es-bright-yellow); }
.es-stream .es-fg-bright-blue { color: var(--es-bright-blue); }
.es-stream .es-fg-bright-magenta { color: var(--es-bright-magenta); }
.es-stream .es-fg-bright-cyan { color: var(--es-bright-cyan); }
.es-stream .es-fg-bright-white { color: var(--es-bright-white); }
.es-stream .es-ul-black { text-decoration-color: var(--es-black); }
.es-stream .es-ul-red { text-decoration-color: var(--es-red); }
.es-stream .es-ul-green { text-decoration-color: var(--es-green); }
.es-stream .es-ul-yellow { text-decoration-color: var(--es-yellow); }
.es-stream .es-ul-blue { text-decoration-color: var(--es-blue); }
.es-stream .es-ul-magenta { text-decoration-color: var(--es-magenta); }
.es-stream .es-ul-cyan { text-decoration-color: var(--es-cyan); }
.es-stream .es-ul-white { text-decoration-color: var(--es-white); }
.es-stream .es-ul-bright-black { text-decoration-color: var(--es-bright-black); }
.es-stream .es-ul-bright-red { text-decoration-color: var(--es-bright-red); }
.es-stream .es-ul-bright-green { text-decoration-color: var(--es-bright-green); }
.es-stream .es-ul-bright-yellow { text-decoration-color: var(--es-bright-yellow); }
.es-stream .es-ul-bright-blue { text-decoration-color: var(--es-bright-blue); }
.es-stream .es-ul-bright-magenta { text-decoration-color: var(--es-bright-magenta); }
.es-stream .es-ul-bright-cyan { text-decoration-color: var(--es-bright-cyan); }
.es-stream .es-ul-bright-white { text-decoration-color: var(--es-bright-white); }
";

// The rules for all of them.
const LAST_RULES: &str = "\
.es-stream .es-concealed { color: transparent !important; }
.es-stream [class*=\"es-bg-\"], .es-stream .es-inverse, .es-stream [style*=\"background-color\"] {
  padding-block: 0.2em; }
.es-stream.es-shows .es-inverse { border-radius: 0.25em; box-shadow: 0 0 0 1px var(--es-dim); }
.es-stream .es-lost { color: var(--es-dim); font-style: italic; }
.es-stream.es-wrap pre { white-space: pre-wrap; overflow-wrap: anywhere; }
.es-stream.es-wrap .es-line { width: auto; content-visibility: auto;
  contain-intrinsic-block-size: auto 1.45em; }
@media print {
  .es-stream pre { white-space: pre-wrap; overflow-wrap: anywhere; overflow: visible; }
  .es-stream .es-line { width: auto; content-visibility: visible; }
}
";

// The rules that any whole page has beside it.
const PAGE: &str = "\
body { margin: 0; }
main { counter-reset: es-line; }
h1, h2 { margin: 0.5rem 1rem; font: bold 1rem/1.45 system-ui, sans-serif; }
.es-note { margin: 0.5rem 1rem; font: italic 0.875rem/1.45 system-ui, sans-serif; }
summary { padding: 0 1rem; font: bold 0.875rem/1.45 system-ui, sans-serif; cursor: pointer; }
details > details, details > div { margin-left: 1.5rem; }
@media print { details::details-content { content-visibility: visible; height: auto; } }
";

// The beginning of the rules for a reader with a dark setting.
const IF_DARK: &str = "@media (prefers-color-scheme: dark) {\n";

// The colours of text and of its background, if they are the program's own.
const LIGHT_PAGE: (Rgb, Rgb) = ((0x1f, 0x23, 0x28), (0xff, 0xff, 0xff));

const DARK_PAGE: (Rgb, Rgb) = ((0xe6, 0xed, 0xf3), (0x0d, 0x11, 0x17));

// The names of colours, in their order.
const NAMES: [&str; 16] = [
    "black",
    "red",
    "green",
    "yellow",
    "blue",
    "magenta",
    "cyan",
    "white",
    "bright-black",
    "bright-red",
    "bright-green",
    "bright-yellow",
    "bright-blue",
    "bright-magenta",
    "bright-cyan",
    "bright-white",
];

/// Appends the style sheet, light or dark, with the colours of a palette or the program's own: for
/// a `div` of class `es-stream` and its contents.
pub fn push_style(
    text: &mut String,
    theme: Theme,
    palette: Option<Palette>,
) -> Result<(), AllocError> {
    match palette {
        Some(palette) => push_given(text, theme, palette)?,
        None => push_own(text, theme)?,
    }
    push_palette(text, true)?;
    fallible_alloc::push_str(text, COLORS)?;
    push_palette(text, false)?;
    fallible_alloc::push_str(text, LAST_RULES)
}

// Appends the rules up to the grounds that have names, with the colours of a palette.
fn push_given(text: &mut String, theme: Theme, palette: Palette) -> Result<(), AllocError> {
    fallible_alloc::push_str(text, RULES)?;
    match theme {
        Theme::Auto => {
            push_scheme(text, &palette.light())?;
            fallible_alloc::push_str(text, IF_DARK)?;
            push_scheme(text, &palette.dark())?;
            fallible_alloc::push_str(text, "}\n")
        }
        Theme::Light => push_scheme(text, &palette.light()),
        Theme::Dark => push_scheme(text, &palette.dark()),
    }
}

// Appends the rules of colours that have names, on a light or a dark page.
fn push_scheme(text: &mut String, scheme: &Scheme) -> Result<(), AllocError> {
    fallible_alloc::push_str(text, ".es-stream { ")?;
    push_variable(text, "text", scheme.text)?;
    push_variable(text, "page", scheme.page)?;
    push_variable(text, "dim", scheme.dim)?;
    push_variable(text, "mark", scheme.mark)?;
    for (name, color) in NAMES.iter().zip(&scheme.colors) {
        push_variable(text, name, *color)?;
    }
    fallible_alloc::push_str(text, "}\n")?;
    for (name, color) in NAMES.iter().zip(&scheme.colors) {
        push_ground(text, name, *color)?;
    }
    Ok(())
}

// Appends the declaration of a variable.
fn push_variable(text: &mut String, name: &str, color: Rgb) -> Result<(), AllocError> {
    fallible_alloc::push_str(text, "--es-")?;
    fallible_alloc::push_str(text, name)?;
    fallible_alloc::push_str(text, ": ")?;
    push_rgb(text, color)?;
    fallible_alloc::push_str(text, " ")
}

// Appends the rule of a ground: text without a colour is black or white on it.
fn push_ground(text: &mut String, name: &str, color: Rgb) -> Result<(), AllocError> {
    let (red, green, blue) = color;
    fallible_alloc::push_str(text, ".es-stream .es-bg-")?;
    fallible_alloc::push_str(text, name)?;
    fallible_alloc::push_str(text, " {")?;
    fallible_alloc::push_str(text, text_on(RgbColor::new_8bpc(red, green, blue)))?;
    fallible_alloc::push_str(text, "background-color:")?;
    push_rgb(text, color)?;
    fallible_alloc::push_str(text, "}\n")
}

// Appends a colour by its numbers, and a semicolon.
fn push_rgb(text: &mut String, color: Rgb) -> Result<(), AllocError> {
    let (red, green, blue) = color;
    let code = Style::Color(red, green, blue).code();
    fallible_alloc::push_str(text, str::from_utf8(&code).unwrap_or(""))
}

// Appends the rules up to the grounds that have names, with colours of the program's own.
fn push_own(text: &mut String, theme: Theme) -> Result<(), AllocError> {
    match theme {
        Theme::Auto => {
            fallible_alloc::push_str(text, LIGHT)?;
            fallible_alloc::push_str(text, IF_DARK)?;
            fallible_alloc::push_str(text, DARK)?;
            fallible_alloc::push_str(text, "}\n")?;
        }
        Theme::Light => fallible_alloc::push_str(text, LIGHT)?,
        Theme::Dark => fallible_alloc::push_str(text, DARK)?,
    }
    fallible_alloc::push_str(text, OWN_GROUNDS)?;
    fallible_alloc::push_str(text, RULES)?;
    fallible_alloc::push_str(text, ON_GROUNDS)?;
    push_light_grounds(text)?;
    fallible_alloc::push_str(text, GROUNDS)
}

/// Appends the rules that a whole page has beside it.
pub fn push_page_style(
    text: &mut String,
    theme: Theme,
    palette: Option<Palette>,
) -> Result<(), AllocError> {
    let (light, dark) = match palette {
        Some(palette) => (page_of(&palette.light()), page_of(&palette.dark())),
        None => (LIGHT_PAGE, DARK_PAGE),
    };
    match theme {
        Theme::Auto => {
            push_root(text, "color-scheme: light dark; ", light)?;
            fallible_alloc::push_str(text, IF_DARK)?;
            push_root(text, "", dark)?;
            fallible_alloc::push_str(text, "}\n")?;
        }
        Theme::Light => push_root(text, "color-scheme: light; ", light)?,
        Theme::Dark => push_root(text, "color-scheme: dark; ", dark)?,
    }
    fallible_alloc::push_str(text, PAGE)
}

// The colours of text and of its background.
fn page_of(scheme: &Scheme) -> (Rgb, Rgb) {
    (scheme.text, scheme.page)
}

// Appends the rule of the element around all.
fn push_root(text: &mut String, first: &str, colors: (Rgb, Rgb)) -> Result<(), AllocError> {
    fallible_alloc::push_str(text, ":root { ")?;
    fallible_alloc::push_str(text, first)?;
    fallible_alloc::push_str(text, "background: ")?;
    push_rgb(text, colors.1)?;
    fallible_alloc::push_str(text, " color: ")?;
    push_rgb(text, colors.0)?;
    fallible_alloc::push_str(text, " }\n")
}

// Appends the rule of light grounds.
fn push_light_grounds(text: &mut String) -> Result<(), AllocError> {
    fallible_alloc::push_str(
        text,
        ".es-stream .es-bg-white, .es-stream .es-bg-bright-white",
    )?;
    for index in FIRST..=LAST {
        if !is_deep(palette(index)) {
            fallible_alloc::push_str(text, ",\n.es-stream .es-bg-")?;
            fallible_alloc::push_display(text, &index)?;
        }
    }
    fallible_alloc::push_str(text, ON_LIGHT)
}

// Appends the rules of the palette: of grounds, or of characters and underlines.
fn push_palette(text: &mut String, are_grounds: bool) -> Result<(), AllocError> {
    for index in FIRST..=LAST {
        let color = palette(index);
        let (red, green, blue) = color.to_tuple_rgb8();
        if are_grounds {
            let on_it = text_on(color);
            push_rule(
                text,
                "bg",
                index,
                on_it,
                Style::BackgroundColor(red, green, blue),
            )?;
        } else {
            push_rule(text, "fg", index, "", Style::Color(red, green, blue))?;
            push_rule(
                text,
                "ul",
                index,
                "",
                Style::TextDecorationColor(red, green, blue),
            )?;
        }
    }
    Ok(())
}

// Appends the rule of an entry of the palette.
fn push_rule(
    text: &mut String,
    kind: &str,
    index: u8,
    first: &str,
    style: Style,
) -> Result<(), AllocError> {
    fallible_alloc::push_str(text, ".es-stream .es-")?;
    fallible_alloc::push_str(text, kind)?;
    fallible_alloc::push_str(text, "-")?;
    fallible_alloc::push_display(text, &index)?;
    fallible_alloc::push_str(text, "{")?;
    fallible_alloc::push_str(text, first)?;
    fallible_alloc::push_str(text, style.property())?;
    fallible_alloc::push_str(text, str::from_utf8(&style.code()).unwrap_or(""))?;
    fallible_alloc::push_str(text, "}\n")
}

// The declaration for text on a ground: it is black or white.
fn text_on(color: RgbColor) -> &'static str {
    if is_deep(color) {
        "color:#ffffff;"
    } else {
        "color:#000000;"
    }
}
