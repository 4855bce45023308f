//! Control sequences in words.

use crate::choices::chosen_words;
use crate::csi_table::table_of;
use crate::entries::{after_first, is_mark, number_at};
use crate::fields::add_fields;
use crate::key_words::{add_code, add_flags, add_function_key, add_key, add_mouse};
use crate::mode_words::{add_modes, add_private_modes, add_state};
use crate::named::words_of;
use crate::renditions::add_renditions;
use crate::rows::{find_row, part_of};
use control_functions::{ControlFunction, Effect, Parameter, Parameters};
use dump_page::Phrase;
use esc_values::CsiParam;

/// Adds a control sequence by its name, if it has one.
pub fn add_sequence(params: &[CsiParam], is_truncated: bool, last: u8, to: &mut Phrase) {
    let function = ControlFunction::of_csi_params(params, last);
    let table = table_of(last);
    if table.is_empty()
        || !may_have_row(function, params)
        || !add_by_row(table, function, params, to)
    {
        add_named(function, params, last, to);
    }
    if is_truncated {
        to.add(", and more parameters");
    }
}

// Returns whether a row may be of these parameters: renditions have none, and movements of the
// cursor as keys alone, with modifiers.
fn may_have_row(function: Option<ControlFunction>, params: &[CsiParam]) -> bool {
    match function {
        Some(ControlFunction::SGR) => false,
        Some(
            ControlFunction::CUU
            | ControlFunction::CUD
            | ControlFunction::CUF
            | ControlFunction::CUB
            | ControlFunction::CNL
            | ControlFunction::CPL
            | ControlFunction::DCH
            | ControlFunction::SU,
        ) => params.contains(&CsiParam::P(b';')),
        _ => true,
    }
}

// Adds a sequence by the row of these parameters, and returns whether there is one.
fn add_by_row(
    table: &'static str,
    function: Option<ControlFunction>,
    params: &[CsiParam],
    to: &mut Phrase,
) -> bool {
    let (marks, text) = (&mut to.empty(), &mut to.empty());
    add_marks(params, marks);
    add_entries_after("", params, text);
    add_found(table, function, marks, text, to)
}

// Adds a sequence by the row of these marks and this text of the parameters, and returns whether
// there is one.
fn add_found(
    table: &'static str,
    function: Option<ControlFunction>,
    marks: &Phrase,
    text: &Phrase,
    to: &mut Phrase,
) -> bool {
    if marks.is_refused() || text.is_refused() {
        to.refuse();
    }
    let given = Some(text.as_str().as_bytes());
    match find_row(table, marks.as_str().as_bytes(), given) {
        Some((row, rest)) => {
            let (words, row) = part_of(row);
            let (fields, name) = part_of(row);
            begin_row(words, name, function, to);
            add_fields(fields, not_empty(rest), to);
            true
        }
        None => false,
    }
}

// Adds the name and the words of a row, or of the function, if the row has none.
fn begin_row(
    words: &'static str,
    name: &'static str,
    function: Option<ControlFunction>,
    to: &mut Phrase,
) {
    match function {
        Some(function) => {
            let words = if words.is_empty() {
                function.words()
            } else {
                words
            };
            to.begin("CSI", function.name(), words);
        }
        None => to.begin("CSI", name, words),
    }
}

// Adds the private prefix and the intermediates.
fn add_marks(params: &[CsiParam], to: &mut Phrase) {
    for param in params {
        if let CsiParam::P(byte) = *param {
            if is_mark(*param) {
                to.add_char(char::from(byte));
            }
        }
    }
}

// Returns a text, if it is not empty.
fn not_empty(text: Option<&[u8]>) -> Option<&[u8]> {
    match text {
        Some([]) | None => None,
        Some(text) => Some(text),
    }
}

// Adds a function by the kinds of its parameters, if it has a name.
fn add_named(function: Option<ControlFunction>, params: &[CsiParam], last: u8, to: &mut Phrase) {
    let Some(function) = function else {
        to.begin("CSI", "", "without a name, of the final byte ");
        return to.add_char(char::from(last));
    };
    if params.contains(&CsiParam::P(b':')) && !has_parts(function) {
        to.begin("CSI", function.name(), function_words(function, params));
        to.add(", with sub-parameters that it has none of,");
        add_entries(params, to);
    } else {
        add_function(function, params, to);
    }
}

// Returns whether the parameters of a function may have parts with `:` between them.
fn has_parts(function: ControlFunction) -> bool {
    match function.row().parameters {
        Parameters::Renditions
        | Parameters::RectangleRenditions
        | Parameters::KeyEvent
        | Parameters::Key
        | Parameters::ExtraCursors
        | Parameters::Colors => true,
        _ => false,
    }
}

// Adds a function with its parameters.
fn add_function(function: ControlFunction, params: &[CsiParam], to: &mut Phrase) {
    let parameters = function.row().parameters;
    to.begin("CSI", function.name(), function_words(function, params));
    match parameters {
        Parameters::Renditions => add_renditions(params, to),
        Parameters::Mode | Parameters::Modes => add_modes(function, params, to),
        Parameters::PrivateMode | Parameters::PrivateModes => {
            add_private_modes(function, params, to)
        }
        Parameters::ModeState | Parameters::PrivateModeState => add_state(function, params, to),
        Parameters::Mouse => add_mouse(function, params, to),
        Parameters::Key => add_function_key(params, to),
        Parameters::KeyEvent => add_key(params, to),
        Parameters::KeyboardFlags => add_flags(function, params, to),
        Parameters::Number | Parameters::Amount => add_number(function, params, to),
        Parameters::Line | Parameters::Column => add_one(params, to),
        Parameters::RectangleRenditions => add_rendered(function, params, to),
        Parameters::Copy => add_copy(parameters.each(), params, to),
        Parameters::Fill => add_fill(parameters.each(), params, to),
        Parameters::Nothing
        | Parameters::Count
        | Parameters::Place
        | Parameters::Page
        | Parameters::PlaceAndPage
        | Parameters::TwoNumbers
        | Parameters::Numbers
        | Parameters::Percentages
        | Parameters::CenteredStop
        | Parameters::Selector
        | Parameters::SelectorOrOne
        | Parameters::SelectorOrTwo
        | Parameters::TwoSelectors
        | Parameters::ThreeSelectors
        | Parameters::Selectors
        | Parameters::Choice
        | Parameters::TwoChoices
        | Parameters::Choices
        | Parameters::ChoiceAndNumber
        | Parameters::Conformance
        | Parameters::LineMargins
        | Parameters::ColumnMargins
        | Parameters::Rectangle
        | Parameters::Area
        | Parameters::Checksum
        | Parameters::Window
        | Parameters::Graphics
        | Parameters::Highlight
        | Parameters::Locator
        | Parameters::Extent
        | Parameters::ExtraCursors
        | Parameters::Colors
        | Parameters::Sound
        | Parameters::Win32Key => add_parameters(function, parameters.each(), params, to),
    }
}

// Adds a number, or for some functions flags of kitty's keyboard.
fn add_number(function: ControlFunction, params: &[CsiParam], to: &mut Phrase) {
    if function == ControlFunction::KITTYPUSH || function == ControlFunction::KITTYQUERY {
        add_flags(function, params, to)
    } else {
        add_parameters(function, Parameters::Number.each(), params, to)
    }
}

// Adds a line or a column, which the function's words name already.
fn add_one(params: &[CsiParam], to: &mut Phrase) {
    to.add_integer(" ", number_at(params, 0).unwrap_or(1).max(1));
    add_entries(after_first(params, 1), to);
}

// Returns the description of the function in words: that of its row, or for a function that asks or
// reports, by its parameters. If it is empty, the parameters are words enough.
fn function_words(function: ControlFunction, params: &[CsiParam]) -> &'static str {
    match function {
        ControlFunction::SGR
        | ControlFunction::DECSET
        | ControlFunction::DECRST
        | ControlFunction::MOUSE
        | ControlFunction::MOUSEUP
        | ControlFunction::KITTYKEY => "",
        ControlFunction::DA1 => "ask for device attributes",
        ControlFunction::DA1R => "report of the device attributes",
        ControlFunction::DA2 if number_at(params, 1).is_some() => {
            "report of the secondary device attributes"
        }
        ControlFunction::DA2 => "ask for secondary device attributes",
        ControlFunction::DA3 => "ask for tertiary device attributes",
        ControlFunction::DECREQTPARM if number_at(params, 1).is_some() => {
            "report of terminal parameters"
        }
        ControlFunction::DECREQTPARM => "ask for terminal parameters",
        ControlFunction::KITTYQUERY if number_at(params, 0).is_some() =>
            "flags of the keyboard are",
        ControlFunction::KITTYQUERY => "ask for flags of the keyboard",
        _ => function.words(),
    }
}

// Adds the parameters of a function, each by its kind, with those that are left out if the standard
// has a default; those that come after them by their numbers.
fn add_parameters(
    function: ControlFunction,
    each: &[Parameter],
    params: &[CsiParam],
    to: &mut Phrase,
) {
    let is_report = function.row().effect == Effect::Report;
    add_each(each, 0, is_report, params, " ", to);
    add_entries(after_first(params, each.len()), to);
    to.add_note(chosen_words(function, number_at(params, 0).unwrap_or(0)));
    if params.contains(&CsiParam::P(b':')) {
        to.add(", with sub-parameters");
        add_entries(params, to);
    }
}

// Adds the parameters from this place on, each by its kind.
fn add_each(
    each: &[Parameter],
    first: usize,
    is_report: bool,
    params: &[CsiParam],
    before: &'static str,
    to: &mut Phrase,
) {
    let mut separator = before;
    let mut place = first;
    for parameter in each {
        let number = match number_at(params, place) {
            Some(0) if !is_report && counts_from_one(*parameter) => None,
            number => number,
        };
        separator = add_parameter(*parameter, number, separator, to);
        place = place.saturating_add(1);
    }
}

// Adds a rectangle and the page that it is copied from, and the place that it is copied to.
fn add_copy(each: &[Parameter], params: &[CsiParam], to: &mut Phrase) {
    let (from, put) = each.split_at(each.len().min(5));
    add_each(from, 0, false, params, " ", to);
    to.add(", put at");
    add_each(put, 5, false, params, " ", to);
    add_entries(after_first(params, each.len()), to);
}

// Adds the character that a rectangle is filled with, and the rectangle.
fn add_fill(each: &[Parameter], params: &[CsiParam], to: &mut Phrase) {
    let mut before = " ";
    if let Some(code) = number_at(params, 0) {
        to.add(" with ");
        add_code(code, to);
        before = ", ";
    }
    let (_, rectangle) = each.split_at(each.len().min(1));
    add_each(rectangle, 1, false, params, before, to);
    add_entries(after_first(params, each.len()), to);
}

// The renditions that DECRARA turns round (the VT510's manual).
static TURNED: &str = "\
0 bold, underlined, blinking and reversed
1 bold
4 underlined
5 blinking
7 reversed";

// Adds a rectangle and the renditions that it gets, or that are turned round in it.
fn add_rendered(function: ControlFunction, params: &[CsiParam], to: &mut Phrase) {
    add_each(Parameters::Rectangle.each(), 0, false, params, " ", to);
    let mut rest = without_marks(after_first(params, 4));
    for _ in 0..u64::MAX {
        let [CsiParam::P(b';'), after @ ..] = rest else {
            break;
        };
        to.add(",");
        if function == ControlFunction::DECCARA {
            return add_renditions(after, to);
        }
        let number = number_at(after, 0).unwrap_or(0);
        to.add_word(words_of(TURNED, number, "not known"));
        rest = after_first(after, 1);
    }
}

// Returns the parameters up to their intermediates.
fn without_marks(params: &[CsiParam]) -> &[CsiParam] {
    for at in 0..params.len() {
        if is_mark(params[at]) {
            return &params[..at];
        }
    }
    params
}

// Adds a parameter after a separator; returns the separator of the next one.
fn add_parameter(
    parameter: Parameter,
    number: Option<i64>,
    separator: &'static str,
    to: &mut Phrase,
) -> &'static str {
    match number.or(first_of(parameter)) {
        Some(number) => {
            let what = label_of(parameter);
            let is_named = separator == ";" && !what.is_empty();
            to.add(if is_named { ", " } else { separator });
            to.add_integer(what, number);
            if what.is_empty() { ";" } else { ", " }
        }
        None => {
            to.add(last_words(parameter));
            separator
        }
    }
}

// Returns the words before a parameter.
fn label_of(parameter: Parameter) -> &'static str {
    match parameter {
        Parameter::Line | Parameter::GivenLine => "line ",
        Parameter::Column | Parameter::GivenColumn => "column ",
        Parameter::Page | Parameter::GivenPage => "page ",
        Parameter::LastLine => "to line ",
        Parameter::LastColumn => "to column ",
        _ => "",
    }
}

// Returns the words for a parameter that is left out if the size of the screen decides.
fn last_words(parameter: Parameter) -> &'static str {
    match parameter {
        Parameter::LastLine => ", to the last line",
        Parameter::LastColumn => ", to the last column",
        _ => "",
    }
}

// Returns the default of a parameter that is left out and counts from 1.
fn first_of(parameter: Parameter) -> Option<i64> {
    match parameter {
        Parameter::Line | Parameter::Column | Parameter::Page | Parameter::Count => Some(1),
        _ => None,
    }
}

// Returns whether a terminal takes a 0 as a parameter that is left out (the VT510's manual; xterm).
fn counts_from_one(parameter: Parameter) -> bool {
    match parameter {
        Parameter::Count
        | Parameter::Line
        | Parameter::Column
        | Parameter::LastLine
        | Parameter::LastColumn
        | Parameter::Page => true,
        Parameter::GivenLine
        | Parameter::GivenColumn
        | Parameter::GivenPage
        | Parameter::Selector(_)
        | Parameter::Choice
        | Parameter::Mode
        | Parameter::PrivateMode
        | Parameter::Rendition
        | Parameter::Amount(_)
        | Parameter::Number => false,
    }
}

/// Adds the numbers of some parameters and their separators, after a space if they begin with a
/// number.
pub fn add_entries(params: &[CsiParam], to: &mut Phrase) {
    add_entries_after(" ", params, to);
}

// Does the same, after this text if they begin with a number.
fn add_entries_after(before: &'static str, params: &[CsiParam], to: &mut Phrase) {
    let mut space = before;
    for param in params {
        match *param {
            CsiParam::Integer(number) => to.add_integer(space, number),
            CsiParam::P(byte) => {
                if is_mark(*param) {
                    continue;
                }
                to.add_char(char::from(byte));
            }
        }
        space = "";
    }
}
