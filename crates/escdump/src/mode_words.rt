//! Modes in words.

use crate::entries::number_at;
use crate::named::words_of;
use control_functions::{ControlFunction, Mode, PrivateMode};
use dump_page::Phrase;
use esc_values::CsiParam;

// The effects of private modes that people meet, if one is set, and after `^` if it is reset, the
// commonest first (xterm's list, "DEC Private Mode Set"; the VT510's manual).
static EFFECTS: &str = "\
25 show the cursor^hide the cursor
2004 bracket what is pasted^do not bracket what is pasted
1 application cursor keys^normal cursor keys
7 wrap at the last column^do not wrap at the last column
1049 save the cursor, enter a clear alternate screen^leave the alternate screen, restore the cursor
12 blink the cursor^do not blink the cursor
1006 report the mouse as SGR^report the mouse in single bytes
1000 report mouse buttons^do not report the mouse
1002 report mouse buttons and drags^do not report the mouse
2026 begin a synchronized update^end a synchronized update
2 ANSI mode^VT52 mode
3 132 columns^80 columns
4 smooth scroll^jump scroll
5 reverse video^normal video
6 count lines from the top margin^count lines from the top of the screen
8 repeat keys that are held^do not repeat keys that are held
9 report mouse presses^do not report the mouse
33 steady cursor^blinking cursor
34 right to left^left to right
40 permit 80 and 132 columns^keep the number of columns
45 wrap backwards too^do not wrap backwards
47 enter the alternate screen^leave the alternate screen
59 kanji and katakana^no kanji and katakana
66 application keypad^numeric keypad
67 backarrow key sends BS^backarrow key sends DEL
69 permit left and right margins^no left and right margins
80 show sixels without scrolling^scroll with sixels
1001 report mouse highlights^do not report the mouse
1003 report mouse buttons and motion^do not report the mouse
1004 report focus^do not report focus
1005 report the mouse in UTF-8^report the mouse in single bytes
1007 the wheel sends arrow keys^the wheel scrolls
1015 report the mouse as urxvt^report the mouse in single bytes
1016 report the mouse as SGR in pixels^report the mouse in single bytes
1021 bold and blinking characters in high intensity^bold and blinking characters in normal intensity
1034 Meta sets the eighth bit^Meta does not set the eighth bit
1036 Meta sends ESC^Meta does not send ESC
1039 Alt sends ESC^Alt does not send ESC
1047 enter the alternate screen^clear and leave the alternate screen
1048 save the cursor^restore the cursor
1337 report keys of iTerm2^do not report keys of iTerm2
2027 join grapheme clusters^do not join grapheme clusters
2030 report the selection by cells^do not report the selection by cells
2031 report the colour scheme^do not report the colour scheme
2048 report the size^do not report the size
9001 report keys as win32 input^report keys as characters";

// The state in a report of a mode (the VT510's manual, DECRPM).
static STATES: &str = "\
0 not recognised
1 set
2 reset
3 permanently set
4 permanently reset";

/// Adds modes by their numbers, each with its name and its words.
pub fn add_modes(function: ControlFunction, params: &[CsiParam], to: &mut Phrase) {
    let mut separator = " ";
    for param in params {
        if let CsiParam::Integer(number) = *param {
            to.add(separator);
            add_mode(function, number, to);
            separator = ", ";
        }
    }
}

fn add_mode(function: ControlFunction, number: i64, to: &mut Phrase) {
    to.add_integer("", number);
    match (number, Mode::of_number(short(number))) {
        (33, _) => to.add_word(chosen(
            function,
            "steady cursor",
            "blinking cursor",
            "look of the cursor",
        )),
        (34, _) => to.add_word(chosen(
            function,
            "normal cursor",
            "very visible cursor",
            "look of the cursor",
        )),
        (_, Some(mode)) => {
            to.add_word(mode.name());
            to.add_word(effect_of(function, number, mode.words()));
        }
        (_, None) => to.add_word("(not known)"),
    }
}

// Returns the effect of setting or resetting a mode that terminals have (xterm's list, "Set Mode"
// and "Reset Mode"), or these words, for another mode or function.
fn effect_of(function: ControlFunction, number: i64, words: &'static str) -> &'static str {
    match number {
        2 => chosen(function, "lock the keyboard", "unlock the keyboard", words),
        4 => chosen(function, "insert characters", "replace characters", words),
        12 => chosen(function, "no local echo", "local echo", words),
        20 => chosen(
            function,
            "line feed begins a line",
            "line feed keeps the column",
            words,
        ),
        _ => words,
    }
}

/// Adds private modes by their numbers, each with the operation of this function on it.
pub fn add_private_modes(function: ControlFunction, params: &[CsiParam], to: &mut Phrase) {
    let mut separator = " ";
    for param in params {
        if let CsiParam::Integer(number) = *param {
            to.add(separator);
            add_private_mode(function, number, to);
            separator = ", ";
        }
    }
}

// Adds a private mode by its number, by its name if a manual has it, each of which begins with DEC,
// and the operation of the function on it.
fn add_private_mode(function: ControlFunction, number: i64, to: &mut Phrase) {
    to.add_integer("", number);
    let mode = PrivateMode::of_number(short(number));
    if let Some(mode) = mode {
        if mode.name().starts_with("DEC") {
            to.add_word(mode.name());
        }
    }
    match (effects_of(number), mode) {
        (Some((set, reset)), None) => to.add_word(chosen(function, set, reset, set)),
        (Some((set, reset)), Some(mode)) => {
            to.add_word(chosen(function, set, reset, mode.words()))
        }
        (None, Some(mode)) => {
            to.add_word(verb_of(function));
            to.add_word(mode.words());
        }
        (None, None) => {
            to.add_word(verb_of(function));
            to.add_word("(not known)");
        }
    }
}

// Returns the operation of the function on a mode, if its own words do not say it.
fn verb_of(function: ControlFunction) -> &'static str {
    chosen(function, "set", "reset", "")
}

// Returns the effects of setting and of resetting the private mode of this number.
fn effects_of(number: i64) -> Option<(&'static str, &'static str)> {
    words_of(EFFECTS, number, "").split_once('^')
}

// Returns the words of a function that sets or resets modes, or these of another.
fn chosen(
    function: ControlFunction,
    set: &'static str,
    reset: &'static str,
    other: &'static str,
) -> &'static str {
    match function {
        ControlFunction::DECSET | ControlFunction::SM => set,
        ControlFunction::DECRST | ControlFunction::RM => reset,
        _ => other,
    }
}

/// Adds the mode that is reported, by its number and words, and whether it is set.
pub fn add_state(function: ControlFunction, params: &[CsiParam], to: &mut Phrase) {
    let number = number_at(params, 0).unwrap_or(0);
    to.add(" ");
    if function == ControlFunction::DECRPM {
        add_private_mode(function, number, to);
    } else {
        add_mode(function, number, to);
    }
    match number_at(params, 1) {
        Some(state) => {
            to.add(":");
            to.add_word(words_of(STATES, state, "not known"));
        }
        None => to.add(", with no state given"),
    }
}

// Returns the number of a mode; one that no mode has, if it is longer than any.
fn short(number: i64) -> u32 {
    u32::try_from(number).unwrap_or(u32::MAX)
}
