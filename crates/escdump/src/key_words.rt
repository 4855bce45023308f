//! Keys and the mouse in words.

use crate::entries::{number_at, part_at};
use crate::named::words_of;
use crate::values::number_in;
use control_functions::ControlFunction;
use dump_page::Phrase;
use esc_values::CsiParam;

// Function keys (the VT510's manual, chapter 8; xterm's list, "PC-Style Function Keys"; rxvt for 7
// and 8; kitty for 29).
static FUNCTION_KEYS: &str = "\
1 Home
2 Insert
3 Delete
4 End
5 Page Up
6 Page Down
7 Home
8 End
11 F1
12 F2
13 F3
14 F4
15 F5
17 F6
18 F7
19 F8
20 F9
21 F10
23 F11
24 F12
25 F13
26 F14
28 F15
29 F16, or Menu
31 F17
32 F18
33 F19
34 F20
200 paste begins
201 paste ends";

// Keys that kitty reports by a number that is no character of theirs
// (<https://sw.kovidgoyal.net/kitty/keyboard-protocol/>, "Functional key definitions").
static KITTY_KEYS: &str = "\
9 Tab
13 Enter
27 Escape
32 Space
127 Backspace
57358 Caps Lock
57359 Scroll Lock
57360 Num Lock
57361 Print Screen
57362 Pause
57363 Menu
57376 F13
57377 F14
57378 F15
57379 F16
57380 F17
57381 F18
57382 F19
57383 F20
57384 F21
57385 F22
57386 F23
57387 F24
57388 F25
57389 F26
57390 F27
57391 F28
57392 F29
57393 F30
57394 F31
57395 F32
57396 F33
57397 F34
57398 F35
57399 keypad 0
57400 keypad 1
57401 keypad 2
57402 keypad 3
57403 keypad 4
57404 keypad 5
57405 keypad 6
57406 keypad 7
57407 keypad 8
57408 keypad 9
57409 keypad Decimal
57410 keypad Divide
57411 keypad Multiply
57412 keypad Subtract
57413 keypad Add
57414 keypad Enter
57415 keypad Equal
57416 keypad Separator
57417 keypad Left
57418 keypad Right
57419 keypad Up
57420 keypad Down
57421 keypad Page Up
57422 keypad Page Down
57423 keypad Home
57424 keypad End
57425 keypad Insert
57426 keypad Delete
57427 keypad Begin
57428 media Play
57429 media Pause
57430 media Play or Pause
57431 media Reverse
57432 media Stop
57433 media Fast Forward
57434 media Rewind
57435 media Next Track
57436 media Previous Track
57437 media Record
57438 Lower Volume
57439 Raise Volume
57440 Mute Volume
57441 left Shift
57442 left Control
57443 left Alt
57444 left Super
57445 left Hyper
57446 left Meta
57447 right Shift
57448 right Control
57449 right Alt
57450 right Super
57451 right Hyper
57452 right Meta
57453 ISO Level 3 Shift
57454 ISO Level 5 Shift";

// The bits of modifiers (kitty's keyboard protocol, "Modifiers"; xterm's 8 is Meta there).
static MODIFIERS: &str = "\
1~Shift/2~Alt/4~Control/8~Super/16~Hyper/32~Meta/64~Caps Lock/128~Num Lock";

// The bits of kitty's flags (its keyboard protocol, "Progressive enhancement").
static FLAGS: &str = "\
1~disambiguate escape codes/2~report event types/4~report alternate keys/\
8~report all keys as escape codes/16~report text";

// The operation on flags (the same page).
static CHANGES: &str = "\
1 all others are reset
2 the others stay
3 these are reset";

// Buttons of the mouse without the bits of modifiers and motion (xterm's list, "Mouse Tracking").
static BUTTONS: &str = "\
0 left button
1 middle button
2 right button
3 no button
64 wheel up
65 wheel down
66 wheel left
67 wheel right
128 button 8
129 button 9
130 button 10
131 button 11";

/// Adds a function key by its name, and the modifiers that are held with it.
pub fn add_function_key(params: &[CsiParam], to: &mut Phrase) {
    let number = number_at(params, 0).unwrap_or(0);
    if number == 27 {
        let code = number_at(params, 2).unwrap_or(0);
        to.add(" ");
        return add_pressed(code, number_at(params, 1), to);
    }
    to.add_integer(" ", number);
    to.add_note(words_of(FUNCTION_KEYS, number, ""));
    add_modifiers(number_at(params, 1), to);
    if let Some(event) = part_at(params, 1, 1) {
        add_event_words(Some(event), ", pressed", to);
    }
}

/// Adds a key that kitty reports, the modifiers that are held with it, and its event.
pub fn add_key(params: &[CsiParam], to: &mut Phrase) {
    to.add(" ");
    add_pressed(number_at(params, 0).unwrap_or(1), number_at(params, 1), to);
    add_event_words(part_at(params, 1, 1), ", pressed", to);
    add_code_after(", shifted ", part_at(params, 0, 1), to);
    add_code_after(", at the place of ", part_at(params, 0, 2), to);
    add_code_after(", text ", number_at(params, 2), to);
    for part in 1..MOST_TEXT {
        let code = part_at(params, 2, part);
        if code.is_none() {
            break;
        }
        add_code_after(" ", code, to);
    }
}

// The most characters of a text that a key has; a sequence of more has more than the parser keeps.
const MOST_TEXT: usize = 256;

// Adds the character of a code after these words, if there is one.
fn add_code_after(before: &'static str, code: Option<i64>, to: &mut Phrase) {
    if let Some(code) = code {
        to.add(before);
        add_code(code, to);
    }
}

// Adds the event of a key.
fn add_event_words(event: Option<i64>, pressed: &'static str, to: &mut Phrase) {
    match event {
        Some(2) => to.add(", repeated"),
        Some(3) => to.add(", released"),
        _ => to.add(pressed),
    }
}

/// Adds the event of a key, if it is given.
pub fn add_event(event: Option<&[u8]>, to: &mut Phrase) {
    if let Some(event) = event {
        add_event_words(number_in(event), ", pressed", to);
    }
}

// Adds a key by its code, and the modifiers that are held with it.
fn add_pressed(code: i64, modifiers: Option<i64>, to: &mut Phrase) {
    let words = words_of(KITTY_KEYS, code, "");
    to.add(words);
    if words.is_empty() {
        add_code(code, to);
    }
    add_modifiers(modifiers, to);
}

/// Adds the character of a code between quotes, or a code that has none.
pub fn add_code(code: i64, to: &mut Phrase) {
    match char::from_u32(u32::try_from(code).unwrap_or(u32::MAX)) {
        Some(c) => {
            let mut quote = to.quote();
            quote.add_char(c);
            to.add_quote("", &quote);
        }
        None => to.add_integer("key ", code),
    }
}

/// Adds the modifiers of a number that is one more than their bits.
pub fn add_modifiers(number: Option<i64>, to: &mut Phrase) {
    if let Some(number) = number {
        let _ = add_bits(MODIFIERS, " with ", " and ", number.saturating_sub(1), to);
    }
}

/// Adds the words of the bits of a number, if it has any; returns whether it has.
pub fn add_bits(
    values: &'static str,
    before: &'static str,
    between: &'static str,
    number: i64,
    to: &mut Phrase,
) -> bool {
    let mut has_any = false;
    for entry in values.split('/') {
        if let Some((key, words)) = entry.split_once('~') {
            if has_bit(number, key) {
                to.add(if has_any { between } else { before });
                to.add(words);
                has_any = true;
            }
        }
    }
    has_any
}

// Returns whether a number has the bit that a text is in decimal.
fn has_bit(number: i64, text: &str) -> bool {
    match number_in(text.as_bytes()) {
        Some(bit) => number & bit != 0,
        None => false,
    }
}

/// Adds flags of kitty's keyboard, and the operation on them.
pub fn add_flags(function: ControlFunction, params: &[CsiParam], to: &mut Phrase) {
    let Some(number) = number_at(params, 0).or(least_flags(function)) else {
        return;
    };
    to.add_integer(" ", number);
    if number == 0 {
        to.add(" (none)");
    }
    if add_bits(FLAGS, " (", ", ", number, to) {
        to.add(")");
    }
    if function == ControlFunction::KITTYSET {
        let change = number_at(params, 1).unwrap_or(1);
        to.add(",");
        to.add_word(words_of(CHANGES, change, "not known"));
    }
}

// Returns the flags if they are left out; none for a query, which asks for them.
fn least_flags(function: ControlFunction) -> Option<i64> {
    if function == ControlFunction::KITTYQUERY {
        return None;
    }
    Some(0)
}

/// Adds a report of the mouse: the button and its event, the modifiers, and the place.
pub fn add_mouse(function: ControlFunction, params: &[CsiParam], to: &mut Phrase) {
    let number = number_at(params, 0).unwrap_or(0);
    if number & 32 != 0 {
        to.add(" pointer moved,");
    }
    to.add_word(words_of(BUTTONS, number & 0xc3, "a button that is not known"));
    if function == ControlFunction::MOUSEUP {
        to.add(" released");
    } else if number & 0x60 == 0 {
        to.add(" pressed");
    }
    // (Shift, Meta and Control are the bits 4, 8 and 16)
    let _ = add_bits(MODIFIERS, " with ", " and ", (number >> 2) & 7, to);
    to.add_integer(", column ", number_at(params, 1).unwrap_or(1));
    to.add_integer(", line ", number_at(params, 2).unwrap_or(1));
}
