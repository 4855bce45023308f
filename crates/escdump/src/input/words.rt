//! The input that a terminal sends, in words.

use crate::input::sent::{Modifiers, Pointer, Sent};
use dump_page::Phrase;

// The modifiers and their bits.
static MODIFIERS: [(u8, &str); 4] = [(1, "Shift"), (2, "Alt"), (4, "Control"), (8, "Meta")];

// Buttons of the mouse without the bits of modifiers and motion (xterm's list, "Mouse Tracking").
static BUTTONS: [(u64, &str); 12] = [
    (0, " left button"),
    (1, " middle button"),
    (2, " right button"),
    (3, " no button"),
    (64, " wheel up"),
    (65, " wheel down"),
    (66, " wheel left"),
    (67, " wheel right"),
    (128, " button 8"),
    (129, " button 9"),
    (130, " button 10"),
    (131, " button 11"),
];

// The bits of a release, if the report does not say which button it is of.
const RELEASED: u64 = 3;

/// Adds the input that a terminal sends, in words.
pub fn add_sent(sent: Sent, to: &mut Phrase) {
    match sent {
        Sent::Key(name, modifiers) => {
            to.begin("key", "", name_before(name, modifiers));
            add_modifiers(modifiers, to);
        }
        Sent::Typed(c, modifiers) => {
            to.begin("key", "", "");
            let mut quote = to.quote();
            quote.add_char(c);
            to.add_quote(" ", &quote);
            add_modifiers(modifiers, to);
        }
        Sent::Mouse(pointer) => add_pointer(pointer, to),
        Sent::Focus(true) => to.begin("focus", "", "gained"),
        Sent::Focus(false) => to.begin("focus", "", "lost"),
        Sent::Paste(true) => to.begin("paste", "", "begins"),
        Sent::Paste(false) => to.begin("paste", "", "ends"),
    }
}

// Returns the name of a key as it comes before these modifiers.
fn name_before(name: &'static str, modifiers: Modifiers) -> &'static str {
    match name.strip_suffix(',') {
        Some(alone) if modifiers == 0 => alone,
        _ => name,
    }
}

// Adds the modifiers of these bits.
fn add_modifiers(modifiers: Modifiers, to: &mut Phrase) {
    let mut before = " with ";
    for (bit, words) in &MODIFIERS {
        if modifiers & *bit != 0 {
            to.add(before);
            to.add(*words);
            before = " and ";
        }
    }
}

// Adds a report of the mouse: the button and its event, the modifiers, and the place.
fn add_pointer(pointer: Pointer, to: &mut Phrase) {
    let bits = pointer.bits;
    to.begin("mouse", "", "");
    if bits & 32 != 0 {
        to.add(" pointer moved,");
    }
    if bits & 0xe3 == RELEASED {
        to.add(" a button released");
    } else {
        to.add(button_words(bits & 0xc3));
        if pointer.is_released {
            to.add(" released");
        } else if bits & 0x60 == 0 {
            to.add(" pressed");
        }
    }
    // (Shift, Alt and Control are the bits 4, 8 and 16)
    add_modifiers(((bits / 4) % 8) as u8, to);
    to.add(", column ");
    to.add_digits(pointer.column);
    to.add(", line ");
    to.add_digits(pointer.line);
}

// Returns the words of a button.
fn button_words(bits: u64) -> &'static str {
    for (button, words) in &BUTTONS {
        if *button == bits {
            return *words;
        }
    }
    " a button that is not known"
}
