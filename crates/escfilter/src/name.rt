//! The names of the parts of a stream that are left out.
ghost use Rattle.std.specs.Prelude.{◌≡◌};
ghost use Rattle.esc_actions.specs.Values.{device_value, value_of};
ghost use Rattle.escfilter.specs.Names.{apc_key, bare, character_title, command_title, control_title, deceiving_title, escape_title, has_key, header_key, is_passed_over, key_title, kind_title, lone_title, number_in, number_key, opened_by, opener, plain_title, sequence_title, shown_key, title_of, unnamed_title, value_title};

use control_functions::{C0, ControlFunction, EscapeFunction};
use esc_actions::Action;
use esc_device::{DeviceControlMode, EnterDeviceControlMode};
use esc_osc::OperatingSystemCommand as Command;
use esc_segments::SegmentKind;
use esc_values::Items;
use esc_values::scalar::read_usize;

// How many digits a number has at most that tells commands apart.
const DIGITS: usize = 18;

/// The bytes and numbers that tell nameless things apart.
#[derive(Clone, Copy, PartialEq, Eq)]
pub enum Key {
    /// Nothing.
    Nothing,
    /// The number of an operating system command.
    Number(u64),
    /// The intermediates and the final byte of a device control string, or the first byte of an
    /// application program command; 0 is none.
    Bytes([u8; 3]),
}

/// The name of the request of an action. All but the keys are texts of tables, so without these
/// there are not many.
#[derive(Clone, Copy, PartialEq, Eq)]
pub struct Name {
    /// Its name, as `DSR`; empty if it has none. It comes first, since names are compared by it
    /// first.
    pub name: &'static str,
    /// Its kind, as `CSI`.
    pub kind: &'static str,
    /// Its name in words, as `device status report`.
    pub words: &'static str,
    /// Its key in place of its name and of these words, if no table has it.
    pub key: Key,
}

impl Name {
    /// Whether it has a key.
    pub fn has_key(self) -> bool
        ensures { result ≡ has_key (title_of self) }
    {
        match self.key {
            Key::Nothing => false,
            Key::Number(_) | Key::Bytes(_) => true,
        }
    }

    /// The name that it has without its key, in common with others of its kind.
    pub fn without_key(self) -> Name
        ensures { result ≡ bare self }
    {
        Name {
            kind: self.kind,
            name: self.name,
            words: self.words,
            key: Key::Nothing,
        }
    }

    /// Its words, if it has no key.
    pub fn said(self) -> &'static str {
        if self.has_key() { "" } else { self.words }
    }
}

// A name of this kind.
fn named(kind: &'static str, name: &'static str, words: &'static str) -> Name
    ensures { title_of result ≡ plain_title kind.now name.now words.now }
{
    keyed(kind, name, words, Key::Nothing)
}

// The same, with a key.
fn keyed(kind: &'static str, name: &'static str, words: &'static str, key: Key) -> Name
    ensures { title_of result ≡ key_title kind.now name.now words.now key }
{
    Name {
        kind,
        name,
        words,
        key,
    }
}

// A character that deceives.
fn deceiving() -> Name
    ensures { title_of result ≡ deceiving_title }
{
    named("character", "", "that hides or reorders text")
}

/// Returns the name of a segment of this kind and these bytes that means nothing of its own, or
/// whose characters are written as others.
pub fn kind_name(kind: SegmentKind, bytes: &[u8]) -> Name
    ensures { title_of result ≡ kind_title kind bytes.now }
{
    match kind {
        SegmentKind::Character => deceiving(),
        SegmentKind::Broken | SegmentKind::Stray => named("character", "", "that is no UTF-8"),
        SegmentKind::Control => lone_control(bytes),
        SegmentKind::Terminator => named("control", "ST", "string terminator that ends nothing"),
        SegmentKind::Escape => unnamed("ESC"),
        SegmentKind::Csi => named("CSI", "", "malformed"),
        SegmentKind::Osc => named("OSC", "", ""),
        SegmentKind::Dcs => named("DCS", "", ""),
        SegmentKind::Apc => keyed("APC", "", "", first_byte(bytes)),
        SegmentKind::Ignored => named("SOS or PM", "", ""),
        SegmentKind::CutShort => named(opened_by(bytes), "", "cut short"),
    }
}

// The name of a control of these bytes that means nothing of its own, or is shown.
fn lone_control(bytes: &[u8]) -> Name
    ensures { title_of result ≡ lone_title bytes.now }
{
    if bytes.len() == 1 && bytes[0] == b'\r' {
        control_name(b'\r')
    } else {
        unnamed("control")
    }
}

// The first byte of an application program command of these bytes, where it shows.
fn first_byte(bytes: &[u8]) -> Key
    ensures { result ≡ apc_key bytes.now }
{
    if bytes.is_empty() {
        Key::Nothing
    } else if bytes[0] == 0x9f {
        shown_at(bytes, 1)
    } else {
        shown_at(bytes, 2)
    }
}

// The byte here, where it shows.
fn shown_at(bytes: &[u8], at: usize) -> Key
    ensures { result ≡ shown_key bytes.now at }
{
    if at < bytes.len() && bytes[at].is_ascii_graphic() {
        Key::Bytes([0, 0, bytes[at]])
    } else {
        Key::Nothing
    }
}

// Returns the kind of a sequence that is cut short.
fn opened_by(bytes: &[u8]) -> &'static str
    ensures { result.now ≡ opened_by bytes.now }
{
    let mut at = 0;
    while at < bytes.len() {
        if !is_passed_over(bytes[at]) {
            return opener(bytes[at]);
        }
        at += 1;
    }
    "ESC"
}

// A control within an opener, or the first byte of one.
fn is_passed_over(byte: u8) -> bool
    ensures { result ≡ is_passed_over byte }
{
    byte < 0x20 || byte == 0x7f || byte == 0xc2
}

// Returns the kind of the sequence or string that this byte opens, after ESC, after C2 or by
// itself.
fn opener(byte: u8) -> &'static str
    ensures { result.now ≡ opener byte }
{
    if byte == b'[' || byte == 0x9b {
        "CSI"
    } else if byte == b'P' || byte == 0x90 {
        "DCS"
    } else {
        "ESC"
    }
}

// Returns the name of a thing without one.
fn unnamed(kind: &'static str) -> Name
    ensures { title_of result ≡ unnamed_title kind.now }
{
    named(kind, "", "without a name")
}

/// Returns the name of the request of an action.
pub fn name_of(action: &Action) -> Name
    ensures { title_of result ≡ value_title (value_of action.now) }
{
    match action {
        Action::Print(c) => character_name(*c),
        Action::PrintString(_) => deceiving(),
        Action::Control(code) => control_name(*code as u8),
        Action::Esc(esc) => escape_name("ESC", EscapeFunction::of(*esc)),
        Action::CSI(csi) => sequence_name(ControlFunction::of(csi)),
        Action::OperatingSystemCommand(command) => command_name(command.as_ref()),
        Action::KittyImage(_) => named("APC", "G", "kitty image"),
        Action::Sixel(_) => named("DCS", "q", "sixel image"),
        Action::XtGetTcap(_) => named("DCS", "XTGETTCAP", "ask for termcap data"),
        Action::DeviceControl(mode) => device_name(mode),
    }
}

// The name of a character.
fn character_name(c: char) -> Name
    ensures { title_of result ≡ character_title c }
{
    if c == '\x7f' {
        named("character", "DEL", "delete")
    } else {
        deceiving()
    }
}

/// The name of a control sequence.
pub fn sequence_name(function: Option<ControlFunction>) -> Name
    ensures { title_of result ≡ sequence_title function }
{
    match function {
        Some(function) => named("CSI", function.name(), function.words()),
        None => unnamed("CSI"),
    }
}

// The name of a control of C0 or C1.
fn control_name(code: u8) -> Name
    ensures { title_of result ≡ control_title code }
{
    match C0::of(code) {
        Some(control) => named("control", "", control.words()),
        None => escape_name("control", EscapeFunction::of_c1(code)),
    }
}

// The name of an escape sequence, or of the control of C1 that it is short for.
fn escape_name(kind: &'static str, function: Option<EscapeFunction>) -> Name
    ensures { title_of result ≡ escape_title kind.now function }
{
    match function {
        Some(function) => named(kind, function.name(), function.words()),
        None => unnamed(kind),
    }
}

// The name of a device control string.
fn device_name(mode: &DeviceControlMode) -> Name
    ensures { title_of result ≡ value_title (device_value mode.now) }
{
    match mode {
        DeviceControlMode::ShortDeviceControl(_) => named("DCS", "$q", "ask for a setting"),
        DeviceControlMode::Enter(enter) => {
            keyed("DCS", "", "of another kind", header_key(enter.as_ref()))
        }
        DeviceControlMode::Data(_) | DeviceControlMode::Exit => {
            named("DCS", "", "of another kind")
        }
    }
}

// The intermediates and the final byte of a header.
fn header_key(enter: &EnterDeviceControlMode) -> Key
    ensures { result ≡ header_key enter.now.intermediates enter.now.byte }
{
    match enter.intermediates.as_slice() {
        [] => Key::Bytes([0, 0, enter.byte]),
        [one] => Key::Bytes([0, *one, enter.byte]),
        [one, other, ..] => Key::Bytes([*one, *other, enter.byte]),
    }
}

// The name of an operating system command (xterm's list, "Operating System Commands").
fn command_name(command: &Command) -> Name
    ensures { title_of result ≡ command_title command.now }
{
    match command {
        Command::SetIconNameAndWindowTitle(_) => named("OSC", "0", "icon name and window title"),
        Command::SetIconName(_) => named("OSC", "1", "icon name"),
        Command::SetWindowTitle(_) => named("OSC", "2", "window title"),
        Command::SetWindowTitleSun(_) => named("OSC", "l", "window title"),
        Command::SetIconNameSun(_) => named("OSC", "L", "icon name"),
        Command::ChangeColorNumber(_) => named("OSC", "4", "colours of the palette"),
        Command::CurrentWorkingDirectory(_) => named("OSC", "7", "working directory"),
        Command::SetHyperlink(_) => named("OSC", "8", "hyperlink"),
        Command::SystemNotification(_) => named("OSC", "9", "notification"),
        Command::ConEmuProgress(_) => named("OSC", "9;4", "progress"),
        Command::ChangeDynamicColors(_, _) => named("OSC", "10 to 19", "dynamic colours"),
        Command::ClearSelection(_) | Command::QuerySelection(_) | Command::SetSelection(_, _) => {
            named("OSC", "52", "clipboard")
        }
        Command::ResetColors(_) => named("OSC", "104", "reset colours of the palette"),
        Command::ResetDynamicColor(_) => named("OSC", "110 to 119", "reset a dynamic colour"),
        Command::FinalTermSemanticPrompt(_) => named("OSC", "133", "prompt of a shell"),
        Command::RxvtExtension(_) => named("OSC", "777", "extension of rxvt"),
        Command::ITermProprietary(_) => named("OSC", "1337", "command of iTerm2"),
        Command::Unspecified(parts) => {
            keyed("OSC", "", "of another kind", number_key(parts.as_slice()))
        }
    }
}

// The number that is the first of these parts of a command.
fn number_key(parts: &[Items<u8>]) -> Key
    ensures { result ≡ number_key parts.now }
{
    match parts {
        [first, ..] => number_of(first.as_slice()),
        [] => Key::Nothing,
    }
}

// The number that these digits are.
fn number_of(digits: &[u8]) -> Key
    ensures { result ≡ number_in digits.now }
{
    if digits.is_empty() || digits.len() > DIGITS || !digits[0].is_ascii_digit() {
        return Key::Nothing;
    }
    match read_usize(digits) {
        Some(number) => Key::Number(number as u64),
        None => Key::Nothing,
    }
}
