//! Control codes.
ghost use Rattle.std.specs.Prelude.{◌≡◌, ◌≢◌, MatchOption, Some};
ghost use Rattle.std.specs.Char.{encode_utf8};
ghost use Rattle.esc_actions.specs.ControlCodes.{code_number, code_of};
ghost use Rattle.esc_actions.specs.declared.control_code.ControlCode.{ControlCode};

use std::fmt;

/// A control code of the sets C0 and C1 (ECMA-48, 5.2, 5.3 and 8.3), by its name. `as u8` gives its
/// number: 00 to 1F, 82 to 98 or 9A to 9F, hexadecimal. 80, 81 and 99 have no name.
#[derive(Clone, Copy, Debug, PartialEq, Eq)]
pub enum ControlCode {
    /// Null.
    Null = 0x00,
    /// Start of heading.
    StartOfHeading = 0x01,
    /// Start of text.
    StartOfText = 0x02,
    /// End of text.
    EndOfText = 0x03,
    /// End of transmission.
    EndOfTransmission = 0x04,
    /// Enquiry.
    Enquiry = 0x05,
    /// Acknowledge.
    Acknowledge = 0x06,
    /// Bell.
    Bell = 0x07,
    /// Backspace.
    Backspace = 0x08,
    /// Horizontal tab.
    HorizontalTab = 0x09,
    /// Line feed.
    LineFeed = 0x0a,
    /// Vertical tab.
    VerticalTab = 0x0b,
    /// Form feed.
    FormFeed = 0x0c,
    /// Carriage return.
    CarriageReturn = 0x0d,
    /// Shift out.
    ShiftOut = 0x0e,
    /// Shift in.
    ShiftIn = 0x0f,
    /// Data link escape.
    DataLinkEscape = 0x10,
    /// Device control one.
    DeviceControlOne = 0x11,
    /// Device control two.
    DeviceControlTwo = 0x12,
    /// Device control three.
    DeviceControlThree = 0x13,
    /// Device control four.
    DeviceControlFour = 0x14,
    /// Negative acknowledge.
    NegativeAcknowledge = 0x15,
    /// Synchronous idle.
    SynchronousIdle = 0x16,
    /// End of transmission block.
    EndOfTransmissionBlock = 0x17,
    /// Cancel.
    Cancel = 0x18,
    /// End of medium.
    EndOfMedium = 0x19,
    /// Substitute.
    Substitute = 0x1a,
    /// Escape.
    Escape = 0x1b,
    /// File separator.
    FileSeparator = 0x1c,
    /// Group separator.
    GroupSeparator = 0x1d,
    /// Record separator.
    RecordSeparator = 0x1e,
    /// Unit separator.
    UnitSeparator = 0x1f,
    /// BPH: break permitted here.
    BPH = 0x82,
    /// NBH: no break here.
    NBH = 0x83,
    /// IND: index (ECMA-48 up to its fourth edition).
    IND = 0x84,
    /// NEL: next line.
    NEL = 0x85,
    /// SSA: start of selected area.
    SSA = 0x86,
    /// ESA: end of selected area.
    ESA = 0x87,
    /// HTS: character tabulation set.
    HTS = 0x88,
    /// HTJ: character tabulation with justification.
    HTJ = 0x89,
    /// VTS: line tabulation set.
    VTS = 0x8a,
    /// PLD: partial line forward.
    PLD = 0x8b,
    /// PLU: partial line backward.
    PLU = 0x8c,
    /// RI: reverse line feed.
    RI = 0x8d,
    /// SS2: single shift two.
    SS2 = 0x8e,
    /// SS3: single shift three.
    SS3 = 0x8f,
    /// DCS: device control string.
    DCS = 0x90,
    /// PU1: private use one.
    PU1 = 0x91,
    /// PU2: private use two.
    PU2 = 0x92,
    /// STS: set transmit state.
    STS = 0x93,
    /// CCH: cancel character.
    CCH = 0x94,
    /// MW: message waiting.
    MW = 0x95,
    /// SPA: start of guarded area.
    SPA = 0x96,
    /// EPA: end of guarded area.
    EPA = 0x97,
    /// SOS: start of string.
    SOS = 0x98,
    /// SCI: single character introducer.
    SCI = 0x9a,
    /// CSI: control sequence introducer.
    CSI = 0x9b,
    /// ST: string terminator.
    ST = 0x9c,
    /// OSC: operating system command.
    OSC = 0x9d,
    /// PM: privacy message.
    PM = 0x9e,
    /// APC: application program command.
    APC = 0x9f,
}

impl ControlCode {
    /// Returns the code with this number, if there is one: none for 80, 81 and 99, and for a number
    /// that is no control.
    pub fn from_byte(byte: u8) -> Option<ControlCode>
        ensures { result ≡ code_of byte }
    {
        ControlCode::numbered(byte)
    }

    // Does the same, said code by code.
    fn numbered(byte: u8) -> Option<ControlCode>
        ensures { MatchOption result ((c : ControlCode)
            → byte ≢ code_number c) (λ c. byte ≡ code_number c) }
    {
        match byte {
            0x00 => Some(ControlCode::Null),
            0x01 => Some(ControlCode::StartOfHeading),
            0x02 => Some(ControlCode::StartOfText),
            0x03 => Some(ControlCode::EndOfText),
            0x04 => Some(ControlCode::EndOfTransmission),
            0x05 => Some(ControlCode::Enquiry),
            0x06 => Some(ControlCode::Acknowledge),
            0x07 => Some(ControlCode::Bell),
            0x08 => Some(ControlCode::Backspace),
            0x09 => Some(ControlCode::HorizontalTab),
            0x0a => Some(ControlCode::LineFeed),
            0x0b => Some(ControlCode::VerticalTab),
            0x0c => Some(ControlCode::FormFeed),
            0x0d => Some(ControlCode::CarriageReturn),
            0x0e => Some(ControlCode::ShiftOut),
            0x0f => Some(ControlCode::ShiftIn),
            0x10 => Some(ControlCode::DataLinkEscape),
            0x11 => Some(ControlCode::DeviceControlOne),
            0x12 => Some(ControlCode::DeviceControlTwo),
            0x13 => Some(ControlCode::DeviceControlThree),
            0x14 => Some(ControlCode::DeviceControlFour),
            0x15 => Some(ControlCode::NegativeAcknowledge),
            0x16 => Some(ControlCode::SynchronousIdle),
            0x17 => Some(ControlCode::EndOfTransmissionBlock),
            0x18 => Some(ControlCode::Cancel),
            0x19 => Some(ControlCode::EndOfMedium),
            0x1a => Some(ControlCode::Substitute),
            0x1b => Some(ControlCode::Escape),
            0x1c => Some(ControlCode::FileSeparator),
            0x1d => Some(ControlCode::GroupSeparator),
            0x1e => Some(ControlCode::RecordSeparator),
            0x1f => Some(ControlCode::UnitSeparator),
            0x82 => Some(ControlCode::BPH),
            0x83 => Some(ControlCode::NBH),
            0x84 => Some(ControlCode::IND),
            0x85 => Some(ControlCode::NEL),
            0x86 => Some(ControlCode::SSA),
            0x87 => Some(ControlCode::ESA),
            0x88 => Some(ControlCode::HTS),
            0x89 => Some(ControlCode::HTJ),
            0x8a => Some(ControlCode::VTS),
            0x8b => Some(ControlCode::PLD),
            0x8c => Some(ControlCode::PLU),
            0x8d => Some(ControlCode::RI),
            0x8e => Some(ControlCode::SS2),
            0x8f => Some(ControlCode::SS3),
            0x90 => Some(ControlCode::DCS),
            0x91 => Some(ControlCode::PU1),
            0x92 => Some(ControlCode::PU2),
            0x93 => Some(ControlCode::STS),
            0x94 => Some(ControlCode::CCH),
            0x95 => Some(ControlCode::MW),
            0x96 => Some(ControlCode::SPA),
            0x97 => Some(ControlCode::EPA),
            0x98 => Some(ControlCode::SOS),
            0x9a => Some(ControlCode::SCI),
            0x9b => Some(ControlCode::CSI),
            0x9c => Some(ControlCode::ST),
            0x9d => Some(ControlCode::OSC),
            0x9e => Some(ControlCode::PM),
            0x9f => Some(ControlCode::APC),
            _ => None,
        }
    }

    /// Returns the character of the same number.
    pub fn as_char(self) -> char
        ensures { result ≡ code_number self }
    {
        char::from(self as u8)
    }
}

/// Writes the character of the same number, of one byte for C0 and of two for C1. It errs only if
/// the formatter's writer errs.
impl fmt::Display for ControlCode {
    ghost output = { λ c. Some (encode_utf8 (code_number c)) };

    fn fmt<W: fmt::Write>(&self, f: &mut fmt::Formatter<W>) -> fmt::Result {
        f.write_char(self.as_char())
    }
}
