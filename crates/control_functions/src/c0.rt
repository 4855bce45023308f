//! C0 controls.

/// A C0 control (ECMA-48, 5.2), or DEL, by the standards' abbreviation of its name. Its row of the
/// table has all else: [`row`](C0::row), [`name`](C0::name) and [`words`](C0::words); the whole
/// table is in docs/FUNCTIONS.md.
#[derive(Clone, Copy, PartialEq, Eq)]
pub enum C0 {
    NUL,
    SOH,
    STX,
    ETX,
    EOT,
    ENQ,
    ACK,
    BEL,
    BS,
    HT,
    LF,
    VT,
    FF,
    CR,
    SO,
    SI,
    DLE,
    DC1,
    DC2,
    DC3,
    DC4,
    NAK,
    SYN,
    ETB,
    CAN,
    EM,
    SUB,
    ESC,
    FS,
    GS,
    RS,
    US,
    DEL,
}
