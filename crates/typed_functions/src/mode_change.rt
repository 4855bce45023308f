//! The operation on modes.

/// The operation of a control sequence on modes (ECMA-48, 8.3.125 and 8.3.106, SM and RM; DEC's
/// VT510, DECSET and DECRST; xterm's list, XTSAVE and XTRESTORE).
#[derive(Clone, Copy, Debug, PartialEq, Eq)]
pub enum ModeChange {
    /// `CSI .. h`, SM: modes of ECMA-48 are set.
    SetMode,
    /// `CSI .. l`, RM: modes of ECMA-48 are reset.
    ResetMode,
    /// `CSI ? .. h`, DECSET: private modes are set.
    SetDecPrivateMode,
    /// `CSI ? .. l`, DECRST: private modes are reset.
    ResetDecPrivateMode,
    /// `CSI ? .. s`, XTSAVE: private modes are kept as they are.
    SaveDecPrivateMode,
    /// `CSI ? .. r`, XTRESTORE: private modes are again as they were kept.
    RestoreDecPrivateMode,
}
