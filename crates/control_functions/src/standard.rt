//! The standard of a function.

/// The standard, or the terminal, that has a control function first.
#[derive(Clone, Copy, Debug, PartialEq, Eq)]
pub enum Standard {
    /// ECMA-35, character code structure, sixth edition.
    Ecma35,
    /// ECMA-43, 8-bit coded character set, third edition.
    Ecma43,
    /// ECMA-48, control functions, fifth edition; for those that it left out, the fourth.
    Ecma48,
    /// RFC 1345, which has the names of a draft of ISO 10646 that no edition of ECMA-48 took over.
    Rfc1345,
    /// DEC's VT100 to VT132.
    Vt100,
    /// DEC's VT220 and VT240.
    Vt220,
    /// DEC's VT320.
    Vt320,
    /// DEC's VT330 and VT340.
    Vt340,
    /// DEC's VT420.
    Vt420,
    /// DEC's VT510 and VT520.
    Vt510,
    /// DEC's VT525.
    Vt525,
    /// SCO's console, and ANSI.SYS.
    Sco,
    /// Hewlett-Packard's terminals.
    Hp,
    /// The console of Linux.
    Linux,
    /// Microsoft's terminal and its console.
    Microsoft,
    /// xterm.
    Xterm,
    /// kitty.
    Kitty,
    /// mintty.
    Mintty,
    /// GNU screen, and tmux.
    Screen,
}
