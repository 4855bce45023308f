//! The string that a header of a device control string opens.
ghost use Rattle.std.specs.Prelude.{◌≡◌};
ghost use Rattle.esc_device.specs.Kinds.{kind_of};

/// The kind of the data of a device control string.
#[derive(Clone, Copy, Debug, PartialEq, Eq)]
pub enum StringKind {
    /// A sixel image.
    Sixel,
    /// The names of a termcap query (xterm's XTGETTCAP).
    Termcap,
    /// The data of a short device control (DECRQSS).
    Short,
    /// Data for the mode that the header enters.
    Other,
}

impl StringKind {
    /// Returns the string that a header with this final byte and these intermediates opens: with
    /// `q` a sixel image if it has no intermediates, a termcap query if `+` is the only one, and a
    /// short control if `$` is. Every other header, and each with intermediates left out, enters a
    /// mode. Takes no memory.
    pub fn of_header(
        byte: u8,
        intermediates: &[u8],
        ignored_extra_intermediates: bool,
    ) -> StringKind
        ensures { result ≡ kind_of byte intermediates.now ignored_extra_intermediates }
    {
        if ignored_extra_intermediates || byte != b'q' {
            return StringKind::Other;
        }
        let Some((first, rest)) = intermediates.split_first() else {
            return StringKind::Sixel;
        };
        if !rest.is_empty() {
            return StringKind::Other;
        }
        match *first {
            b'+' => StringKind::Termcap,
            b'$' => StringKind::Short,
            _ => StringKind::Other,
        }
    }
}
