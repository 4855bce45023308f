//! The state of a text for the characters, renditions and links after it.
ghost use Rattle.std.specs.Prelude.{◌≡◌, None, Some, false, true};
ghost use Rattle.screen_lines.specs.Parts.{first_ink, more_room};
ghost use Rattle.screen_lines.specs.Runs.{ink_after};

/// The state of a text for what is written after it.
#[derive(Clone, Copy)]
pub(crate) struct Ink {
    /// The last character, if the next one may belong to it.
    pub last: Option<char>,
    /// Whether a link is open.
    pub leads: bool,
    /// How many bytes the next links may take.
    pub room: u128,
}

impl Ink {
    /// Before any text.
    pub fn first() -> Ink
        ensures { result ≡ first_ink }
    {
        Ink {
            last: None,
            leads: false,
            room: FIRST_ROOM,
        }
    }

    /// After a character more.
    #[inline]
    pub fn after(self, c: char) -> Ink
        ensures { result ≡ record self { last = Some c; room = more_room self.room } }
    {
        let room = if self.room < MOST_ROOM {
            self.room + MORE_ROOM
        } else {
            self.room
        };
        Ink {
            last: Some(c),
            leads: self.leads,
            room,
        }
    }

    /// After characters of ASCII more.
    #[tactic(auto, using(crate::proofs::Runs::ink_all))]
    #[inline]
    pub fn after_all(self, bytes: &[u8]) -> Ink
        ensures { result ≡ ink_after self bytes.now }
    {
        let room = self.room.saturating_add(MORE_ROOM * bytes.len() as u128);
        if room <= MOST_ROOM && !bytes.is_empty() {
            Ink {
                last: Some(bytes[bytes.len() - 1] as char),
                leads: self.leads,
                room,
            }
        } else {
            self.after_each(bytes)
        }
    }

    // The same, one after another.
    fn after_each(self, bytes: &[u8]) -> Ink
        ensures { result ≡ ink_after self bytes.now }
    {
        let mut ink = self;
        for byte in bytes {
            ink = ink.after(*byte as char);
        }
        ink
    }

    /// At the beginning of a link that leaves so much room.
    pub fn begun(room: u128) -> Ink
        ensures { result ≡ record { last = None; leads = true; room = room } }
    {
        Ink {
            last: None,
            leads: true,
            room,
        }
    }

    /// After the end of a link.
    pub fn ended(self) -> Ink
        ensures { result ≡ record self { last = None; leads = false } }
    {
        Ink {
            last: None,
            leads: false,
            room: self.room,
        }
    }

    /// After a line feed or a rendition, to which no character belongs.
    pub fn broken(self) -> Ink
        ensures { result ≡ record self { last = None } }
    {
        Ink {
            last: None,
            leads: self.leads,
            room: self.room,
        }
    }
}

const FIRST_ROOM: u128 = 0x10_0000;

const MOST_ROOM: u128 = 0x100_0000_0000;

const MORE_ROOM: u128 = 0x40;
