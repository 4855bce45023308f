//! The marks on a character.
ghost use Rattle.std.specs.Prelude.{◌≡◌};
ghost use Rattle.esc_screen.specs.Cells.{more_marks, no_marks};

/// The marks on a character: the characters that take no column and came after it, as accents do.
#[derive(Clone, Copy)]
pub struct Marks {
    /// The first.
    pub first: Option<char>,
    /// The second.
    pub second: Option<char>,
    /// Whether there were others, which are left out.
    pub others: bool,
}

impl Marks {
    /// None.
    #[inline]
    pub fn none() -> Marks
        ensures { result ≡ no_marks }
    {
        Marks {
            first: None,
            second: None,
            others: false,
        }
    }

    /// With one more, which is left out if there are two.
    pub fn with(self, mark: char) -> Marks
        ensures { result ≡ more_marks mark self }
    {
        let Marks {
            first,
            second,
            others,
        } = self;
        match first {
            None => Marks {
                first: Some(mark),
                second,
                others,
            },
            Some(_) => match second {
                None => Marks {
                    first,
                    second: Some(mark),
                    others,
                },
                Some(_) => Marks {
                    first,
                    second,
                    others: true,
                },
            },
        }
    }
}
