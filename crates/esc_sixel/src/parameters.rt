//! The parameters of a command.
ghost use Rattle.std.specs.Prelude.{◌≡◌, ◌<◌, ◌≤◌, ◌∷◌, [], ◌++◌, ◌+◌, ◌*◌, ℕ, List, length, nat_le, take, true};
ghost use Rattle.std.specs.List.{All};
ghost use Rattle.esc_sixel.specs.Classes.{IsDigit};
ghost use Rattle.esc_sixel.specs.Lines.{fresh};
ghost use Rattle.esc_sixel.specs.Runs.{Keeps, more_digits, param, separators};
ghost use Rattle.esc_values.specs.Params.{capped_at_i64};

// The first five parameters of a run of digits and `;`. Takes no memory.
#[derive(Clone, Copy)]
pub(crate) struct Parameters {
    // The numbers, at most `i64::MAX`; none if no digit has come.
    pub(crate) values: [Option<u64>; 5],
    // Says how many `;` have come, at most five.
    pub(crate) count: usize,
}

impl Parameters {
    // Returns the parameters of the empty run.
    pub(crate) fn new() -> Parameters
        ensures { Keeps result [] }
    {
        Parameters {
            values: [None; 5],
            count: 0,
        }
    }

    // Returns whether nothing has come.
    #[inline(always)]
    pub(crate) fn is_new(&self) -> bool
        ensures { result ≡ true → self.now ≡ fresh }
    {
        self.count == 0
            && self.values[0].is_none()
            && self.values[1].is_none()
            && self.values[2].is_none()
            && self.values[3].is_none()
            && self.values[4].is_none()
    }

    // Takes one more `;`.
    pub(crate) fn separator(&mut self)
        ensures { (run : List ℕ) → Keeps self.old run → Keeps self.new (run ++ 0x3b ∷ []) }
    {
        if self.count < 5 {
            self.count += 1;
        }
    }

    // Takes one more digit, given as its value.
    #[inline]
    pub(crate) fn digit(&mut self, digit: u8)
        requires { digit < 10 }
        ensures { (run : List ℕ) → Keeps self.old run
            → Keeps self.new (run ++ (digit + 0x30) ∷ []) }
    {
        if self.count < 5 {
            let number = with_digit(self.values[self.count].unwrap_or(0), digit);
            self.values[self.count] = Some(number);
        }
    }

    // Takes the longest prefix of digits of these bytes, with the effect of a `digit` of each;
    // returns how many. It takes none past the fifth parameter.
    #[inline(always)]
    pub(crate) fn digits(&mut self, rest: &[u8]) -> usize
        ensures few { result ≤ length rest.now }
        ensures digits { All IsDigit (take result rest.now) }
        ensures taken { self.new ≡ more_digits self.old (take result rest.now) }
        ensures room { 0 < result → self.old.count < 5 }
    {
        if self.count >= 5 || rest.is_empty() || rest[0] < b'0' || rest[0] > b'9' {
            return 0;
        }
        let mut number = self.values[self.count].unwrap_or(0);
        let mut end = 0;
        while end < rest.len() && b'0' <= rest[end] && rest[end] <= b'9' {
            number = with_digit(number, rest[end] - b'0');
            end += 1;
        }
        if end > 0 {
            self.values[self.count] = Some(number);
        }
        end
    }

    // Parameter `k`, the first being 0; none if it is missing or empty.
    pub(crate) fn get(&self, k: usize) -> Option<u64>
        requires { k < 5 }
        ensures { (run : List ℕ) → Keeps self.now run → result ≡ param run k }
    {
        self.values[k]
    }

    // Returns whether there are `n` or more `;`.
    pub(crate) fn has_separators(&self, n: usize) -> bool
        requires { n ≤ 5 }
        ensures { (run : List ℕ) → Keeps self.now run → result ≡ nat_le n (separators run) }
    {
        n <= self.count
    }
}

// Ten times a number and a digit, at most `i64::MAX`.
#[inline(always)]
fn with_digit(number: u64, digit: u8) -> u64
    requires { digit < 10 }
    ensures { result ≡ capped_at_i64 (10 * number + digit) }
{
    // Below a tenth of the bound, no sum can pass it.
    if number < 0x7fff_ffff_ffff_ffff / 10 {
        return number * 10 + u64::from(digit);
    }
    number
        .saturating_mul(10)
        .saturating_add(u64::from(digit))
        .min(0x7fff_ffff_ffff_ffff)
}
