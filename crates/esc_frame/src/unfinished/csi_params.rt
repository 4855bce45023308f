//! This module reads the parameters of a control sequence, byte by byte.
#![tactic(auto)]

ghost use Rattle.std.specs.Prelude.{◌≡◌, ◌++◌, ◌<◌, ◌≤◌, ◌-◌, ◌+◌, ◌*◌, ℕ, List, [], ◌∷◌, take, length, Option, true, false};
ghost use Rattle.std.specs.List.{list_all};
ghost use Rattle.esc_frame.specs.Bodies.{capped_at_i64, is_digit, kept_csi_params, has_more_csi_params};
ghost use Rattle.esc_frame.specs.Scans.{StartsWithDigit};

use crate::unfinished::param_list::ParamList;
use esc_values::csi_param::CsiParam;

const MAX_ENTRIES: usize = 256;

const MAX_NUMBER: u64 = 0x7fff_ffff_ffff_ffff;

// Ten times a number below this, and a digit more, is below the greatest.
const FAR_BELOW: u64 = 0x0ccc_cccc_cccc_cc00;

/// The value keeps the first 256 parameters of a body, which take no memory. It keeps a run of
/// digits at the end as a number, since the next byte may be one more of them.
#[derive(Drop)]
pub struct Params {
    pub items: ParamList,
    // is the most that are kept
    pub limit: usize,
    // says whether more came
    pub is_truncated: bool,
    // say whether the bytes end in a run of digits, and its number, held at the greatest `i64`
    pub is_open: bool,
    pub number: u64,
    ghost small: { number ≤ 0x7fff_ffff_ffff_ffff },
    ghost few: { limit ≤ 256 },
}

/// Returns ten times n and d, held at the greatest `i64`.
#[inline(always)]
pub fn next_number(n: u64, d: u8) -> u64
    requires { n ≤ 0x7fff_ffff_ffff_ffff }
    ensures value { result ≡ capped_at_i64 (10 * n + d) }
    ensures small { result ≤ 0x7fff_ffff_ffff_ffff }
{
    if n < FAR_BELOW {
        n * 10 + d as u64
    } else if n > (MAX_NUMBER - d as u64) / 10 {
        MAX_NUMBER
    } else {
        n * 10 + d as u64
    }
}

impl Params {
    ghost use Rattle.esc_frame.specs.Machine.Keeps.{KeepsEntries, IsNumber, number_at, AreFirst, params_with, next_number_of};

    /// Returns an empty list of parameters.
    #[inline(always)]
    pub fn new() -> Self
        ensures { KeepsEntries result [] }
    {
        Params {
            items: ParamList::new(),
            limit: MAX_ENTRIES,
            is_truncated: false,
            is_open: false,
            number: 0,
        }
    }

    /// Begins a body anew.
    pub fn clear(&mut self)
        ensures { KeepsEntries self.new [] }
    {
        self.items.clear();
        self.limit = MAX_ENTRIES;
        self.is_truncated = false;
        self.is_open = false;
    }

    /// Takes the next byte of the body.
    #[inline(always)]
    pub fn push(&mut self, b: u8)
        ensures { (x : List ℕ) → KeepsEntries self.old x → KeepsEntries self.new (x ++ b ∷ []) }
    {
        if b < b'0' {
            self.push_other(b)
        } else if b <= b'9' {
            self.push_digit(b)
        } else {
            self.push_other(b)
        }
    }

    /// Takes the run of digits that comes first, at least one, and returns its length.
    #[inline(always)]
    pub fn push_digits(&mut self, bytes: &[u8]) -> usize
        requires digit { StartsWithDigit bytes.now }
        ensures count { (0 < result) × (result ≤ length bytes.now) }
        ensures digits { list_all is_digit (take result bytes.now) ≡ true }
        ensures keeps { (x : List ℕ) → KeepsEntries self.old x
            → KeepsEntries self.new (x ++ take result bytes.now) }
    {
        let mut number = next_number(self.number_so_far(), bytes[0] - b'0');
        let mut end = 1;
        while end < bytes.len() && b'0' <= bytes[end] && bytes[end] <= b'9' {
            number = next_number(number, bytes[end] - b'0');
            end += 1;
        }
        self.is_open = true;
        self.number = number;
        end
    }

    // Returns the number of the run of digits at the end, or 0.
    #[inline(always)]
    fn number_so_far(&self) -> u64
        ensures value { (o : Option ℕ) → IsNumber self.now o → result
            ≡ capped_at_i64 (number_at o) }
        ensures small { result ≤ 0x7fff_ffff_ffff_ffff }
    {
        if self.is_open { self.number } else { 0 }
    }

    #[tactic(auto, using(crate::proofs::Steps::ParamsGrow::held_next))]
    fn push_digit(&mut self, b: u8)
        requires low { 0x30 ≤ b }
        requires high { b ≤ 0x39 }
        ensures number { (o : Option ℕ) → IsNumber self.old o
            → IsNumber self.new (next_number_of o b) }
        ensures others { (self.new.items ≡ self.old.items)
            × (self.new.is_truncated ≡ self.old.is_truncated)
            × (self.new.limit ≡ self.old.limit) }
    {
        if self.is_open {
            self.number = next_number(self.number, b - b'0');
        } else {
            self.is_open = true;
            self.number = (b - b'0') as u64;
        }
    }

    #[inline(always)]
    fn push_other(&mut self, b: u8)
        ensures number { self.new.is_open ≡ false }
        ensures limit { self.new.limit ≡ self.old.limit }
        ensures first { (o : Option ℕ) (all : List CsiParam) → IsNumber self.old o
            → AreFirst self.old.items self.old.is_truncated self.old.limit all
            → AreFirst self.new.items self.new.is_truncated self.new.limit
            ((all ++ params_with o) ++ CsiParam.P b ∷ []) }
    {
        self.close();
        self.add(CsiParam::P(b));
    }

    // Ends the run of digits at the end, if there is one: then the parameters are all.
    #[inline(always)]
    fn close(&mut self)
        ensures number { self.new.is_open ≡ false }
        ensures limit { self.new.limit ≡ self.old.limit }
        ensures first { (o : Option ℕ) (all : List CsiParam) → IsNumber self.old o
            → AreFirst self.old.items self.old.is_truncated self.old.limit all
            → AreFirst self.new.items self.new.is_truncated self.new.limit (all ++ params_with o) }
    {
        if self.is_open {
            self.is_open = false;
            self.add(CsiParam::Integer(self.number.min(MAX_NUMBER) as i64));
        }
    }

    /// Ends the body: then the parameters are those of all its bytes.
    pub fn finish(&mut self)
        ensures items { (x : List ℕ) → KeepsEntries self.old x
            → self.new.items ≡ kept_csi_params x }
        ensures truncated { (x : List ℕ) → KeepsEntries self.old x
            → self.new.is_truncated ≡ has_more_csi_params x }
    {
        self.close();
    }

    #[tactic(auto, using(crate::proofs::Steps::ParamsGrow::first_fits, crate::proofs::Steps::ParamsGrow::first_full, crate::proofs::Steps::ParamsGrow::first_past))]
    #[inline(always)]
    fn add(&mut self, entry: CsiParam)
        ensures number { self.new.is_open ≡ self.old.is_open }
        ensures limit { self.new.limit ≡ self.old.limit }
        ensures first { (all : List CsiParam)
            → AreFirst self.old.items self.old.is_truncated self.old.limit all
            → AreFirst self.new.items self.new.is_truncated self.new.limit (all ++ entry ∷ []) }
    {
        if self.is_truncated {
            return;
        }
        if self.items.len() < self.limit {
            self.items.push(entry);
        } else {
            self.is_truncated = true;
        }
    }
}
