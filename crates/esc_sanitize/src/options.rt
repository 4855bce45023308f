//! How a stream is filtered.
ghost use Rattle.std.specs.Prelude.{◌≡◌};
ghost use Rattle.esc_sanitize.specs.Defaults.{defaults, guard_of, is_for_reading, with_policy};

use caret_notation::Marking;
use esc_decode::Encoding;
use esc_filter::{Guard, Policy, Returns, Unicode};
use line_collapse::Window;

const DEFAULT_LIMIT: usize = 1_048_576;

/// How a stream is filtered: the options of the program `escfilter` for that.
#[derive(Clone, Copy)]
pub struct FilterOptions<P> {
    /// The values that pass: a [`Policy`], [`Groups`](esc_filter::Groups), or an
    /// [`Admit`](esc_filter::Admit) of one's own.
    pub policy: P,
    /// How many bytes are kept of an unfinished sequence or string.
    pub limit: usize,
    /// Whether each line is a stream of its own, so that no string takes away the lines after it.
    pub by_lines: bool,
    /// Whether, by lines, a rendition that goes on over a line feed is written again at the
    /// beginning of the next line, so that a line looks as it does in the stream, and also by
    /// itself; else each line begins plain.
    pub resumes: bool,
    /// The text in place of characters and carriage returns that hide or reorder text.
    pub guard: Guard,
    /// The encoding of the bytes. In `Encoding::Utf8` bytes 80 to 9F that are no part of a
    /// character are replaced, and in `Encoding::EightBit` they are controls of C1. If bytes that
    /// do not pass are shown, the program reads a stream of UTF-8 in the latter, so that it
    /// replaces none.
    pub encoding: Encoding,
    /// How bytes that do not pass are shown in their place; with none, they are left out.
    pub show: Option<Marking>,
    /// The screen that the text is collapsed on, as for progress bars: only the rows that it leaves
    /// are written. Without one all of the text is written. With one, the program takes the stream
    /// whole, its guard keeps carriage returns, and its policy admits also the groups
    /// [`Controls`](esc_filter::Group::Controls), [`Cursor`](esc_filter::Group::Cursor),
    /// [`Erase`](esc_filter::Group::Erase), [`Scroll`](esc_filter::Group::Scroll),
    /// [`Modes`](esc_filter::Group::Modes) and [`Charsets`](esc_filter::Group::Charsets), which the
    /// screen obeys. If it counts and an account is kept, text that passed and stands in no row
    /// counts as overwritten.
    pub window: Option<Window>,
    /// Whether an account of the fate of each byte is kept. It costs time and memory.
    pub audits: bool,
}

impl FilterOptions<Policy> {
    /// As the program has it with `--allow` this policy and no other option, and with an account.
    pub fn new(policy: Policy) -> FilterOptions<Policy>
        ensures { result ≡ defaults policy }
    {
        FilterOptions {
            policy,
            limit: DEFAULT_LIMIT,
            by_lines: is_for_reading(policy),
            resumes: true,
            guard: guard_of(policy),
            encoding: Encoding::Utf8,
            show: None,
            window: None,
            audits: true,
        }
    }
}

impl<P> FilterOptions<P> {
    /// The same, with this policy.
    pub fn with_policy<Q>(self, policy: Q) -> FilterOptions<Q>
    where
        P: Drop,
        ensures { result ≡ with_policy policy self }
    {
        FilterOptions {
            policy,
            limit: self.limit,
            by_lines: self.by_lines,
            resumes: self.resumes,
            guard: self.guard,
            encoding: self.encoding,
            show: self.show,
            window: self.window,
            audits: self.audits,
        }
    }
}

// Whether a policy passes text and its colours alone: it is for logs, and for people who read them.
fn is_for_reading(policy: Policy) -> bool
    ensures { result ≡ is_for_reading policy }
{
    match policy {
        Policy::Text | Policy::Color => true,
        Policy::Screen | Policy::All => false,
    }
}

// Returns the guard by which characters are written that hide or reorder text.
fn guard_of(policy: Policy) -> Guard
    ensures { result ≡ guard_of policy }
{
    if is_for_reading(policy) {
        Guard {
            characters: Unicode::Join,
            returns: Returns::Show,
        }
    } else {
        Guard {
            characters: Unicode::Keep,
            returns: Returns::Keep,
        }
    }
}
