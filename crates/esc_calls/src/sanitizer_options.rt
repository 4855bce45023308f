//! This module says how a stream is sanitized, as numbers.
ghost use Rattle.std.specs.Prelude.{◌≡◌, IfErr, IfOk};
ghost use Rattle.esc_calls.specs.SanitizerOptions.{IsFault, IsSaid, Says, resumes_numbered};

use crate::fault::Fault;
use crate::filter::policy_of;
use crate::said::{encoding_of, framing_of, marking_of, usual_guard};
use crate::said_groups::groups_said;
use crate::said_guard::guard_said;
use crate::said_order::order_of;
use crate::said_window::window_said;
use crate::settings::Settings;
use esc_filter::{Groups, Policy};
use esc_sanitize::FilterOptions;

/// The size of [`SanitizerOptions`] in bytes.
pub const OPTIONS_SIZE: u32 = 64;

/// Says how many rows may be written again at most.
pub const MOST_ROWS: u32 = 4096;

/// Says how many columns these rows have at most.
pub const MOST_COLUMNS: u32 = 16_384;

/// The options by which a stream is sanitized: those of the program `escfilter`, as numbers. If a
/// field but the first three is 0, it is as the program has it without the option.
#[repr(C)]
#[derive(Clone, Copy)]
pub struct SanitizerOptions {
    /// Its size in bytes, [`OPTIONS_SIZE`]. A later version that adds fields takes this size too.
    pub size: u32,
    /// The number of a policy, which says which actions pass.
    pub policy: u32,
    /// Says how many bytes are kept of an unfinished sequence or string.
    pub limit: u64,
    /// The groups that pass besides, a bit each.
    pub allowed: u32,
    /// The groups of these that do not pass, a bit each.
    pub denied: u32,
    /// The schemes of the links that pass: http 1, https 2, mailto 4, or sums of these.
    pub links: u32,
    /// Says whether each line is a stream of its own, 1, or the whole is, 2; or each line, which
    /// begins plain, 3: else a rendition that goes on over a line feed is written again at the
    /// beginning of the next line.
    pub framing: u32,
    /// The way in which characters that hide or reorder text are written: keep 1, join 2, show 3,
    /// drop 4.
    pub characters: u32,
    /// The way in which carriage returns within a line are written: keep 1, show 2, drop 3.
    pub returns: u32,
    /// Says how bytes are read.
    pub encoding: u32,
    /// The way in which actions that do not pass are shown: plain 1, escaped 2, reversed 3.
    pub show: u32,
    /// Says how many rows may be written again.
    pub rows: u32,
    /// Says how many columns these rows have.
    pub columns: u32,
    /// Says whether an account is kept.
    pub account: u32,
    /// Always 0. It fills the end of the struct, so that its size tells each version apart.
    pub reserved: u32,
}

impl SanitizerOptions {
    /// Returns the options that the numbers mean, or the number that means nothing.
    pub(crate) fn read(&self) -> Result<Settings, Fault>
        ensures said { IfOk result (IsSaid self.now) }
        ensures fault { IfErr result (IsFault self.now) }
    {
        if self.size != OPTIONS_SIZE || self.reserved != 0 {
            return Err(Fault::Size);
        }
        let Some(policy) = policy_of(self.policy) else {
            return Err(Fault::Policy);
        };
        match self.read_by(policy) {
            Ok(filter) => Ok(Settings {
                filter,
                order: order_of(self.encoding),
            }),
            Err(fault) => Err(fault),
        }
    }

    // Returns the options of the filter, if this is the policy.
    fn read_by(&self, policy: Policy) -> Result<FilterOptions<Groups<'static>>, Fault>
        ensures said { IfOk result (Says self.now policy) }
        ensures fault { IfErr result (IsFault self.now) }
    {
        let groups = match groups_said(self, policy) {
            Ok(groups) => groups,
            Err(fault) => return Err(fault),
        };
        let usual = FilterOptions::new(policy);
        let Some(by_lines) = framing_of(self.framing, usual.by_lines && self.rows == 0) else {
            return Err(Fault::Framing);
        };
        let guard = match guard_said(self, usual_guard(policy, self.rows), by_lines) {
            Ok(guard) => guard,
            Err(fault) => return Err(fault),
        };
        let Some(show) = marking_of(self.show) else {
            return Err(Fault::Show);
        };
        let Some(encoding) = encoding_of(self.encoding, show.is_some()) else {
            return Err(Fault::Encoding);
        };
        let window = match window_said(self, guard.characters) {
            Ok(window) => window,
            Err(fault) => return Err(fault),
        };
        Ok(FilterOptions {
            policy: groups,
            limit: self.limit as usize,
            by_lines,
            resumes: resumes_of(self.framing),
            guard,
            encoding,
            show,
            window,
            audits: self.account != 0,
        })
    }
}

// Returns whether renditions go on over line feeds.
fn resumes_of(framing: u32) -> bool
    ensures { result ≡ resumes_numbered framing }
{
    framing != 3
}
