//! This module reads the progress of a task.
ghost use Rattle.std.specs.Prelude.{◌≡◌, map};
ghost use Rattle.esc_osc_values.specs.Progresses.{percent_of, progress_of, state_of};

use crate::progress::Progress;
use esc_values::scalar::read_u8;

/// Returns the progress of the parts after the code, if they begin with `4` and a state.
pub fn read_progress(args: &[&[u8]]) -> Option<Progress>
    ensures { result ≡ progress_of (map (λ p. p.now) args.now) }
{
    let Some((first, rest)) = args.split_first() else {
        return None;
    };
    let Some((state, more)) = rest.split_first() else {
        return None;
    };
    if *first == b"4".as_slice() {
        read_state(state, more)
    } else {
        None
    }
}

// Returns the progress of a state and the parts after it.
fn read_state(state: &[u8], more: &[&[u8]]) -> Option<Progress>
    ensures { result ≡ state_of state.now (map (λ p. p.now) more.now) }
{
    if state == b"0".as_slice() {
        Some(Progress::None)
    } else if state == b"1".as_slice() {
        Some(Progress::SetPercentage(read_percent(more)))
    } else if state == b"2".as_slice() {
        Some(Progress::SetError(read_percent(more)))
    } else if state == b"3".as_slice() {
        Some(Progress::SetIndeterminate)
    } else if state == b"4".as_slice() {
        Some(Progress::Paused)
    } else {
        None
    }
}

// Returns the first part as a percentage: 0 if there is none, 100 if it is more.
fn read_percent(parts: &[&[u8]]) -> u8
    ensures { result ≡ percent_of (map (λ p. p.now) parts.now) }
{
    let Some((first, _)) = parts.split_first() else {
        return 0;
    };
    let Some(percent) = read_u8(first) else {
        return 0;
    };
    if percent <= 100 { percent } else { 100 }
}
