//! This module says how often a filter asks its policy.
use crate::reading::Reading;
use esc_filter::{Admit, filter_stream};
use escape_stream::{Action, Esc, Watched};
use std::alloc::Global;
use std::cell::Cell;

// Says how many actions are done with, how many of them the policy was asked of, and whether one
// came that was not due.
#[derive(Clone, Copy)]
struct Progress {
    done: usize,
    asked: usize,
    differs: bool,
}

impl Progress {
    // Returns the progress after one more action: whether it may come, the policy was asked of it,
    // and it is done with.
    fn after(self, may_come: bool, is_asked: bool, is_done: bool) -> Progress {
        Progress {
            done: self.done.saturating_add(usize::from(is_done)),
            asked: self.asked.saturating_add(usize::from(is_asked)),
            differs: self.differs | !may_come,
        }
    }
}

// Admits all or nothing, and expects each of the actions once, in order.
#[derive(Drop)]
struct Expecting<'a> {
    admits_all: bool,
    actions: &'a [Action],
    progress: &'a Cell<Progress>,
}

impl Expecting<'_> {
    // Notes an action that came: whether it is the one that is due, whether it was asked of, and
    // whether it is done with. If none is due, it has to be about the cursor.
    fn note(&self, action: &Action, is_asked: bool, is_done: bool) {
        let progress = self.progress.get();
        let next = match is_item(self.actions, progress.done, action) {
            Some(is_due) => progress.after(is_due, is_asked, is_done),
            None => progress.after(is_of_the_cursor(action), false, false),
        };
        self.progress.set(next);
    }
}

// Returns whether an item is the one with this number, if there is one.
fn is_item<T: PartialEq>(items: &[T], number: usize, item: &T) -> Option<bool> {
    match items.get(number) {
        Some(due) => Some(*due == *item),
        None => None,
    }
}

// Returns whether it saves or restores the cursor, so that a policy may be asked about it at the
// end.
fn is_of_the_cursor(action: &Action) -> bool {
    matches!(
        action,
        Action::Esc(Esc::Unspecified {
            intermediate: None,
            control: b'7' | b'8',
        })
    )
}

impl Admit<Global> for Expecting<'_> {
    ghost admits = { λ e _. e.admits_all };

    fn admits(&self, action: &Action) -> bool {
        self.note(action, true, self.admits_all);
        self.admits_all
    }

    fn leaves_out(&self, action: &Action) {
        self.note(action, false, true);
    }
}

/// Returns whether a policy that admits all is asked of each action that can be written by itself,
/// and shown each other one; a policy that admits none is asked of the same, and shown each: once,
/// in order. At the end it may be asked whether the cursor may be saved and restored.
pub fn is_asked_once(alloc: Global, stream: &[u8], limit: usize) -> bool {
    match Reading::Whole.read(alloc, stream) {
        Ok(actions) => are_asked_once(alloc, stream, limit, &actions),
        Err(_) => false,
    }
}

// Returns whether a policy is asked once of each of these actions of the stream.
fn are_asked_once(alloc: Global, stream: &[u8], limit: usize, actions: &[Action]) -> bool {
    let all = asked_of(alloc, stream, limit, actions, true);
    let none = asked_of(alloc, stream, limit, actions, false);
    let is_done = (all.done == actions.len()) & (none.done == actions.len());
    is_done & (all.asked == none.asked) & !all.differs & !none.differs
}

// Returns the actions about which a policy that admits all or nothing is asked.
fn asked_of(
    alloc: Global,
    stream: &[u8],
    limit: usize,
    actions: &[Action],
    admits_all: bool,
) -> Progress {
    let progress = Cell::new(Progress {
        done: 0,
        asked: 0,
        differs: false,
    });
    let policy = Expecting {
        admits_all,
        actions,
        progress: &progress,
    };
    let mut reader = Watched::new(stream);
    let mut writer = Watched::new(Vec::new(alloc));
    let ending = filter_stream(alloc, &mut reader, &mut writer, limit, policy);
    progress.get().after(ending.is_ok(), false, false)
}
