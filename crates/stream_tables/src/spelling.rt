//! A sink that spells actions, and is refused memory.
use crate::reading::Reading;
use crate::stream::Stream;
use crate::texts::shown;
use escape_stream::{Action, ParseError, Sink, TextSink};
use failing_alloc::Refusing;
use std::alloc::{AllocError, Allocator, Global};

/// Returns the text that the sink spells for the stream's actions, or the Debug text of the error.
/// After a refused action it has the text that it had, and a prefix of the text that the action
/// adds.
pub fn spelled<B: Allocator + Copy>(
    alloc: Global,
    heap: &Refusing<B>,
    at: u64,
    stream: &Stream,
) -> Result<String, AllocError> {
    heap.refuse_at(0);
    let actions = Reading::Whole.read(heap, stream.bytes);
    heap.refuse_at(at);
    let mut spelling = Spelling::new(heap);
    spelling.take_all(actions);
    spelling.text(alloc, stream)
}

// A sink, how long its text was before the action that it refused, and whether there was one.
#[derive(Drop)]
struct Spelling<A: Allocator> {
    spell: TextSink<A>,
    before: usize,
    is_refused: bool,
}

impl<A: Allocator> Spelling<A> {
    fn new(alloc: A) -> Spelling<A> {
        Spelling {
            spell: TextSink::new(alloc),
            before: 0,
            is_refused: false,
        }
    }

    // Gives it each action, until it refuses one.
    fn take_all(&mut self, actions: Result<Vec<Action<A>, A>, ParseError>) {
        match actions {
            Ok(actions) => {
                for action in actions {
                    self.take(action);
                }
            }
            Err(_) => self.is_refused = true,
        }
    }

    fn take(&mut self, action: Action<A>) {
        if self.is_refused {
            return drop(action);
        }
        self.before = self.spell.text.len();
        self.is_refused = self.spell.receive(action).is_err();
    }

    // Returns its text, or the Debug text of the error.
    fn text(&self, alloc: Global, stream: &Stream) -> Result<String, AllocError> {
        let text = self.spell.text.as_str();
        if !self.is_refused {
            return String::from_str(alloc, text);
        }
        if self.before <= text.len() && stream.text.starts_with(text) {
            return String::from_str(alloc, "Err(Memory)");
        }
        shown(alloc, text)
    }
}
