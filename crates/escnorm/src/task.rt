//! The task that the program is asked to do.
ghost use Rattle.std.specs.Prelude.{◌≡◌, map, string_bytes};
ghost use Rattle.escnorm.specs.Tasks.{limit_of, task_of};

use esc_values::scalar::read_usize;

/// The task that the program is asked to do, if at most so many bytes are kept of a segment; `None`
/// is no limit.
#[derive(Clone, Copy)]
pub enum Task {
    /// It writes the input in normal form.
    Normalise(Option<usize>),
    /// It says whether the input is in normal form.
    Check(Option<usize>),
}

impl Task {
    /// Returns the task that these words, the program's arguments, name: no word the first,
    /// `--check` the second, and either with `--limit` and a number after it. Any others name none.
    pub fn of(words: &[String]) -> Option<Task>
        ensures { result ≡ task_of (map string_bytes words.now) }
    {
        let Some((first, rest)) = words.split_first() else {
            return Some(Task::Normalise(None));
        };
        if first.as_str() == "--check" {
            if rest.is_empty() {
                return Some(Task::Check(None));
            }
            return Some(Task::Check(Some(limit_in(rest)?)));
        }
        Some(Task::Normalise(Some(limit_in(words)?)))
    }
}

// Returns the number after `--limit`, if these two words are all.
fn limit_in(words: &[String]) -> Option<usize>
    ensures { result ≡ limit_of (map string_bytes words.now) }
{
    match words {
        [option, number] if option.as_str() == "--limit" => read_usize(number.as_bytes()),
        _ => None,
    }
}
