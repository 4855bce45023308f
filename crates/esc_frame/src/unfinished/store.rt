//! This module says where a machine keeps the text of an unfinished string.
#![tactic(auto)]

ghost use Rattle.std.specs.Prelude.{◌≡◌, ◌++◌, ℕ, List, [], Option, OnOk, OnErr, true, false, not, length};
ghost use Rattle.esc_frame.specs.Limits.{is_within};
ghost use Rattle.esc_frame.specs.Segments.{is_empty};

use std::alloc::AllocError;

/// Keeps the text of an unfinished string, as far as a limit allows. A store says by `keeps` what
/// it keeps, and by `may_fail` why it may fail.
pub trait TextRoom: Drop {
    // says that this text is kept, each byte of which counts; or nothing, if it is past the limit
    ghost keeps: { Option ℕ → Self → List ℕ → Type 0 };

    // says why it may fail under this limit: a request for memory was refused to it
    ghost may_fail: { Option ℕ → Type 0 };

    /// Begins anew.
    fn clear(&mut self)
        ensures { (limit : Option ℕ) → keeps limit self.new [] };

    /// Returns whether no byte that counts has come.
    fn is_new(&self) -> bool
        ensures { (limit : Option ℕ) (t : List ℕ) → keeps limit self.now t → result ≡ is_empty t };

    /// Returns whether there were more bytes than the limit.
    fn is_over(&self) -> bool
        ensures { (limit : Option ℕ) (t : List ℕ) → keeps limit self.now t
            → result ≡ not (is_within limit (length t)) };

    /// Returns the text; no byte of it if it is past the limit.
    fn bytes(&self) -> &[u8]
        ensures kept { (limit : Option ℕ) (t : List ℕ) → keeps limit self.now t
            → is_within limit (length t) ≡ true → result.now ≡ t }
        ensures none { (limit : Option ℕ) (t : List ℕ) → keeps limit self.now t
            → is_within limit (length t) ≡ false → result.now ≡ [] };

    /// Adds to the text. Each byte counts.
    fn push(&mut self, limit: Option<usize>, text: &[u8]) -> Result<(), AllocError>
        ensures ok { (t : List ℕ) → keeps limit self.old t
            → OnOk result (keeps limit self.new (t ++ text.now)) }
        ensures refused { OnErr result (may_fail limit) };
}
