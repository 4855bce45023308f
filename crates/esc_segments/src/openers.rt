//! The openers of sequences and strings.
#![tactic(auto)]

ghost use Rattle.std.specs.Prelude.{◌≡◌, ◌<◌, ◌≤◌, ◌+◌, ◌++◌, ◌∷◌, List, ℕ, false, length, true};
ghost use Rattle.esc_frame.specs.Classes.{AllOf, class_of, in_escape, is_noise};
ghost use Rattle.esc_frame.specs.Segments.{IsOpener, Opener, opener};
ghost use Rattle.esc_frame.specs.declared.classes.Kind.{Kind};
ghost use Rattle.esc_frame.specs.declared.classes.Kind.TheVariants as kind;

use crate::runs::noise_run;

// Returns the length of the opener that the bytes begin with.
fn opener_len(bytes: &[u8]) -> usize
    ensures len { (k : Kind) (o : Opener) (body : List ℕ) → IsOpener o
        → bytes.now ≡ opener k o ++ body → result ≡ length (opener k o) }
    ensures few { result ≤ length bytes.now }
{
    if bytes.is_empty() {
        return 0;
    }
    match bytes[0] {
        0x1b => escape_opener_len(bytes),
        0xc2 => bytes.len().min(2),
        _ => 1,
    }
}

// Does the same for an opener that ESC begins: up to the letter after noise.
fn escape_opener_len(bytes: &[u8]) -> usize
    requires { 0 < length bytes.now }
    ensures len { (n body : List ℕ) (letter : ℕ) → AllOf is_noise n
        → is_noise (class_of letter) ≡ false → bytes.now ≡ (0x1b ∷ n) ++ letter ∷ body
        → result ≡ length n + 2 }
    ensures few { result ≤ length bytes.now }
{
    let noise = noise_run(&bytes[1..]);
    if noise + 1 < bytes.len() {
        noise + 2
    } else {
        bytes.len()
    }
}

/// Splits the opener off that the bytes begin with.
pub fn split_opener(bytes: &[u8]) -> (&[u8], &[u8])
    ensures { (k : Kind) (o : Opener) (body : List ℕ) → IsOpener o → bytes.now ≡ opener k o ++ body
        → (result.0.now ≡ opener k o) × (result.1.now ≡ body) }
{
    bytes.split_at(opener_len(bytes))
}

/// Returns whether the bytes begin with the opener of a device control string: `ESC P`, 90 or C2
/// 90.
pub fn opens_dcs(bytes: &[u8]) -> bool
    ensures dcs { (o : Opener) (body : List ℕ) → IsOpener o → bytes.now ≡ opener kind.Dcs o ++ body
        → result ≡ true }
    ensures csi { (o : Opener) (body : List ℕ) → IsOpener o → bytes.now ≡ opener kind.Csi o ++ body
        → result ≡ false }
    ensures escape { (x : List ℕ) → AllOf in_escape x → bytes.now ≡ 0x1b ∷ x → result ≡ false }
{
    let len = opener_len(bytes);
    if len == 0 {
        return false;
    }
    bytes[len - 1] == b'P' || bytes[len - 1] == 0x90
}
