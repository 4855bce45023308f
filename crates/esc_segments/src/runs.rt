//! This module says how far a run of bytes goes.
#![tactic(auto)]

ghost use Rattle.std.specs.Prelude.{◌≡◌, ◌≤◌, length};
ghost use Rattle.std.specs.List.{prefix_len};
ghost use Rattle.esc_frame.specs.Classes.{class_of, is_noise, in_escape, in_csi, in_osc, in_data};

use crate::bytes::{is_breaker, is_in_escape, is_in_header, is_in_text, is_noise};

/// Returns the length of the longest prefix of noise.
#[tactic(auto, using(crate::proofs::Prefixes::runs))]
pub fn noise_run(bytes: &[u8]) -> usize
    ensures run { result ≡ prefix_len (λ b. is_noise (class_of b)) bytes.now }
    ensures few { result ≤ length bytes.now }
{
    let mut end = 0;
    while end < bytes.len() && is_noise(bytes[end]) {
        end += 1;
    }
    end
}

/// Returns the length of the longest prefix of noise and intermediates of an escape sequence.
#[tactic(auto, using(crate::proofs::Prefixes::runs))]
pub fn escape_run(bytes: &[u8]) -> usize
    ensures run { result ≡ prefix_len (λ b. in_escape (class_of b)) bytes.now }
    ensures few { result ≤ length bytes.now }
{
    let mut end = 0;
    while end < bytes.len() && is_in_escape(bytes[end]) {
        end += 1;
    }
    end
}

/// Returns the length of the longest prefix of noise, parameters and intermediates.
#[tactic(auto, using(crate::proofs::Prefixes::runs))]
pub fn header_run(bytes: &[u8]) -> usize
    ensures run { result ≡ prefix_len (λ b. in_csi (class_of b)) bytes.now }
    ensures few { result ≤ length bytes.now }
{
    let mut end = 0;
    while end < bytes.len() && is_in_header(bytes[end]) {
        end += 1;
    }
    end
}

/// Returns the length of the longest prefix of units of one byte of an OSC's text.
#[tactic(auto, using(crate::proofs::Prefixes::runs))]
pub fn text_run(bytes: &[u8]) -> usize
    ensures run { result ≡ prefix_len (λ b. in_osc (class_of b)) bytes.now }
    ensures few { result ≤ length bytes.now }
{
    let mut end = 0;
    while end < bytes.len() && is_in_text(bytes[end]) {
        end += 1;
    }
    end
}

/// Returns the length of the longest prefix without a breaker.
#[tactic(auto, using(crate::proofs::Prefixes::runs))]
pub fn data_run(bytes: &[u8]) -> usize
    ensures run { result ≡ prefix_len (λ b. in_data (class_of b)) bytes.now }
    ensures few { result ≤ length bytes.now }
{
    let mut end = 0;
    while end < bytes.len() && !is_breaker(bytes[end]) {
        end += 1;
    }
    end
}
