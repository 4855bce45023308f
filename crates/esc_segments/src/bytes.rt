//! Classes of bytes.
#![tactic(auto)]

ghost use Rattle.std.specs.Prelude.{◌≡◌};
ghost use Rattle.esc_frame.specs.Classes.{class_of, is_breaker, is_noise, is_c0, is_text, is_put, in_escape, in_csi, in_osc, opens};

/// Returns whether the byte ends the segment before it: 18, 1A, 1B, 80 to 9F.
#[tactic(auto, unfolding(esc_frame::specs::Classes::class_of))]
#[inline(always)]
pub fn is_breaker(b: u8) -> bool
    ensures { result ≡ is_breaker (class_of b) }
{
    matches!(b, 0x18 | 0x1a | 0x1b | 0x80..=0x9f)
}

/// Returns whether the byte is passed over in a sequence: any other below 20, and 7F, A0 to FF.
#[tactic(auto, unfolding(esc_frame::specs::Classes::class_of))]
#[inline(always)]
pub fn is_noise(b: u8) -> bool
    ensures { result ≡ is_noise (class_of b) }
{
    !is_breaker(b) && (b < 0x20 || 0x7f <= b)
}

/// Returns whether it is a control that is executed also inside a sequence: any below 20 but 18,
/// 1A, 1B.
#[tactic(auto, unfolding(esc_frame::specs::Classes::class_of))]
#[inline(always)]
pub fn is_c0(b: u8) -> bool
    ensures { result ≡ is_c0 (class_of b) }
{
    b < 0x20 && !is_breaker(b)
}

/// Returns whether an application program command keeps it: 20 to 7F.
#[tactic(auto, unfolding(esc_frame::specs::Classes::class_of))]
#[inline(always)]
pub fn is_text(b: u8) -> bool
    ensures { result ≡ is_text (class_of b) }
{
    matches!(b, 0x20..=0x7f)
}

/// Returns whether a device control string hands it on as data: no breaker, and not 7F.
#[tactic(auto, unfolding(esc_frame::specs::Classes::class_of))]
#[inline(always)]
pub fn is_put(b: u8) -> bool
    ensures { result ≡ is_put (class_of b) }
{
    b != 0x7f && !is_breaker(b)
}

/// Returns whether it may come between ESC and the final byte: noise, or 20 to 2F.
#[tactic(auto, unfolding(esc_frame::specs::Classes::class_of))]
#[inline(always)]
pub fn is_in_escape(b: u8) -> bool
    ensures { result ≡ in_escape (class_of b) }
{
    !is_breaker(b) && (b < 0x30 || 0x7f <= b)
}

/// Returns whether it may come between CSI or DCS and the final byte: noise, or 20 to 3F.
#[tactic(auto, unfolding(esc_frame::specs::Classes::class_of))]
#[inline(always)]
pub fn is_in_header(b: u8) -> bool
    ensures { result ≡ in_csi (class_of b) }
{
    !is_breaker(b) && (b < 0x40 || 0x7f <= b)
}

/// Returns whether it is a unit by itself in the text of an OSC: no breaker, no BEL, and no byte C2
/// to F4 that begins a sequence.
#[tactic(auto, unfolding(esc_frame::specs::Classes::class_of))]
#[inline(always)]
pub fn is_in_text(b: u8) -> bool
    ensures { result ≡ in_osc (class_of b) }
{
    !is_breaker(b) && b != 0x07 && (b < 0xc2 || 0xf4 < b)
}

/// Returns whether it is the letter of an opener: `P`, `X`, `[`, `]`, `^`, `_`.
#[tactic(auto, unfolding(esc_frame::specs::Classes::class_of))]
#[inline(always)]
pub fn is_letter(b: u8) -> bool
    ensures { result ≡ opens (class_of b) }
{
    matches!(b, b'P' | b'X' | b'[' | b']' | b'^' | b'_')
}
