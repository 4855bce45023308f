//! This module takes characters and controls in ground.
#![tactic(auto)]

ghost use Rattle.std.specs.Prelude.{◌≢◌, ◌<◌, ◌≤◌, ℕ, Option, length, take, slice_index, IfSome, IsSome};
ghost use Rattle.esc_frame.specs.Events.Event.{Execute, Print};
ghost use Rattle.esc_frame.specs.Machine.Calls.{Quietly, IsOneEvent};
ghost use Rattle.esc_frame.specs.Machine.Characters.{IsAhead};
ghost use Rattle.esc_frame.specs.Leads.Unfinished.{Ground};
ghost use Rattle.esc_frame.specs.Machine.Makes.{MayEmitAll, StaysInGround};
ghost use Rattle.esc_frame.specs.Machine.Moves.{IsStill};
ghost use Rattle.esc_frame.specs.Scans.{StartsFrom, StartsWithControl};

use crate::machine::Result;
use crate::runs::scans::{ascii_run, free_run};
use crate::taker::EventSink;
use crate::utf8::sequence::{ahead, of_four, of_three, of_two};

/// Returns the whole character that comes first, and its length; `None` if there is none, or if
/// that is not seen at once: fewer than three bytes follow a first byte from 80 on.
#[inline(always)]
pub fn first_char(rest: &[u8]) -> Option<(char, usize)>
    ensures count { IfSome result (λ x. (0 < x.1) × (x.1 ≤ length rest.now)) }
    ensures prints { IfSome result (λ x. IsOneEvent (take x.1 rest.now) (Print x.0)) }
    ensures quiet { (limit : Option ℕ) → IfSome result (λ x. IsStill limit Ground rest.now x.1) }
    ensures text { 0 < length rest.now → 0x20 ≤ slice_index rest.now 0
        → slice_index rest.now 0 < 0x80 → IsSome result }
{
    if rest.is_empty() {
        return None;
    }
    if rest[0] < 0x20 {
        None
    } else if rest[0] < 0x80 {
        Some((rest[0] as char, 1))
    } else {
        first_wide(rest)
    }
}

/// Returns the control that comes first: 00 to 1F, but not ESC.
#[inline(always)]
pub fn first_control(rest: &[u8]) -> Option<u8>
    ensures count { IfSome result (λ b. 0 < length rest.now) }
    ensures executes { IfSome result (λ b. IsOneEvent (take 1 rest.now) (Execute b)) }
    ensures control { 0 < length rest.now → slice_index rest.now 0 < 0x20
        → slice_index rest.now 0 ≢ 0x1b → IsSome result }
{
    if rest.is_empty() {
        return None;
    }
    if rest[0] < 0x20 && rest[0] != 0x1b {
        Some(rest[0])
    } else {
        None
    }
}

/// Takes the control that comes first.
#[inline(always)]
pub fn execute_one<V: EventSink>(rest: &[u8], actor: &mut V) -> Result<usize>
    requires control { StartsWithControl rest.now }
    requires ready { MayEmitAll V.EventSink Ground rest.now actor.old }
    ensures { StaysInGround V.EventSink result rest.now actor }
{
    match actor.execute_c0_or_c1(rest[0]) {
        Ok(()) => Ok(1),
        Err(e) => Err(e),
    }
}

#[inline(always)]
fn first_wide(rest: &[u8]) -> Option<(char, usize)>
    ensures count { IfSome result (λ x. (0 < x.1) × (x.1 ≤ length rest.now)) }
    ensures prints { IfSome result (λ x. IsOneEvent (take x.1 rest.now) (Print x.0)) }
    ensures quiet { (limit : Option ℕ) → IfSome result (λ x. IsStill limit Ground rest.now x.1) }
{
    let (n, c) = ahead(rest);
    if n == 0 { None } else { Some((c, n)) }
}

/// Prints the character that comes first, if it is whole; else takes nothing.
#[inline(always)]
pub fn print_first<V: EventSink>(rest: &[u8], actor: &mut V) -> Result<usize>
    requires { MayEmitAll V.EventSink Ground rest.now actor.old }
    ensures stays { StaysInGround V.EventSink result rest.now actor }
    ensures quiet { (limit : Option ℕ) → Quietly limit result Ground rest.now }
{
    match first_char(rest) {
        Some((c, n)) => match actor.print(c) {
            Ok(()) => Ok(n),
            Err(e) => Err(e),
        },
        None => Ok(0),
    }
}

/// Prints a run of text, or sequences, that come first.
#[inline(always)]
pub fn print_one<V: EventSink>(rest: &[u8], actor: &mut V) -> Result<usize>
    requires some { 0 < length rest.now }
    requires ready { MayEmitAll V.EventSink Ground rest.now actor.old }
    ensures { StaysInGround V.EventSink result rest.now actor }
{
    if rest[0] < 0x20 {
        Ok(0)
    } else if rest[0] < 0x80 {
        print_text(rest, actor)
    } else {
        print_long(rest, actor)
    }
}

// Prints a long run of text as it is; or the sequences that come first, if it is short or not
// well-formed. A stream that is not UTF-8 mostly shows that at once. The function is apart from the
// fast code for plain text.
#[inline(never)]
fn print_long<V: EventSink>(rest: &[u8], actor: &mut V) -> Result<usize>
    requires { MayEmitAll V.EventSink Ground rest.now actor.old }
    ensures { StaysInGround V.EventSink result rest.now actor }
{
    if ahead(rest).0 == 0 {
        return Ok(0);
    }
    let run = free_run(rest);
    if run < 24 {
        return print_glyphs::<V, Mixed>(rest, actor);
    }
    match simdutf8::basic::from_utf8(&rest[..run]) {
        Ok(text) => match actor.print_str(text) {
            Ok(()) => Ok(run),
            Err(e) => Err(e),
        },
        Err(_) => print_glyphs::<V, Mixed>(rest, actor),
    }
}

// Glyphs are characters of one kind, which mostly come one after another.
trait Glyphs<V: EventSink> {
    // is the number of bytes that a look at the next of them needs
    const LEAST: usize;

    ghost LEAST: { ℕ };

    // Prints the next ones; takes nothing if others come.
    fn print_next(rest: &[u8], actor: &mut V) -> Result<usize>
        requires some { LEAST ≤ length rest.now }
        requires ready { MayEmitAll V.EventSink Ground rest.now actor.old }
        ensures { StaysInGround V.EventSink result rest.now actor };
}

// Prints the characters of a kind that come first.
#[inline(always)]
fn print_glyphs<V: EventSink, G: Glyphs<V>>(rest: &[u8], actor: &mut V) -> Result<usize>
    requires { MayEmitAll V.EventSink Ground rest.now actor.old }
    ensures { StaysInGround V.EventSink result rest.now actor }
{
    let mut at = 0;
    while rest.len() - at >= G::LEAST {
        match G::print_next(&rest[at..], actor) {
            Ok(0) => return Ok(at),
            Ok(n) => at += n,
            Err(e) => return Err(e),
        }
    }
    Ok(at)
}

// Takes sequences, and short runs of text between them; leaves a longer run.
struct Mixed;

impl<V: EventSink> Glyphs<V> for Mixed {
    const LEAST: usize = 8;

    ghost LEAST = { 8 };

    #[inline(always)]
    fn print_next(rest: &[u8], actor: &mut V) -> Result<usize> {
        if rest[0] < 0x80 {
            if (rest[1] | rest[3] | rest[5] | rest[7]) < 0x80 {
                Ok(0)
            } else {
                print_glyphs::<V, Ascii>(rest, actor)
            }
        } else if rest[0] < 0xe0 {
            print_glyphs::<V, TwoBytes>(rest, actor)
        } else if rest[0] < 0xf0 {
            print_glyphs::<V, ThreeBytes>(rest, actor)
        } else {
            let (n, c) = of_four(rest[0], rest[1], rest[2], rest[3]);
            print_ahead(rest, n, c, actor)
        }
    }
}

// Takes bytes of text.
struct Ascii;

impl<V: EventSink> Glyphs<V> for Ascii {
    const LEAST: usize = 1;

    ghost LEAST = { 1 };

    #[inline(always)]
    fn print_next(rest: &[u8], actor: &mut V) -> Result<usize> {
        print_ascii_byte(rest, actor)
    }
}

// Takes sequences of two bytes, and single bytes of text between them.
struct TwoBytes;

impl<V: EventSink> Glyphs<V> for TwoBytes {
    const LEAST: usize = 4;

    ghost LEAST = { 4 };

    #[inline(always)]
    fn print_next(rest: &[u8], actor: &mut V) -> Result<usize> {
        if rest[0] < 0x80 {
            return print_ascii_before_multibyte(rest, actor);
        }
        let (n, c) = of_two(rest[0], rest[1]);
        print_ahead(rest, n, c, actor)
    }
}

// Takes sequences of three bytes.
struct ThreeBytes;

impl<V: EventSink> Glyphs<V> for ThreeBytes {
    const LEAST: usize = 3;

    ghost LEAST = { 3 };

    #[inline(always)]
    fn print_next(rest: &[u8], actor: &mut V) -> Result<usize> {
        let (n, c) = of_three(rest[0], rest[1], rest[2]);
        print_ahead(rest, n, c, actor)
    }
}

// Prints a byte of text that a sequence follows soon.
#[inline(always)]
fn print_ascii_before_multibyte<V: EventSink>(rest: &[u8], actor: &mut V) -> Result<usize>
    requires some { 4 ≤ length rest.now }
    requires ready { MayEmitAll V.EventSink Ground rest.now actor.old }
    ensures { StaysInGround V.EventSink result rest.now actor }
{
    if rest[3] < 0x80 {
        Ok(0)
    } else {
        print_ascii_byte(rest, actor)
    }
}

// Prints the whole character ahead, if there is one.
#[inline(always)]
fn print_ahead<V: EventSink>(rest: &[u8], n: usize, c: char, actor: &mut V) -> Result<usize>
    requires ahead { IsAhead rest.now n c }
    requires ready { MayEmitAll V.EventSink Ground rest.now actor.old }
    ensures { StaysInGround V.EventSink result rest.now actor }
{
    if n == 0 {
        return Ok(0);
    }
    match actor.print(c) {
        Ok(()) => Ok(n),
        Err(e) => Err(e),
    }
}

// Prints a byte of text.
#[inline(always)]
fn print_ascii_byte<V: EventSink>(rest: &[u8], actor: &mut V) -> Result<usize>
    requires some { 1 ≤ length rest.now }
    requires ready { MayEmitAll V.EventSink Ground rest.now actor.old }
    ensures { StaysInGround V.EventSink result rest.now actor }
{
    if rest[0] < 0x20 || rest[0] > 0x7f {
        return Ok(0);
    }
    match actor.print(rest[0] as char) {
        Ok(()) => Ok(1),
        Err(e) => Err(e),
    }
}

#[inline(always)]
fn print_text<V: EventSink>(rest: &[u8], actor: &mut V) -> Result<usize>
    requires starts { StartsFrom 0x20 0x7f rest.now }
    requires ready { MayEmitAll V.EventSink Ground rest.now actor.old }
    ensures { StaysInGround V.EventSink result rest.now actor }
{
    let run = ascii_run(rest);
    match actor.print_text(&rest[..run]) {
        Ok(()) => Ok(run),
        Err(e) => Err(e),
    }
}
