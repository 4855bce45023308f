//! The facts about screens that are painted, for every allocator `A`, which the type of the actions
//! names.
ghost use Rattle.esc_paint.specs.Laws.{IsBounded, Leads, LeadsOn, LeadsOver, Paints, PaintsNew, PaintsOver, SaysNothing};

use std::alloc::Allocator;

/// The text that paints a screen makes any terminal of its size show it: its cells have the same
/// contents, and its cursor is in the same place, whatever the terminal shows. The characters have
/// to look plain.
pub fn paints<A: Allocator>()
    ensures { Paints A }
{
    esc_actions::laws::meaning_by_segments::<A>();
}

/// So a new terminal shows it.
pub fn paints_new<A: Allocator>()
    ensures { PaintsNew A }
{
    paints::<A>();
}

/// A terminal that was fed a stream with nothing unfinished shows it too.
pub fn paints_over<A: Allocator>()
    ensures { PaintsOver A }
{
    paints::<A>();
    esc_terminal::laws::goes_on::<A>();
    esc_terminal::laws::is_always_sound::<A>();
    esc_actions::laws::yield_alone::<A>();
}

/// The text that leads from one screen to another of its size makes any terminal that shows the
/// first one show the second: its cells have the same contents, and its cursor is in the same
/// place. The characters of the second one have to look plain.
pub fn leads<A: Allocator>()
    ensures { Leads A }
{
    esc_actions::laws::meaning_by_segments::<A>();
}

/// So it follows a series of screens, from each to the next: at last it shows the last one.
pub fn leads_on<A: Allocator>()
    ensures { LeadsOn A }
{
    esc_actions::laws::meaning_by_segments::<A>();
}

/// A terminal that was fed a stream with nothing unfinished, and shows the first one, is led so.
pub fn leads_over<A: Allocator>()
    ensures { LeadsOver A }
{
    leads::<A>();
    esc_terminal::laws::goes_on::<A>();
    esc_terminal::laws::is_always_sound::<A>();
    esc_terminal::laws::is_always_whole::<A>();
    esc_actions::laws::yield_alone::<A>();
}

/// No text leads from a screen to itself.
pub fn says_nothing()
    ensures { SaysNothing }
{}

/// The length of the text that leads to a screen, and so of its painting, is bounded by the size.
pub fn is_bounded()
    ensures { IsBounded }
{}
