//! Laws of terminals, for every allocator `A`, which the type of the actions names.
ghost use Rattle.esc_terminal.specs.Bounds.{ScrollsFew};
ghost use Rattle.esc_terminal.specs.Laws.{GoesOn, IsAlwaysSound, IsAlwaysWhole, StandsAt};
ghost use Rattle.esc_terminal.specs.Scrolled.{GoesOffOn};

use std::alloc::Allocator;

/// Whatever a stream is, each row has as many cells as the screen has columns, and the cursor is on
/// the screen.
pub fn is_always_sound<A: Allocator>()
    ensures { IsAlwaysSound A }
{}

/// Whatever a stream is, no half of a wide character stands alone.
pub fn is_always_whole<A: Allocator>()
    ensures { IsAlwaysWhole A }
{}

/// A stream in two chunks has the effect of the first and then that of the second.
pub fn goes_on<A: Allocator>()
    ensures { GoesOn A }
{}

/// The rows that a stream scrolls off come first, and then those that the bytes after it do.
pub fn goes_off_on<A: Allocator>()
    ensures { GoesOffOn A }
{}

/// A terminal that was fed a stream shows the screen of that.
pub fn stands_at<A: Allocator>()
    ensures { StandsAt A }
{}

/// A value scrolls off at most as many rows as the screen has rows and columns together, and each
/// row is as wide as the screen. The numbers of its colours are bytes.
pub fn scrolls_few<A: Allocator>()
    ensures { ScrollsFew A }
{}
