//! The choices of the first number of a control sequence, by the standard that its function is of:
//! ECMA-48, fifth edition, 8.3
//! (<https://ecma-international.org/publications-and-standards/standards/ecma-48/>), the VT510's
//! manual (<https://vt100.net/docs/vt510-rm/chapter4.html>), or xterm's list
//! (<https://invisible-island.net/xterm/ctlseqs/ctlseqs.html>).

use crate::named::words_of;
use control_functions::ControlFunction;

const IN_DISPLAY: &str = "\
0 below
1 above
2 all
3 scrolled-off lines";

const IN_LINE: &str = "\
0 to the right
1 to the left
2 all";

const TABS: &str = "\
0 at the cursor
1 of the line
2 all in the line
3 all
4 all of lines
5 all of columns and lines";

const REPORTS: &str = "\
0 it is ready
1 it is busy, ask again
2 it is busy, and reports later
3 it has a malfunction, ask again
4 it has a malfunction, and reports later
5 ask for the status
6 ask for the cursor position";

// 996 is that of contour and kitty.
const PRIVATE_REPORTS: &str = "\
6 ask for the cursor position and page
10 the printer is ready
11 the printer is not ready
13 there is no printer
15 ask for the printer
18 the printer is busy
19 the printer belongs to another session
20 user-defined keys are unlocked
21 user-defined keys are locked
25 ask for user-defined keys
26 ask for the keyboard
27 report of the keyboard
50 report of the locator
53 report of the locator
55 ask for the locator
56 ask for the kind of the locator
57 report of the kind of the locator
62 ask for the space for macros
63 ask for the checksum of the memory
70 the data came whole
71 the data have a fault
73 there were no data yet
75 ask whether the data came whole
83 there is one session alone
85 ask for sessions
996 ask for the colour scheme";

const CURSORS: &str = "\
0 default
1 blinking block
2 steady block
3 blinking underline
4 steady underline
5 blinking bar
6 steady bar";

const PROTECTION: &str = "\
0 off
1 on
2 off";

const WINDOW: &str = "\
1 de-iconify
2 iconify
3 move
4 resize in pixels
5 raise
6 lower
7 refresh
11 ask for state
13 ask for position
14 ask for size in pixels
15 ask for size of the screen in pixels
16 ask for size of a character in pixels
18 ask for size in characters
19 ask for size of the screen in characters
20 ask for icon label
21 ask for title";

// Returns the choices of a function whose first number is one; nothing of any other.
fn choices_of(function: ControlFunction) -> &'static str {
    match function {
        ControlFunction::ED | ControlFunction::DECSED => IN_DISPLAY,
        ControlFunction::EL | ControlFunction::DECSEL => IN_LINE,
        ControlFunction::TBC => TABS,
        ControlFunction::DSR => REPORTS,
        ControlFunction::DECDSR => PRIVATE_REPORTS,
        ControlFunction::DECSCUSR => CURSORS,
        ControlFunction::DECSCA => PROTECTION,
        ControlFunction::XTWINOPS => WINDOW,
        _ => "",
    }
}

/// Returns the words for the choice of this number, if it is the first of a sequence of this
/// function and has words.
pub fn chosen_words(function: ControlFunction, number: i64) -> &'static str {
    words_of(choices_of(function), number, "")
}
