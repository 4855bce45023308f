//! The tables of control sequences whose parameters have words, by their final bytes.
//!
//! The sources: ECMA-48, fifth edition, 8.3
//! (<https://ecma-international.org/publications-and-standards/standards/ecma-48/>), the VT510's
//! manual (<https://vt100.net/docs/vt510-rm/chapter4.html>), xterm's list
//! (<https://invisible-island.net/xterm/ctlseqs/ctlseqs.html>), console_codes(4), urxvt(7), kitty's
//! keyboard protocol (<https://sw.kovidgoyal.net/kitty/keyboard-protocol/>) and Windows Terminal's
//! (<https://github.com/microsoft/terminal/blob/main/doc/specs/>, "#4999").
//!
//! A row is a line, with `^` between: the private prefix and the intermediates; the beginning of
//! the parameters; words, or nothing if they are those of the function; the fields of the rest of
//! the parameters; and a name, if the library has none. The special ones come first.

/// Returns the table of the sequences of this final byte, if there is one.
pub fn table_of(last: u8) -> &'static str {
    match last {
        b'm' => LOWER_M,
        b'n' => LOWER_N,
        b'f' => LOWER_F,
        b'i' => LOWER_I,
        b'W' => UPPER_W,
        b'p' => LOWER_P,
        b'c' => LOWER_C,
        b'S' => UPPER_S,
        b'~' => STATUS_LINE,
        b'}' => STATUS,
        b'x' => LOWER_X,
        b'y' => LOWER_Y,
        b's' => LOWER_S,
        b'T' => UPPER_T,
        b'w' => LOWER_W,
        b'u' => LOWER_U,
        b'z' => LOWER_Z,
        b'{' => LEFT_BRACE,
        b'q' => LOWER_Q,
        b'r' => LOWER_R,
        b']' => CONSOLE,
        b't' => LOWER_T,
        b'A' => UPPER_A,
        b'B' => UPPER_B,
        b'C' => UPPER_C,
        b'D' => UPPER_D,
        b'E' => UPPER_E,
        b'F' => UPPER_F,
        b'P' => UPPER_P,
        b'Q' => UPPER_Q,
        b'R' => UPPER_R,
        b'I' => UPPER_I,
        b'O' => UPPER_O,
        b'M' => UPPER_M,
        b'_' => WIN32,
        b'G' => UPPER_G,
        b'[' => LINUX,
        _ => "",
    }
}

static LOWER_M: &str = "\
<^-^report of the mouse without its parameters^^
>^-^reset all modifier keys^^
>^4+^set modifyOtherKeys^n: to^
>^4^reset modifyOtherKeys^^
>^^set or reset^v:?0~modifyKeyboard/1~modifyCursorKeys/2~modifyFunctionKeys/3~modifyKeypadKeys/\
4~modifyOtherKeys/6~modifyModifierKeys/7~modifySpecialKeys|n: to^
?^^ask for^v:?0~modifyKeyboard/1~modifyCursorKeys/2~modifyFunctionKeys/3~modifyKeypadKeys/\
4~modifyOtherKeys/6~modifyModifierKeys/7~modifySpecialKeys|n: to^";

static LOWER_N: &str = "\
>^-^switch modifyFunctionKeys off^^
>^^switch off^v:?0~modifyKeyboard/1~modifyCursorKeys/2~modifyFunctionKeys/3~modifyKeypadKeys/\
4~modifyOtherKeys/6~modifyModifierKeys/7~modifySpecialKeys|n: to^
?^997;1^the colour scheme is dark^^
?^997;2^the colour scheme is light^^";

static LOWER_F: &str = "\
>^-^reset the formats of modified keys^^
>^^set or reset^v:?0~formatKeyboard/1~formatCursorKeys/2~formatFunctionKeys/3~formatKeypadKeys/\
4~formatOtherKeys/6~formatModifierKeys/7~formatSpecialKeys|n: to^";

static LOWER_I: &str = "\
^0^print the screen^^
^-^print the screen^^
^4^what follows goes to the screen alone^^
^5^all that follows goes to the printer^^
^10^dump the screen as HTML^^
^11^dump the screen as SVG^^
?^1^print the line of the cursor^^
?^4^do not print lines as they end^^
?^5^print each line as it ends^^
?^10^print the screen^^
?^11^print all pages^^";

static UPPER_W: &str = "\
^-^set a tab stop at the cursor^^
^0^set a tab stop at the cursor^*v:,^
^1^set a line tab stop at the cursor^*v:,^
^2^clear the tab stop at the cursor^*v:,^
^3^clear the line tab stop at the cursor^*v:,^
^4^clear the tab stops of the line^*v:,^
^5^clear all tab stops^*v:,^
^6^clear all line tab stops^*v:,^";

static LOWER_P: &str = "\
>^^^v:,?0~never/1~while the mouse is not reported/2~always, but for where it leaves the window/\
3~always^
#^^^*v:,?1~bold/2~faint/3~italic/4~underlined/5~blinking/7~reversed/8~hidden/9~crossed out/\
21~doubly underlined/30~foreground/31~background^
\\x22^61^conformance level of the VT100^n:,^
\\x22^62^conformance level of the VT200^v:, controls?\
0~of eight bits/1~of seven bits/2~of eight bits^
\\x22^63^conformance level of the VT300^v:, controls?\
0~of eight bits/1~of seven bits/2~of eight bits^
\\x22^64^conformance level of the VT400^v:, controls?\
0~of eight bits/1~of seven bits/2~of eight bits^
\\x22^65^conformance level of the VT500^v:, controls?\
0~of eight bits/1~of seven bits/2~of eight bits^";

static LOWER_C: &str = "\
?^1;0^report of the device attributes, VT101^^
?^1;2^report of the device attributes, VT100 with advanced video^^
?^4;6^report of the device attributes, VT132 with advanced video and graphics^^
?^0.^look of the Linux console's cursor, default^^
?^1.^look of the Linux console's cursor, invisible; or a report of the device attributes 1^^
?^2.^look of the Linux console's cursor, underline^^
?^3.^look of the Linux console's cursor, lower third^^
?^4.^look of the Linux console's cursor, lower half^^
?^5.^look of the Linux console's cursor, two thirds^^
?^6.^report of the device attributes, VT102; or look of the Linux console's cursor, block^^
?^7.^report of the device attributes, VT131^^
?^8.^look of the Linux console's cursor, block^^
?^17^look of the Linux console's cursor, drawn by software^n:, changed bits|n:, set bits^
?^12^report of the device attributes, VT125^*v:,?1~132 columns/2~printer/3~ReGIS graphics/\
4~sixel graphics/6~selective erase/7~soft character sets/8~user-defined keys/\
9~national replacement character sets/15~technical characters/16~locator port/\
17~terminal state interrogation/18~user windows/21~horizontal scrolling/22~colours/23~Greek/\
24~Turkish/28~rectangular editing/29~text locator/42~ISO Latin-2/44~PCTerm/45~soft key mapping/\
46~ASCII emulation/52~clipboard^
?^62^report of the device attributes, VT220^*v:,?1~132 columns/2~printer/3~ReGIS graphics/\
4~sixel graphics/6~selective erase/7~soft character sets/8~user-defined keys/\
9~national replacement character sets/15~technical characters/16~locator port/\
17~terminal state interrogation/18~user windows/21~horizontal scrolling/22~colours/23~Greek/\
24~Turkish/28~rectangular editing/29~text locator/42~ISO Latin-2/44~PCTerm/45~soft key mapping/\
46~ASCII emulation/52~clipboard^
?^63^report of the device attributes, VT320^*v:,?1~132 columns/2~printer/3~ReGIS graphics/\
4~sixel graphics/6~selective erase/7~soft character sets/8~user-defined keys/\
9~national replacement character sets/15~technical characters/16~locator port/\
17~terminal state interrogation/18~user windows/21~horizontal scrolling/22~colours/23~Greek/\
24~Turkish/28~rectangular editing/29~text locator/42~ISO Latin-2/44~PCTerm/45~soft key mapping/\
46~ASCII emulation/52~clipboard^
?^64^report of the device attributes, VT420^*v:,?1~132 columns/2~printer/3~ReGIS graphics/\
4~sixel graphics/6~selective erase/7~soft character sets/8~user-defined keys/\
9~national replacement character sets/15~technical characters/16~locator port/\
17~terminal state interrogation/18~user windows/21~horizontal scrolling/22~colours/23~Greek/\
24~Turkish/28~rectangular editing/29~text locator/42~ISO Latin-2/44~PCTerm/45~soft key mapping/\
46~ASCII emulation/52~clipboard^
?^65^report of the device attributes, VT510 to VT525^*v:,?1~132 columns/2~printer/\
3~ReGIS graphics/4~sixel graphics/6~selective erase/7~soft character sets/8~user-defined keys/\
9~national replacement character sets/15~technical characters/16~locator port/\
17~terminal state interrogation/18~user windows/21~horizontal scrolling/22~colours/23~Greek/\
24~Turkish/28~rectangular editing/29~text locator/42~ISO Latin-2/44~PCTerm/45~soft key mapping/\
46~ASCII emulation/52~clipboard^
>^-^ask for secondary device attributes^^
>^0+^report of the secondary device attributes, VT100^n:, version|n:, cartridge^
>^0^ask for secondary device attributes^^
>^^report of the secondary device attributes^v:,?1~VT220/2~VT240/18~VT330/19~VT340/24~VT320/\
32~VT382/41~VT420/61~VT510/64~VT520/65~VT525|n:, version|n:, cartridge^";

static UPPER_S: &str = "\
?^^^v:,?1~colour registers/2~sixel geometry/3~ReGIS geometry|v:,?0~report/\
1~ask, or report of an error in the item/2~reset, or report of an error in the action/\
3~set, or report of a failure/4~ask for the most|n:,|n:,^
^1+^key F4^m:^";

static STATUS_LINE: &str = "\
$^^^v:,?0~none/1~indicator/2~written by the host^";

static STATUS: &str = "\
$^^^v:,?0~main display/1~status line^";

static UPPER_T: &str = "\
>^^^*v:,?0~labels are not set in hexadecimal/1~labels are not reported in hexadecimal/\
2~labels are not set in UTF-8/3~labels are not reported in UTF-8^";

static LOWER_S: &str = "\
>^^^v:,?0~it overrides the mouse's reports/1~it may be a modifier of the mouse's reports^";

static LOWER_Y: &str = "\
#^^^f:,?1~not negated/2~without renditions/4~with blanks/8~without cells that are not set/\
16~of all bits/32~of eight bits^";

static LOWER_X: &str = "\
^2+^report of terminal parameters^v:,?1~no parity|v:,?1~eight bits|v:, sent at?128~38400 baud|\
v:, received at?128~38400 baud|n:, clock multiplier|n:, flags^
^3+^report of terminal parameters^v:,?1~no parity|v:,?1~eight bits|v:, sent at?128~38400 baud|\
v:, received at?128~38400 baud|n:, clock multiplier|n:, flags^
*^^^v:,?0~from position to position/1~from position to position/2~of rectangles^";

static LOWER_W: &str = "\
&^^^v:,?0~there is none/1~it was asked for/2~left button pressed/3~left button released/\
4~middle button pressed/5~middle button released/6~right button pressed/\
7~right button released/8~fourth button pressed/9~fourth button released/\
10~outside of the rectangle|f:, buttons?1~right/2~middle/4~left/8~fourth|n:, line|n:, column|\
n:, page^
$^^^v:,?1~of the cursor/2~of tab stops^
,^^ask for the definition of a key^n:^DECRQKD";

static LOWER_U: &str = "\
\x20^^^v:,?0~high/1~off/2~low/3~low/4~low/5~high/6~high/7~high/8~high^
$^^^v:,?1~all/2~the colour table|n:,^";

static LOWER_Z: &str = "\
'^^^v:,?0~off/1~on/2~one|v:,?0~in characters/1~in pixels/2~in characters^";

static LEFT_BRACE: &str = "\
#^^^*v:,?1~bold/2~faint/3~italic/4~underlined/5~blinking/7~reversed/8~hidden/9~crossed out/\
21~doubly underlined/30~foreground/31~background^
'^^^*v:,?0~requests alone/1~button presses/2~no button presses/3~button releases/\
4~no button releases^";

static LOWER_Q: &str = "\
^^^*v:,?0~none/1~Num Lock/2~Caps Lock/3~Scroll Lock/21~not Num Lock/22~not Caps Lock/\
23~not Scroll Lock^";

static LOWER_R: &str = "\
?^0;0.^leave PCTerm mode of the VT420, or restore no private mode^^";

static CONSOLE: &str = "\
^1+^underline colour of the Linux console^n:^
^2+^dim colour of the Linux console^n:^
^8.^current colours are the Linux console's default^^
^9+^Linux console blanks the screen after minutes^n:^
^10+^pitch of the Linux console's bell, in hertz^n:^
^11+^length of the Linux console's bell, in milliseconds^n:^
^12+^bring a Linux console to the front^n:^
^13.^unblank the Linux console^^
^14+^Linux console powers down after minutes^n:^
^15.^bring the last Linux console to the front^^
^16+^blinking of the Linux console's cursor, in milliseconds^n:^";

static LOWER_T: &str = "\
>^^^*v:,?0~labels are set in hexadecimal/1~labels are reported in hexadecimal/\
2~labels are set in UTF-8/3~labels are reported in UTF-8^
\x20^^^v:,?0~off/1~off/2~low/3~low/4~low/5~high/6~high/7~high/8~high^
^1.^window 1 (de-iconify, or a report that it is open)^^
^2.^window 2 (iconify, or a report that it is iconified)^^
^3+^window 3 (move, or report of the position)^n:, x|n:, y^
^4+^window 4 (resize in pixels, or report of the size)^n:, height|n:, width^
^5+^window 5 (report of the size of the screen in pixels)^n:, height|n:, width^
^6+^window 6 (report of the size of a character in pixels)^n:, height|n:, width^
^8+^window 8 (resize in characters, or report of the size)^n:, lines|n:, columns^
^9;0.^window 9;0 (restore)^^
^9;1.^window 9;1 (maximise)^^
^9;2.^window 9;2 (maximise vertically)^^
^9;3.^window 9;3 (maximise horizontally)^^
^9+^window 9 (report of the size of the screen in characters)^n:, lines|n:, columns^
^10;0.^window 10;0 (undo full screen)^^
^10;1.^window 10;1 (full screen)^^
^10;2.^window 10;2 (toggle full screen)^^
^22^window 22 (push title)^v:,?0~icon and window/1~icon/2~window|n:, at^
^23^window 23 (pop title)^v:,?0~icon and window/1~icon/2~window|n:, at^
^48+^window 48 (report of the size)^n:, lines|n:, columns|n:, height|n:, width^
^24.^window 24 (24 lines)^^
^25.^window 25 (25 lines)^^
^36.^window 36 (36 lines)^^
^41.^window 41 (41 lines)^^
^42.^window 42 (42 lines)^^
^48.^window 48 (48 lines)^^
^52.^window 52 (52 lines)^^
^53.^window 53 (53 lines)^^
^72.^window 72 (72 lines)^^";

static UPPER_A: &str = "\
^1+^key Up^m:^";

static UPPER_B: &str = "\
^1+^key Down^m:^";

static UPPER_C: &str = "\
^1+^key Right^m:^
=^^size of the cursor^n:, first line|n:, last line^SCOCURSOR";

static UPPER_D: &str = "\
^1+^key Left^m:^";

static UPPER_E: &str = "\
^1+^key Begin^m:^";

static UPPER_F: &str = "\
^1+^key End^m:^
=^^foreground colour^n:^SCOFOREGROUND";

static UPPER_P: &str = "\
^1+^key F1^m:^";

static UPPER_Q: &str = "\
^1+^key F2^m:^";

static UPPER_R: &str = "\
^1;2.^report of the cursor position line 1, column 2, or key F3 with Shift^^
^1;3.^report of the cursor position line 1, column 3, or key F3 with Alt^^
^1;4.^report of the cursor position line 1, column 4, or key F3 with Shift and Alt^^
^1;5.^report of the cursor position line 1, column 5, or key F3 with Control^^
^1;6.^report of the cursor position line 1, column 6, or key F3 with Shift and Control^^
^1;7.^report of the cursor position line 1, column 7, or key F3 with Alt and Control^^
^1;8.^report of the cursor position line 1, column 8, or key F3 with Shift and Alt and Control^^";

static UPPER_I: &str = "\
^-^cursor to tab stop 1, or a report that the terminal has the focus^^";

static UPPER_O: &str = "\
^-^erase in area (to the end), or a report that the focus is lost^^";

static UPPER_M: &str = "\
<^-^report of the mouse without its parameters^^
^++^report of urxvt's mouse^n:, button|n:, column|n:, line^";

static WIN32: &str = "\
^^key^n:, virtual key|n:, scan code|u:, character|v:,?1~pressed/0~released|\
f:, state?1~right Alt/2~left Alt/4~right Control/8~left Control/16~Shift/32~Num Lock/\
64~Scroll Lock/128~Caps Lock/256~enhanced|n:, repeated^win32";

static UPPER_G: &str = "\
=^^background colour^n:^SCOBACKGROUND";

static LINUX: &str = "\
^^key of the Linux console, whose letter comes next^r:^Linux";
