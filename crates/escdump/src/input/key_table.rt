//! The tables of keys.
//!
//! The sources: xterm's list (<https://invisible-island.net/xterm/ctlseqs/ctlseqs.html>, "Function
//! Keys" and "VT220-Style Function Keys"), the VT510's manual, chapter 8
//! (<https://vt100.net/docs/vt510-rm/chapter8.html>), urxvt(7), console_codes(4), and the key
//! capabilities of terminfo(5) in ncurses's database. If terminals differ the commonest key comes
//! first, and a terminal's name after its own.
//!
//! A row is a line: a letter or a number, a space, and the key. A `,` at the end of a key comes
//! before modifiers alone.

// Keys of a number before `~`; of rxvt also before `^`, `$` and `@`.
static NUMBERED: &str = "\
1 Home
2 Insert
3 Delete
4 End
5 Page Up
6 Page Down
7 Home
8 End
11 F1
12 F2
13 F3
14 F4
15 F5
17 F6
18 F7
19 F8
20 F9
21 F10
23 F11
24 F12
25 F13
26 F14
28 F15
29 F16, or Menu
31 F17
32 F18
33 F19
34 F20";

// Keys of a number before `z`, of Sun's keyboards.
static SUN: &str = "\
1 Find
2 Insert
3 Delete, or Remove
4 Select
193 Again
194 Props
195 Undo
196 Help
197 Menu
214 Home
216 Page Up
218 keypad 5
220 End
222 Page Down
224 F1
225 F2
226 F3
227 F4
228 F5
229 F6
230 F7
231 F8
232 F9
233 F10
234 F11
235 F12
247 Insert";

// Keys of a letter after `ESC O`, the keypad among them.
static SS3: &str = "\
A Up
B Down
C Right
D Left
E Begin
F End
H Home
I keypad Tab
M keypad Enter
P F1
Q F2
R F3
S F4
T F5 (Mach)
U F6 (Mach)
V F7 (Mach)
W F8 (Mach)
X keypad Equal, or F9 of Mach
Y F10 (Mach)
a Up with Control (rxvt)
b Down with Control (rxvt)
c Right with Control (rxvt)
d Left with Control (rxvt)
j keypad Multiply
k keypad Add
l keypad Separator
m keypad Subtract
n keypad Decimal
o keypad Divide
p keypad 0
q keypad 1
r keypad 2
s keypad 3
t keypad 4
u keypad 5
v keypad 6
w keypad 7
x keypad 8
y keypad 9";

// Keys of a letter after `ESC [`, without parameters.
static PLAIN: &str = "\
A Up
B Down
C Right
D Left
E Begin
F End
G keypad 5 of the Linux console, or Page Down of cons25
H Home
L Insert (cons25)
N F2 (cons25)
P F1, or F4 of cons25
Q F2, or F5 of cons25
R F6 (cons25)
S F4, or F7 of cons25
T F8 (cons25)
U Page Down of minix, or F9 of cons25
V Page Up of minix, or F10 of cons25
W F11 (cons25)
X F12 (cons25)
Y End of minix, or F13 of cons25
Z Tab with Shift
@ Insert of minix, or F41 of cons25
[ F42 (cons25)
\\ F43 (cons25)
] F44 (cons25)
^ F45 (cons25)
_ F46 (cons25)
` F47 (cons25)
{ F48 (cons25)
a Up with Shift of rxvt, or F15 of cons25
b Down with Shift of rxvt, or F16 of cons25
c Right with Shift of rxvt, or F17 of cons25
d Left with Shift of rxvt, or F18 of cons25
e F19 (cons25)
f F20 (cons25)
g F21 (cons25)
h F22 (cons25)
i F23 (cons25)
j F24 (cons25)
k F25 (cons25)
l F26 (cons25)
m F27 (cons25)
n F28 (cons25)
o F29 (cons25)
p F30 (cons25)
q F31 (cons25)
r F32 (cons25)
s F33 (cons25)
t F34 (cons25)
u F35 (cons25)
v F36 (cons25)
w F37 (cons25)
x F38 (cons25)
y F39 (cons25)
z F40 (cons25)";

// Keys of a letter that have modifiers before it.
static MODIFIED: &str = "\
A Up
B Down
C Right
D Left
E Begin
F End
H Home
P F1
Q F2
R F3, or the cursor in line 1 (a report),
S F4
Z Tab";

/// Returns the key of this number before `~`; nothing of any other.
pub fn numbered_key(number: u64) -> &'static str {
    of_number(NUMBERED, number)
}

/// Returns the key of this number of Sun's keyboards.
pub fn sun_key(number: u64) -> &'static str {
    of_number(SUN, number)
}

/// Returns the key of this letter after `ESC O`.
pub fn ss3_key(letter: u8) -> &'static str {
    of_letter(SS3, letter)
}

/// Returns the key of this letter after `ESC [`.
pub fn plain_key(letter: u8) -> &'static str {
    of_letter(PLAIN, letter)
}

/// Returns the key of this letter that has modifiers before it.
pub fn modified_key(letter: u8) -> &'static str {
    of_letter(MODIFIED, letter)
}

// Returns the key in the row of this number.
fn of_number(table: &'static str, number: u64) -> &'static str {
    for line in table.lines() {
        if let Some((key, words)) = line.split_once(' ') {
            if is_number(key, number) {
                return words;
            }
        }
    }
    ""
}

// Returns the key in the row of this letter.
fn of_letter(table: &'static str, letter: u8) -> &'static str {
    for line in table.lines() {
        if let Some((key, words)) = line.split_once(' ') {
            if key.as_bytes() == [letter].as_slice() {
                return words;
            }
        }
    }
    ""
}

// Returns whether a text is this number in decimal.
fn is_number(text: &str, number: u64) -> bool {
    match text.parse::<u64>() {
        Ok(found) => found == number,
        Err(_) => false,
    }
}
