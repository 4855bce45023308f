//! Character sets by the bytes that designate them: a line each, with the bytes, a space and the
//! name.

/// Sets of 94 characters (xterm's list, "Designate G0 Character Set"; the VT510's manual, "SCS"; the
/// registry of ISO 2022, for others by the names that teseq 1.1.1 has of it).
pub static SETS_94: &str = "\
0 DEC special graphics
1 DEC alternate characters
2 DEC alternate graphics
4 Dutch
5 Finnish
6 Norwegian and Danish
7 Swedish
9 French Canadian
< DEC supplemental, or user-preferred supplemental
= Swiss
> DEC technical
@ ISO 646.irv:1973
A United Kingdom
B US-ASCII
C Finnish
D ISO-IR-8
E Norwegian and Danish
F ISO-IR-9
G ISO646-SE
H Swedish
I JIS X 0201 Katakana
J JIS X 0201 Roman
K German
L ISO646-PT
M ISO 6438
N ISO 5427
O DIN 31624
P ISO 5426
Q French Canadian
R French
S ISO 5428
T ISO646-CN
U null mapping of the Linux console
V ISO-IR-47
W INIS
X ISO 5428:1976
Y Italian
Z Spanish
[ GREEK7-OLD
\\ LATIN-GREEK
] INIS-8
^ INIS-CYRILLIC
_ CODAR-U
` Norwegian and Danish
a ISO646-NO2
b CCITT-VIDEOTEX
c CCITT-MOSAIC-2
d CCITT-MOSAIC-3
e APL
f French
g ISO646-PT2
h ISO646-ES2
i ISO646-HU
j GREEK7
k ARABIC7
l ISO 6937-2
m ISO646-JP-OCR-A
n ISO646-JP-OCR-B
o ISO646-JP-OCR-B-EXT
p ISO646-JP-OCR-HAND
q ISO646-JP-OCR-HAND-EXT
r JIS C6229-1984-OCR-HAND
s ISO 2033
t ANSI X3.110
u ISO646-T.61
v T.61
w ISO646-CA
x ISO646-CA2
y CCITT-MOSAIC-1
z ISO646-YU
{ JUS 003
| T.101-2
} JUS 004";

/// Sets of 96 characters (xterm's list, "Designate G1 Character Set"; the registry of ISO 2022, for
/// others by the names that teseq 1.1.1 has of it, or Emacs's `mule-conf.el`).
pub static SETS_96: &str = "\
@ ECMA-CYRILLIC
A ISO Latin-1
B ISO Latin-2
C ISO Latin-3
D ISO Latin-4
E CSA Z243.4-1985-EXT
F ISO Greek
G ISO Arabic
H ISO Hebrew
I CSN 369103
J BSI IST-2
K IEC P27-1
L ISO Cyrillic
M ISO Latin-5
N ISO 6937-2-RESIDUAL
O GOST 19768-74
P ISO-IR-154
Q ISO 10367-BOX
R ISO 6937:1992
S HEBREW-CCITT
T Thai, TIS 620
U ARABIC-BULL
V ISO 8859-10
X ISO-IR-158
Y ISO 8859-13
Z TCVN5712:1993
[ ISO-IR-181
\\ LATIN-WELSH
] ISO-IR-197
^ ISO-8859-8
_ ISO 8859-14
` CYRILLIC-URALIC
a CYRILLIC-VOLGAIC
b ISO 8859-15
c ISO-8859-1-EURO
d ISO-8859-4-EURO
e ISO-8859-13-EURO
f ISO 8859-16
g IS 434:1997
h ISO-IR-209
i ISO-8859-7
j SI1311:2002
} T.101-3";

/// Sets of 94 characters with two bytes (xterm's list, "Designate G0 Character Set"; with `!` the
/// registry of ISO 2022 by the names of teseq 1.1.1).
pub static SETS_TWO: &str = "\
\"> Greek
%2 Turkish
%6 Portuguese
%= Hebrew
\"4 DEC Hebrew
\"? DEC Greek
%0 DEC Turkish
%5 DEC supplemental graphics
&4 DEC Cyrillic
%3 SCS
&5 DEC Russian
!@ GREEK-CCITT
!A ISO646-CU
!B ISO646-INV
!C ISO646-IE
!D TDS-565
!E ANSI Z39.47
!F TDS-616";

/// Sets of controls of C0 (the registry of ISO 2022 by the names of teseq 1.1.1).
pub static SETS_C0: &str = "\
@ ISO 646
A NATS
B INIS
C ISO-IR-26
D ISO-IR-36
E T.61
F JIS C6225-1979
G ISO 4873
H ASMO 662-1985
I T.101-1
J T.101-2
K T.101-3
L CSN 369102";

/// Sets of controls of C1 (the same).
pub static SETS_C1: &str = "\
@ VIDEOTEX-GB
A VIDEOTEX-CCITT
B ISO 6630-1985
C ISO 6429-1983
D T.101-1
E DIN 31626
F T.101-3
G ISO 4873
H T.61";

/// Sets of several bytes a character (the registry of ISO 2022, ISO-IR 42 to 229; F and N by the
/// names of teseq 1.1.1).
pub static SETS_MULTIPLE: &str = "\
@ JIS C 6226-1978
A GB 2312
B JIS X 0208
C KS X 1001
D JIS X 0212
E ISO-IR 165
F BLISSYMBOL
G CNS 11643, plane 1
H CNS 11643, plane 2
I CNS 11643, plane 3
J CNS 11643, plane 4
K CNS 11643, plane 5
L CNS 11643, plane 6
M CNS 11643, plane 7
N KPS 9566-97
O JIS X 0213, plane 1
P JIS X 0213, plane 2
Q JIS X 0213:2004, plane 1";

/// Coding systems from which there is no return (the registry of ISO 2022, ISO-IR 162 to 195).
pub static SETS_OTHER: &str = "\
@ UCS-2, level 1
A UCS-4, level 1
C UCS-2, level 2
D UCS-4, level 2
E UCS-2, level 3
F UCS-4, level 3
G UTF-8, level 1
H UTF-8, level 2
I UTF-8, level 3
J UTF-16, level 1
K UTF-16, level 2
L UTF-16, level 3";
