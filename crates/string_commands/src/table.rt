//! The table of control strings.
//!
//! The sources of operating system commands: xterm's list
//! (<https://invisible-island.net/xterm/ctlseqs/ctlseqs.html>, "Operating System Commands"),
//! urxvt(7), foot-ctlseqs(7), kitty's protocols
//! (<https://sw.kovidgoyal.net/kitty/protocol-extensions/>), iTerm2
//! (<https://iterm2.com/documentation-escape-codes.html>), ConEmu
//! (<https://conemu.github.io/en/AnsiEscapeCodes.html>), Visual Studio Code
//! (<https://code.visualstudio.com/docs/terminal/shell-integration>), mintty
//! (<https://github.com/mintty/mintty/wiki/CtrlSeqs>), systemd
//! (<https://uapi-group.org/specifications/specs/osc_context/>) and console_codes(4).
//!
//! Device control strings come from the VT510's manual
//! (<https://vt100.net/docs/vt510-rm/chapter4.html>), DEC's manual of ReGIS
//! (<https://vt100.net/docs/vt3xx-gp/chapter1.html>), xterm's list ("Device-Control functions"),
//! tmux(1) and kitty's remote control (<https://sw.kovidgoyal.net/kitty/rc_protocol/>). Application
//! program commands come from kitty's graphics protocol
//! (<https://sw.kovidgoyal.net/kitty/graphics-protocol/>, "Control data reference").

ghost use Rattle.std.specs.Prelude.{◌≡◌, ◌<◌, IfSome, [], get_or, length, map};
ghost use Rattle.string_commands.specs.Rows.{Finds, IsRow, entry_at, place_below, place_named, place_of};

use crate::begin::Begin;
use crate::columns::{alone, entries, fields, names, params, said, starts, words};
use crate::entry::Entry;
use crate::lookup::{first_fit, first_named};
use crate::row::Row;
use crate::string_kind::StringKind;
use crate::table_macros::{each, given, key, part, row};

// The keys of a mark of a shell.
const PROMPT: &str = "\
p:?aid~application/cl=line~a click moves within the line/cl=m~a click moves to the left and to the \
right/cl=v~a click moves also up and down/cl=w~a click moves also up and down, to where a line \
ends/cl~clicks/k=i~initial/k=r~at the right side/k=c~continuation/k=s~secondary/k~kind/\
redraw=0~the shell does not draw it again/redraw=1~the shell draws it again/click_events=1~clicks \
are sent/cmdline~command line/cmdline_url~command line/err~error";

// The keys of a file of iTerm2.
const FILE: &str = "\
F:?name~$name/size~size/inline=1~shown/inline=0~stored/width~width/height~height/\
preserveAspectRatio=0~ratio not kept/preserveAspectRatio=1~ratio kept/doNotMoveCursor=1~cursor not \
moved/type~type";

// A row a line: the keys of the string; its description; if that is not also the words before its
// parts, `said` and these, and `alone` and the words if it has no part; for a device control string
// the fields of its parameters; the fields of the rest of its text.
//
//   Osc(NUMBER), Osc(NUMBER, PART)     an operating system command, of which the text after its
//                                      number begins with the part
//   Letter(LETTER)                     one that has a letter in place of the number
//   Dcs(NAME, [BYTES]), Dcs(NAME, [BYTES], BEGIN)
//                                      a device control string: its name; its private prefix, its
//                                      intermediates and its final byte; what tells it apart
//   Apc(NAME, BYTE), Apc(NAME, BYTE, KEY)
//                                      an application program command: its name, its first byte,
//                                      and a key that it has
//
// Among those of one key the ones that are told apart come first.
macro_rules! strings {
    ($part:ident) => {
        each![$part;
            Osc(0), "icon name and window title", "r:";
            Osc(1), "icon name", "r:";
            Osc(2), "window title", "r:";
            Osc(3), "X property", "r:";
            Osc(4), "colours of the palette" said "", "*n:, colour|q:";
            Osc(5), "special colours" said "", "*v:, special colour?0~bold/1~underline/2~blink/\
            3~reverse/4~italic|q:";
            Osc(6, "1;bg"), "iTerm2 tab colour, background", "t:,|v:,?brightness~brightness|n:";
            Osc(6, "1;fg"), "iTerm2 tab colour, foreground", "t:,|v:,?brightness~brightness|n:";
            Osc(6, "0"), "switch special colour bold", "v:?0~off/1~on|r:,";
            Osc(6, "1"), "switch special colour underline", "v:?0~off/1~on|r:,";
            Osc(6, "2"), "switch special colour blink", "v:?0~off/1~on|r:,";
            Osc(6, "3"), "switch special colour reverse", "v:?0~off/1~on|r:,";
            Osc(6, "4"), "switch special colour italic", "v:?0~off/1~on|r:,";
            Osc(6), "switch a special colour, or the document of Apple's terminal", "r:";
            Osc(7), "working directory", "r:";
            Osc(8), "hyperlink, or where no address is given the end of one", "t:, parameters|r:, \
            address";
            Osc(9, "1"), "ConEmu sleeps", "n:, milliseconds";
            Osc(9, "2"), "ConEmu message box", "r:";
            Osc(9, "3"), "ConEmu tab title", "r:";
            Osc(9, "4;0"), "progress ends", "";
            Osc(9, "4;1"), "progress", "%:";
            Osc(9, "4;2"), "progress with an error", "%:";
            Osc(9, "4;3"), "progress without an end in sight", "";
            Osc(9, "4;4"), "progress pauses", "%:";
            Osc(9, "4"), "progress", "n:, state|%:,";
            Osc(9, "5"), "ConEmu waits for a key", "";
            Osc(9, "6"), "ConEmu runs a macro", "r:";
            Osc(9, "7"), "ConEmu runs a process", "r:";
            Osc(9, "8"), "ConEmu shows an environment variable", "r:";
            Osc(9, "9"), "working directory", "r:";
            Osc(9, "10"), "ConEmu xterm keys", "v:?0~off/1~on/2~as for output too/3~on for output";
            Osc(9, "11"), "ConEmu comment", "r:";
            Osc(9, "12"), "ConEmu marks the start of a prompt", "r:";
            Osc(9), "notification", "r:";
            Osc(10), "colour of the foreground, and those after it" said "", "q:, foreground|q:, \
            background|q:, cursor|q:, pointer foreground|q:, pointer background|q:, Tektronix \
            foreground|q:, Tektronix background|q:, highlight background|q:, Tektronix cursor|q:, \
            highlight foreground";
            Osc(11), "colour of the background, and those after it" said "", "q:, background|q:, \
            cursor|q:, pointer foreground|q:, pointer background|q:, Tektronix foreground|q:, \
            Tektronix background|q:, highlight background|q:, Tektronix cursor|q:, highlight \
            foreground";
            Osc(12), "colour of the cursor, and those after it" said "", "q:, cursor|q:, pointer \
            foreground|q:, pointer background|q:, Tektronix foreground|q:, Tektronix background|\
            q:, highlight background|q:, Tektronix cursor|q:, highlight foreground";
            Osc(13), "colour of the pointer's foreground, and those after it" said "", "q:, \
            pointer foreground|q:, pointer background|q:, Tektronix foreground|q:, Tektronix \
            background|q:, highlight background|q:, Tektronix cursor|q:, highlight foreground";
            Osc(14), "colour of the pointer's background, and those after it" said "", "q:, \
            pointer background|q:, Tektronix foreground|q:, Tektronix background|q:, highlight \
            background|q:, Tektronix cursor|q:, highlight foreground";
            Osc(15), "colour of Tektronix's foreground, and those after it" said "", "q:, \
            Tektronix foreground|q:, Tektronix background|q:, highlight background|q:, Tektronix \
            cursor|q:, highlight foreground";
            Osc(16), "colour of Tektronix's background, and those after it" said "", "q:, \
            Tektronix background|q:, highlight background|q:, Tektronix cursor|q:, highlight \
            foreground";
            Osc(17), "colour of the highlight's background, and those after it" said "", "q:, \
            highlight background|q:, Tektronix cursor|q:, highlight foreground";
            Osc(18), "colour of Tektronix's cursor, and those after it" said "", "q:, Tektronix \
            cursor|q:, highlight foreground";
            Osc(19), "colour of the highlight's foreground" said "", "q:, highlight foreground";
            Osc(20), "urxvt background image", "r:";
            Osc(21), "kitty colours", "p:?";
            Osc(22), "shape of the pointer" alone "default shape of the pointer", "r:";
            Osc(30), "Konsole tab title", "r:";
            Osc(31), "Konsole tab title of a remote session", "r:";
            Osc(39), "colour of the foreground" said "", "q:, foreground";
            Osc(46), "log file", "r:";
            Osc(49), "colour of the background" said "", "q:, background";
            Osc(50), "font", "r:";
            Osc(51), "Emacs shell", "r:";
            Osc(52), "clipboard", "t:, selection|b:, text, or `?` where it is asked for";
            Osc(55), "log all lines to a file", "r:";
            Osc(60),
                "allowed features, and ask for them" said "allowed features" alone "ask for the allowed features",
                "r:";
            Osc(61),
                "features disallowed without a permission, and ask for them" said "features disallowed without" alone "ask for the disallowed features",
                "r:";
            Osc(66), "kitty text of another size", "o:?s~scale/w~width in cells/n~numerator of the \
            fraction/d~denominator of the fraction/v=0~at the top/v=1~at the bottom/v=2~centred \
            vertically/v~vertical alignment/h=0~at the left/h=1~at the right/h=2~centred \
            horizontally/h~horizontal alignment|r:, text";
            Osc(99), "kitty notification", "o:?i~identifier/p=title~its title/p=body~its body/\
            p=close~close it/p=icon~its icon/p=?~ask what is supported/p=alive~ask which are shown/\
            p=buttons~its buttons/p~part/d=0~more follows/d=1~it is whole/e=1~in base64/e=0~as \
            plain text/a~when clicked/c=1~report when it is closed/u=0~of low urgency/u=1~of \
            normal urgency/u=2~critical/u~urgency/o~shown when/f~application/t~type/s~sound/n~icon/\
            g~icon identifier/w~closed after milliseconds|r:,";
            Osc(104), "reset colours of the palette" said "reset" alone "reset all colours",
                "*n:, colour";
            Osc(105), "reset special colours" said "reset" alone "reset all special colours",
                "*v:, special colour?0~bold/1~underline/2~blink/3~reverse/4~italic";
            Osc(106), "switch special colours" said "switch", "*v:, special colour?0~bold/\
            1~underline/2~blink/3~reverse/4~italic|v:?0~off/1~on";
            Osc(110), "reset foreground", "";
            Osc(111), "reset background", "";
            Osc(112), "reset cursor", "";
            Osc(113), "reset pointer foreground", "";
            Osc(114), "reset pointer background", "";
            Osc(115), "reset Tektronix foreground", "";
            Osc(116), "reset Tektronix background", "";
            Osc(117), "reset highlight background", "";
            Osc(118), "reset Tektronix cursor", "";
            Osc(119), "reset highlight foreground", "";
            Osc(133, "A"), "prompt starts, on a fresh line", PROMPT;
            Osc(133, "B"), "command starts", PROMPT;
            Osc(133, "C"), "output starts", PROMPT;
            Osc(133, "D"), "command ends" alone "command ends, with no status given", "n:, status|\
            p:?aid~application/err~error";
            Osc(133, "I"), "command starts, up to the end of the line", PROMPT;
            Osc(133, "L"), "fresh line", PROMPT;
            Osc(133, "N"), "command ends, prompt starts, on a fresh line", PROMPT;
            Osc(133, "P"), "prompt starts" alone "prompt starts, initial", PROMPT;
            Osc(133), "mark of a shell", "r:";
            Osc(176), "foot application identifier", "r:";
            Osc(440), "mintty plays a sound", "r:";
            Osc(555), "foot flashes the screen", "";
            Osc(633, "A"), "VS Code prompt starts", "";
            Osc(633, "B"), "VS Code command starts", "";
            Osc(633, "C"), "VS Code output starts", "";
            Osc(633, "D"),
                "VS Code command ends" alone "VS Code command ends, with no status given",
                "n:, status";
            Osc(633, "E"), "VS Code command line", "t:|t:, nonce";
            Osc(633, "F"), "VS Code continuation starts", "";
            Osc(633, "G"), "VS Code continuation ends", "";
            Osc(633, "H"), "VS Code right prompt starts", "";
            Osc(633, "I"), "VS Code right prompt ends", "";
            Osc(633, "P"), "VS Code property", "p:?Cwd~working directory/IsWindows~is Windows/\
            HasRichCommandDetection~rich detection of commands/ContinuationPrompt~continuation \
            prompt/Task~task";
            Osc(633, "SetMark"), "VS Code mark", "p:?Id~identifier/Hidden~hidden";
            Osc(633, "EnvSingleStart"), "VS Code environment starts", "r:,";
            Osc(633, "EnvSingleEntry"), "VS Code environment variable", "t:|t:,|r:,";
            Osc(633, "EnvSingleEnd"), "VS Code environment ends", "r:,";
            Osc(633, "EnvJson"), "VS Code environment", "r:";
            Osc(633), "VS Code", "r:";
            Osc(666), "VTE terminal property", "*t:,";
            Osc(697), "Fig shell integration", "r:";
            Osc(701, "?"), "ask for the locale", "";
            Osc(701), "locale", "r:";
            Osc(702, "?"), "ask for urxvt's version", "";
            Osc(702), "urxvt's version", "r:";
            Osc(704), "colour of italic characters" said "", "q:, italic characters";
            Osc(705), "tint of the background" said "", "q:, tint of the background";
            Osc(706), "colour of bold characters" said "", "q:, bold characters";
            Osc(707), "colour of underlined characters" said "", "q:, underlined characters";
            Osc(708), "colour of the border" said "", "q:, border";
            Osc(710), "normal font", "r:";
            Osc(711), "bold font", "r:";
            Osc(712), "italic font", "r:";
            Osc(713), "bold italic font", "r:";
            Osc(720), "scroll the view up", "n:, lines";
            Osc(721), "scroll the view down", "n:, lines";
            Osc(776), "urxvt size of a character", "n:, width|n:, height|n:, ascent";
            Osc(777, "notify"), "notification", "t:, title|r:, text";
            Osc(777, "precmd"), "VTE command ends", "";
            Osc(777, "preexec"), "VTE output starts", "";
            Osc(777, "container"), "VTE container", "v:,?push~starts/pop~ends|t:, name|t:, runtime|\
            r:,";
            Osc(777), "rxvt extension", "*t:,";
            Osc(1337, "SetMark"), "iTerm2 set mark", "";
            Osc(1337, "StealFocus"), "iTerm2 steal focus", "";
            Osc(1337, "ClearScrollback"), "iTerm2 clear scrolled-off lines", "";
            Osc(1337, "CurrentDir"), "iTerm2 working directory", "r:";
            Osc(1337, "SetProfile"), "iTerm2 profile", "r:";
            Osc(1337, "CopyToClipboard"), "iTerm2 copy starts, to pasteboard", "r:";
            Osc(1337, "EndCopy"), "iTerm2 copy ends", "";
            Osc(1337, "HighlightCursorLine"), "iTerm2 cursor line", "v:?yes~highlighted/no~not \
            highlighted";
            Osc(1337, "ReportCellSize"),
                "iTerm2 ask for cell size, and its report" said "iTerm2 report of cell size" alone "iTerm2 ask for cell size",
                "t:, height|t:, width|t:, scale";
            Osc(1337, "Copy"), "iTerm2 copy", "b:";
            Osc(1337, "ReportVariable"), "iTerm2 variable", "b:";
            Osc(1337, "SetUserVar"), "iTerm2 set variable", "V:";
            Osc(1337, "SetBadgeFormat"), "iTerm2 badge", "b:";
            Osc(1337, "File"), "iTerm2 file", FILE;
            Osc(1337, "MultipartFile"), "iTerm2 file in parts", FILE;
            Osc(1337, "FilePart"), "iTerm2 part of a file", "d:, bytes of base64";
            Osc(1337, "FileEnd"), "iTerm2 end of a file in parts", "";
            Osc(1337, "UnicodeVersion"), "iTerm2 Unicode version", "r:";
            Osc(1337, "RemoteHost"), "iTerm2 user and host", "r:";
            Osc(1337, "ShellIntegrationVersion"), "iTerm2 version of the shell integration",
                "n:|t:, shell|r:,";
            Osc(1337, "Capabilities"), "iTerm2 capabilities", "r:";
            Osc(1337, "RequestAttention"), "iTerm2 bounce the icon", "v:?yes~on/no~off/once~once/\
            fireworks~fireworks at the cursor";
            Osc(1337, "RequestUpload"), "iTerm2 ask for files", "r:";
            Osc(1337, "OpenURL"), "iTerm2 open an address", "b:";
            Osc(1337, "SetColors"), "iTerm2 colours", "r:";
            Osc(1337, "CursorShape"), "iTerm2 cursor", "v:?0~block/1~vertical bar/2~underline";
            Osc(1337, "AddAnnotation"), "iTerm2 annotation", "r:";
            Osc(1337, "AddHiddenAnnotation"), "iTerm2 hidden annotation", "r:";
            Osc(1337, "SetBackgroundImageFile"), "iTerm2 background image of a file", "b:";
            Osc(1337, "SetKeyLabel"), "iTerm2 label of a key", "r:";
            Osc(1337, "PushKeyLabels"), "iTerm2 push labels of keys", "r:";
            Osc(1337, "PopKeyLabels"), "iTerm2 pop labels of keys", "r:";
            Osc(1337, "Custom"), "iTerm2 custom control", "r:";
            Osc(1337, "Block"), "iTerm2 block", "p:?attr=start~starts/attr=end~ends/id~identifier";
            Osc(1337, "UpdateBlock"), "iTerm2 change a block", "p:?id~identifier/action~action";
            Osc(1337, "Button"), "iTerm2 button", "p:?type~type/block~of block/code~code/icon~icon";
            Osc(1337, "Disinter"), "iTerm2 unbury the session", "";
            Osc(1337), "iTerm2", "r:";
            Osc(3008), "systemd context", "p:?start~starts/end~ends/type~type/user~user/\
            hostname~host/machineid~machine/bootid~boot/pid~process/pidfdid~process file/\
            comm~command/cwd~working directory/cmdline~command line/vm~virtual machine/\
            container~container/targetuser~target user/targethost~target host/sessionid~session/\
            exit~exit/status~status/signal~signal";
            Osc(5113), "kitty file transfer", "p:?ac~action/zip~compression/ft~file type/\
            tt~transmission type/id~session/fid~file/pw~bypass/q~quiet/mod~modification time/\
            prm~permissions/sz~size/n~$name/st~$status/pr~parent/d~$data";
            Osc(5522), "kitty clipboard", "o:?type~type/loc~location/mime~$MIME type/status~status/\
            name~$name/pw~$password|b:,";
            Osc(7704), "mintty palette", "r:";
            Osc(9001, "CmdNotFound"), "Windows Terminal command not found", "r:";
            Osc(9001), "Windows Terminal", "r:";
            Osc(30001), "kitty push colours", "";
            Osc(30101), "kitty pop colours", "";
            Letter('I'), "icon file", "r:";
            Letter('L'), "icon name", "r:";
            Letter('P'), "a colour of the Linux console's palette, seven digits without an end",
                "r:";
            Letter('R'), "reset the Linux console's palette, without an end", "r:";
            Letter('l'), "window title", "r:";
            Dcs("DECRQSS DECSCPP", [b'$', b'q'], Bytes("$|")), "ask for a setting DECSCPP", "", "";
            Dcs("DECRQSS DECSSDT", [b'$', b'q'], Bytes("$~")), "ask for a setting DECSSDT", "", "";
            Dcs("DECRQSS DECSNLS", [b'$', b'q'], Bytes("*|")), "ask for a setting DECSNLS", "", "";
            Dcs("DECRQSS", [b'$', b'q']), "ask for a setting", "", "v:?m~SGR/r~DECSTBM/s~DECSLRM/\
            t~DECSLPP/\"p~DECSCL/\"q~DECSCA/ q~DECSCUSR/$}~DECSASD/*x~DECSACE";
            Dcs("DECRPSS 0", [b'$', b'r'], Parameter(0)), "report of a setting, not valid", "s:",
                "r:,";
            Dcs("DECRPSS", [b'$', b'r']), "report of a setting", "v:,?1~valid/0~not valid", "S:,";
            Dcs("XTGETTCAP", [b'+', b'q']), "ask for termcap data", "", "*x:";
            Dcs("XTGETTCAP report", [b'+', b'r']), "report of termcap data",
                "v:,?1~valid/0~not valid", "*X:,";
            Dcs("XTSETTCAP", [b'+', b'p']), "set termcap data", "", "*x:";
            Dcs("XTGETXRES", [b'+', b'Q']), "ask for resources", "", "*x:";
            Dcs("XTGETXRES report", [b'+', b'R']), "report of resources", "v:,?1~valid/0~not valid",
                "*X:,";
            Dcs("XTVERSION", [b'>', b'|']), "report of name and version", "", "r:";
            Dcs("DECRPTUI", [b'!', b'|']), "report of the terminal's unit", "", "r:";
            Dcs("DECAUPSS", [b'!', b'u']), "assign preferred supplemental set",
                "v:,?0~of 94/1~of 96", "r:,";
            Dcs("DECDMAC", [b'!', b'z']), "define macro",
                "n:|v:,?0~in place of this one/1~in place of all|v:,?0~as text/1~in hexadecimal digits",
                "r:,";
            Dcs("DECCKSR", [b'!', b'~']), "report of a checksum", "n:, request", "r:,";
            Dcs("DECRSPS", [b'$', b't']), "restore presentation state",
                "v:,?1~of the cursor/2~of tab stops", "r:,";
            Dcs("DECCIR", [b'$', b'u'], Parameter(1)), "report of the cursor", "s:", "r:";
            Dcs("DECTABSR", [b'$', b'u'], Parameter(2)), "report of tab stops", "s:", "r:";
            Dcs("DECTSR", [b'$', b's'], Parameter(1)), "report of the terminal's state", "s:", "r:";
            Dcs("DECCTR", [b'$', b's'], Parameter(2)), "report of the colour table", "s:", "r:";
            Dcs("DECRSTS", [b'$', b'p']), "restore the terminal's state",
                "v:,?1~all/2~the colour table", "r:,";
            Dcs("DECPFK", [b'"', b'x']), "program a function key", "", "r:";
            Dcs("DECPAK", [b'"', b'~']), "program an alphanumeric key", "", "r:";
            Dcs("BSU/ESU", [b'=', b's']), "synchronized update", "v:?1~begins/2~ends", "r:,";
            Dcs("kitty remote", [b'@'], Bytes("kitty-cmd")), "remote control of kitty", "", "r:";
            Dcs("tmux control", [b'p'], Parameter(1000)), "control mode", "s:", "r:";
            Dcs("iTerm2", [b'p'], Parameter(2000)), "integration of ssh", "s:", "r:";
            Dcs("ReGIS", [b'p']), "graphics", "", "r:";
            Dcs("sixel", [b'q']), "image", "", "r:";
            Dcs("DECLBAN", [b'r']), "load the banner", "", "r:";
            Dcs("tmux", [b't'], Bytes("mux;")), "passes on what comes next to the terminal outside",
                "", "r:";
            Dcs("DECLANS", [b'v']), "load the answerback message", "", "x:";
            Dcs("DECDLD", [b'{']), "load characters", "", "r:";
            Dcs("DECUDK", [b'|']), "user-defined keys",
                "v:,?0~all others are cleared/1~the others stay|v:,?0~locked/1~not locked", "r:,";
            Apc("kitty image a=d", b'G', "a=d"), "delete images" said "image", "c:?a=d~delete/\
            d=a~all that are visible/d=A~all that are visible, with data/d=i~by id/d=I~by id, with \
            data/d=n~by number/d=N~by number, with data/d=c~at the cursor/d=C~at the cursor, with \
            data/d=f~frames of animations/d=F~frames of animations, with data/d=p~at a cell/d=P~at \
            a cell, with data/d=q~at a cell and z-index/d=Q~at a cell and z-index, with data/\
            d=r~by a range of ids/d=R~by a range of ids, with data/d=x~in a column/d=X~in a \
            column, with data/d=y~in a row/d=Y~in a row, with data/d=z~of a z-index/d=Z~of a \
            z-index, with data/d~kind/q=1~no answer where it is right/q=2~no answer/q~answers/i~id/\
            I~number/p~placement/x~x/y~y/z~z-index";
            Apc("kitty image a=f", b'G', "a=f"), "send a frame of an animation" said "image",
                "c:?a=f~frame/s~width/v~height/f=24~RGB/f=32~RGBA/f=100~PNG/f~format/t=d~data in \
            the command/t=f~reads a file/t=t~reads a temporary file and deletes it/t=s~reads \
            shared memory/t~medium/S~bytes to read/O~offset/o=z~compressed/o~compression/m=1~more \
            data follows/m=0~last chunk/m~more/q=1~no answer where it is right/q=2~no answer/\
            q~answers/i~id/I~number/x~left/y~top/c~over frame/r~change frame/z~milliseconds/\
            X=1~overwriting/X~mode/Y~background";
            Apc("kitty image a=a", b'G', "a=a"), "run or stop an animation" said "image", "\
            c:?a=a~animation/q=1~no answer where it is right/q=2~no answer/q~answers/i~id/I~number/\
            s=1~stops/s=2~runs and waits for frames/s=3~runs/s~state/r~frame/z~milliseconds/\
            c~current frame/v~loops";
            Apc("kitty image a=c", b'G', "a=c"), "put a frame over another" said "image", "\
            c:?a=c~compose frames/q=1~no answer where it is right/q=2~no answer/q~answers/i~id/\
            I~number/r~from frame/c~onto frame/X~from left/Y~from top/x~left/y~top/w~width/\
            h~height/C=1~overwriting/C~mode";
            Apc("kitty image", b'G'), "send, show or ask for an image" said "image", "\
            c:?a=t~transmit/a=T~transmit and display/a=q~query/a=p~display/a~action/s~width/\
            v~height/f=24~RGB/f=32~RGBA/f=100~PNG/f~format/t=d~data in the command/t=f~reads a \
            file/t=t~reads a temporary file and deletes it/t=s~reads shared memory/t~medium/\
            S~bytes to read/O~offset/o=z~compressed/o~compression/m=1~more data follows/m=0~last \
            chunk/m~more/q=1~no answer where it is right/q=2~no answer/q~answers/i~id/I~number/\
            p~placement/x~left/y~top/w~shown width/h~shown height/X~shift right/Y~shift down/\
            c~columns/r~rows/C=1~cursor not moved/C=0~cursor moved/C~cursor/U=1~by Unicode \
            placeholders/U~placeholders/z~z-index/P~relative to image/Q~relative to placement/\
            H~cells right/V~cells down";
        ]
    };
}

/// Says how many rows there are.
pub const COUNT: usize = 215;

pub(crate) static ENTRIES: [Entry; COUNT] = strings!(entry);

pub(crate) static STARTS: [&str; COUNT] = strings!(start);

pub(crate) static NAMES: [&str; COUNT] = strings!(name);

pub(crate) static WORDS: [&str; COUNT] = strings!(words);

// `=`: the description.
pub(crate) static SAID: [&str; COUNT] = strings!(said);

pub(crate) static ALONE: [&str; COUNT] = strings!(alone);

pub(crate) static PARAMS: [&str; COUNT] = strings!(params);

pub(crate) static FIELDS: [&str; COUNT] = strings!(fields);

// Returns the place of the row of a string.
#[tactic(auto, unfolding(crate::specs::Rows::place_of))]
pub(crate) fn search(kind: StringKind, key: u32, params: &[i64], text: &[u8]) -> Option<usize>
    ensures place { result ≡ place_of kind key params.now text.now }
    ensures below { IfSome result (λ i. i < COUNT) }
{
    first_fit(entries(), starts(), kind, key, params, text)
}

// Returns the place of the row of a name.
#[tactic(auto, unfolding(crate::specs::Rows::place_named))]
pub(crate) fn search_names(name: &[u8]) -> Option<usize>
    ensures place { result ≡ place_named name.now }
    ensures below { IfSome result (λ i. i < COUNT) }
{
    first_named(names(), name)
}

// Returns the row in a place.
pub(crate) fn row_in(place: usize) -> Row
    requires { place < COUNT }
    ensures place { result.place ≡ place }
    ensures row { IsRow result }
{
    let words = text_in(words(), place);
    Row {
        place,
        told: entry_in(place),
        start: text_in(starts(), place),
        name: text_in(names(), place),
        words,
        said: said_or(text_in(said(), place), words),
        alone: text_in(alone(), place),
        params: text_in(params(), place),
        fields: text_in(fields(), place),
    }
}

// Returns the entry in a place.
#[tactic(auto, unfolding(crate::specs::Rows::entry_at))]
fn entry_in(place: usize) -> Entry
    requires { place < COUNT }
    ensures { result ≡ entry_at place }
{
    entries()[place]
}

// Returns the text in this place of a table.
fn text_in(texts: &[&'static str], index: usize) -> &'static str
    requires { index < length texts.now }
    ensures { result.now ≡ get_or (map (λ t. t.now) texts.now) index [] }
{
    texts[index]
}

// Returns the words before a row's parts, which are its description if none are said.
fn said_or(said: &'static str, words: &'static str) -> &'static str {
    if said == "=" { words } else { said }
}

/// Returns the row in this place, from 0 on, if there is one.
#[tactic(auto, using(crate::proofs::Places::row_below, crate::proofs::Places::no_row))]
pub fn row_at(place: usize) -> Option<Row>
    ensures { Finds (place_below place) result }
{
    if place < COUNT {
        Some(row_in(place))
    } else {
        None
    }
}
