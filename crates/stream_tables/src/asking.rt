//! This module says which actions and lists are writable.
use crate::reading::Reading;
use escape_stream::csi::Unspecified;
use escape_stream::{
    Action, Boxed, CSI, ControlCode, Esc, Items, OperatingSystemCommand, Sixel, SixelData, Text,
    are_writable, is_writable,
};
use failing_alloc::Refusing;
use std::alloc::{AllocError, Allocator, Global};

// A kind of action that a parser never emits, or not with each value.
#[derive(Clone, Copy)]
enum Made {
    Character(char),
    Characters(&'static str),
    Control(ControlCode),
    Escape(Option<u8>, u8),
    // A control sequence without parameters, whether parameters were left out, and its final byte.
    Sequence(bool, u8),
    Title(&'static str),
    // A sixel image with this value.
    Image(u8),
    // A termcap query for no name.
    Nothing,
}

static MADE: [(Made, bool); 29] = [
    (Made::Character('\u{7f}'), true),
    (Made::Character('\u{a0}'), true),
    (Made::Character('\u{1f}'), false),
    (Made::Character('\u{85}'), false),
    (Made::Characters("h\u{e9}"), true),
    (Made::Characters(""), false),
    (Made::Characters("a\u{85}"), false),
    (Made::Characters("a\nb"), false),
    (Made::Control(ControlCode::Cancel), true),
    (Made::Control(ControlCode::NEL), true),
    (Made::Control(ControlCode::Escape), false),
    (Made::Control(ControlCode::DCS), false),
    (Made::Control(ControlCode::ST), false),
    (Made::Escape(None, b'c'), true),
    (Made::Escape(Some(b' '), b'['), true),
    (Made::Escape(None, b'['), false),
    (Made::Escape(None, b'X'), false),
    (Made::Escape(None, b'H'), false),
    (Made::Escape(None, b' '), false),
    (Made::Escape(Some(b'a'), b'b'), false),
    (Made::Sequence(false, b'H'), true),
    (Made::Sequence(true, b'H'), false),
    (Made::Sequence(false, b'm'), false),
    (Made::Sequence(false, b'1'), false),
    (Made::Title("a;b"), true),
    (Made::Title("a\u{7}b"), false),
    (Made::Image(63), true),
    (Made::Image(64), false),
    (Made::Nothing, false),
];

// Returns an image of one chunk of data, of this value.
fn image<A: Allocator + Copy>(alloc: A, value: u8) -> Result<Action<A>, AllocError> {
    let content = Vec::from_slice(alloc, &[SixelData::Data(value)])?;
    let sixel = Sixel {
        pan: 2,
        pad: 1,
        pixel_width: None,
        pixel_height: None,
        background_is_transparent: false,
        horizontal_grid_size: None,
        content: Items::from_vec(content),
    };
    match Boxed::new(alloc, sixel) {
        Ok(sixel) => Ok(Action::Sixel(sixel)),
        Err(_) => Err(AllocError),
    }
}

fn sequence<A: Allocator + Copy>(
    alloc: A,
    parameters_truncated: bool,
    control: u8,
) -> Result<Action<A>, AllocError> {
    let sequence = Unspecified {
        params: Items::from_vec(Vec::new(alloc)),
        parameters_truncated,
        control,
    };
    match Boxed::new(alloc, sequence) {
        Ok(sequence) => Ok(Action::CSI(CSI::Unspecified(sequence))),
        Err(_) => Err(AllocError),
    }
}

fn title<A: Allocator + Copy>(alloc: A, text: &str) -> Result<Action<A>, AllocError> {
    let title = Text::from_str(alloc, text)?;
    match Boxed::new(alloc, OperatingSystemCommand::SetWindowTitle(title)) {
        Ok(command) => Ok(Action::OperatingSystemCommand(command)),
        Err(_) => Err(AllocError),
    }
}

fn action_of<A: Allocator + Copy>(alloc: A, what: Made) -> Result<Action<A>, AllocError> {
    match what {
        Made::Character(c) => Ok(Action::Print(c)),
        Made::Characters(text) => Ok(Action::PrintString(Text::from_str(alloc, text)?)),
        Made::Control(code) => Ok(Action::Control(code)),
        Made::Escape(intermediate, control) => Ok(Action::Esc(Esc::Unspecified {
            intermediate,
            control,
        })),
        Made::Sequence(is_truncated, control) => sequence(alloc, is_truncated, control),
        Made::Title(text) => title(alloc, text),
        Made::Image(value) => image(alloc, value),
        Made::Nothing => Ok(Action::XtGetTcap(Items::from_vec(Vec::new(alloc)))),
    }
}

// Returns the first request that, refused, makes the answer another one. An error is no other
// answer. The action takes its memory from `alloc`, which is the heap.
fn wrong_request<A: Allocator + Copy>(
    heap: &Refusing<Global>,
    alloc: A,
    action: &Action<A>,
    wanted: bool,
) -> Option<u64> {
    for at in 1..1000u64 {
        heap.refuse_at(at);
        let is_right = match is_writable(alloc, action) {
            Ok(answer) => answer == wanted,
            Err(_) => heap.has_refused(),
        };
        if !is_right {
            return Some(at);
        }
        if !heap.has_refused() {
            return None;
        }
    }
    None
}

// Does the same for an action that was made; 0 if it could not be.
fn wrong_request_of<A: Allocator + Copy>(
    heap: &Refusing<Global>,
    alloc: A,
    made: &Result<Action<A>, AllocError>,
    wanted: bool,
) -> Option<u64> {
    match made {
        Ok(action) => wrong_request(heap, alloc, action, wanted),
        Err(_) => Some(0),
    }
}

// Does the same for an action that is made now.
fn wrong_request_of_made<A: Allocator + Copy>(
    heap: &Refusing<Global>,
    alloc: A,
    what: Made,
    wanted: bool,
) -> Option<u64> {
    heap.refuse_at(0);
    let made = action_of(alloc, what);
    wrong_request_of(heap, alloc, &made, wanted)
}

/// Returns whether each action is writable or not, as its row says. With each request for memory
/// refused in turn, the answer is an error or stays the same.
pub fn are_told(alloc: Global) -> bool {
    let heap = Refusing::new(alloc);
    let mut is_right = true;
    for (what, wanted) in &MADE {
        is_right &= wrong_request_of_made(&heap, &heap, *what, *wanted).is_none();
    }
    is_right
}

// A stream, which of its actions are asked for, and whether these are a writable list.
static PARTS: [(&[u8], usize, usize, bool); 19] = [
    (b"", 0, 0, true),
    (b"ab\r\n", 0, 4, true),
    (b"\x1bP1;2|ab\x1b\\", 0, 5, true),
    (b"\x1bP1;2|ab\x1b\\", 0, 4, true),
    (b"\x1bP1;2|ab\x1b\\", 0, 3, false),
    (b"\x1bP1;2|ab\x1b\\", 0, 1, false),
    (b"\x1bP1;2|ab\x1b\\", 1, 2, false),
    (b"\x1bP1;2|ab\x1b\\", 3, 4, false),
    (b"\x1bP1|\xa0\x1b\\", 0, 3, false),
    (b"\x1bP !#|\x1b\\", 0, 2, false),
    (b"\x1bP$qm\x1b\\", 0, 1, true),
    (b"\x1bP$q\xa0\x1b\\", 0, 1, false),
    (b"\x1bPq?\x1b\\", 0, 1, true),
    (b"\x1bP+q436f\x1b\\", 0, 1, true),
    (b"\x1b_Ga=d\x1b\\", 0, 1, true),
    (b"\x1b]0;hi\x07", 0, 1, true),
    (b"\x1b[1;3m\x1b[2J", 0, 3, true),
    (b"\x1b  [", 0, 1, false),
    (b"a\x1b  [", 0, 2, false),
];

// Returns some of the items, and none if there are fewer.
fn part<T>(items: &[T], from: usize, to: usize) -> Option<&[T]> {
    items.get(from..to)
}

// Returns whether some of the actions of a stream are a writable list; none if there are too few.
fn answer(alloc: Global, stream: &[u8], from: usize, to: usize) -> Option<bool> {
    match Reading::Whole.read(alloc, stream) {
        Ok(actions) => answer_of(alloc, part(&actions, from, to)),
        Err(_) => None,
    }
}

// Returns whether these are a writable list; none if there are none.
fn answer_of(alloc: Global, actions: Option<&[Action]>) -> Option<bool> {
    are_writable(alloc, actions?).ok()
}

/// Returns whether each list is writable or not, as its row says.
pub fn are_lists_told(alloc: Global) -> bool {
    let mut is_right = true;
    for (stream, from, to, wanted) in &PARTS {
        is_right &= answer(alloc, stream, *from, *to) == Some(*wanted);
    }
    is_right
}
