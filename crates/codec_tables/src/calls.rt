//! The calls that rows name.
use crate::captured::captured;
use crate::codecs::{base64, bytes_image, emitted, image, link, link_with_id, of_parts};
use crate::heap::is_exact;
use crate::lent::{compared, noise_compared};
use crate::lines::left;
use crate::pages::page;
use crate::painted::painted;
use crate::queries::query_of;
use crate::reused::{at_once, in_turn, is_right, lengthened};
use crate::segments::{counted, listed};
use crate::sixels::{count_of, drawn, written_with};
use crate::typed::function;
use crate::words::word;
use esc_html::is_safe_address;
use esc_values::scalar::text_in;
use failing_alloc::Refusing;
use std::alloc::{AllocError, Global};

/// Returns the result of a call with this input, if its memory comes from the heap.
///
/// - `link` and `link-with-id`: the Debug text and the text of `Hyperlink::new`, and of
///   `Hyperlink::new_with_id` for the address `x`.
/// - `link-of`, `prompt-of` and `file-of`: the Debug text of the result of `parse` of `Hyperlink`,
///   `FinalTermSemanticPrompt` and `ITermFileData` for the parts between `;`.
/// - `base64`: the Debug texts of the bytes and of the text that base64 means.
/// - `image`: the text of the image that `KittyImage::parse_apc` reads, `none` if it is no image;
///   `image-again` says whether that is the data as it came.
/// - `image-of-bytes`: the Debug text and the text of an image that a program made of its bytes.
/// - `sixel`: the Debug text of the data of a sixel image, its text, and its size; `sixel-count`,
///   byte by byte, how many chunks of data that are.
/// - `sixel-value`: whether there is a text of an image, of this value of six pixels, of the image
///   with it last, and of the image with it amid others.
/// - `query-again`: the number of names of a termcap query, byte by byte, that is written as it
///   came.
/// - `segments`: the kind and the length of each; `segment-count`: the number of those of the first
///   one's kind, and of their bytes.
/// - `html` and `html-by-lines`: the HTML of a stream, with the tags that close it; `safe-address`:
///   whether a link of a page may lead to it.
/// - `left`: the final lines of a stream; `left-of-2-by-4`: the same if 2 rows of 4 columns may be
///   written again.
/// - `painted`: the text that paints the screen of a stream, of 12 columns and 4 rows, and
///   `painted-back` whether terminals that read it show that screen; `led` and `led-back`: the same
///   of the text that leads from the screen of a stream to that of the one after FF, and
///   `led-from-smaller` from one of 5 columns and 2 rows.
/// - `lent`: whether the events of a stream that comes in chunks to `heapless_parser` are those of
///   a parser; `lent-noise`: the first stream, made of the chunks between `|`, whose events differ.
/// - `refusing`: whether the allocator that refuses a request refuses this alone; `reusing`:
///   whether the one that keeps blocks passes a refusal on, and gives back the blocks that it
///   keeps.
/// - `held-in-turn` and `held-at-once`: the number of requests that reach the allocator below
///   `caching_alloc` if blocks of these sizes, or so many of one size, are held; `lengthened`:
///   whether a list over it grows, and shrinks.
/// - `read-through`, `write-through` and `flush-through`: what a call of `ErrorCapture` comes to if
///   the calls below it end with these errors.
/// - the sequences and controls of `typed.rt`, and the words and numbers of `words.rt`, which take
///   no memory.
pub fn answer(
    call: &str,
    alloc: Global,
    heap: &Refusing<Global>,
    input: &[u8],
) -> Result<String, AllocError> {
    match call {
        "link" => link(alloc, heap, text(input)),
        "link-with-id" => link_with_id(alloc, heap, text(input)),
        "link-of" | "prompt-of" | "file-of" => of_parts(call, alloc, heap, input),
        "base64" => base64(alloc, heap, input),
        "image" => image(alloc, heap, input, b""),
        "image-again" => image(alloc, heap, input, input),
        "image-of-bytes" => bytes_image(alloc, heap, input),
        "query-again" => query_of(alloc, heap, input),
        "csi" | "esc" | "c0" | "c1" => function(call, alloc, input),
        _ => of_stream(call, alloc, heap, input),
    }
}

// Does the same for streams and for sixel images.
fn of_stream(
    call: &str,
    alloc: Global,
    heap: &Refusing<Global>,
    input: &[u8],
) -> Result<String, AllocError> {
    match call {
        "sixel" => drawn(alloc, heap, input),
        "sixel-count" => count_of(alloc, heap, input),
        "sixel-value" => written_with(alloc, heap, input),
        "segments" => listed(alloc, input),
        "segment-count" => counted(alloc, input),
        "html" | "html-by-lines" => page(alloc, heap, input, call == "html-by-lines"),
        "left" => left(alloc, heap, input, (32, 200)),
        "left-of-2-by-4" => left(alloc, heap, input, (2, 4)),
        "painted" | "painted-back" | "led" | "led-back" | "led-from-smaller" => {
            painted(call, alloc, heap, input)
        }
        "safe-address" => emitted(alloc, is_safe_address(text(input))),
        _ => of_allocator(call, alloc, heap, input),
    }
}

// Does the same for allocators, and for the parser that is lent its memory.
fn of_allocator(
    call: &str,
    alloc: Global,
    heap: &Refusing<Global>,
    input: &[u8],
) -> Result<String, AllocError> {
    match call {
        "lent" => compared(alloc, input),
        "lent-noise" => noise_compared(alloc, input),
        "refusing" => emitted(alloc, is_exact(alloc)),
        "reusing" => emitted(alloc, is_right(alloc)),
        "held-in-turn" => in_turn(alloc, heap, text(input)),
        "held-at-once" => at_once(alloc, heap, text(input)),
        "lengthened" => lengthened(alloc, heap, text(input)),
        "read-through" | "write-through" | "flush-through" => captured(call, alloc, input),
        _ => word(call, alloc, input),
    }
}

/// Returns the text of these bytes, empty if they are none.
pub fn text(bytes: &[u8]) -> &str {
    text_in(bytes).unwrap_or("")
}
