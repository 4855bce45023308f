//! A parser of terminal escape sequences in the memory of its caller, for `stream_c`. It follows
//! the parser of DEC's terminals (<https://vt100.net/emu/dec_ansi_parser>) as `esc_frame` does.
//!
//! [`next`](next::next) takes bytes of a stream up to the next [`EscEvent`](event::EscEvent). An
//! unfinished segment stays in an [`EscParser`](parser::EscParser) and in the lower half of a
//! buffer; the texts of strings come in its upper half. No call takes memory, and a stream can be
//! cut anywhere.
//!
//! ```text
//! let (mut parser, mut event) = (EscParser::new(), EscEvent::new());
//! let mut buffer = [0; 64];
//! next(&mut parser, &mut buffer, b"\x1b[1mbold", &mut event)     // 4: event.kind is CSI
//! ```
#![tactic(auto)]

pub mod advance;
pub mod bodies;
pub mod breaks;
pub mod characters;
pub mod chunks;
pub mod commands;
pub mod csi_params;
pub mod data;
pub mod escapes;
pub mod event;
pub mod fields;
pub mod headers;
pub mod laws;
pub mod leaving;
pub mod limited;
pub mod load;
pub mod named;
pub mod next;
pub mod no_memory;
pub mod numbers;
pub mod openers;
pub mod parser;
pub mod quick;
pub mod recorder;
pub mod runs;
pub mod step;
pub mod strings;
pub mod text;
pub mod unload;
