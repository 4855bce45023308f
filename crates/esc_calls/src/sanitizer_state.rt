//! The state that a sanitizer in chunks keeps.
ghost use Rattle.std.specs.Prelude.{◌≡◌, ◌++◌, ℕ, List, [], Err, OnErr, OnOk, string_bytes};
ghost use Rattle.esc_calls.specs.SanitizerStates.{Finishes, IsClosing, IsFed, decoder_after, going, state_text};
ghost use Rattle.esc_calls.specs.Sanitizers.{chain};
ghost use Rattle.esc_sanitize.specs.Sanitized.{added_by};
ghost use Rattle.fallible_alloc.specs.Refusals.{Refused};

use crate::settings::Settings;
use esc_decode::{ByteOrder, Utf16Decoder};
use esc_filter::Groups;
use esc_frame::ParseError;
use esc_sanitize::Sanitizer;
use std::alloc::{AllocError, Global};

/// The state that a sanitizer in chunks keeps.
#[derive(Drop)]
pub struct SanitizerState {
    /// The sanitizer of the stream, or of its UTF-8 if it is in UTF-16.
    pub sanitizer: Sanitizer<Groups<'static>>,
    // the decoder of a stream in UTF-16 that goes on
    decoder: Option<Utf16Decoder>,
    // the last bytes that it gave
    decoded: Vec<u8>,
    // the text that the end of the stream added, if it has
    text: String,
    is_closing: bool,
}

impl SanitizerState {
    /// At the beginning of a stream.
    pub(crate) fn new(alloc: Global, settings: Settings) -> SanitizerState
        ensures { IsFed settings [] result }
    {
        SanitizerState {
            sanitizer: Sanitizer::new(alloc, settings.filter),
            decoder: decoder_of(settings.order),
            decoded: Vec::new(alloc),
            text: String::new(alloc),
            is_closing: false,
        }
    }

    /// Takes the next chunk.
    pub(crate) fn feed(&mut self, bytes: &[u8]) -> Result<(), ParseError>
        ensures taken { (o : Settings) (s : List ℕ) → IsFed o s self.old
            → OnOk result (IsFed o (s ++ bytes.now) self.new
            × (going o (s ++ bytes.now) ≡ going o s ++ state_text self.new)) }
        ensures memory { (o : Settings) (s : List ℕ) → IsFed o s self.old
            → OnErr result ((result ≡ Err ParseError.Memory) × Refused Global) }
    {
        let Some(mut decoder) = self.decoder else {
            return self.sanitizer.feed(bytes);
        };
        self.decoded.clear();
        let Ok(()) = decoder.push(bytes, &mut self.decoded) else {
            return Err(ParseError::Memory);
        };
        self.decoder = Some(decoder);
        self.sanitizer.feed(&self.decoded)
    }

    /// Ends the stream.
    pub(crate) fn finish(&mut self) -> Result<(), ParseError>
        ensures ended { (o : Settings) (s : List ℕ) → IsFed o s self.old
            → OnOk result (Finishes o s self.new) }
        ensures memory { (o : Settings) (s : List ℕ) → IsFed o s self.old
            → OnErr result ((result ≡ Err ParseError.Memory) × Refused Global) }
    {
        let Some(mut decoder) = self.decoder else {
            return self.sanitizer.finish();
        };
        self.decoder = None;
        self.decoded.clear();
        let Ok(()) = decoder.end(&mut self.decoded) else {
            return Err(ParseError::Memory);
        };
        let Ok(()) = self.close() else {
            return Err(ParseError::Memory);
        };
        Ok(())
    }

    // Gives the sanitizer the last bytes of the decoder, and ends the stream. It keeps the text
    // that both add.
    fn close(&mut self) -> Result<(), AllocError>
        ensures ended { (o : Settings) (s : List ℕ) → IsClosing o s self.old
            → OnOk result (Finishes o s self.new) }
        ensures refused { (o : Settings) (s : List ℕ) → IsClosing o s self.old
            → OnErr result (Refused Global) }
    {
        let Ok(()) = self.sanitizer.feed(&self.decoded) else {
            return Err(AllocError);
        };
        self.text.clear();
        self.keep_added()?;
        let Ok(()) = self.sanitizer.finish() else {
            return Err(AllocError);
        };
        self.is_closing = true;
        self.keep_added()
    }

    // Appends the text that the last call of the sanitizer added.
    fn keep_added(&mut self) -> Result<(), AllocError>
        ensures same { (self.new.sanitizer ≡ self.old.sanitizer)
            × (self.new.is_closing ≡ self.old.is_closing) }
        ensures kept { OnOk result (string_bytes self.new.text
            ≡ string_bytes self.old.text ++ added_by chain self.old.sanitizer) }
        ensures refused { OnErr result (Refused Global) }
    {
        fallible_alloc::push_str(&mut self.text, self.sanitizer.output())
    }

    /// The text that the last call added.
    pub(crate) fn output(&self) -> &str
        ensures { result.now ≡ state_text self.now }
    {
        if self.is_closing {
            &self.text
        } else {
            self.sanitizer.output()
        }
    }
}

// The decoder at the beginning of a stream in this order of bytes, if it is in UTF-16.
fn decoder_of(order: Option<ByteOrder>) -> Option<Utf16Decoder>
    ensures { result ≡ decoder_after order [] }
{
    match order {
        None => None,
        Some(order) => Some(Utf16Decoder::new(order)),
    }
}
