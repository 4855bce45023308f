//! This module says how a sixel string is read, byte by byte.
ghost use Rattle.std.specs.Prelude.{◌≡◌, ◌<◌, ◌≤◌, IfOk, IfSome, ℕ, ℤ, length, take, List, [], ◌∷◌, ◌++◌, OnOk, OnErr, Some, None, false, true};
ghost use Rattle.std.specs.List.{FoldsTo, slice_get};
ghost use Rattle.std.specs.Option.{is_some};
ghost use Rattle.fallible_alloc.specs.Refusals.{Refused};
ghost use Rattle.esc_sixel.specs.Classes.{class_of};
ghost use Rattle.esc_sixel.specs.Items.{items, OfRaster, OfColor};
ghost use Rattle.esc_sixel.specs.Meaning.{sixel_of, header_pan, is_one};
ghost use Rattle.esc_sixel.specs.Runs.{Keeps};
ghost use Rattle.esc_sixel.specs.declared.class.Class.TheVariants.{Pixels};
ghost use Rattle.esc_sixel.specs.Steps.{add_to, ended_items, lone_item, HasConsumed, HoldsOpen, In, Pushes, closed_by, open_by, opened_command, with_item, with_items};
ghost use Rattle.esc_sixel.specs.Steps.{Closed, gives_at_end, is_data, wants_memory};
ghost use Rattle.esc_sixel.specs.Taking.{AreOutside, ComesOutside, TakesFirst, with_slice};
ghost use Rattle.esc_sixel.specs.declared.introducer.Introducer.TheVariants.{Color};

use crate::class::{Class, classify};
use crate::commands::{channel_of, color, repeat, signed, sizes};
use crate::few_digits::{count_of_pixels, number_before};
use crate::introducer::Introducer;
use crate::parameters::Parameters;
use crate::pixels::{Line, line_end, make_room, pixels_run, push_line, push_pixels};
use crate::sixel::Sixel;
use crate::sixel_data::SixelData;
use esc_values::{Items, RgbColor};
use std::alloc::{AllocError, Allocator, Global};

/// Reads a sixel string: the parameters of its header, and then its data byte by byte.
///
/// In the data `$` is a carriage return, `-` a new line, and 3F to 7E six pixels. `!`, `#` and `"`
/// begin a command, which goes on as digits and `;` follow, its parameters, of which five count.
/// Any other byte, and digits and `;` outside a command, are dropped. Numbers saturate.
///
/// - `!` with six pixels directly after it repeats them, once if the count is missing; else it
///   gives nothing.
/// - `#` with four `;` or more gives a colour to a number: in hue, lightness and saturation if the
///   second parameter is 1, else in percentages of red, green and blue; 0 if one is missing. With
///   fewer it selects a colour.
/// - `"` sets pan, 2 if it is missing, and pad, 1 if it is. With three `;` or more it sets both
///   sizes too; if one is missing or past `u32`, or the product is over 100,000,000, there are no
///   sizes, and the data so far is dropped.
#[derive(Drop)]
pub struct SixelBuilder<A: Allocator = Global> {
    /// The image: right after a `finish` that succeeded it is the meaning of the bytes that were
    /// pushed.
    pub sixel: Sixel<A>,
    introducer: Option<Introducer>,
    parameters: Parameters,
}

// The number of slices of data for which memory is taken before they come. Many bytes can give few
// of them.
const MOST_ROOM: usize = 4096;

// Returns the pan that the first parameter of a header means.
fn pan_of(params: &[i64]) -> i64
    ensures { result ≡ header_pan params.now }
{
    let Some((first, _)) = params.split_first() else {
        return 2;
    };
    match *first {
        2 => 5,
        3 | 4 => 3,
        7 | 8 | 9 => 1,
        _ => 2,
    }
}

// Returns whether the second parameter of a header is 1.
fn is_transparent(params: &[i64]) -> bool
    ensures { result ≡ is_one (slice_get params.now 1) }
{
    match params.get(1) {
        Some(1) => true,
        _ => false,
    }
}

// Returns the third parameter of a header.
fn grid_of(params: &[i64]) -> Option<i64>
    ensures { result ≡ slice_get params.now 2 }
{
    params.get(2).copied()
}

impl<A: Allocator> SixelBuilder<A> {
    /// Returns a builder of an image with these parameters of its header, before any data. Takes no
    /// memory.
    ///
    /// The first means pan: 7, 8 and 9 mean 1; 0, 1, 5 and 6 mean 2; 3 and 4 mean 3; 2 means 5; any
    /// other, or none, 2. If the second is 1 the background is transparent. The third is the
    /// horizontal grid size.
    #[tactic(auto, unfolding(crate::specs::Steps::HasConsumed))]
    pub fn new(alloc: A, params: &[i64]) -> SixelBuilder<A>
        ensures { HasConsumed params.now [] result }
    {
        SixelBuilder {
            sixel: Sixel {
                pan: pan_of(params),
                pad: 1,
                pixel_width: None,
                pixel_height: None,
                background_is_transparent: is_transparent(params),
                horizontal_grid_size: grid_of(params),
                content: Items::new(alloc),
            },
            introducer: None,
            parameters: Parameters::new(),
        }
    }

    /// Takes one more byte of the data. Takes memory only if the byte is six pixels, `$` or `-`, or
    /// ends a `#`. The error is that it was refused, and the builder stays as it was.
    #[inline(always)]
    pub fn push(&mut self, byte: u8) -> Result<(), AllocError>
        ensures ok { (ps : List ℤ) (s : List ℕ) → HasConsumed ps s self.old
            → OnOk result (HasConsumed ps (s ++ byte ∷ []) self.new) }
        ensures err { OnErr result (self.new ≡ self.old) }
        ensures refused { OnErr result (Refused A) }
        ensures asks { OnErr result (wants_memory self.old.introducer (class_of byte) ≡ true) }
    {
        match self.introducer {
            None => self.push_alone(byte),
            Some(introducer) => self.push_after(introducer, byte),
        }
    }

    /// Takes these bytes of the data, with the effect of a `push` of each. Memory for the data that
    /// they can give is taken first, for up to 4096 slices of data. The error is that memory was
    /// refused; the builder has then taken none of them, or those before the bytes that needed more
    /// of it.
    pub fn push_run(&mut self, bytes: &[u8]) -> Result<(), AllocError>
        ensures each { OnOk result (FoldsTo Pushes self.old bytes.now self.new) }
        ensures ok { (ps : List ℤ) (s : List ℕ) → HasConsumed ps s self.old
            → OnOk result (HasConsumed ps (s ++ bytes.now) self.new) }
        ensures err { OnErr result ((n : ℕ) × (n < length bytes.now)
            × FoldsTo Pushes self.old (take n bytes.now) self.new) }
        ensures refused { OnErr result (Refused A) }
    {
        if bytes.is_empty() {
            return Ok(());
        }
        // A byte gives one slice of data or none, but for the first after a colour.
        make_room(
            &mut self.sixel.content,
            &bytes[..bytes.len().min(MOST_ROOM)],
        )?;
        let mut at = 0;
        while at < bytes.len() {
            at += self.push_some(&bytes[at..])?;
        }
        Ok(())
    }

    // Takes the first byte of these, or the longest prefix of six pixels outside a command, or of
    // digits in one; returns how many it took.
    #[inline(always)]
    fn push_some(&mut self, rest: &[u8]) -> Result<usize, AllocError>
        requires { 0 < length rest.now }
        ensures ok { IfOk result (λ n. TakesFirst self.old rest.now n self.new) }
        ensures err { OnErr result (self.new ≡ self.old) }
        ensures refused { OnErr result (Refused A) }
    {
        if let None = self.introducer {
            let run = pixels_run(rest);
            if run > 0 {
                push_pixels(&mut self.sixel.content, &rest[..run])?;
                return Ok(run + self.end_line(&rest[run..]));
            }
            if rest[0] == b'#' {
                return self.push_selected(rest);
            }
            if let Some((pixels, taken)) = self.repeated(rest) {
                self.sixel.content.push(pixels)?;
                return Ok(taken);
            }
        } else {
            if let Some((color, taken)) = self.defined(rest) {
                self.sixel.content.push(color)?;
                return Ok(taken);
            }
            let digits = self.parameters.digits(rest);
            if digits > 0 {
                return Ok(digits);
            }
        }
        self.push(rest[0])?;
        Ok(1)
    }

    // Takes the first byte of these outside a command, if it ends a line and memory for its data is
    // not refused; returns the number of bytes that it took.
    #[inline(always)]
    fn end_line(&mut self, rest: &[u8]) -> usize
        requires { self.old.introducer ≡ None }
        ensures few { result ≤ length rest.now }
        ensures takes { FoldsTo Pushes self.old (take result rest.now) self.new }
    {
        if rest.is_empty() {
            return 0;
        }
        let Some(end) = line_end(rest[0]) else {
            return 0;
        };
        // The pixels before it took memory for it too. Were it refused, the byte is not taken: the
        // next step pushes it again, and returns the error.
        match self.sixel.content.push(end) {
            Ok(()) => 1,
            Err(_) => 0,
        }
    }

    // Takes a `#` outside a command. It takes a `#` with its number, a `!` with its count and six
    // pixels, and the pixels after them and the end of their line, if the first come first and
    // their numbers have up to four digits, else the `#`; returns the number of bytes that it took.
    #[inline(always)]
    fn push_selected(&mut self, rest: &[u8]) -> Result<usize, AllocError>
        requires { ComesOutside self.old 0x23 rest.now }
        ensures ok { IfOk result (λ n. TakesFirst self.old rest.now n self.new) }
        ensures err { OnErr result (self.new ≡ self.old) }
        ensures refused { OnErr result (Refused A) }
    {
        if let Some((color, digits)) = number_before(rest, 1, b'!') {
            let at = digits + 2;
            if let Some((repeat_count, digits)) = count_of_pixels(rest, at) {
                let last = at + digits;
                let after = &rest[last + 1..];
                let run = pixels_run(after);
                let line = Line {
                    selected: SixelData::SelectColorMapEntry(color as u16),
                    repeated: SixelData::Repeat {
                        repeat_count,
                        content: rest[last] - 0x3f,
                    },
                    run: &after[..run],
                };
                push_line(&mut self.sixel.content, &line)?;
                let end = last + 1 + run;
                return Ok(end + self.end_line(&rest[end..]));
            }
        }
        self.push(rest[0])?;
        Ok(1)
    }

    // Outside a command: a `!`, its count of up to four digits and six pixels, if these come first.
    // Gives the pixels, and the number of these bytes.
    #[inline(always)]
    fn repeated(&self, rest: &[u8]) -> Option<(SixelData, usize)>
        requires { AreOutside self.now rest.now }
        ensures { IfSome result (λ r. TakesFirst self.now rest.now r.1
            (with_slice self.now r.0)) }
    {
        if rest[0] != b'!' {
            return None;
        }
        let Some((repeat_count, digits)) = count_of_pixels(rest, 1) else {
            return None;
        };
        let last = 1 + digits;
        let content = rest[last] - 0x3f;
        let pixels = SixelData::Repeat {
            repeat_count,
            content,
        };
        Some((pixels, last + 1))
    }

    // Right after a `#`: a colour's number, `2` and its percentages, of up to four digits each, and
    // another `#`, if these come first. Gives the colour, and the number of these bytes.
    #[inline(always)]
    fn defined(&self, rest: &[u8]) -> Option<(SixelData, usize)>
        ensures { IfSome result (λ r. TakesFirst self.now rest.now r.1
            (with_slice self.now r.0)) }
    {
        let Some(Introducer::Color) = self.introducer else {
            return None;
        };
        if !self.parameters.is_new() {
            return None;
        }
        let Some((number, digits)) = number_before(rest, 0, b';') else {
            return None;
        };
        let two = digits + 1;
        if rest.len() - two < 2 || rest[two] != b'2' || rest[two + 1] != b';' {
            return None;
        }
        let at = two + 2;
        let Some((red, digits)) = number_before(rest, at, b';') else {
            return None;
        };
        let after_red = at + digits + 1;
        let Some((green, digits)) = number_before(rest, after_red, b';') else {
            return None;
        };
        let after_green = after_red + digits + 1;
        let Some((blue, digits)) = number_before(rest, after_green, b'#') else {
            return None;
        };
        let rgb = RgbColor::new_8bpc(channel_of(red), channel_of(green), channel_of(blue));
        let color_number = number as u16;
        let color = SixelData::DefineColorMapRGB { color_number, rgb };
        Some((color, after_green + digits + 1))
    }

    /// Ends the data, and a command with it: the field `sixel` is the image that the parameters and
    /// all bytes mean. To bytes that are pushed later, this counts as a byte that is dropped. Takes
    /// memory only if a `#` is open. The error is that it was refused, and the builder stays as it
    /// was.
    pub fn finish(&mut self) -> Result<(), AllocError>
        ensures ok { (ps : List ℤ) (s : List ℕ) → HasConsumed ps s self.old
            → OnOk result (HasConsumed ps (s ++ 0 ∷ []) self.new
            × (self.new.sixel ≡ sixel_of ps (items s))) }
        ensures err { OnErr result (self.new ≡ self.old) }
        ensures refused { OnErr result (Refused A) }
        ensures asks { OnErr result (self.old.introducer ≡ Some Color) }
    {
        self.push(0)
    }

    // Ends a `#`; `next` is the data of the byte after it.
    #[tactic(auto, using(std::proofs::Common::append_assoc))]
    fn end_color(&mut self, next: Option<SixelData>) -> Result<(), AllocError>
        ensures ok { (r : List ℕ) → Keeps self.old.parameters r
            → OnOk result (self.new.sixel ≡ add_to (with_item self.old.sixel (OfColor r)) next) }
        ensures err { OnErr result (self.new ≡ self.old) }
        ensures refused { OnErr result (Refused A) }
    {
        let color = color(&self.parameters);
        self.sixel.content.push_two(color, next)
    }

    // Ends a `"`; `next` is the data of the byte after it.
    fn end_raster(&mut self, next: Option<SixelData>) -> Result<(), AllocError>
        ensures ok { (r : List ℕ) → Keeps self.old.parameters r
            → OnOk result (self.new.sixel ≡ add_to (with_item self.old.sixel (OfRaster r)) next) }
        ensures err { OnErr result (self.new ≡ self.old) }
        ensures refused { OnErr result (Refused A) }
        ensures asks { OnErr result (is_some next ≡ true) }
    {
        let pan = signed(&self.parameters, 0, 2);
        let pad = signed(&self.parameters, 1, 1);
        if !self.parameters.has_separators(3) {
            self.sixel.content.push_optional(next)?;
        } else if let Some((width, height)) = sizes(&self.parameters) {
            self.sixel.content.push_optional(next)?;
            self.sixel.pixel_width = Some(width);
            self.sixel.pixel_height = Some(height);
        } else {
            self.sixel.content.restart(next)?;
            self.sixel.pixel_width = None;
            self.sixel.pixel_height = None;
        }
        self.sixel.pan = pan;
        self.sixel.pad = pad;
        Ok(())
    }

    // Ends a command; `next` is the data of the byte after it.
    fn end_command(
        &mut self,
        introducer: Introducer,
        next: Option<SixelData>,
    ) -> Result<(), AllocError>
        ensures ok { (r : List ℕ) → Keeps self.old.parameters r
            → OnOk result (self.new.sixel
            ≡ add_to (with_items self.old.sixel (ended_items (In introducer r))) next) }
        ensures err { OnErr result (self.new ≡ self.old) }
        ensures refused { OnErr result (Refused A) }
        ensures asks { OnErr result (gives_at_end introducer (is_some next) ≡ true) }
    {
        match introducer {
            Introducer::Repeat => self.sixel.content.push_optional(next),
            Introducer::Color => self.end_color(next),
            Introducer::Raster => self.end_raster(next),
        }
    }

    // Ends a command, before a byte that begins none.
    fn end(&mut self, introducer: Introducer, next: Option<SixelData>) -> Result<(), AllocError>
        ensures ok { (r : List ℕ) → Keeps self.old.parameters r
            → OnOk result
            ((self.new.sixel ≡ add_to (with_items self.old.sixel (ended_items (In introducer r)))
            next)
            × (self.new.introducer ≡ None)) }
        ensures err { OnErr result (self.new ≡ self.old) }
        ensures refused { OnErr result (Refused A) }
        ensures asks { OnErr result (gives_at_end introducer (is_some next) ≡ true) }
    {
        self.end_command(introducer, next)?;
        self.introducer = None;
        Ok(())
    }

    // Ends a command, and begins another.
    fn end_and_begin(&mut self, introducer: Introducer, begun: Introducer) -> Result<(), AllocError>
        ensures ok { (r : List ℕ) → Keeps self.old.parameters r
            → OnOk result
            ((self.new.sixel ≡ add_to (with_items self.old.sixel (ended_items (In introducer r)))
            None)
            × HoldsOpen (In begun []) self.new.introducer self.new.parameters) }
        ensures err { OnErr result (self.new ≡ self.old) }
        ensures refused { OnErr result (Refused A) }
        ensures asks { OnErr result (gives_at_end introducer false ≡ true) }
    {
        self.end_command(introducer, None)?;
        self.introducer = Some(begun);
        self.parameters = Parameters::new();
        Ok(())
    }

    // Ends a command, before six pixels.
    fn end_before_pixels(&mut self, introducer: Introducer, value: u8) -> Result<(), AllocError>
        ensures ok { (r : List ℕ) (b : ℕ) → Keeps self.old.parameters r
            → OnOk result
            ((self.new.sixel
            ≡ with_items self.old.sixel (closed_by (In introducer r) (Pixels value) b))
            × (self.new.introducer ≡ None)) }
        ensures err { OnErr result (self.new ≡ self.old) }
        ensures refused { OnErr result (Refused A) }
        ensures asks { OnErr result (gives_at_end introducer true ≡ true) }
    {
        match introducer {
            Introducer::Repeat => {
                self.sixel.content.push(repeat(&self.parameters, value))?;
                self.introducer = None;
                Ok(())
            }
            Introducer::Color => self.end(introducer, Some(SixelData::Data(value))),
            Introducer::Raster => self.end(introducer, Some(SixelData::Data(value))),
        }
    }

    // Takes a byte within or after a command.
    #[inline(always)]
    fn push_after(&mut self, introducer: Introducer, byte: u8) -> Result<(), AllocError>
        ensures ok { (r : List ℕ)
            → HoldsOpen (In introducer r) self.old.introducer self.old.parameters
            → OnOk result
            ((self.new.sixel
            ≡ with_items self.old.sixel (closed_by (In introducer r) (class_of byte) byte))
            × HoldsOpen (open_by (In introducer r) (class_of byte) byte) self.new.introducer
            self.new.parameters) }
        ensures err { OnErr result (self.new ≡ self.old) }
        ensures refused { OnErr result (Refused A) }
        ensures asks { OnErr result (wants_memory (Some introducer) (class_of byte) ≡ true) }
    {
        match classify(byte) {
            Class::Digit(digit) => {
                self.parameters.digit(digit);
                Ok(())
            }
            Class::Separator => {
                self.parameters.separator();
                Ok(())
            }
            Class::Pixels(value) => self.end_before_pixels(introducer, value),
            Class::Return => self.end(introducer, Some(SixelData::CarriageReturn)),
            Class::Line => self.end(introducer, Some(SixelData::NewLine)),
            Class::Introduces(begun) => self.end_and_begin(introducer, begun),
            Class::Junk => self.end(introducer, None),
        }
    }

    // Takes a byte outside a command.
    #[inline(always)]
    fn push_alone(&mut self, byte: u8) -> Result<(), AllocError>
        ensures ok { (b : ℕ) → HoldsOpen Closed self.old.introducer self.old.parameters
            → OnOk result
            ((self.new.sixel ≡ with_items self.old.sixel (lone_item (class_of byte) b))
            × HoldsOpen (opened_command (class_of byte)) self.new.introducer self.new.parameters) }
        ensures err { OnErr result (self.new ≡ self.old) }
        ensures refused { OnErr result (Refused A) }
        ensures asks { OnErr result (is_data (class_of byte) ≡ true) }
    {
        match classify(byte) {
            Class::Return => self.sixel.content.push(SixelData::CarriageReturn),
            Class::Line => self.sixel.content.push(SixelData::NewLine),
            Class::Pixels(value) => self.sixel.content.push(SixelData::Data(value)),
            Class::Introduces(begun) => {
                self.introducer = Some(begun);
                self.parameters = Parameters::new();
                Ok(())
            }
            Class::Digit(_) => Ok(()),
            Class::Separator => Ok(()),
            Class::Junk => Ok(()),
        }
    }
}
