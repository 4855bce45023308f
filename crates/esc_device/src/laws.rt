//! Laws of device control strings: a header that is written is read, a text that is written has its
//! own header and data, whatever follows it, and a string that is read can be written.
ghost use Rattle.std.specs.Prelude.{◌≡◌, ℕ, ℤ, Bool, true, false, List};
ghost use Rattle.std.specs.List.{list_all, list_any};
ghost use Rattle.esc_values.specs.Params.{is_intermediate_byte};
ghost use Rattle.esc_frame.specs.Classes.{AllOf, is_put};
ghost use Rattle.esc_frame.specs.Events.Event.{DcsHook};
ghost use Rattle.esc_frame.specs.Fits.{IsFit};
ghost use Rattle.esc_sixel.specs.Writable.{AreNatural, IsWritable as IsWritableSixel};
ghost use Rattle.esc_sixel.specs.declared.sixel.Sixel.{Sixel};
ghost use Rattle.xtgettcap.specs.Names.{AreWritable as AreWritableNames};
ghost use Rattle.esc_device.specs.Kinds.{kind_of};
ghost use Rattle.esc_device.specs.Says.{IsMark, ReadsBack, EnterSays, ShortSays, SixelSays, QuerySays};
ghost use Rattle.esc_device.specs.Values.{enter_of, short_of};
ghost use Rattle.esc_device.specs.Writable.{AreData, IsWritableEnter, IsWritableShort, is_high_byte};
ghost use Rattle.esc_device.specs.declared.enter.EnterDeviceControlMode.{EnterDeviceControlMode};
ghost use Rattle.esc_device.specs.declared.kind.StringKind.TheVariants as kind;
ghost use Rattle.esc_device.specs.declared.short.ShortDeviceControl.{ShortDeviceControl};

use std::alloc::Allocator;

/// A header that is written as an optional private prefix, parameters that are not negative and
/// intermediates is read as these.
pub fn headers_read_back()
    ensures { (m : List ℕ) (ps : List ℤ) (is : List ℕ) → IsMark m → AreNatural ps
        → list_all is_intermediate_byte is ≡ true → ReadsBack m ps is }
{}

/// A writable mode, data that can be written and the string terminator say the mode's header, the
/// data byte by byte, and the end.
pub fn enter_says<A: Allocator>()
    ensures { (e : EnterDeviceControlMode A) (d : List ℕ) → IsWritableEnter e → AreData d
        → EnterSays e d }
{}

/// A writable short control says its header, its data byte by byte, and the end.
pub fn short_says<A: Allocator>()
    ensures { (s : ShortDeviceControl A) → IsWritableShort s → ShortSays s }
{}

/// A writable sixel image and the string terminator say a sixel image's header and data that mean
/// the same image.
pub fn sixel_says<A: Allocator>()
    ensures { (s : Sixel A) → IsWritableSixel s → SixelSays s }
{}

/// A query of at least one name and the string terminator say a termcap query's header and data
/// that mean the same names.
pub fn query_says()
    ensures { (ns : List (List ℕ)) → AreWritableNames ns → QuerySays ns }
{}

/// The parameters of any header that a stream has are not negative.
pub fn params_are_natural()
    ensures { (f : ℕ) (ps : List ℤ) (is : List ℕ) (more : Bool) → IsFit (DcsHook f ps is more)
        → AreNatural ps }
{}

/// A header that a stream has and that enters a mode is writable, unless intermediates of it were
/// left out.
pub fn hook_is_writable<A: Allocator>()
    ensures { (f : ℕ) (ps : List ℤ) (is : List ℕ) (more : Bool) → IsFit (DcsHook f ps is more)
        → kind_of f is more ≡ kind.Other → more ≡ false
        → IsWritableEnter {A = A} (enter_of f ps is more) }
{}

/// A header that a stream has and that opens a short control, with data that a stream has, is a
/// writable short control, unless a byte of the data is A0 to FF.
pub fn short_is_writable<A: Allocator>()
    ensures { (f : ℕ) (ps : List ℤ) (is : List ℕ) (more : Bool) (d : List ℕ)
        → IsFit (DcsHook f ps is more) → kind_of f is more ≡ kind.Short
        → AllOf is_put d → list_any is_high_byte d ≡ false
        → IsWritableShort {A = A} (short_of ps is f d) }
{}
