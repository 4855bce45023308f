//! Laws of typed values: nothing of renditions is lost, and a value that is written reads back.
ghost use Rattle.std.specs.Prelude.{◌≡◌, ℕ, List, ◌∷◌, map, Option, Some};
ghost use Rattle.esc_values.specs.declared.csi_param.CsiParam.{CsiParam};
ghost use Rattle.typed_functions.specs.declared.mouse.Mouse.{Mouse};
ghost use Rattle.typed_functions.specs.declared.rendition.Rendition.{Rendition};
ghost use Rattle.typed_functions.specs.declared.cursor.Cursor.{Cursor};
ghost use Rattle.typed_functions.specs.declared.device.Device.{Device};
ghost use Rattle.typed_functions.specs.declared.charset.Charset.{Charset};
ghost use Rattle.typed_functions.specs.declared.edit.Edit.{Edit};
ghost use Rattle.typed_functions.specs.declared.escape.Escape.{Escape};
ghost use Rattle.typed_functions.specs.declared.keyboard.Keyboard.{Keyboard};
ghost use Rattle.typed_functions.specs.declared.mode_status.ModeStatus.{ModeStatus};
ghost use Rattle.typed_functions.specs.declared.window.Window.{Window};
ghost use Rattle.typed_functions.specs.Arguments.{AreArguments};
ghost use Rattle.typed_functions.specs.Charsets.{charset_bytes};
ghost use Rattle.esc_sequences.specs.Csis.{CsiValue};
ghost use Rattle.esc_sequences.specs.declared.esc.Esc.{Esc};
ghost use Rattle.typed_functions.specs.Escapes.{AreBytes, escape_bytes, of_bytes, of_escape, of_intermediates};
ghost use Rattle.typed_functions.specs.Functions.{charset, cursor, device, edit, escape, keyboard, mode_status, mouse, of_csi, of_params, window};
ghost use Rattle.typed_functions.specs.Renditions.{AreRenditions, IsRendition, normal_params, rendition_of};
ghost use Rattle.typed_functions.specs.Selected.{IsSelected};
ghost use Rattle.typed_functions.specs.Selections.{cut_entries, joined_entries, parameters, selections, spelled_rendition};
ghost use Rattle.typed_functions.specs.Spellings.{cursor_spelling, device_spelling, edit_spelling, entries, keyboard_spelling, mode_status_spelling, mouse_spelling, window_spelling};
ghost use Rattle.typed_functions.specs.Windows.{IsWindow};

/// The entries of the renditions of a sequence, in order and with `;` between them, are those of
/// the sequence: nothing of it is lost.
#[tactic(auto, using(crate::proofs::Cutting::nothing_lost))]
pub fn nothing_lost()
    ensures { (es : List CsiParam) → joined_entries (cut_entries es) ≡ es }
{}

/// Does the same for the modes of a sequence.
#[tactic(auto, using(crate::proofs::Cutting::no_mode_lost))]
pub fn no_mode_lost()
    ensures { (es : List CsiParam) → joined_entries (parameters es) ≡ es }
{}

/// The normal spelling of a rendition is read as this rendition.
#[tactic(auto, using(crate::proofs::ReadBack::reads_back))]
pub fn reads_back()
    ensures { (r : Rendition) → IsRendition r → rendition_of (normal_params r) ≡ Some r }
{}

/// The normal spellings of renditions, with `;` between them, are read as these renditions.
#[tactic(auto, using(crate::proofs::ReadBack::list_reads_back))]
pub fn list_reads_back()
    ensures { (r : Rendition) (rs : List Rendition) → AreRenditions (r ∷ rs)
        → selections (joined_entries (map normal_params (r ∷ rs)))
        ≡ map spelled_rendition (r ∷ rs) }
{}

/// A request about the cursor, written in its normal spelling, is read as the same.
#[tactic(auto, using(crate::proofs::Spelled::cursor_back))]
pub fn cursor_reads_back()
    ensures { (c : Cursor) → AreArguments (cursor_spelling c).arguments
        → of_params (entries (cursor_spelling c)) (cursor_spelling c).last ≡ cursor c }
{}

/// An edit, written in its normal spelling, is read as the same.
#[tactic(auto, using(crate::proofs::Spelled::edit_back))]
pub fn edit_reads_back()
    ensures { (e : Edit) → AreArguments (edit_spelling e).arguments
        → of_params (entries (edit_spelling e)) (edit_spelling e).last ≡ edit e }
{}

/// A request to the terminal itself, written in its normal spelling, is read as the same.
#[tactic(auto, using(crate::proofs::Spelled::device_back))]
pub fn device_reads_back()
    ensures { (d : Device) → AreArguments (device_spelling d).arguments
        → of_params (entries (device_spelling d)) (device_spelling d).last ≡ device d }
{}

/// A request about the reports of keys, written in its normal spelling, is read as the same.
#[tactic(auto, using(crate::proofs::Spelled::keyboard_back))]
pub fn keyboard_reads_back()
    ensures { (d : Keyboard) → AreArguments (keyboard_spelling d).arguments
        → of_params (entries (keyboard_spelling d)) (keyboard_spelling d).last ≡ keyboard d }
{}

/// A report of the mouse, written in its normal spelling, is read as the same.
#[tactic(auto, using(crate::proofs::Spelled::mouse_back))]
pub fn mouse_reads_back()
    ensures { (m : Mouse) → AreArguments (mouse_spelling m).arguments
        → of_params (entries (mouse_spelling m)) (mouse_spelling m).last ≡ mouse m }
{}

/// A request or a report about the window, written in its normal spelling, is read as the same.
#[tactic(auto, using(crate::proofs::Spelled::window_back))]
pub fn window_reads_back()
    ensures { (w : Window) → IsWindow w → AreArguments (window_spelling w).arguments
        → of_params (entries (window_spelling w)) (window_spelling w).last ≡ window w }
{}

/// A request or a report about the state of a mode, written in its normal spelling, is read as the
/// same.
#[tactic(auto, using(crate::proofs::Spelled::mode_status_back))]
pub fn mode_status_reads_back()
    ensures { (s : ModeStatus) → AreArguments (mode_status_spelling s).arguments
        → of_params (entries (mode_status_spelling s)) (mode_status_spelling s).last
        ≡ mode_status s }
{}

/// The escape sequence of a typed value is read as this value.
#[tactic(auto, using(crate::proofs::Escaped::escape_back))]
pub fn escape_reads_back()
    ensures { (e : Escape) → of_bytes (escape_bytes e).0 (escape_bytes e).1 ≡ escape e }
{}

/// No other escape sequence is read as this value.
#[tactic(auto, using(crate::proofs::Escaped::escape_is_its_own))]
pub fn escape_is_its_own()
    ensures { (i : Option ℕ) (b : ℕ) (e : Escape) → AreBytes i b → of_bytes i b ≡ escape e
        → escape_bytes e ≡ (i, b) }
{}

/// The escape sequence that designates a character set is read as this designation.
#[tactic(auto, using(crate::proofs::Escaped::charset_back))]
pub fn charset_reads_back()
    ensures { (c : Charset) → of_intermediates (charset_bytes c).0 (charset_bytes c).1
        ≡ charset c }
{}

/// The numbers of the colours that a sequence asks for are bytes.
#[tactic(auto, using(crate::proofs::Selected::csi_small, crate::proofs::Selected::esc_small))]
pub fn selects_bytes()
    ensures sequence { (c : CsiValue) → IsSelected (of_csi c) }
    ensures escape { (e : Esc) → IsSelected (of_escape e) }
{}
