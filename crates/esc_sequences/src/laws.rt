//! Laws of control sequences: a sequence that is read reads back.
ghost use Rattle.std.specs.Prelude.{◌≡◌, ◌<◌, ◌≤◌, ℕ, true, false, List, [], ◌∷◌, length};
ghost use Rattle.std.specs.List.{list_all};
ghost use Rattle.esc_sequences.specs.Csis.{csi_of, ReadBack, unspecified};
ghost use Rattle.esc_values.specs.Params.{csi_params, csi_params_text, is_body_byte, is_csi_body};
ghost use Rattle.esc_values.specs.declared.csi_param.CsiParam.{CsiParam};

/// The text of a body's parameters has these parameters.
#[tactic(auto, using(crate::proofs::ParamsText::csi_params_back))]
pub fn csi_params_back()
    ensures { (x : List ℕ) → list_all is_body_byte x ≡ true
        → csi_params (csi_params_text (csi_params x)) ≡ csi_params x }
{}

/// Each value that is read of a body of at most 256 parameters and a final byte has a text that is
/// one control sequence: `ESC [`, a body of at most 256 parameters, and the same final byte. It is
/// read as this one value.
///
/// Nothing is said of a body that has more parameters.
#[tactic(auto, using(crate::proofs::CsisBack::reads_back))]
pub fn csi_reads_back()
    ensures { (x : List ℕ) (f : ℕ) → is_csi_body x ≡ true → length (csi_params x) ≤ 256 → f < 128
        → ReadBack f (csi_of (csi_params x) false f) }
{}

/// If parameters are left out, the value is one sequence as it is.
#[tactic(auto, using(crate::proofs::CsisBack::truncated))]
pub fn csi_truncated()
    ensures { (es : List CsiParam) (f : ℕ) → csi_of es true f ≡ unspecified es true f ∷ [] }
{}
