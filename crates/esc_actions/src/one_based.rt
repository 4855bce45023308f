//! Coordinates that count from one.
ghost use Rattle.std.specs.Prelude.{◌≡◌, ◌<◌, ◌+◌, ◌-◌, ◌^◌, IfOk, OnErr, None, Some};
ghost use Rattle.std.specs.Fmt.{decimal};
ghost use Rattle.std.specs.Option.{option_map};
ghost use Rattle.esc_actions.specs.Coordinates.{coordinate, one_based, optional_coordinate};

use esc_values::CsiParam;
use std::fmt;
use std::num::NonZeroU32;

/// A line or a column as terminals count them, from 1 (ECMA-48, 5.4.2: an empty or a zero parameter
/// stands for the default value, which is 1 for a coordinate).
#[derive(Clone, Copy, Debug, PartialEq, Eq)]
pub struct OneBased {
    value: NonZeroU32,
}

impl OneBased {
    /// Returns the coordinate with this number, counted from 1.
    pub fn new(value: u32) -> OneBased
        requires { 0 < value }
        ensures { one_based result ≡ value }
    {
        OneBased {
            value: unsafe { NonZeroU32::new_unchecked(value) },
        }
    }

    /// Returns the coordinate with this number, counted from 0.
    pub fn from_zero_based(value: u32) -> OneBased
        requires { value + 1 < 2 ^ 32 }
        ensures { one_based result ≡ value + 1 }
    {
        OneBased::new(value + 1)
    }

    /// Returns the coordinate that a parameter names; 0 names the first. The error is that the
    /// parameter is no number from 0 to `u32::MAX`.
    pub fn from_esc_param(param: &CsiParam) -> Result<OneBased, ()>
        ensures ok { IfOk result (λ o. coordinate 1 param.now ≡ Some (one_based o)) }
        ensures err { OnErr result (coordinate 1 param.now ≡ None) }
    {
        OneBased::from_param(param, 1)
    }

    /// Returns the coordinate that a parameter names; 0 names the last, `u32::MAX`. The error is
    /// that the parameter is no number from 0 to `u32::MAX`.
    pub fn from_esc_param_with_big_default(param: &CsiParam) -> Result<OneBased, ()>
        ensures ok { IfOk result (λ o. coordinate (2 ^ 32 - 1) param.now ≡ Some (one_based o)) }
        ensures err { OnErr result (coordinate (2 ^ 32 - 1) param.now ≡ None) }
    {
        OneBased::from_param(param, u32::MAX)
    }

    /// Returns the coordinate that a parameter names; 0 and no parameter name the first. The error
    /// is that the parameter is no number from 0 to `u32::MAX`.
    pub fn from_optional_esc_param(param: Option<&CsiParam>) -> Result<OneBased, ()>
        ensures ok { IfOk result (λ o. optional_coordinate (option_map (λ p. p.now) param.entry)
            ≡ Some (one_based o)) }
        ensures err { OnErr result (optional_coordinate (option_map (λ p. p.now) param.entry)
            ≡ None) }
    {
        match param {
            Some(param) => OneBased::from_param(param, 1),
            None => Ok(OneBased::new(1)),
        }
    }

    // Returns the coordinate that a parameter names; 0 names `default`.
    fn from_param(param: &CsiParam, default: u32) -> Result<OneBased, ()>
        requires { 0 < default }
        ensures ok { IfOk result (λ o. coordinate default param.now ≡ Some (one_based o)) }
        ensures err { OnErr result (coordinate default param.now ≡ None) }
    {
        match param {
            CsiParam::Integer(number) => match u32::try_from(*number) {
                Ok(0) => Ok(OneBased::new(default)),
                Ok(value) => Ok(OneBased::new(value)),
                Err(_) => Err(()),
            },
            CsiParam::P(_) => Err(()),
        }
    }

    /// Returns its number, counted from 0.
    pub fn as_zero_based(&self) -> u32
        ensures { result + 1 ≡ one_based self.now }
    {
        self.value.get() - 1
    }

    /// Returns its number, counted from 1.
    pub fn as_one_based(&self) -> u32
        ensures { result ≡ one_based self.now }
    {
        self.value.get()
    }
}

/// Writes its number, counted from 1, in decimal. It errs only if the formatter's writer errs.
impl fmt::Display for OneBased {
    ghost output = { λ o. Some (decimal (one_based o)) };

    fn fmt<W: fmt::Write>(&self, f: &mut fmt::Formatter<W>) -> fmt::Result {
        let value = self.value.get();
        write!(f, "{value}")
    }
}
