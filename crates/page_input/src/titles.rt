//! The titles of groups.

use esc_frame::{VTActor, VTParser};
use esc_values::CsiParam;
use std::alloc::{AllocError, Global};

/// Returns the characters of a text, without those for which terminals show nothing. The error is
/// that memory was refused.
pub(crate) fn title_of(alloc: Global, text: &[u8]) -> Result<String, AllocError> {
    let mut framer = VTParser::with_limit(alloc, 0);
    let mut title = Title {
        text: String::new(alloc),
    };
    for byte in text {
        if framer.parse(&[*byte], &mut title).is_err() {
            return Err(AllocError);
        }
    }
    Ok(title.text)
}

// The characters that were printed.
#[derive(Drop)]
struct Title {
    text: String,
}

impl VTActor for Title {
    ghost takes = { λ _ _ _. Unit {0} };

    ghost refuses = { λ _ _ _. Unit {0} };

    ghost is_ready = { λ _. Unit {0} };

    ghost may = { λ _ _. Unit {0} };

    fn print(&mut self, c: char) -> Result<(), AllocError> {
        fallible_alloc::push_char(&mut self.text, c)
    }

    fn execute_c0_or_c1(&mut self, _control: u8) -> Result<(), AllocError> {
        Ok(())
    }

    fn dcs_hook(
        &mut self,
        _byte: u8,
        _params: &[i64],
        _intermediates: &[u8],
        _ignored_extra_intermediates: bool,
    ) -> Result<(), AllocError> {
        Ok(())
    }

    fn dcs_put(&mut self, _byte: u8) -> Result<(), AllocError> {
        Ok(())
    }

    fn dcs_unhook(&mut self) -> Result<(), AllocError> {
        Ok(())
    }

    fn esc_dispatch(
        &mut self,
        _params: &[i64],
        _intermediates: &[u8],
        _ignored_extra_intermediates: bool,
        _byte: u8,
    ) -> Result<(), AllocError> {
        Ok(())
    }

    fn csi_dispatch(
        &mut self,
        _params: &[CsiParam],
        _parameters_truncated: bool,
        _byte: u8,
    ) -> Result<(), AllocError> {
        Ok(())
    }

    fn osc_dispatch(&mut self, _params: &[&[u8]]) -> Result<(), AllocError> {
        Ok(())
    }

    fn apc_dispatch(&mut self, _text: &[u8]) -> Result<(), AllocError> {
        Ok(())
    }
}
