//! The state that a stream in chunks keeps.
ghost use Rattle.std.specs.Prelude.{◌≡◌};
ghost use Rattle.esc_calls.specs.Kept.{kept_text};

use crate::page_state::PageState;
use crate::sanitizer_state::SanitizerState;
use crate::screen_state::ScreenState;
use esc_filter::{Filter, Policy};
use esc_normal::Normaliser;

/// The state that a stream in chunks keeps, in a block of its own.
#[derive(Drop)]
pub enum Kept {
    /// A filter.
    Filter(Filter<Policy>),
    /// A page.
    Page(PageState),
    /// A normaliser.
    Normal(Normaliser),
    /// A sanitizer.
    Sanitizer(SanitizerState),
    /// A screen.
    Screen(ScreenState),
}

impl Kept {
    /// Returns the text that the last call added.
    pub(crate) fn output(&self) -> &str
        ensures { result.now ≡ kept_text self.now }
    {
        match self {
            Kept::Filter(filter) => filter.output(),
            Kept::Page(page) => page.output(),
            Kept::Normal(normaliser) => normaliser.output(),
            Kept::Sanitizer(state) => state.output(),
            Kept::Screen(_) => "",
        }
    }
}
