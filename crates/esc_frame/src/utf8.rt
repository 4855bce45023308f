//! These modules read UTF-8 by Unicode's Table 3-7: whole, begun and broken sequences of
//! characters.
pub mod sequence;
pub mod texts;
