//! The laws of values, sequences and links, under one name.

pub use esc_links::laws::link_reads_back;
pub use esc_sequences::laws::{csi_params_back, csi_reads_back, csi_truncated};
pub use esc_values::laws::{joined_parts, parts_text, text_parts};
