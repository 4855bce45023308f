//! These modules keep an unfinished sequence or string: the intermediates of an escape sequence,
//! the parameters of a control sequence, the header of a DCS, the text of a string.
pub mod body;
pub mod count;
pub mod csi_params;
pub mod fields;
pub mod header;
pub mod intermediates;
pub mod kept;
pub mod param_list;
pub mod short;
pub mod store;
