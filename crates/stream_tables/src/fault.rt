//! Why a row could not be checked.
use std::alloc::{AllocError, AllocFailed};

/// The fault, in words.
#[derive(Clone, Copy)]
pub struct Fault(pub &'static str);

impl From<AllocError> for Fault {
    fn from(_: AllocError) -> Fault {
        Fault("out of memory")
    }
}

impl<T: Drop> From<AllocFailed<T>> for Fault {
    fn from(_: AllocFailed<T>) -> Fault {
        Fault("out of memory")
    }
}
