//! Runs of bytes are taken at once: these modules find their ends, and print their characters.
pub mod printing;
pub mod scans;
