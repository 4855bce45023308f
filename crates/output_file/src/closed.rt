//! The standard streams without which a program was started.

use std::fs::{File, OpenOptions};
use std::os::fd::{AsRawFd, IntoRawFd};

// The device that is opened in their place.
const NULL: &str = "/dev/null";

// The folder that is opened if there is no such device. A folder is not written, and its bytes are
// not read.
const ROOT: &str = "/";

// Says how many standard streams there are, whose descriptors are the first numbers.
const STREAMS: i32 = 3;

/// Opens the null device at each of the descriptors 0, 1 and 2 that is closed, so that no file that
/// is opened after it is taken for standard input, output or error. It stays open until the program
/// ends.
///
/// A read from there and a write there fail, as those of a closed stream, with `EBADF`: at 0 it is
/// open for writing alone, and at 1 and 2 for reading alone, as with GNU coreutils.
pub fn open_closed(rt: &HostRuntime) {
    if let Ok(input) = OpenOptions::new().write(true).open(rt, NULL) {
        keep_below(input, 1);
    }
    for _ in 0..STREAMS {
        let opened = match File::open(rt, NULL) {
            Ok(file) => Ok(file),
            Err(_) => File::open(rt, ROOT),
        };
        let Ok(output) = opened else {
            return;
        };
        if !keep_below(output, STREAMS) {
            return;
        }
    }
}

// Leaves the file open if its descriptor, which is the lowest that was free, is below this number,
// and closes it otherwise. It returns whether it is below.
fn keep_below(file: File, number: i32) -> bool {
    if file.as_raw_fd() >= number {
        return false;
    }
    let _ = file.into_raw_fd();
    true
}
