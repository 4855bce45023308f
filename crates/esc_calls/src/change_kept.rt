//! The way in which a call changes the state that a stream in chunks keeps.

// Takes the state that the stream keeps, if that is of this kind, and changes it. If that succeeds
// the stream keeps it on. Else it has ended, and the status says why: it kept none, or memory was
// refused. A change after `always` cannot be refused memory.
macro_rules! change_kept {
    ($alloc:ident, $stream:ident, $kind:ident($inner:ident), always $change:expr) => {{
        let Some(mut kept) = $stream.take($alloc) else {
            return NOT_BEGUN;
        };
        let Kept::$kind($inner) = &mut *kept else {
            return NOT_BEGUN;
        };
        $change;
        *$stream = InChunks::of(kept);
        DONE
    }};
    ($alloc:ident, $stream:ident, $kind:ident($inner:ident), $change:expr) => {{
        let Some(mut kept) = $stream.take($alloc) else {
            return NOT_BEGUN;
        };
        let Kept::$kind($inner) = &mut *kept else {
            return NOT_BEGUN;
        };
        match $change {
            Ok(()) => {
                *$stream = InChunks::of(kept);
                DONE
            }
            Err(_) => NO_MEMORY,
        }
    }};
}

pub(crate) use change_kept;
