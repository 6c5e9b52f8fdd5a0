// A page as it stands in the payload, at the places of an image: nothing is judged but whether each number stands for something,
// that is, comes back from what it stands for.
use encoding::{CLEAN, EXC, FLAG, IMAGE, LOADER, PHASE, READERS, STORED, WRITEBACK, YES};
use kinds::{Flag, LINE, Visited, exc_from, exc_number, loading_from, loading_number};
use wire::byte_at;

// The highest number that stands for a phase; 0 stands in an entry that is blank.
const LAST_PHASE: u8 = 3;

// Whether it has an image's length, and each number in it stands for something.
pub(crate) fn is_known(payload: &[u8]) -> bool {
    let exc = byte_at(payload, EXC);
    let loader = byte_at(payload, LOADER);
    payload.len() == IMAGE
        && payload[READERS..]
            .chunks_exact(LINE)
            .all(|entry| byte_at(entry, PHASE) <= LAST_PHASE)
        && Flag::try_from(byte_at(payload, FLAG)).is_ok()
        && exc_number(exc_from(exc, None, Visited(0), false, 0)) == exc
        && loading_number(loading_from(loader, None)) == loader
        && [STORED, CLEAN, WRITEBACK]
            .iter()
            .all(|at| byte_at(payload, *at) <= YES)
}
