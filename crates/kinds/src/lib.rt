// The kinds of a page record: its flag, its holders, its readers, and the limits. No kind stands for another: a bucket, a
// visited number and a count are three types, and a holder carries only what its own phase needs.
#![tactic(auto)]

mod flags;
mod numbers;
mod phases;

pub use flags::{
    awaited, claimable, claimed, flag_number, is_available, is_unmapped, lock_flag, not_loading,
    open_to_readers, released, unawaited, unclaimed, writeback_done,
};
pub use numbers::{
    UnknownFlag, bucket_from, bucket_number, exc_from, exc_number, flag_from, loading_from,
    loading_number, phase_from, storage_from, storage_number, writeback_from, writeback_number,
};
pub use phases::phase_number;

// How many buckets there are.
pub const BUCKETS: u8 = 4;

// How many readers a record can list.
pub const CAPACITY: usize = 256;

// The highest count at a bucket.
pub const CEILING: u8 = 127;

// How many readers a record could list, and the highest count at a bucket, when records were kept in short images. They are the
// limits of those, and of nothing else.
pub const SHORT_CAPACITY: usize = 64;

pub const SHORT_CEILING: u8 = 31;

// How many requests a run takes.
pub const MOST_REQUESTS: usize = 2048;

// How many bytes a request and an answer have, a line each.
pub const LINE: usize = 16;

// Which reference count a holder uses, 0 to 3.
#[derive(Clone, Copy, PartialEq, Eq)]
pub struct Bucket(pub u8);

// How many buckets an editor has looked at, 0 to 4.
#[derive(Clone, Copy, PartialEq, Eq)]
pub struct Visited(pub u8);

// How many hold a bucket, up to the ceiling.
#[derive(Clone, Copy, PartialEq, Eq)]
pub struct Count(pub u8);

// In the source's order, which gives a flag its number.
#[derive(Clone, Copy, PartialEq, Eq)]
pub enum Flag {
    Unmapped,
    Loading,
    LoadingExcLock,
    Available,
    Claimed,
    Writeback,
    WritebackAndClaimed,
    WritebackAndPendingExcLock,
    PendingExcLock,
    ExcLockClean,
    ExcLockDirty,
}

// How far a reader has come; one that has come through holds the version that it reads.
#[derive(Clone, Copy, PartialEq, Eq)]
pub enum Phase {
    Pending,
    Pending2,
    Obtained(u64),
}

#[derive(Clone, Copy, PartialEq, Eq)]
pub struct Reader {
    pub phase: Phase,
    pub bucket: Bucket,
}

// The editor. One that has the page out keeps the version that it took. None is one of the kinds, here and of the loader: rules and
// steps ask which of them all stands there.
#[derive(Clone, Copy, PartialEq, Eq)]
pub enum ExcState {
    None,
    Claim {
        bucket: Option<Bucket>,
        value: u64,
    },
    PendingAwaitWriteback {
        bucket: Option<Bucket>,
        value: u64,
    },
    Pending {
        bucket: Option<Bucket>,
        visited_count: Visited,
        clean: bool,
        value: u64,
    },
    Obtained {
        bucket: Option<Bucket>,
        clean: bool,
        value: u64,
    },
}

// The loader.
#[derive(Clone, Copy, PartialEq, Eq)]
pub enum LoadingState {
    None,
    Pending,
    PendingCounted { bucket: Option<Bucket> },
    Obtained { bucket: Option<Bucket> },
}
