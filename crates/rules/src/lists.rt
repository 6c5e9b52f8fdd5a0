// Rules 5 and 7, which read the list of readers: clause for clause as in the source. Rule 5 takes the parts that it reads, and rule
// 7, which reads nearly all, the head.
ghost use Rattle.std.specs.Prelude.{◌≡◌, eqb};
ghost use Rattle.readers.specs.Listed.{live};
ghost use Rattle.page_record.specs.References.{count_all_refs};
ghost use Rattle.rules.specs.Rules.{ref_count_invariant, exc_lets, shared_state_valid, shared_storage_invariant};

use kinds::{BUCKETS, Bucket, CAPACITY, Count, ExcState, LoadingState, Phase, Reader, is_unmapped};
use page_record::{Head, exc_bucket, holds, is_before_loading, loading_bucket, no_load, ref_at};
use readers::{Readers, count_at, live};

// The count at a bucket is the number of references there: the readers', the editor's and the loader's. More readers than a list has
// room for stand nowhere, and are no count: the test is there for the sums.
fn count_right(count: Count, readers: &Readers, e: ExcState, l: LoadingState, b: Bucket) -> bool
    ensures { result ≡ eqb count.0 (count_all_refs (live readers.now) e l b.0) }
{
    let here = count_at(readers, b);
    here <= CAPACITY
        && count.0 as usize == here + ref_at(exc_bucket(e), b) + ref_at(loading_bucket(l), b)
}

// Rule 5: each count is right.
pub fn ref_count_invariant(
    counts: [Count; BUCKETS as usize],
    readers: Readers,
    e: ExcState,
    l: LoadingState,
) -> bool
    ensures { result ≡ ref_count_invariant counts (live readers) e l }
{
    (0..BUCKETS).all(|b| count_right(counts[b as usize], &readers, e, l, Bucket(b)))
}

// The editor has not yet closed this bucket.
fn exc_lets(e: ExcState, b: Bucket) -> bool
    ensures { result ≡ exc_lets e b.0 }
{
    match e {
        ExcState::None | ExcState::Claim { .. } | ExcState::PendingAwaitWriteback { .. } => true,
        ExcState::Pending { visited_count, .. } => visited_count.0 <= b.0,
        ExcState::Obtained { .. } => false,
    }
}

// A reader's bucket is one of the four, and the head lets it stand there in its phase: Pending2, where it may be past the first
// check; Obtained, where it may hold its value.
fn shared_state_valid(h: Head, r: Reader) -> bool
    ensures { result ≡ shared_state_valid h r }
{
    if BUCKETS <= r.bucket.0 {
        return false;
    }
    match r.phase {
        Phase::Pending => true,
        Phase::Pending2 => exc_lets(h.exc_state, r.bucket)
            & !is_before_loading(h.loading_state)
            & !is_unmapped(h.flag),
        Phase::Obtained(value) => holds(h.storage, value)
            & exc_lets(h.exc_state, r.bucket)
            & no_load(h.loading_state)
            & !is_unmapped(h.flag),
    }
}

// Rule 7: every listed reader is valid.
pub fn shared_storage_invariant(h: Head, readers: Readers) -> bool
    ensures { result ≡ shared_storage_invariant h (live readers) }
{
    live(&readers).iter().all(|r| shared_state_valid(h, *r))
}
