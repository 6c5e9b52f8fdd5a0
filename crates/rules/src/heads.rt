// Rules 1 to 4 and 6, which read the holders, the flag and storage: clause for clause as in the source. Each takes the parts that
// it reads, and not the head with all of them: so its promise says what it leans on. Clauses are joined by `&`, which reads every
// one: a sound record passes them all, so there is nothing to skip.
ghost use Rattle.std.specs.Prelude.{◌≡◌};
ghost use Rattle.rules.specs.Rules.{storage_some_invariant, exc_state_invariants, writeback_state_invariants};
ghost use Rattle.rules.specs.Rules.{loading_state_invariants, flag_invariant};

use kinds::{BUCKETS, ExcState, Flag, LoadingState};
use page_record::{
    holds, is_await, is_before_loading, is_claim, is_editing, is_loading, is_locked, is_stored,
    no_exc, no_load, no_writeback, valid_bucket,
};

// Rule 1: storage has a value just if nobody has it out, a loader or an editor that has come to Obtained.
pub fn storage_some_invariant(s: Option<u64>, e: ExcState, l: LoadingState) -> bool
    ensures { result ≡ storage_some_invariant s e l }
{
    let withdrawn = !no_load(l) | is_editing(e);
    is_stored(s) == !withdrawn
}

// Rule 2: an editor stands beside no loader, at one of the four buckets, and holds what is in storage until it takes that
// out. Beside one that is Pending or Obtained there is no writeback.
pub fn exc_state_invariants(e: ExcState, s: Option<u64>, l: LoadingState, w: Option<u64>) -> bool
    ensures { result ≡ exc_state_invariants e s l w }
{
    match e {
        ExcState::None => true,
        ExcState::Claim { bucket, value } | ExcState::PendingAwaitWriteback { bucket, value } => {
            no_load(l) & valid_bucket(bucket) & holds(s, value)
        }
        ExcState::Pending {
            bucket,
            visited_count,
            value,
            ..
        } => no_load(l)
            & no_writeback(w)
            & (visited_count.0 <= BUCKETS)
            & valid_bucket(bucket)
            & holds(s, value),
        ExcState::Obtained { bucket, .. } => no_load(l) & no_writeback(w) & valid_bucket(bucket),
    }
}

// Rule 3: what the archive writes is what is in storage, and nobody loads.
pub fn writeback_state_invariants(w: Option<u64>, s: Option<u64>, l: LoadingState) -> bool
    ensures { result ≡ writeback_state_invariants w s l }
{
    w.is_none_or(|value| no_load(l) & holds(s, value))
}

// Rule 4: a loader stands at one of the four buckets; one that is counted has a bucket. Until it is Obtained there is no
// writeback.
pub fn loading_state_invariants(l: LoadingState, w: Option<u64>) -> bool
    ensures { result ≡ loading_state_invariants l w }
{
    match l {
        LoadingState::None => true,
        LoadingState::Pending => no_writeback(w),
        LoadingState::PendingCounted { bucket } => {
            bucket.is_some_and(|own| no_writeback(w) & (own.0 < BUCKETS))
        }
        LoadingState::Obtained { bucket } => valid_bucket(bucket),
    }
}

// Rule 6: the flag says who is there.
pub fn flag_invariant(f: Flag, e: ExcState, l: LoadingState, w: Option<u64>) -> bool
    ensures { result ≡ flag_invariant f e l w }
{
    match f {
        Flag::Unmapped | Flag::Available => no_exc(e) & no_load(l) & no_writeback(w),
        Flag::Loading => is_loading(l) & no_writeback(w),
        Flag::LoadingExcLock => is_before_loading(l) & no_writeback(w),
        Flag::Claimed => is_claim(e) & no_writeback(w),
        Flag::Writeback => no_exc(e) & no_load(l) & !no_writeback(w),
        Flag::WritebackAndClaimed => is_claim(e) & !no_writeback(w),
        Flag::WritebackAndPendingExcLock => is_await(e) & !no_writeback(w),
        Flag::PendingExcLock => is_await(e) & no_writeback(w),
        Flag::ExcLockClean => is_locked(true, e) & no_writeback(w),
        Flag::ExcLockDirty => is_locked(false, e) & no_writeback(w),
    }
}
