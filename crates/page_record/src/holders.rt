// What the rules ask of storage and of each holder, and which bucket a holder has.
ghost use Rattle.std.specs.Prelude.{◌≡◌};
ghost use Rattle.page_record.specs.Holders.{is_stored, holds, valid_bucket, no_exc, is_claim, is_await, is_editing};
ghost use Rattle.page_record.specs.Holders.{is_locked, exc_bucket, exc_visited, no_load, is_loading, is_before_loading};
ghost use Rattle.page_record.specs.Holders.{loading_bucket, no_writeback};

use kinds::{BUCKETS, Bucket, ExcState, LoadingState, Visited};

pub fn is_stored(s: Option<u64>) -> bool
    ensures { result ≡ is_stored s }
{
    s.is_some()
}

// Whether storage has just this value.
pub fn holds(s: Option<u64>, v: u64) -> bool
    ensures { result ≡ holds s v }
{
    s == Some(v)
}

pub fn valid_bucket(m: Option<Bucket>) -> bool
    ensures { result ≡ valid_bucket m }
{
    m.is_none_or(|bucket| bucket.0 < BUCKETS)
}

pub fn no_exc(e: ExcState) -> bool
    ensures { result ≡ no_exc e }
{
    matches!(e, ExcState::None)
}

pub fn is_claim(e: ExcState) -> bool
    ensures { result ≡ is_claim e }
{
    matches!(e, ExcState::Claim { .. })
}

pub fn is_await(e: ExcState) -> bool
    ensures { result ≡ is_await e }
{
    matches!(e, ExcState::PendingAwaitWriteback { .. })
}

// An editor that has the page out.
pub fn is_editing(e: ExcState) -> bool
    ensures { result ≡ is_editing e }
{
    matches!(e, ExcState::Obtained { .. })
}

// Pending or Obtained, and clean as said.
pub fn is_locked(said: bool, e: ExcState) -> bool
    ensures { result ≡ is_locked said e }
{
    match e {
        ExcState::Pending { clean, .. } | ExcState::Obtained { clean, .. } => said == clean,
        _ => false,
    }
}

pub fn exc_bucket(e: ExcState) -> Option<Bucket>
    ensures { result ≡ exc_bucket e }
{
    match e {
        ExcState::None => None,
        ExcState::Claim { bucket, .. }
        | ExcState::PendingAwaitWriteback { bucket, .. }
        | ExcState::Pending { bucket, .. }
        | ExcState::Obtained { bucket, .. } => bucket,
    }
}

// An editor that doesn't count the buckets has visited none.
pub fn exc_visited(e: ExcState) -> Visited
    ensures { result ≡ exc_visited e }
{
    match e {
        ExcState::Pending { visited_count, .. } => visited_count,
        _ => Visited(0),
    }
}

pub fn no_load(l: LoadingState) -> bool
    ensures { result ≡ no_load l }
{
    matches!(l, LoadingState::None)
}

pub fn is_loading(l: LoadingState) -> bool
    ensures { result ≡ is_loading l }
{
    matches!(l, LoadingState::Obtained { .. })
}

// A loader that has not come to Obtained.
pub fn is_before_loading(l: LoadingState) -> bool
    ensures { result ≡ is_before_loading l }
{
    matches!(
        l,
        LoadingState::Pending | LoadingState::PendingCounted { .. }
    )
}

pub fn loading_bucket(l: LoadingState) -> Option<Bucket>
    ensures { result ≡ loading_bucket l }
{
    match l {
        LoadingState::None | LoadingState::Pending => None,
        LoadingState::PendingCounted { bucket } | LoadingState::Obtained { bucket } => bucket,
    }
}

pub fn no_writeback(w: Option<u64>) -> bool
    ensures { result ≡ no_writeback w }
{
    w.is_none()
}
