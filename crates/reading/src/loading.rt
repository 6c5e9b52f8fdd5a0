// The loader: steps 11 to 17. An unmapped page is handed out to it to be filled (11, or 12 where it wants no bucket). It gets a
// bucket (13) and then lets readers pass their first check (14), or does so with no bucket (15). It puts the page in and goes on
// as a reader, which needs a bucket (16), or leaves (17).
ghost use Rattle.std.specs.Prelude.{◌≡◌};
ghost use Rattle.heads.specs.Decisions.{granted};
ghost use Rattle.reading.specs.Steps.{withdraw_to, withdraw_alloc, withdraw_alloc_no_refcount};
ghost use Rattle.reading.specs.Steps.{loading_inc_count, obtain_loading};
ghost use Rattle.reading.specs.Steps.{obtain_loading_no_refcount, deposit_loading_to_shared, deposit_loading_to_done};

use heads::{
    Decision, Edit, deposit_loading, leave_loading, lower_if, number_at, with_number,
    withdraw_loading,
};
use kinds::{CEILING, Flag, LoadingState, Phase, Reader, is_unmapped};
use page_record::Head;
use requests::{Refusal, Request};

// What 11 and 12 share: an unmapped page is handed out to this loader, which stands there under this flag.
fn withdraw_to(h: Head, flag: Flag, loader: LoadingState) -> Result<Decision, Refusal>
    ensures { result ≡ granted (withdraw_to h flag loader) }
{
    if !is_unmapped(h.flag) {
        return Err(Refusal::WrongFlag);
    }
    Ok(withdraw_loading(h, flag, loader))
}

// 11: the page is handed out to a loader.
pub fn withdraw_alloc(h: Head) -> Result<Decision, Refusal>
    ensures { result ≡ granted (withdraw_alloc h) }
{
    withdraw_to(h, Flag::LoadingExcLock, LoadingState::Pending)
}

// 12: the page is handed out to a loader that has no bucket.
pub fn withdraw_alloc_no_refcount(h: Head) -> Result<Decision, Refusal>
    ensures { result ≡ granted (withdraw_alloc_no_refcount h) }
{
    let obtained = LoadingState::Obtained { bucket: None };
    withdraw_to(h, Flag::Loading, obtained)
}

// 13: the loader gets a bucket.
pub fn loading_inc_count(h: Head, q: Request) -> Result<Decision, Refusal>
    ensures { result ≡ granted (loading_inc_count h q) }
{
    let LoadingState::Pending = h.loading_state else {
        return Err(Refusal::NoHolder);
    };
    let n = number_at(h, q.bucket);
    if n >= CEILING {
        return Err(Refusal::AtCeiling);
    }
    let counted = LoadingState::PendingCounted {
        bucket: Some(q.bucket),
    };
    Ok(leave_loading(with_number(h, q.bucket, n + 1), h.flag, counted))
}

// 14: the loader loads.
pub fn obtain_loading(h: Head) -> Result<Decision, Refusal>
    ensures { result ≡ granted (obtain_loading h) }
{
    let LoadingState::PendingCounted { bucket } = h.loading_state else {
        return Err(Refusal::NoHolder);
    };
    let obtained = LoadingState::Obtained { bucket };
    Ok(leave_loading(h, Flag::Loading, obtained))
}

// 15: the loader loads, and has no bucket.
// 14 and 15 stay two functions, as in the source: each asks for another holder, and one call is all that they share.
pub fn obtain_loading_no_refcount(h: Head) -> Result<Decision, Refusal>
    ensures { result ≡ granted (obtain_loading_no_refcount h) }
{
    let LoadingState::Pending = h.loading_state else {
        return Err(Refusal::NoHolder);
    };
    let obtained = LoadingState::Obtained { bucket: None };
    Ok(leave_loading(h, Flag::Loading, obtained))
}

// 16: the loader puts the page in, and reads on.
pub fn deposit_loading_to_shared(h: Head, q: Request, full: bool) -> Result<Decision, Refusal>
    ensures { result ≡ granted (deposit_loading_to_shared h q full) }
{
    let LoadingState::Obtained { bucket } = h.loading_state else {
        return Err(Refusal::NoHolder);
    };
    let own = bucket.ok_or(Refusal::WrongBucket)?;
    if full {
        return Err(Refusal::ListFull);
    }
    let reader = Reader {
        phase: Phase::Obtained(q.value),
        bucket: own,
    };
    Ok(deposit_loading(h, q.value, Edit::Push(reader)))
}

// 17: the loader puts the page in, and leaves. Changed: it asks for no bucket, and takes one off the loader's, if it has one.
pub fn deposit_loading_to_done(h: Head, q: Request) -> Result<Decision, Refusal>
    ensures { result ≡ granted (deposit_loading_to_done h q) }
{
    let LoadingState::Obtained { bucket } = h.loading_state else {
        return Err(Refusal::NoHolder);
    };
    Ok(deposit_loading(lower_if(h, bucket), q.value, Edit::Keep))
}
