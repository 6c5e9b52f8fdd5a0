// Claims: steps 3 to 5, the start of an editor's life. One claim stands at a time, and readers go on under it. Who claims has
// no bucket (3), or is a reader that leaves the list and keeps its reference (4). Then no more readers get past their first
// check, and the claimant waits for the archive (5).
ghost use Rattle.std.specs.Prelude.{◌≡◌};
ghost use Rattle.heads.specs.Decisions.{granted};
ghost use Rattle.editing.specs.Steps.{bucketless_claim, shared_to_claim, claim_to_pending};

use heads::{Decision, Edit, leave_exc, value_of};
use kinds::{ExcState, awaited, claimable, claimed};
use page_record::Head;
use requests::{Refusal, Request};

// 3: a claim by an editor that has no bucket.
pub fn bucketless_claim(h: Head) -> Result<Decision, Refusal>
    ensures { result ≡ granted (bucketless_claim h) }
{
    if !claimable(h.flag) {
        return Err(Refusal::WrongFlag);
    }
    let claim = ExcState::Claim {
        bucket: None,
        value: value_of(h.storage),
    };
    Ok(leave_exc(h, claimed(h.flag), claim, Edit::Keep))
}

// 4: a claim by the reader that is found, which leaves the list and keeps its bucket.
pub fn shared_to_claim(h: Head, q: Request, found: Option<usize>) -> Result<Decision, Refusal>
    ensures { result ≡ granted (shared_to_claim h q found) }
{
    if !claimable(h.flag) {
        return Err(Refusal::WrongFlag);
    }
    let place = found.ok_or(Refusal::NoHolder)?;
    let claim = ExcState::Claim {
        bucket: Some(q.bucket),
        value: q.value,
    };
    Ok(leave_exc(h, claimed(h.flag), claim, Edit::Remove(place)))
}

// 5: the claimant waits for the archive to be done.
pub fn claim_to_pending(h: Head) -> Result<Decision, Refusal>
    ensures { result ≡ granted (claim_to_pending h) }
{
    let ExcState::Claim { bucket, value } = h.exc_state else {
        return Err(Refusal::NoHolder);
    };
    let waiting = ExcState::PendingAwaitWriteback { bucket, value };
    Ok(leave_exc(h, awaited(h.flag), waiting, Edit::Keep))
}
