// Claims given back: steps 25 to 27. A claimant leaves (25), or reads on if it has a bucket (26). One that waits for the archive
// is a claimant again (27). What the archive does goes on under each.
ghost use Rattle.std.specs.Prelude.{◌≡◌};
ghost use Rattle.heads.specs.Decisions.{granted};
ghost use Rattle.returning.specs.Steps.{discard_claim, claim_to_shared, pending_to_claim};

use heads::{Decision, Edit, leave_exc, lower_if};
use kinds::{ExcState, Phase, Reader, unawaited, unclaimed};
use page_record::Head;
use requests::Refusal;

// 25: the claimant leaves, and with it one reference at its bucket, if it has one.
pub fn discard_claim(h: Head) -> Result<Decision, Refusal>
    ensures { result ≡ granted (discard_claim h) }
{
    let ExcState::Claim { bucket, .. } = h.exc_state else {
        return Err(Refusal::NoHolder);
    };
    Ok(leave_exc(
        lower_if(h, bucket),
        unclaimed(h.flag),
        ExcState::None,
        Edit::Keep,
    ))
}

// 26: the claimant reads on, at its own bucket and with its own value. Its reference stays, so no count changes.
pub fn claim_to_shared(h: Head, full: bool) -> Result<Decision, Refusal>
    ensures { result ≡ granted (claim_to_shared h full) }
{
    let ExcState::Claim { bucket, value } = h.exc_state else {
        return Err(Refusal::NoHolder);
    };
    let own = bucket.ok_or(Refusal::WrongBucket)?;
    if full {
        return Err(Refusal::ListFull);
    }
    let reader = Reader {
        phase: Phase::Obtained(value),
        bucket: own,
    };
    Ok(leave_exc(h, unclaimed(h.flag), ExcState::None, Edit::Push(reader)))
}

// 27: one that waits for the archive goes back to its claim.
pub fn pending_to_claim(h: Head) -> Result<Decision, Refusal>
    ensures { result ≡ granted (pending_to_claim h) }
{
    let ExcState::PendingAwaitWriteback { bucket, value } = h.exc_state else {
        return Err(Refusal::NoHolder);
    };
    let claim = ExcState::Claim { bucket, value };
    Ok(leave_exc(h, unawaited(h.flag), claim, Edit::Keep))
}
