// The editor gives up: steps 28 to 30. One that looks at the buckets opens the page again and keeps its claim (28). One that has
// the page out puts it in and leaves, which needs no bucket: the page is available (29), or unmapped, to be loaded anew (30). One
// that closed the page as clean puts in what it got.
ghost use Rattle.std.specs.Prelude.{◌≡◌};
ghost use Rattle.heads.specs.Decisions.{granted};
ghost use Rattle.returning.specs.Steps.{cancel_exc_lock_to_claim, deposit_to};
ghost use Rattle.returning.specs.Steps.{deposit_exc_lock_to_done, deposit_exc_lock_to_unmapped};

use heads::{Decision, Edit, deposit_exc, leave_exc, lower_if, may_put_in};
use kinds::{ExcState, Flag};
use page_record::Head;
use requests::{Refusal, Request};

// 28: the editor keeps its claim alone, however many buckets it has visited, and forgets whether it was to take the page as clean.
pub fn cancel_exc_lock_to_claim(h: Head) -> Result<Decision, Refusal>
    ensures { result ≡ granted (cancel_exc_lock_to_claim h) }
{
    let ExcState::Pending { bucket, value, .. } = h.exc_state else {
        return Err(Refusal::NoHolder);
    };
    let claim = ExcState::Claim { bucket, value };
    Ok(leave_exc(h, Flag::Claimed, claim, Edit::Keep))
}

// What 29 and 30 share: the editor puts the page in and leaves, and with it one reference at its bucket, if it has one.
fn deposit_to(h: Head, q: Request, flag: Flag) -> Result<Decision, Refusal>
    ensures { result ≡ granted (deposit_to h q flag) }
{
    let ExcState::Obtained {
        bucket,
        clean,
        value: kept,
    } = h.exc_state
    else {
        return Err(Refusal::NoHolder);
    };
    if !may_put_in(clean, kept, q.value) {
        return Err(Refusal::OtherValue);
    }
    Ok(deposit_exc(
        lower_if(h, bucket),
        q.value,
        flag,
        ExcState::None,
        Edit::Keep,
    ))
}

// 29: the page is available.
pub fn deposit_exc_lock_to_done(h: Head, q: Request) -> Result<Decision, Refusal>
    ensures { result ≡ granted (deposit_exc_lock_to_done h q) }
{
    deposit_to(h, q, Flag::Available)
}

// 30: the page is unmapped. Readers that are Pending stay: nobody else stands beside an editor that has the page out.
pub fn deposit_exc_lock_to_unmapped(h: Head, q: Request) -> Result<Decision, Refusal>
    ensures { result ≡ granted (deposit_exc_lock_to_unmapped h q) }
{
    deposit_to(h, q, Flag::Unmapped)
}
