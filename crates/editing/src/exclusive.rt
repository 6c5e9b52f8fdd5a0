// The editor, from the end of its wait until it puts the page in: steps 6 to 10, and 18. It closes the page (6), looks at one
// bucket after the other until it has found no reference but its own (7), and gets the page (8). It puts the page in and goes
// on as a reader (9) or as a claimant (10), for which it needs a bucket: one that has none gets one first (18). One that closed the
// page as clean puts in what it got. Each names what it takes of the editor by its pattern: a function for that would answer a struct
// of the same fields.
ghost use Rattle.std.specs.Prelude.{◌≡◌};
ghost use Rattle.heads.specs.Decisions.{granted};
ghost use Rattle.editing.specs.Steps.{take_exc_lock_finish_writeback, take_exc_lock_check_ref_count};
ghost use Rattle.editing.specs.Steps.{withdraw_take_exc_lock_finish, deposit_downgrade_exc_lock};
ghost use Rattle.editing.specs.Steps.{deposit_downgrade_exc_lock_to_claim, exc_inc_count};

use heads::{
    Decision, Edit, deposit_exc, leave_exc, may_put_in, number_at, with_number, withdraw_exc,
};
use kinds::{
    BUCKETS, Bucket, CEILING, ExcState, Flag, Phase, Reader, Visited, lock_flag, writeback_done,
};
use page_record::{Head, ref_at};
use requests::{Refusal, Request};

// 6: the archive is done, and the editor closes the page, as clean or as dirty.
pub fn take_exc_lock_finish_writeback(h: Head, q: Request) -> Result<Decision, Refusal>
    ensures { result ≡ granted (take_exc_lock_finish_writeback h q) }
{
    if !writeback_done(h.flag) {
        return Err(Refusal::WrongFlag);
    }
    let ExcState::PendingAwaitWriteback { bucket, value } = h.exc_state else {
        return Err(Refusal::NoHolder);
    };
    let clean = q.clean == 1;
    let pending = ExcState::Pending {
        bucket,
        visited_count: Visited(0),
        clean,
        value,
    };
    Ok(leave_exc(h, lock_flag(clean), pending, Edit::Keep))
}

// 7: the editor looks at the next bucket: one reference, its own, at its own bucket, and none elsewhere.
pub fn take_exc_lock_check_ref_count(h: Head) -> Result<Decision, Refusal>
    ensures { result ≡ granted (take_exc_lock_check_ref_count h) }
{
    let ExcState::Pending {
        bucket,
        visited_count: Visited(visited),
        clean,
        value,
    } = h.exc_state
    else {
        return Err(Refusal::NoHolder);
    };
    if visited >= BUCKETS {
        return Err(Refusal::WrongVisited);
    }
    let here = Bucket(visited);
    if usize::from(number_at(h, here)) != ref_at(bucket, here) {
        return Err(Refusal::OtherCount);
    }
    let pending = ExcState::Pending {
        bucket,
        visited_count: Visited(visited + 1),
        clean,
        value,
    };
    Ok(leave_exc(h, h.flag, pending, Edit::Keep))
}

// 8: every bucket was looked at; the page is handed out, and the editor keeps its version.
pub fn withdraw_take_exc_lock_finish(h: Head) -> Result<Decision, Refusal>
    ensures { result ≡ granted (withdraw_take_exc_lock_finish h) }
{
    let ExcState::Pending {
        bucket,
        visited_count: Visited(visited),
        clean,
        value,
    } = h.exc_state
    else {
        return Err(Refusal::NoHolder);
    };
    if visited != BUCKETS {
        return Err(Refusal::WrongVisited);
    }
    let obtained = ExcState::Obtained {
        bucket,
        clean,
        value,
    };
    Ok(withdraw_exc(h, obtained, value))
}

// 9: the editor puts the page in, a clean one as it took it, and reads on.
pub fn deposit_downgrade_exc_lock(h: Head, q: Request, full: bool) -> Result<Decision, Refusal>
    ensures { result ≡ granted (deposit_downgrade_exc_lock h q full) }
{
    let ExcState::Obtained {
        bucket,
        clean,
        value: kept,
    } = h.exc_state
    else {
        return Err(Refusal::NoHolder);
    };
    let own = bucket.ok_or(Refusal::WrongBucket)?;
    if full {
        return Err(Refusal::ListFull);
    }
    if !may_put_in(clean, kept, q.value) {
        return Err(Refusal::OtherValue);
    }
    let reader = Reader {
        phase: Phase::Obtained(q.value),
        bucket: own,
    };
    Ok(deposit_exc(
        h,
        q.value,
        Flag::Available,
        ExcState::None,
        Edit::Push(reader),
    ))
}

// 10: the editor puts the page in, a clean one as it took it, and keeps its claim.
// 9 and 10 stay two functions, as in the source: 10 asks for no room, and one for both would be told by a flag which it is.
pub fn deposit_downgrade_exc_lock_to_claim(h: Head, q: Request) -> Result<Decision, Refusal>
    ensures { result ≡ granted (deposit_downgrade_exc_lock_to_claim h q) }
{
    let ExcState::Obtained {
        bucket,
        clean,
        value: kept,
    } = h.exc_state
    else {
        return Err(Refusal::NoHolder);
    };
    if bucket.is_none() {
        return Err(Refusal::WrongBucket);
    }
    if !may_put_in(clean, kept, q.value) {
        return Err(Refusal::OtherValue);
    }
    let claim = ExcState::Claim {
        bucket,
        value: q.value,
    };
    Ok(deposit_exc(h, q.value, Flag::Claimed, claim, Edit::Keep))
}

// 18: an editor that has no bucket gets one, and keeps its version.
pub fn exc_inc_count(h: Head, q: Request) -> Result<Decision, Refusal>
    ensures { result ≡ granted (exc_inc_count h q) }
{
    let ExcState::Obtained {
        bucket,
        clean,
        value,
    } = h.exc_state
    else {
        return Err(Refusal::NoHolder);
    };
    if bucket.is_some() {
        return Err(Refusal::WrongBucket);
    }
    let n = number_at(h, q.bucket);
    if n >= CEILING {
        return Err(Refusal::AtCeiling);
    }
    let obtained = ExcState::Obtained {
        bucket: Some(q.bucket),
        clean,
        value,
    };
    Ok(leave_exc(
        with_number(h, q.bucket, n + 1),
        h.flag,
        obtained,
        Edit::Keep,
    ))
}
