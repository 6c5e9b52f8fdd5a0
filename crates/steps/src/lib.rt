// The 30 steps on a page's head (RULES 3.2). The reader that a request looks for is sought in the list (`sought_by`), and the step
// is decided (`decide`): its answer, the head that it leaves, and what it does to the list. No function here sees the list, and
// each takes any value of its types.
#![tactic(auto)]

ghost use Rattle.std.specs.Prelude.{◌≡◌};
ghost use Rattle.heads.specs.Decisions.{granted};
ghost use Rattle.steps.specs.Decide.{step_at, decide_of, sought_of};

use editing::{
    bucketless_claim, claim_to_pending, deposit_downgrade_exc_lock,
    deposit_downgrade_exc_lock_to_claim, exc_inc_count, release_writeback, shared_to_claim,
    take_exc_lock_check_ref_count, take_exc_lock_finish_writeback, take_writeback,
    withdraw_take_exc_lock_finish,
};
use heads::{Decision, refuse};
use kinds::{Phase, Reader};
use page_record::Head;
use reading::{
    deposit_loading_to_done, deposit_loading_to_shared, loading_inc_count, obtain_loading,
    obtain_loading_no_refcount, shared_check_exc, shared_check_loading, shared_dec_count,
    shared_inc_count, withdraw_alloc, withdraw_alloc_no_refcount,
};
use requests::{Refusal, Request};
use returning::{
    cancel_exc_lock_to_claim, claim_to_shared, deposit_exc_lock_to_done,
    deposit_exc_lock_to_unmapped, discard_claim, pending_to_claim,
};

// The reader that a request looks for: 4 and 22 an Obtained one with the request's value, 20 and 23 a Pending one, 21 and 24
// a Pending2 one. By the number, as `take`.
#[tactic(auto, unfolding(crate::specs::Decide::sought_of))]
pub fn sought_by(request: Request) -> Option<Reader>
    ensures { result ≡ sought_of request }
{
    let phase = match request.step {
        4 | 22 => Phase::Obtained(request.value),
        20 | 23 => Phase::Pending,
        21 | 24 => Phase::Pending2,
        _ => return None,
    };
    Some(Reader {
        phase,
        bucket: request.bucket,
    })
}

// The step that a request names, on a head. `found` is where the reader that it looks for stands, and `full` whether the list
// has no room. A match on the number and no enum of the 30: any byte gets an answer (demand1), by the list `steps` of specs/.
fn take(head: Head, request: Request, found: Option<usize>, full: bool) -> Result<Decision, Refusal>
    ensures { result ≡ granted (step_at head request found full) }
{
    match request.step {
        1 => take_writeback(head),
        2 => release_writeback(head),
        3 => bucketless_claim(head),
        4 => shared_to_claim(head, request, found),
        5 => claim_to_pending(head),
        6 => take_exc_lock_finish_writeback(head, request),
        7 => take_exc_lock_check_ref_count(head),
        8 => withdraw_take_exc_lock_finish(head),
        9 => deposit_downgrade_exc_lock(head, request, full),
        10 => deposit_downgrade_exc_lock_to_claim(head, request),
        11 => withdraw_alloc(head),
        12 => withdraw_alloc_no_refcount(head),
        13 => loading_inc_count(head, request),
        14 => obtain_loading(head),
        15 => obtain_loading_no_refcount(head),
        16 => deposit_loading_to_shared(head, request, full),
        17 => deposit_loading_to_done(head, request),
        18 => exc_inc_count(head, request),
        19 => shared_inc_count(head, request, full),
        20..=22 => shared_dec_count(head, request, found),
        23 => shared_check_exc(head, request, found),
        24 => shared_check_loading(head, request, found),
        25 => discard_claim(head),
        26 => claim_to_shared(head, full),
        27 => pending_to_claim(head),
        28 => cancel_exc_lock_to_claim(head),
        29 => deposit_exc_lock_to_done(head, request),
        30 => deposit_exc_lock_to_unmapped(head, request),
        0 | 31..=255 => Err(Refusal::UnknownStep),
    }
}

// What is decided: the step where it is granted. A refusal leaves the head and the list as they are.
pub fn decide(head: Head, request: Request, found: Option<usize>, full: bool) -> Decision
    ensures { result ≡ decide_of head request found full }
{
    match take(head, request, found, full) {
        Ok(decision) => decision,
        Err(why) => refuse(head, why),
    }
}
