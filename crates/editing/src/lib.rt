// The steps of those who change the page and of the archive (RULES 3.2, steps 1 to 10 and 18), by the source's names: each decides on
// a head, and takes any value of its types. Head and request are two parameters: half of them read the head alone.
#![tactic(auto)]

mod claim;
mod exclusive;
mod writeback;

pub use claim::{bucketless_claim, claim_to_pending, shared_to_claim};
pub use exclusive::{
    deposit_downgrade_exc_lock, deposit_downgrade_exc_lock_to_claim, exc_inc_count,
    take_exc_lock_check_ref_count, take_exc_lock_finish_writeback, withdraw_take_exc_lock_finish,
};
pub use writeback::{release_writeback, take_writeback};
