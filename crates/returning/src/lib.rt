// The steps by which a holder gives back what it has (RULES 3.2, steps 25 to 30). They are ours, named in the source's manner:
// each decides on a head, and takes any value of its types. Head and request are two parameters: half of them read the head alone.
#![tactic(auto)]

mod claim;
mod exclusive;

pub use claim::{claim_to_shared, discard_claim, pending_to_claim};
pub use exclusive::{
    cancel_exc_lock_to_claim, deposit_exc_lock_to_done, deposit_exc_lock_to_unmapped,
};
