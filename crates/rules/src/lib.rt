// The eight rules of a sound record (RULES 2), a function each: rules 1 to 7 by the source's names, and the limits, rule 8, whose
// clause on counts can be asked with another ceiling too. Every function takes any record, also one that is broken, and its promise
// is an equation.
#![tactic(auto)]

mod heads;
mod limits;
mod lists;

pub use heads::{
    exc_state_invariants, flag_invariant, loading_state_invariants, storage_some_invariant,
    writeback_state_invariants,
};
pub use limits::{counts_under, limits_kept};
pub use lists::{ref_count_invariant, shared_storage_invariant};
