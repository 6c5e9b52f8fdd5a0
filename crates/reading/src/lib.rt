// The steps of the loader and of the readers (RULES 3.2, steps 11 to 17 and 19 to 24), by the source's names: each decides on a head,
// and takes any value of its types. Head and request are two parameters: half of them read the head alone.
#![tactic(auto)]

mod loading;
mod shared;

pub use loading::{
    deposit_loading_to_done, deposit_loading_to_shared, loading_inc_count, obtain_loading,
    obtain_loading_no_refcount, withdraw_alloc, withdraw_alloc_no_refcount,
};
pub use shared::{shared_check_exc, shared_check_loading, shared_dec_count, shared_inc_count};
