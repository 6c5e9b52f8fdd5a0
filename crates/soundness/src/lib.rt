// Whether a record is sound: it keeps the eight rules, and the lowest that it breaks has a number. What soundness says beyond its
// rules one by one stands in proofs/: the twelve shapes of a sound head, and the facts that steps and demands use.
#![tactic(auto)]

ghost use Rattle.std.specs.Prelude.{◌≡◌};
ghost use Rattle.laws.specs.Tables.{first_broken};
ghost use Rattle.soundness.specs.Soundness.{lowest_broken, sound_of, sound_number};

use page_record::{Page, head_of};
use rules::{
    exc_state_invariants, flag_invariant, limits_kept, loading_state_invariants,
    ref_count_invariant, shared_storage_invariant, storage_some_invariant,
    writeback_state_invariants,
};

// How many rules there are.
const RULES: usize = 8;

// The number of the first test that fails, counted from 1; 0 where none does.
fn first_broken(tests: [bool; RULES]) -> u8
    ensures { result ≡ first_broken 1 tests }
{
    match tests.iter().position(|passes| !*passes) {
        Some(i) => i as u8 + 1,
        None => 0,
    }
}

// The lowest broken rule, 1 to 8; 0 where none is broken: a number, as in the clause `lowest_broken` and for the drill.
#[tactic(auto, unfolding(crate::specs::Soundness::lowest_broken))]
pub fn broken_rule(page: Page) -> u8
    ensures { result ≡ lowest_broken page }
{
    let h = head_of(page);
    first_broken([
        storage_some_invariant(h.storage, h.exc_state, h.loading_state),
        exc_state_invariants(h.exc_state, h.storage, h.loading_state, h.writeback_state),
        writeback_state_invariants(h.writeback_state, h.storage, h.loading_state),
        loading_state_invariants(h.loading_state, h.writeback_state),
        ref_count_invariant(h.ref_counts, page.readers, h.exc_state, h.loading_state),
        flag_invariant(h.flag, h.exc_state, h.loading_state, h.writeback_state),
        shared_storage_invariant(h, page.readers),
        limits_kept(h, page.readers),
    ])
}

// Whether no rule is broken.
#[tactic(auto, unfolding(crate::specs::Soundness::sound_of, crate::specs::Soundness::lowest_broken))]
pub fn is_sound(page: Page) -> bool
    ensures { result ≡ sound_of page }
{
    broken_rule(page) == 0
}

// Its number (RULES 7.1): 0 where the record is sound, else 1.
pub fn sound(page: Page) -> u8
    ensures { result ≡ sound_number page }
{
    !is_sound(page) as u8
}
