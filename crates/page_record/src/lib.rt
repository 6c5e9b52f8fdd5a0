// The page record: what stands in it, and a fresh one. Every function takes any record, also one that is broken, and its promise
// is an equation. Whether a record is sound is judged in `soundness`, rule by rule in `rules`.
#![tactic(auto)]

ghost use Rattle.std.specs.Prelude.{◌≡◌};
ghost use Rattle.page_record.specs.Pages.{head_of, page_of, fresh_page};
ghost use Rattle.page_record.specs.References.{ref_at};

mod holders;

pub use holders::{
    exc_bucket, exc_visited, holds, is_await, is_before_loading, is_claim, is_editing, is_loading,
    is_locked, is_stored, loading_bucket, no_exc, no_load, no_writeback, valid_bucket,
};
use kinds::{BUCKETS, Bucket, Count, ExcState, Flag, LoadingState};
use readers::{Readers, empty};

// The record, field for field as in the source: theorems name `page.storage`, so it is not a Head beside its readers. Storage has the
// page's version, or nothing where it was handed out, and the archive the version that it writes, or nothing where it writes none.
#[derive(Clone, Copy)]
pub struct Page {
    pub storage: Option<u64>,
    pub flag: Flag,
    pub ref_counts: [Count; BUCKETS as usize],
    pub readers: Readers,
    pub exc_state: ExcState,
    pub loading_state: LoadingState,
    pub writeback_state: Option<u64>,
}

// The record without its readers: all that a step decides on.
#[derive(Clone, Copy)]
pub struct Head {
    pub storage: Option<u64>,
    pub flag: Flag,
    pub ref_counts: [Count; BUCKETS as usize],
    pub exc_state: ExcState,
    pub loading_state: LoadingState,
    pub writeback_state: Option<u64>,
}

// A page that nobody holds, with this value in storage.
#[tactic(auto, unfolding(crate::specs::Pages::fresh_page))]
pub fn fresh(value: u64) -> Page
    ensures { result ≡ fresh_page value }
{
    Page {
        storage: Some(value),
        flag: Flag::Unmapped,
        ref_counts: [Count(0); BUCKETS as usize],
        readers: empty(),
        exc_state: ExcState::None,
        loading_state: LoadingState::None,
        writeback_state: None,
    }
}

// The page without its readers: no conversion, since these are left out.
pub fn head_of(page: Page) -> Head
    ensures { result ≡ head_of page }
{
    // The array goes by a variable: a literal that names the array of another struct gets no proof.
    let ref_counts = page.ref_counts;
    Head {
        storage: page.storage,
        flag: page.flag,
        ref_counts,
        exc_state: page.exc_state,
        loading_state: page.loading_state,
        writeback_state: page.writeback_state,
    }
}

// The page of a head and its readers.
pub fn page_of(head: Head, readers: Readers) -> Page
    ensures { result ≡ page_of head readers }
{
    let ref_counts = head.ref_counts;
    Page {
        storage: head.storage,
        flag: head.flag,
        ref_counts,
        readers,
        exc_state: head.exc_state,
        loading_state: head.loading_state,
        writeback_state: head.writeback_state,
    }
}

// A holder's reference at a bucket: 1 where that is its own, else 0.
pub fn ref_at(own: Option<Bucket>, b: Bucket) -> usize
    ensures { result ≡ ref_at own b.0 }
{
    (own == Some(b)) as usize
}
