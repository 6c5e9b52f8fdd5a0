// A page's head with some of its parts exchanged, and the decisions that leave it so: what the steps are made of. Every function
// takes any head, and any number for a bucket.
#![tactic(auto)]

ghost use Rattle.std.specs.Prelude.{◌≡◌, Some, None, []};
ghost use Rattle.page_record.specs.Holders.{value_of};
ghost use Rattle.page_record.specs.Pages.{number_at};
ghost use Rattle.heads.specs.Setters.{with_storage, with_flag, with_counts, with_exc, with_loading, with_writeback};
ghost use Rattle.heads.specs.Setters.{with_number, lowered, lowered_if};
ghost use Rattle.heads.specs.Decisions.{refused, decided, accepts, hands_out, may_put_in};

use kinds::{BUCKETS, Bucket, Count, ExcState, Flag, LoadingState, Reader};
use page_record::Head;
use requests::{Answer, Refusal};

// What a step does to the list of readers.
#[derive(Clone, Copy)]
pub enum Edit {
    Keep,
    Push(Reader),
    Put(usize, Reader),
    Remove(usize),
}

// What is decided of a head. A step answers it where it is granted, else the reason alone; `refuse` is what a refusal then leaves.
#[derive(Clone, Copy)]
pub struct Decision {
    pub answer: Answer,
    pub head: Head,
    pub edit: Edit,
}

// ---- decisions

// A refusal changes nothing.
pub fn refuse(h: Head, why: Refusal) -> Decision
    ensures { result ≡ refused h why }
{
    Decision {
        answer: Answer::Refused(why),
        head: h,
        edit: Edit::Keep,
    }
}

// Accepted: what is left of the head, and what is done to the list of readers.
pub fn accept(next: Head, edit: Edit) -> Decision
    ensures { result ≡ decided next (accepts [] next edit) }
{
    Decision {
        answer: Answer::Accepted,
        head: next,
        edit,
    }
}

// Accepted, and this value is handed out.
fn hand_out(next: Head, value: u64) -> Decision
    ensures { result ≡ decided next (hands_out [] next value) }
{
    Decision {
        answer: Answer::Withdrew(value),
        head: next,
        edit: Edit::Keep,
    }
}

// Accepted: the head is left with this flag and this archive.
pub fn leave_writeback(h: Head, flag: Flag, writeback_state: Option<u64>) -> Decision
    ensures { result ≡ decided h (accepts [] (with_flag flag (with_writeback writeback_state h)) Edit.Keep) }
{
    let head = Head {
        flag,
        writeback_state,
        ..h
    };
    accept(head, Edit::Keep)
}

// The head with this storage, this flag and this exclusive holder.
// `with_loading` is a function of its own: which field is written can't be a parameter.
fn with_exc(h: Head, storage: Option<u64>, flag: Flag, exc_state: ExcState) -> Head
    ensures { result ≡ with_flag flag (with_storage storage (with_exc exc_state h)) }
{
    Head {
        storage,
        flag,
        exc_state,
        ..h
    }
}

// Accepted: the head is left with this flag and this exclusive holder.
pub fn leave_exc(h: Head, flag: Flag, exc: ExcState, edit: Edit) -> Decision
    ensures { result ≡ decided h (accepts [] (with_flag flag (with_exc exc h)) edit) }
{
    accept(with_exc(h, h.storage, flag, exc), edit)
}

// Accepted, and the exclusive holder hands this value in; the head is left with this flag and this exclusive holder.
pub fn deposit_exc(h: Head, value: u64, flag: Flag, exc: ExcState, edit: Edit) -> Decision
    ensures { result ≡ decided h (accepts [] (with_flag flag (with_storage (Some value) (with_exc exc h))) edit) }
{
    accept(with_exc(h, Some(value), flag, exc), edit)
}

// Accepted, and this value is handed out to the exclusive holder.
pub fn withdraw_exc(h: Head, exc: ExcState, value: u64) -> Decision
    ensures { result ≡ decided h (hands_out [] (with_storage None (with_exc exc h)) value) }
{
    hand_out(with_exc(h, None, h.flag, exc), value)
}

// The head with this storage, this flag and this loader.
fn with_loading(h: Head, storage: Option<u64>, flag: Flag, loading_state: LoadingState) -> Head
    ensures { result ≡ with_flag flag (with_storage storage (with_loading loading_state h)) }
{
    Head {
        storage,
        flag,
        loading_state,
        ..h
    }
}

// Accepted: the head is left with this flag and this loader.
pub fn leave_loading(h: Head, flag: Flag, loader: LoadingState) -> Decision
    ensures { result ≡ decided h (accepts [] (with_flag flag (with_loading loader h)) Edit.Keep) }
{
    accept(with_loading(h, h.storage, flag, loader), Edit::Keep)
}

// Accepted, and the loader hands this value in and goes: the page is available.
pub fn deposit_loading(h: Head, value: u64, edit: Edit) -> Decision
    ensures { result ≡ decided h (accepts [] (with_flag Flag.Available (with_storage (Some value) (with_loading LoadingState.None h))) edit) }
{
    accept(
        with_loading(h, Some(value), Flag::Available, LoadingState::None),
        edit,
    )
}

// Accepted, and what is in storage is handed out to this loader, which stands there under this flag.
pub fn withdraw_loading(h: Head, flag: Flag, loader: LoadingState) -> Decision
    ensures { result ≡ decided h (hands_out [] (with_flag flag (with_storage None (with_loading loader h))) (value_of h.storage)) }
{
    hand_out(with_loading(h, None, flag, loader), value_of(h.storage))
}

// ---- counts and storage

// The count at a bucket; a number that is no bucket has none.
pub fn number_at(h: Head, bucket: Bucket) -> u8
    ensures { result ≡ number_at h.ref_counts bucket.0 }
{
    h.ref_counts
        .get(bucket.0 as usize)
        .map_or(0, |count| count.0)
}

// The head with this count at a bucket.
pub fn with_number(mut h: Head, bucket: Bucket, n: u8) -> Head
    ensures { result ≡ with_counts (with_number bucket.0 n h.ref_counts) h }
{
    if bucket.0 < BUCKETS {
        h.ref_counts[bucket.0 as usize] = Count(n);
    }
    h
}

// The head with one less at a bucket. A count of 0 stays: a sound record doesn't come there.
pub fn lower(h: Head, bucket: Bucket) -> Head
    ensures { result ≡ lowered bucket.0 h }
{
    with_number(h, bucket, number_at(h, bucket).saturating_sub(1))
}

// The head with one less at a holder's bucket, if it has one.
pub fn lower_if(h: Head, own: Option<Bucket>) -> Head
    ensures { result ≡ lowered_if own h }
{
    own.map_or(h, |bucket| lower(h, bucket))
}

// Whether a holder that keeps this value may put that one in: if it is clean, no other than the one that it keeps.
pub fn may_put_in(clean: bool, kept: u64, value: u64) -> bool
    ensures { result ≡ may_put_in clean kept value }
{
    !clean || value == kept
}

// The source's storage.get_Some_0(); 0 where the page is out: a sound record doesn't come there.
pub fn value_of(storage: Option<u64>) -> u64
    ensures { result ≡ value_of storage }
{
    storage.unwrap_or(0)
}
