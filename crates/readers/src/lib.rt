// The bounded list of readers, by value: an array as long as the capacity, of which the first `len` entries count. Every
// function takes any value of its types, also a length above the capacity or a place past the length, and its promise is an
// equation.
#![tactic(auto)]

ghost use Rattle.std.specs.Prelude.{◌≡◌, drop, position};
ghost use Rattle.readers.specs.Same.{same_reader};
ghost use Rattle.readers.specs.Listed.{live, blank_reader, blank_past, find_in, count_at, is_in, count_in, no_readers};
ghost use Rattle.readers.specs.Listed.{pushed, put_at, removed_at};

use kinds::{Bucket, CAPACITY, Phase, Reader, phase_number};

// The array, and how many of its entries count. A record has no heap, and `blank_past` and `removed_at` are about what lies past the
// length: so it is no `Vec`.
#[derive(Clone, Copy)]
pub struct Readers {
    pub items: [Reader; CAPACITY],
    pub len: usize,
}

// Whether two readers are the same: phase, value and bucket.
pub fn same(a: Reader, b: Reader) -> bool
    ensures { result ≡ same_reader a b }
{
    a == b
}

// The filling of an unused entry.
pub fn blank() -> Reader
    ensures { result ≡ blank_reader }
{
    Reader {
        phase: Phase::Pending,
        bucket: Bucket(0),
    }
}

// No readers.
#[tactic(auto, unfolding(crate::specs::Listed::no_readers))]
pub fn empty() -> Readers
    ensures { result ≡ no_readers }
{
    Readers {
        items: [blank(); CAPACITY],
        len: 0,
    }
}

// The readers that count: the first `len` of the array, and no more than it has.
pub fn live(rs: &Readers) -> &[Reader]
    ensures { result.now ≡ live rs.now }
{
    &rs.items[..rs.len.min(CAPACITY)]
}

// The place of the first of these readers equal to `want`: the search stops there. The bucket is compared first, the phase with its
// value only where that agrees.
fn place_of(readers: &[Reader], want: Reader) -> Option<usize>
    ensures { result ≡ position (λ r. same_reader r want) readers.now }
{
    readers
        .iter()
        .position(|r| r.bucket == want.bucket && r.phase == want.phase)
}

// The place of the first reader equal to `want`.
#[tactic(auto, using(crate::proofs::First::find_is_position))]
pub fn find(rs: Readers, want: Reader) -> Option<usize>
    ensures { result ≡ find_in (live rs) want }
{
    place_of(live(&rs), want)
}

// How many readers stand at a bucket. The list is lent, since this is asked of all of it four times for each request; and it is no
// `filter` and `count`, which jump at each reader that is passed over.
pub fn count_at(rs: &Readers, bucket: Bucket) -> usize
    ensures { result ≡ count_at bucket.0 (live rs.now) }
{
    let mut n = 0;
    for r in live(rs) {
        n += (r.bucket == bucket) as usize;
    }
    n
}

// How many readers stand at a bucket in the phase of this number, 1 to 3: a number, as in the clause `count_in` and in `phases_sum`.
pub fn count_in(rs: Readers, bucket: Bucket, phase: u8) -> usize
    ensures { result ≡ count_in bucket.0 phase (live rs) }
{
    let mut n = 0;
    for r in live(&rs) {
        n += (r.bucket == bucket && phase_number(r.phase) == phase) as usize;
    }
    n
}

// The entries past the length. They are cut off at once: `skip` would walk the listed ones first.
fn past(rs: &Readers) -> &[Reader]
    ensures { result.now ≡ drop rs.now.len rs.now.items }
{
    &rs.items[rs.len.min(CAPACITY)..]
}

// Whether every entry past the length is blank. The list is lent, as to `count_at`.
pub fn blank_past(rs: &Readers) -> bool
    ensures { result ≡ blank_past rs.now }
{
    let nobody = blank();
    past(rs).iter().all(|r| same(nobody, *r))
}

// One more at the end; an error, the list as it was, where it is full.
#[tactic(auto, unfolding(crate::specs::Listed::pushed))]
pub fn push(mut rs: Readers, r: Reader) -> Result<Readers, Readers>
    ensures { result ≡ pushed rs r }
{
    if rs.len < CAPACITY {
        rs.items[rs.len] = r;
        rs.len += 1;
        Ok(rs)
    } else {
        Err(rs)
    }
}

// Another reader in the place of the one that stands there.
#[tactic(auto, unfolding(crate::specs::Listed::put_at))]
pub fn put(mut rs: Readers, at: usize, r: Reader) -> Readers
    ensures { result ≡ put_at rs at r }
{
    if rs.len <= CAPACITY && at < rs.len {
        rs.items[at] = r;
    }
    rs
}

// The reader at a place taken out: the last one fills the gap.
#[tactic(auto, using(crate::proofs::Places::removed_is), unfolding(crate::specs::Listed::removed_at))]
pub fn remove(mut rs: Readers, at: usize) -> Readers
    ensures { result ≡ removed_at rs at }
{
    if rs.len <= CAPACITY && at < rs.len {
        rs.len -= 1;
        rs.items[at] = rs.items[rs.len];
        rs.items[rs.len] = blank();
    }
    rs
}
