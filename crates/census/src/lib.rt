// The census (RULES 7.2): how many of the listed readers stand at each bucket in each phase. A count fits its byte because a sound
// record keeps every count within the ceiling.
#![tactic(auto)]

ghost use Rattle.std.specs.Prelude.{◌≤◌, ◌≡◌};
ghost use Rattle.kinds.specs.Limits.{ceiling};
ghost use Rattle.readers.specs.Listed.{live, count_at, count_in};
ghost use Rattle.census.specs.Census.{census_row, census_of};

use kinds::{BUCKETS, Bucket, Count};
use page_record::Page;
use readers::{Readers, count_in};
use soundness::is_sound;

// How many readers stand at a bucket in the phase of this number, where no more stand there in all than a count can say.
#[tactic(auto, using(crate::proofs::Sums::phase_le))]
fn counted(readers: Readers, b: Bucket, phase: u8) -> Count
    requires { count_at b.0 (live readers) ≤ ceiling }
    ensures { result ≡ record { 0 = count_in b.0 phase (live readers) } }
{
    Count(count_in(readers, b, phase) as u8)
}

// The readers at a bucket: Pending, Pending2, Obtained.
fn census_row(readers: Readers, b: Bucket) -> [Count; 3]
    requires { count_at b.0 (live readers) ≤ ceiling }
    ensures { result ≡ census_row (live readers) b.0 }
{
    [1, 2, 3].map(|phase| counted(readers, b, phase))
}

// How many readers stand at each bucket in each phase; all zeros for a record that isn't sound.
#[tactic(auto, using(crate::proofs::Sums::few_where_sound), unfolding(crate::specs::Census::census_of))]
pub fn census(page: Page) -> [[Count; 3]; BUCKETS as usize]
    ensures { result ≡ census_of page }
{
    if is_sound(page) {
        // Tried by `map` and by `array::from_fn`: in the closure it stays open that `census_row` may be called (`census_row-requires`).
        [
            census_row(page.readers, Bucket(0)),
            census_row(page.readers, Bucket(1)),
            census_row(page.readers, Bucket(2)),
            census_row(page.readers, Bucket(3)),
        ]
    } else {
        [[Count(0); 3]; BUCKETS as usize]
    }
}
