// Rule 8, ours: the limits (RULES 2). No sum is made here, so a record however broken gets its answer.
ghost use Rattle.std.specs.Prelude.{◌≡◌};
ghost use Rattle.rules.specs.Rules.{counts_under, holders_within, buckets_within, limits_kept};

use kinds::{BUCKETS, CAPACITY, CEILING, Count, ExcState, LoadingState, Reader};
use page_record::{Head, exc_bucket, exc_visited, loading_bucket, valid_bucket};
use readers::{Readers, blank_past, live};

// Each count is at most this one.
pub fn counts_under(counts: [Count; BUCKETS as usize], highest: u8) -> bool
    ensures { result ≡ counts_under highest counts }
{
    counts.iter().all(|count| count.0 <= highest)
}

// Every holder's bucket is one of the four, and the editor's visited number at most four.
fn holders_within(e: ExcState, l: LoadingState) -> bool
    ensures { result ≡ holders_within e l }
{
    valid_bucket(exc_bucket(e)) & valid_bucket(loading_bucket(l)) & (exc_visited(e).0 <= BUCKETS)
}

// Every reader's bucket is one of the four.
fn buckets_within(readers: &[Reader]) -> bool
    ensures { result ≡ buckets_within readers.now }
{
    readers.iter().all(|r| r.bucket.0 < BUCKETS)
}

// Rule 8: the counts and the holders are within their limits, and no more readers are listed than fit, each at one of the four
// buckets, with blanks past them.
pub fn limits_kept(h: Head, readers: Readers) -> bool
    ensures { result ≡ limits_kept h readers }
{
    let listed = (readers.len <= CAPACITY) & buckets_within(live(&readers)) & blank_past(&readers);
    counts_under(h.ref_counts, CEILING) & holders_within(h.exc_state, h.loading_state) & listed
}
