// The first two lines of an image: the kinds, and the counts.
ghost use Rattle.std.specs.Prelude.{◌≡◌};
ghost use Rattle.encoding.specs.Images.{kind_bytes, count_bytes};

use crate::carried::{exc_bucket_number, exc_clean, loading_bucket_number};
use crate::places::WRITEBACK;
use kinds::{LINE, exc_number, flag_number, loading_number, storage_number, writeback_number};
use page_record::{Head, exc_visited};

// The flag, storage, the list's length and the holders. Of the length sixteen bits are kept, so it is no `u16::to_le_bytes`.
#[tactic(auto, unfolding(crate::specs::Images::kind_bytes))]
pub fn kind_bytes(head: Head, len: usize) -> [u8; LINE]
    ensures { result ≡ kind_bytes head len }
{
    let mut line = [0; LINE];
    line[..=WRITEBACK].copy_from_slice(&[
        flag_number(head.flag),
        storage_number(head.storage),
        (len % 256) as u8,
        (len / 256 % 256) as u8,
        exc_number(head.exc_state),
        exc_bucket_number(head.exc_state),
        exc_visited(head.exc_state).0,
        exc_clean(head.exc_state) as u8,
        loading_number(head.loading_state),
        loading_bucket_number(head.loading_state),
        writeback_number(head.writeback_state),
    ]);
    line
}

// The counts.
#[tactic(auto, unfolding(crate::specs::Images::count_bytes))]
pub fn count_bytes(head: Head) -> [u8; LINE]
    ensures { result ≡ count_bytes head }
{
    let [a, b, c, d] = head.ref_counts;
    [a.0, b.0, c.0, d.0, 0, 0, 0, 0, 0, 0, 0, 0, 0, 0, 0, 0]
}
