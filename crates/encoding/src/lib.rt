// The bytes of an image (RULES 5.5): a page as it stands, sound or not, into a lent buffer. Where each byte has its place is `places`.
#![tactic(auto)]

ghost use Rattle.std.specs.Prelude.{◌*◌, ◌<◌, ◌≡◌, length, drop};
ghost use Rattle.kinds.specs.Limits.{line_size, capacity};
ghost use Rattle.readers.specs.Listed.{live};
ghost use Rattle.wire.specs.Buffers.{put_to};
ghost use Rattle.encoding.specs.Images.{value_bytes, first_entry, entries, image_of, image_size, imaged_in};

mod carried;
mod lines;
mod places;

pub use carried::phase_value;
use carried::{exc_value, writeback_value};
use heads::value_of;
use kinds::{CAPACITY, LINE, phase_number};
use lines::{count_bytes, kind_bytes};
use page_record::{Head, Page, head_of};
use places::ZEROS;
pub use places::{
    BUCKET, CLEAN, COUNTS, EXC, EXC_BUCKET, EXC_VALUE, FLAG, IMAGE, LENGTH, LOADER, LOADER_BUCKET,
    PHASE, READERS, SHORT_IMAGE, STORAGE_VALUE, STORED, VISITED, WRITEBACK, WRITEBACK_VALUE, YES,
};
use readers::{Readers, live};

// Among the values: where the second and the third begin, the zeros after them, and where these end.
const SECOND: usize = EXC_VALUE - STORAGE_VALUE;

const THIRD: usize = WRITEBACK_VALUE - STORAGE_VALUE;

const LAST: usize = ZEROS - STORAGE_VALUE;

const VALUES: usize = READERS - STORAGE_VALUE;

// The values of storage, the exclusive holder and the writeback, and zeros.
fn put_values(head: Head, out: &mut [u8])
    requires { length out.old ≡ 2 * line_size }
    ensures { out.new ≡ value_bytes head }
{
    wire::write_u64(&mut out[..SECOND], value_of(head.storage));
    wire::write_u64(&mut out[SECOND..THIRD], exc_value(head.exc_state));
    wire::write_u64(&mut out[THIRD..LAST], writeback_value(head.writeback_state));
    wire::write_u64(&mut out[LAST..VALUES], 0);
}

// The entry at a place: that of the reader who is listed there, or zeros.
fn put_entry(readers: Readers, i: usize, out: &mut [u8])
    requires { i < capacity }
    ensures { out.new ≡ put_to (first_entry (drop i (live readers))) out.old }
{
    match live(&readers).get(i) {
        Some(reader) => wire::put(
            out,
            phase_number(reader.phase),
            reader.bucket.0,
            0,
            phase_value(reader.phase),
        ),
        None => wire::put(out, 0, 0, 0, 0),
    };
}

// An entry for each place of the list. By places: tried by `chunks_exact_mut`, the clause stays open, since nothing is known of what
// was lent after such a loop.
fn put_list(readers: Readers, out: &mut [u8])
    requires { length out.old ≡ line_size * capacity }
    ensures { out.new ≡ entries capacity (live readers) }
{
    for i in 0..CAPACITY {
        let at = LINE * i;
        put_entry(readers, i, &mut out[at..at + LINE]);
    }
}

// Fills the bytes with the page's image, sound or not.
#[tactic(auto, unfolding(crate::specs::Images::image_of))]
fn put_image(page: Page, out: &mut [u8])
    requires { length out.old ≡ image_size capacity }
    ensures { out.new ≡ image_of capacity page }
{
    let head = head_of(page);
    out[..COUNTS].copy_from_slice(&kind_bytes(head, page.readers.len));
    out[COUNTS..STORAGE_VALUE].copy_from_slice(&count_bytes(head));
    put_values(head, &mut out[STORAGE_VALUE..READERS]);
    put_list(page.readers, &mut out[READERS..IMAGE]);
}

// The page's image over the first bytes of a buffer; one that is too short stays as it was.
#[tactic(auto, using(crate::proofs::Rooms::imaged_short, crate::proofs::Rooms::imaged_whole))]
pub fn encode(page: Page, out: &mut [u8])
    ensures { out.new ≡ imaged_in page out.old }
{
    if out.len() < IMAGE {
        return;
    }
    put_image(page, &mut out[..IMAGE]);
}
