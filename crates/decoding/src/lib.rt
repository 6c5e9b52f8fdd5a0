// What the bytes of an image say, each at its place and nothing judged: bytes that are missing are zero, and a number that stands
// for nothing counts as 0.
#![tactic(auto)]

ghost use Rattle.std.specs.Prelude.{◌≡◌, get_or, drop};
ghost use Rattle.kinds.specs.Limits.{capacity};
ghost use Rattle.encoding.specs.Images.{head_size};
ghost use Rattle.decoding.specs.Decoding.{u64_at, exc_from_bytes, head_from, reader_from, readers_from, page_from};

use encoding::{
    BUCKET, CLEAN, COUNTS, EXC, EXC_BUCKET, EXC_VALUE, FLAG, LENGTH, LOADER, LOADER_BUCKET, PHASE,
    READERS, STORAGE_VALUE, STORED, VISITED, WRITEBACK, WRITEBACK_VALUE, YES,
};
use kinds::{
    Bucket, CAPACITY, Count, ExcState, LINE, Reader, Visited, bucket_from, exc_from, flag_from,
    loading_from, phase_from, storage_from, writeback_from,
};
use page_record::{Head, Page, page_of};
use readers::{Readers, blank};
use std::array;
use wire::{VALUE, byte_at, u64_at};

// The exclusive holder.
#[tactic(auto, unfolding(crate::specs::Decoding::exc_from_bytes, crate::specs::Decoding::u64_at))]
fn exc_at(image: &[u8]) -> ExcState
    ensures { result ≡ exc_from_bytes image.now }
{
    exc_from(
        byte_at(image, EXC),
        bucket_from(byte_at(image, EXC_BUCKET)),
        Visited(byte_at(image, VISITED)),
        byte_at(image, CLEAN) == YES,
        u64_at(image, EXC_VALUE),
    )
}

// All but the list.
#[tactic(auto, unfolding(crate::specs::Decoding::head_from, crate::specs::Decoding::u64_at))]
fn head_at(image: &[u8]) -> Head
    ensures { result ≡ head_from image.now }
{
    Head {
        storage: storage_from(byte_at(image, STORED), u64_at(image, STORAGE_VALUE)),
        flag: flag_from(byte_at(image, FLAG)),
        ref_counts: array::from_fn(|i| Count(byte_at(image, COUNTS + i))),
        exc_state: exc_at(image),
        loading_state: loading_from(
            byte_at(image, LOADER),
            bucket_from(byte_at(image, LOADER_BUCKET)),
        ),
        writeback_state: writeback_from(byte_at(image, WRITEBACK), u64_at(image, WRITEBACK_VALUE)),
    }
}

// The reader of an entry that the bytes begin with.
#[tactic(auto, unfolding(crate::specs::Decoding::reader_from, crate::specs::Decoding::u64_at))]
fn reader_from(entry: &[u8]) -> Reader
    ensures { result ≡ reader_from entry.now }
{
    Reader {
        phase: phase_from(byte_at(entry, PHASE), u64_at(entry, VALUE)),
        bucket: Bucket(byte_at(entry, BUCKET)),
    }
}

// That of the entry at a place; where the bytes end before it, nobody.
#[tactic(auto, using(crate::proofs::Decoded::missing))]
fn reader_at(image: &[u8], at: usize) -> Reader
    ensures { result ≡ reader_from (drop at image.now) }
{
    let Some(entry) = image.get(at..) else {
        return blank();
    };
    reader_from(entry)
}

// The list, of this length: every entry as it stands, those past the length too.
fn readers_at(image: &[u8], len: usize) -> Readers
    ensures { result ≡ record { items = readers_from capacity (drop head_size image.now); len = len } }
{
    Readers {
        items: array::from_fn(|i| reader_at(image, READERS + LINE * i)),
        len,
    }
}

// The page that the bytes say.
#[tactic(auto, unfolding(crate::specs::Decoding::page_from))]
pub fn decode(image: &[u8]) -> Page
    ensures { result ≡ page_from image.now }
{
    let len = byte_at(image, LENGTH) as usize + 256 * byte_at(image, LENGTH + 1) as usize;
    page_of(head_at(image), readers_at(image, len))
}
