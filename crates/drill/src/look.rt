// Operation 6: how the page is judged, what stands in it, and its readers as an image lists them. A value stands in a line as
// one that was withdrawn does.
use crate::lines::print_bytes;
use encoding::phase_value;
use kinds::{CAPACITY, LINE, Reader, flag_number, phase_number};
use page_record::Page;
use readers::{Readers, live};
use requests::Answer;

// Where the census begins.
const CENSUS: usize = 4;

// Where the list's length stands.
const LENGTH: usize = 2;

// Where the counts begin.
const COUNTS: usize = 4;

// Whether the page is sound, the lowest broken rule, and the census.
fn judged(out: &impl Print, page: &Page) {
    let mut line = [0u8; LINE];
    line[0] = soundness::sound(*page);
    line[1] = soundness::broken_rule(*page);
    let census = census::census(*page);
    for (place, count) in line[CENSUS..].iter_mut().zip(census.iter().flatten()) {
        *place = count.0;
    }
    print_bytes(out, &line);
}

// The flag, whether storage is in, the list's length (sixteen bits of it), the counts, and storage's value.
fn shown(out: &impl Print, page: &Page) {
    let carried = page.storage.map_or(Answer::Accepted, Answer::Withdrew);
    let mut line = [0u8; LINE];
    wire::write_answer(carried, &mut line);
    line[0] = flag_number(page.flag);
    line[LENGTH] = (page.readers.len % 256) as u8;
    line[LENGTH + 1] = (page.readers.len / 256 % 256) as u8;
    for (place, count) in line[COUNTS..].iter_mut().zip(page.ref_counts.iter()) {
        *place = count.0;
    }
    print_bytes(out, &line);
}

// One reader.
fn put_reader(reader: Reader, line: &mut [u8]) {
    wire::put(
        line,
        phase_number(reader.phase),
        reader.bucket.0,
        0,
        phase_value(reader.phase),
    );
}

// The listed readers, no more than there is room for.
fn list(out: &impl Print, readers: Readers) {
    let listed = live(&readers);
    let mut lines = [0u8; LINE * CAPACITY];
    for (reader, line) in listed.iter().zip(lines.chunks_exact_mut(LINE)) {
        put_reader(*reader, line);
    }
    print_bytes(out, &lines[..LINE * listed.len()]);
}

// The page, for who looks at it.
pub(crate) fn look(out: &impl Print, page: Page) {
    judged(out, &page);
    shown(out, &page);
    list(out, page.readers);
}
