// Lines of sixteen bytes.
use kinds::LINE;
use requests::Answer;

// The number of a line that is no answer of the lock.
pub const NO_MEANING: u8 = 255;

// Writes the bytes out. Where that fails, the drill goes on all the same.
pub(crate) fn print_bytes(out: &impl Print, bytes: &[u8]) {
    let _ = out.write_all(bytes);
}

// An answer's line.
pub(crate) fn say(out: &impl Print, answer: Answer) {
    let mut record = [0u8; LINE];
    wire::write_answer(answer, &mut record);
    print_bytes(out, &record);
}

// The line of a number alone.
pub(crate) fn line(out: &impl Print, number: u8) {
    let mut record = [0u8; LINE];
    record[0] = number;
    print_bytes(out, &record);
}
