// A request and an answer as a line of sixteen bytes each (RULES 5). Whether a request's fields fit its step is judged in
// `requests`; here are the places of the fields, low byte first, and the length.
#![tactic(auto)]

ghost use Rattle.std.specs.Prelude.{◌≡◌};
ghost use Rattle.wire.specs.Answers.{line_of};
ghost use Rattle.wire.specs.Buffers.{put_answer, put_to};
ghost use Rattle.wire.specs.Bytes.{line_with};
ghost use Rattle.wire.specs.Requests.{or_bad_field, read_of, wrote_answer, wrote_to};

mod numbers;

use kinds::{Bucket, LINE};
pub use numbers::{byte_at, is_blank, read_u64, u64_at, write_u64};
use requests::{
    Answer, Refusal, Request, answer_number, answer_value, carries, judge, refusal_number,
};

// Where the five zeros of a line begin.
const ZEROS: usize = 3;

// Where the value of a line begins.
pub const VALUE: usize = 8;

// Where bytes 3 to 7 aren't zero: the lower of number 3 and what is wrong with the fields.
fn or_bad_field(verdict: Result<(), Refusal>) -> Refusal
    ensures { result ≡ or_bad_field verdict }
{
    match verdict {
        Err(why) if refusal_number(why) <= refusal_number(Refusal::BadField) => why,
        _ => Refusal::BadField,
    }
}

// One request, or the least number of what is wrong with its bytes, where 12 comes first.
pub fn read(bytes: &[u8]) -> Result<Request, Refusal>
    ensures { result ≡ read_of bytes.now }
{
    if bytes.len() != LINE {
        return Err(Refusal::NotWhole);
    }
    let request = Request {
        step: bytes[0],
        bucket: Bucket(bytes[1]),
        clean: bytes[2],
        value: u64_at(bytes, VALUE),
    };
    let verdict = judge(request);
    if !is_blank(&bytes[ZEROS..VALUE]) {
        return Err(or_bad_field(verdict));
    }
    verdict?;
    Ok(request)
}

// A line over the first sixteen bytes of the buffer, which stays as it is where it has fewer.
#[tactic(auto, unfolding(crate::specs::Buffers::put_answer, crate::specs::Buffers::put_to))]
pub fn put(buffer: &mut [u8], first: u8, second: u8, third: u8, value: u64) -> Answer
    ensures answer { result ≡ put_answer buffer.old }
    ensures bytes { buffer.new ≡ put_to (line_with first second third value) buffer.old }
{
    if buffer.len() < LINE {
        return Answer::Refused(Refusal::NoRoom);
    }
    buffer[..VALUE].copy_from_slice(&[first, second, third, 0, 0, 0, 0, 0]);
    write_u64(&mut buffer[VALUE..LINE], value);
    Answer::Accepted
}

// A request's bytes into a lent buffer; what 2 to 4 would refuse is refused, and then a buffer under sixteen bytes.
pub fn write(request: Request, buffer: &mut [u8]) -> Answer
    ensures answer { result ≡ wrote_answer request buffer.old }
    ensures bytes { buffer.new ≡ wrote_to request buffer.old }
{
    if let Err(why) = judge(request) {
        return Answer::Refused(why);
    }
    put(
        buffer,
        request.step,
        request.bucket.0,
        request.clean,
        request.value,
    )
}

// An answer's bytes into a lent buffer.
#[tactic(auto, using(crate::proofs::Premises::write_line))]
pub fn write_answer(answer: Answer, buffer: &mut [u8]) -> Answer
    ensures answer { result ≡ put_answer buffer.old }
    ensures bytes { buffer.new ≡ put_to (line_of answer) buffer.old }
{
    let number = answer_number(answer);
    let mark = carries(answer) as u8;
    let value = answer_value(answer);
    put(buffer, number, mark, 0, value)
}
