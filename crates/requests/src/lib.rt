// Requests and answers, apart from any page: a request's raw fields and what is asked of them whatever the record is (`judge`:
// numbers 2 to 4), the reasons for a refusal with their numbers, and what an answer carries. Each function takes any value of
// its types.
#![tactic(auto)]

ghost use Rattle.std.specs.Prelude.{◌≡◌};
ghost use Rattle.requests.specs.Requests.{judged};

mod answers;
mod fields;

pub use answers::{answer_number, answer_value, carries, refusal_number};
use fields::{bucket_fits, fields_fit, is_step};
use kinds::Bucket;

// A request's raw fields, any of which may be wrong: step and clean are the bytes that came, since any of them gets an answer
// (demand1).
#[derive(Clone, Copy, PartialEq, Eq)]
pub struct Request {
    pub step: u8,
    pub bucket: Bucket,
    pub clean: u8,
    pub value: u64,
}

// Why something is refused: the numbers 1 to 17 of RULES 4.1, in their order. 12 to 14 are of bytes, runs and pieces, 15 and 16 of an image.
#[derive(Clone, Copy, PartialEq, Eq)]
pub enum Refusal {
    Unsound = 1,
    UnknownStep = 2,
    BadField = 3,
    BadBucket = 4,
    WrongFlag = 5,
    NoHolder = 6,
    WrongBucket = 7,
    WrongVisited = 8,
    OtherCount = 9,
    AtCeiling = 10,
    ListFull = 11,
    NotWhole = 12,
    TooMany = 13,
    NoRoom = 14,
    WrongSize = 15,
    NotAnImage = 16,
    OtherValue = 17,
}

// What a request is answered: that it is accepted, and which value is handed out for it if one is, or why it is refused. What hands
// nothing out, as writing does, is answered by it too and by no Result: demand1_write, demand1_keep and demand1_finish name `Accepted`.
#[derive(Clone, Copy, PartialEq, Eq)]
pub enum Answer {
    Accepted,
    Withdrew(u64),
    Refused(Refusal),
}

// Numbers 2, 3 and 4: what is asked of a request whatever the record is.
#[tactic(auto, unfolding(crate::specs::Requests::judged))]
pub fn judge(request: Request) -> Result<(), Refusal>
    ensures { result ≡ judged request }
{
    if !is_step(request.step) {
        return Err(Refusal::UnknownStep);
    }
    if !fields_fit(request) {
        return Err(Refusal::BadField);
    }
    if !bucket_fits(request) {
        return Err(Refusal::BadBucket);
    }
    Ok(())
}
