// The number of each answer (RULES 4.1), and the value that it carries.
ghost use Rattle.std.specs.Prelude.{◌≡◌};
ghost use Rattle.requests.specs.Answers.{refusal_number, answer_number, withdraws, answer_value};

use crate::{Answer, Refusal};

pub fn refusal_number(why: Refusal) -> u8
    ensures { result ≡ refusal_number why }
{
    why as u8
}

// 0 where it is accepted.
pub fn answer_number(answer: Answer) -> u8
    ensures { result ≡ answer_number answer }
{
    match answer {
        Answer::Accepted | Answer::Withdrew(_) => 0,
        Answer::Refused(why) => refusal_number(why),
    }
}

// Whether a value was withdrawn.
pub fn carries(answer: Answer) -> bool
    ensures { result ≡ withdraws answer }
{
    matches!(answer, Answer::Withdrew(_))
}

// The value that was withdrawn, or 0.
pub fn answer_value(answer: Answer) -> u64
    ensures { result ≡ answer_value answer }
{
    match answer {
        Answer::Withdrew(value) => value,
        Answer::Accepted | Answer::Refused(_) => 0,
    }
}
