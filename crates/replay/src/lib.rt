// A run: sixteen-byte requests, answered one after the other into a lent buffer. And what the program writes for its input.
#![tactic(auto)]

ghost use Rattle.std.specs.Prelude.{◌≡◌};
ghost use Rattle.replay.specs.Reply.{too_long, refusal_length, refusal_bytes, reply_length, reply_bytes};
ghost use Rattle.replay.specs.Run.{run_verdict, ran_of, answers_of};
ghost use Rattle.replay.specs.Turns.{turn_of};

use kinds::{LINE, MOST_REQUESTS};
use lock::Outcome;
use page_record::Page;
use requests::{Answer, Refusal};

// The most bytes that a run takes.
pub const LONGEST: usize = LINE * MOST_REQUESTS;

// One request: what its bytes ask for, or why they can't be read.
#[tactic(auto, unfolding(crate::specs::Turns::turn_of))]
fn turn(page: Page, bytes: &[u8]) -> Outcome
    ensures { result ≡ turn_of page bytes.now }
{
    match wire::read(bytes) {
        Ok(request) => lock::step(page, request),
        Err(why) => lock::refuse(page, why),
    }
}

// Numbers 1, 12, 13 and 14: what is asked of a run of so many bytes, with so much space for its answers.
#[tactic(auto, unfolding(crate::specs::Run::run_verdict))]
fn judge_run(page: Page, bytes: usize, space: usize) -> Result<(), Refusal>
    ensures { result ≡ run_verdict page bytes space }
{
    if !soundness::is_sound(page) {
        return Err(Refusal::Unsound);
    }
    if bytes % LINE != 0 {
        return Err(Refusal::NotWhole);
    }
    let requests = bytes / LINE;
    if MOST_REQUESTS < requests {
        return Err(Refusal::TooMany);
    }
    if space < LINE * requests {
        return Err(Refusal::NoRoom);
    }
    Ok(())
}

// Each request is answered from the page that those before it left, whether they were granted or not. A run that is refused
// as a whole touches neither the page nor the answers; otherwise the bytes past the last answer stay.
#[tactic(auto, unfolding(crate::specs::Run::ran_of, crate::specs::Run::answers_of))]
pub fn run(mut page: Page, requests: &[u8], answers: &mut [u8]) -> Outcome
    ensures end { result ≡ ran_of page requests.now answers.old }
    ensures lines { answers.new ≡ answers_of page requests.now answers.old }
{
    if let Err(why) = judge_run(page, requests.len(), answers.len()) {
        return lock::refuse(page, why);
    }
    // Tried by `answers.chunks_exact_mut` too: the clause `lines` stays open, since nothing is known of the buffer after such a loop.
    for (i, request) in requests.chunks_exact(LINE).enumerate() {
        let turned = turn(page, request);
        wire::write_answer(turned.answer, &mut answers[LINE * i..LINE * (i + 1)]);
        page = turned.page;
    }
    Outcome {
        answer: Answer::Accepted,
        page,
    }
}

// Why an input with more bytes than a run takes is refused: its length tells.
fn too_long(total: usize) -> Refusal
    ensures { result ≡ too_long total }
{
    if total % LINE != 0 {
        return Refusal::NotWhole;
    }
    Refusal::TooMany
}

// One answer line at the start of `out`; its length, or 0 where it doesn't fit, as `refusal_length` has it.
fn refuse(why: Refusal, out: &mut [u8]) -> usize
    ensures length { result ≡ refusal_length out.old }
    ensures bytes { out.new ≡ refusal_bytes why out.old }
{
    if out.len() < LINE {
        return 0;
    }
    wire::write_answer(Answer::Refused(why), out);
    LINE
}

// What the program writes for an input of `total` bytes, of which `kept` are the first, up to as many as a run takes: it
// stands at the start of `out`, and the result says how many bytes it has (0 where there is no room: `reply_length`). An input that is longer is judged by `total` alone,
// any other by `kept` alone.
pub fn reply(kept: &[u8], total: usize, out: &mut [u8]) -> usize
    ensures length { result ≡ reply_length kept.now total out.old }
    ensures bytes { out.new ≡ reply_bytes kept.now total out.old }
{
    if LONGEST < total {
        return refuse(too_long(total), out);
    }
    if let Answer::Refused(why) = run(page_record::fresh(0), kept, out).answer {
        return refuse(why, out);
    }
    kept.len()
}
