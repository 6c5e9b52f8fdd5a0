// Requests in pieces (RULES 6.1): their bytes are cut anywhere, and what a piece leaves of a request that isn't whole is carried to
// the next. A piece is a run of the whole requests at hand.
#![tactic(auto)]

ghost use Rattle.std.specs.Prelude.{◌+◌, ◌≤◌, ◌≡◌, [], length};
ghost use Rattle.pieces.specs.Carries.{carry_size, carry_of, is_valid, finish_of};
ghost use Rattle.pieces.specs.Pieces.{joined_in, piece_verdict, taken_of, buffer_after};

use kinds::LINE;
use lock::Outcome;
use page_record::Page;
use requests::{Answer, Refusal};

// The most bytes of a piece.
pub const PIECE: usize = 4_096;

// The most bytes that are carried: one more is a request.
pub const CARRY: usize = LINE - 1;

// The most bytes at hand.
const AT_HAND: usize = CARRY + PIECE;

// What is left of a request between two pieces: the first `len` bytes, and zeros.
// An array with its length: there is no heap, and `is_valid` and the refusal 12 (`piece_verdict`) are about a `len` that is wrong.
#[derive(Clone, Copy)]
pub struct Carry {
    pub bytes: [u8; CARRY],
    pub len: usize,
}

// What a piece comes to: its answer, what it leaves, also where it is refused, and how many answer lines it gave.
#[derive(Clone, Copy)]
pub struct Taken {
    pub answer: Answer,
    pub page: Page,
    pub carry: Carry,
    pub lines: usize,
}

// Nothing is carried.
#[tactic(auto, unfolding(crate::specs::Carries::carry_of))]
pub fn empty() -> Carry
    ensures { result ≡ carry_of [] }
{
    Carry {
        bytes: [0u8; CARRY],
        len: 0,
    }
}

// These bytes are carried.
fn carry_of(rest: &[u8]) -> Carry
    requires { length rest.now ≤ carry_size }
    ensures { result ≡ carry_of rest.now }
{
    let mut bytes = [0u8; CARRY];
    bytes[..rest.len()].copy_from_slice(rest);
    Carry {
        bytes,
        len: rest.len(),
    }
}

// Whether it claims no more bytes than it has places, and is zero past those that it claims.
fn is_valid(carry: Carry) -> bool
    ensures { result ≡ is_valid carry }
{
    carry.len <= CARRY && wire::is_blank(&carry.bytes[carry.len..])
}

// Numbers 1, 12, 13 and 14: what is asked of a piece of so many bytes, with so much space for its answers.
#[tactic(auto, unfolding(crate::specs::Pieces::piece_verdict))]
fn judge_piece(page: Page, carry: Carry, piece: usize, space: usize) -> Result<(), Refusal>
    ensures { result ≡ piece_verdict page carry piece space }
{
    if !soundness::is_sound(page) {
        return Err(Refusal::Unsound);
    }
    if !is_valid(carry) {
        return Err(Refusal::NotWhole);
    }
    if PIECE < piece {
        return Err(Refusal::TooMany);
    }
    let requests = (carry.len + piece) / LINE;
    if space < LINE * requests {
        return Err(Refusal::NoRoom);
    }
    Ok(())
}

// What is carried, and then the piece, to the start of a buffer.
fn join(carry: Carry, piece: &[u8], out: &mut [u8])
    requires carried { carry.len ≤ carry_size }
    requires room { carry.len + length piece.now ≤ length out.old }
    ensures { out.new ≡ joined_in carry piece.now out.old }
{
    let end = carry.len + piece.len();
    out[..carry.len].copy_from_slice(&carry.bytes[..carry.len]);
    out[carry.len..end].copy_from_slice(piece);
}

// One piece. The whole requests at hand are answered, as a run of them, and the rest is carried. A piece that is refused touches
// neither the page nor the carry nor the answers; otherwise the bytes past the last answer stay.
pub fn take(page: Page, carry: Carry, piece: &[u8], answers: &mut [u8]) -> Taken
    ensures end { result ≡ taken_of page carry piece.now answers.old }
    ensures lines { answers.new ≡ buffer_after page carry piece.now answers.old }
{
    if let Err(why) = judge_piece(page, carry, piece.len(), answers.len()) {
        return Taken {
            answer: Answer::Refused(why),
            page,
            carry,
            lines: 0,
        };
    }
    let mut all = [0u8; AT_HAND];
    join(carry, piece, &mut all);
    let end = carry.len + piece.len();
    let lines = end / LINE;
    let whole = LINE * lines;
    let Outcome { answer, page } = replay::run(page, &all[..whole], answers);
    let rest = carry_of(&all[whole..end]);
    Taken {
        answer,
        page,
        carry: rest,
        lines,
    }
}

// Whether nothing is left: the carry alone is looked at.
pub fn finish(carry: Carry) -> Answer
    ensures { result ≡ finish_of carry }
{
    if carry.len == 0 && is_valid(carry) {
        return Answer::Accepted;
    }
    Answer::Refused(Refusal::NotWhole)
}
