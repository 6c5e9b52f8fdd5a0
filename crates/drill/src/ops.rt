// The operations, a short function for each that is more than a call.
ghost use Rattle.std.specs.Prelude.{◌≤◌, length};

use crate::input::Operation;
use crate::lines::{NO_MEANING, line, print_bytes, say};
use crate::raw::is_known;
use kinds::Bucket;
use lock::Outcome;
use page_record::Page;
use pieces::{Carry, Taken};
use requests::Request;
use wire::{VALUE, byte_at, u64_at};

// What each byte of a buffer is beforehand.
const FILLING: u8 = 170;

// Fills the buffer of an operation that has one: `a` bytes, or all of the space where `a` is larger. Answers how long it is.
pub(crate) fn fill(operation: Operation, a: u64, space: &mut [u8]) -> usize
    ensures { result ≤ length space.new }
{
    let room = match operation {
        Operation::Run | Operation::Write | Operation::Keep | Operation::Take => {
            space.len().min(a as usize)
        }
        _ => 0,
    };
    space[..room].fill(FILLING);
    room
}

// The line of what came out; the page that it leaves.
fn told(out: &impl Print, outcome: Outcome) -> Page {
    say(out, outcome.answer);
    outcome.page
}

// Operations 2, 3 and 13: one step, by value, on a page that is lent, or by the table. A payload that can't be read is refused.
pub(crate) fn step<F: Fn(Page, Request) -> Outcome>(
    out: &impl Print,
    page: Page,
    payload: &[u8],
    decide: F,
) -> Page
    requires { F.IsAlwaysCallable decide }
{
    let outcome = match wire::read(payload) {
        Ok(request) => decide(page, request),
        Err(why) => lock::refuse(page, why),
    };
    told(out, outcome)
}

// Operation 4: a run.
pub(crate) fn run(out: &impl Print, page: Page, payload: &[u8], buffer: &mut [u8]) -> Page {
    told(out, replay::run(page, payload, buffer))
}

// Operation 5: one request's bytes.
pub(crate) fn write(out: &impl Print, payload: &[u8], buffer: &mut [u8]) {
    let request = Request {
        step: byte_at(payload, 0),
        bucket: Bucket(byte_at(payload, 1)),
        clean: byte_at(payload, 2),
        value: u64_at(payload, VALUE),
    };
    say(out, wire::write(request, buffer));
}

// Operation 7: a page read raw.
pub(crate) fn put(out: &impl Print, page: Page, payload: &[u8]) -> Page {
    if is_known(payload) {
        line(out, 0);
        return decoding::decode(payload);
    }
    line(out, NO_MEANING);
    page
}

// Operation 8: the page of an image.
pub(crate) fn restore(out: &impl Print, payload: &[u8]) -> Page {
    let restored = image::read(payload);
    say(out, restored.answer);
    restored.page
}

// Operation 9: the page's image.
pub(crate) fn keep(out: &impl Print, page: Page, buffer: &mut [u8]) {
    say(out, image::write(page, buffer));
}

// A carry in sixteen bytes: its length, and its fifteen.
fn show(out: &impl Print, carry: Carry) {
    print_bytes(out, &[(carry.len % 256) as u8]);
    print_bytes(out, &carry.bytes);
}

// Operation 10: a piece.
pub(crate) fn take(
    out: &impl Print,
    page: Page,
    carry: Carry,
    payload: &[u8],
    buffer: &mut [u8],
) -> Taken {
    let taken = pieces::take(page, carry, payload, buffer);
    say(out, taken.answer);
    show(out, taken.carry);
    taken
}

// Operation 12: a carry as it stands.
pub(crate) fn carry_from(out: &impl Print, payload: &[u8]) -> Carry {
    line(out, 0);
    let mut carry = pieces::empty();
    carry.len = byte_at(payload, 0) as usize;
    for (place, byte) in carry.bytes.iter_mut().zip(payload.iter().skip(1)) {
        *place = *byte;
    }
    carry
}
