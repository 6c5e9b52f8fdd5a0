// The input: the operations, each a head and a payload, within what may be read in all.
ghost use Rattle.std.specs.Prelude.{◌≡◌, ◌+◌, ◌≤◌, length, take, Ok, None, IfOk, IfSome, IfNone, IfErr};
ghost use Rattle.std.specs.Io.KnownBytes.{Consumes};
ghost use Rattle.std.specs.Io.Take.{take_limit, take_remaining};
ghost use Rattle.kinds.specs.Limits.{line_size};

use kinds::LINE;
use std::io::{Read, Take};
use wire::{VALUE, u64_at};

// What a number of four bytes is below.
const FOUR_BYTES: u64 = 4_294_967_296;

// The operations, in the order of their numbers, from 1 on.
#[derive(Clone, Copy)]
pub enum Operation {
    Fresh,
    Step,
    Lend,
    Run,
    Write,
    Look,
    Put,
    Restore,
    Keep,
    Take,
    Finish,
    Carry,
    StepByTable,
}

// The input ended inside an operation, or has none that is listed.
#[derive(Clone, Copy)]
pub struct Broken;

impl TryFrom<u64> for Operation {
    type Error = Broken;

    fn try_from(number: u64) -> Result<Operation, Broken> {
        match number {
            1 => Ok(Operation::Fresh),
            2 => Ok(Operation::Step),
            3 => Ok(Operation::Lend),
            4 => Ok(Operation::Run),
            5 => Ok(Operation::Write),
            6 => Ok(Operation::Look),
            7 => Ok(Operation::Put),
            8 => Ok(Operation::Restore),
            9 => Ok(Operation::Keep),
            10 => Ok(Operation::Take),
            11 => Ok(Operation::Finish),
            12 => Ok(Operation::Carry),
            13 => Ok(Operation::StepByTable),
            _ => Err(Broken),
        }
    }
}

// An operation whose payload is in, and its number `a`.
#[derive(Clone, Copy)]
pub struct Order<'a> {
    pub operation: Operation,
    pub a: u64,
    pub payload: &'a [u8],
}

// Reads until the buffer is full, the input ends, a read fails or no more may be read; answers how many bytes came. They stand at
// its start, and so many fewer may be read. As in desk no `read_exact`: where it fails it says neither what came nor what may still
// be read, and it reads on after an interrupt.
fn read_full<R: Read>(input: &mut Take<R>, buffer: &mut [u8]) -> usize
    ensures within { result ≤ length buffer.old }
    ensures most { take_limit input.new + result ≡ take_limit input.old }
    ensures bytes { Consumes (take_remaining R.remaining input.old) (take_remaining R.remaining input.new) (take result buffer.new) }
{
    let mut done = 0;
    while done < buffer.len() {
        match input.read(&mut buffer[done..]) {
            Ok(0) | Err(_) => break,
            Ok(n) => done += n,
        }
    }
    done
}

// The next operation, of which the payload is read into what is lent for it; none where the input ends before its head. Its number
// is read with the three bytes above it: where they aren't zero, it is too high to be listed.
fn read_order<'a, R: Read>(
    input: &mut Take<R>,
    space: &'a mut [u8],
) -> Result<Option<Order<'a>>, Broken>
    ensures within { IfOk result (λ found. IfSome found (λ order. length order.payload.now ≤ length space.old)) }
    ensures over { take_limit input.old ≡ 0 → result ≡ Ok None }
    ensures falls { IfOk result (λ found. IfSome found (λ order. take_limit input.new + line_size + length order.payload.now ≡ take_limit input.old)) }
{
    let mut head = [0u8; LINE];
    let came = read_full(input, &mut head);
    if came == 0 {
        return Ok(None);
    }
    if came < LINE {
        return Err(Broken);
    }
    let numbers = u64_at(&head, 0);
    let operation = Operation::try_from(numbers % FOUR_BYTES)?;
    let length = (numbers / FOUR_BYTES) as usize;
    let payload = space.get_mut(..length).ok_or(Broken)?;
    if read_full(input, payload) < length {
        return Err(Broken);
    }
    Ok(Some(Order {
        operation,
        a: u64_at(&head, VALUE),
        payload,
    }))
}

// The next operation: its head and its payload are taken off what may be read. Where none is found, or it is broken, no more may be
// read, and from then on none is found.
pub(crate) fn next<'a, R: Read>(
    input: &mut Take<R>,
    space: &'a mut [u8],
) -> Result<Option<Order<'a>>, Broken>
    ensures within { IfOk result (λ found. IfSome found (λ order. length order.payload.now ≤ length space.old)) }
    ensures over { take_limit input.old ≡ 0 → result ≡ Ok None }
    ensures falls { IfOk result (λ found. IfSome found (λ order. take_limit input.new + line_size + length order.payload.now ≡ take_limit input.old)) }
    ensures ends { IfOk result (λ found. IfNone found (take_limit input.new ≡ 0)) }
    ensures breaks { IfErr result (λ _. take_limit input.new ≡ 0) }
{
    let found = read_order(input, space);
    if !matches!(found, Ok(Some(_))) {
        input.set_limit(0);
    }
    found
}
