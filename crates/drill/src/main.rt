// The drill: operations from standard input, each a head of sixteen bytes and its payload, and what came of them to standard
// output. Whatever bytes come in, each function that is driven is called as a user of its library would call it.
#![tactic(auto)]

mod input;
mod lines;
mod look;
mod ops;
mod raw;

use input::{Broken, Operation, next};
use kinds::LINE;
use lines::{NO_MEANING, line, print_bytes, say};
use look::look;
use ops::{carry_from, fill, keep, put, restore, run, step, take, write};
use std::io::Read;

// The most bytes that are read in all.
const LIMIT: usize = 16_777_216;

// The most bytes that a payload has, and a buffer.
const MOST: usize = 65_536;

// One operation a turn; each takes its head at least off what may be read. An operation writes its line itself, and what else it
// has; its buffer is written last.
fn main(rt: HostRuntime) {
    let mut input = rt.stdin().take(LIMIT as u64);
    let out = rt.stdout();
    let mut page = page_record::fresh(0);
    let mut carry = pieces::empty();
    let mut payload = [0u8; MOST];
    let mut space = [0u8; MOST];
    for _ in 0..LIMIT / LINE {
        let order = match next(&mut input, &mut payload) {
            Ok(Some(order)) => order,
            Ok(None) => return,
            Err(Broken) => return line(&out, NO_MEANING),
        };
        let bytes = order.payload;
        let room = fill(order.operation, order.a, &mut space);
        let buffer = &mut space[..room];
        match order.operation {
            Operation::Fresh => {
                line(&out, 0);
                page = page_record::fresh(order.a);
            }
            Operation::Step => page = step(&out, page, bytes, lock::step),
            Operation::Lend => page = step(&out, page, bytes, lock::lend),
            Operation::Run => page = run(&out, page, bytes, buffer),
            Operation::Write => write(&out, bytes, buffer),
            Operation::Look => look(&out, page),
            Operation::Put => page = put(&out, page, bytes),
            Operation::Restore => page = restore(&out, bytes),
            Operation::Keep => keep(&out, page, buffer),
            Operation::Take => {
                let taken = take(&out, page, carry, bytes, buffer);
                page = taken.page;
                carry = taken.carry;
            }
            Operation::Finish => say(&out, pieces::finish(carry)),
            Operation::Carry => carry = carry_from(&out, bytes),
            Operation::StepByTable => page = step(&out, page, bytes, table::step_by_table),
        }
        print_bytes(&out, buffer);
    }
}
