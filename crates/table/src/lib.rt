// The lock by a table of flags: which flag follows which (RULES 7.5), and a step that looks there first (RULES 7.6).
#![tactic(auto)]

ghost use Rattle.std.specs.Prelude.{◌≡◌};
ghost use Rattle.lock.specs.Applies.{flag_lets};
ghost use Rattle.lock.specs.Step.{step_of};
ghost use Rattle.table.specs.Engine.{marked, looked_up};
ghost use Rattle.table.specs.Table.{column_of, entry_of};

mod next;

use kinds::{
    Flag, claimable, flag_from, flag_number, is_available, is_unmapped, not_loading,
    open_to_readers, writeback_done,
};
use lock::{Outcome, refuse, take_step};
pub use next::NEVER;
use next::{COLUMNS, NEXT};
use page_record::Page;
use requests::{Answer, Refusal, Request, judge};
use soundness::is_sound;

// The column of a step, or 31, where no row has an entry, for a number that is no step. 6 has two, and the clean one comes first: so
// every step before it stands one to the left of its number.
fn column_of(step: u8, clean: u8) -> usize
    ensures { result ≡ column_of step clean }
{
    match (step, clean) {
        (1..=5, _) | (6, 1) => usize::from(step) - 1,
        (6..=30, _) => usize::from(step),
        _ => COLUMNS,
    }
}

// The number of the flag that follows, or 255. A number that is no step has none, and any clean but 1 is dirty.
// It is a number and no Option of a flag: RULES 7.5 says the numbers, and `entry_of` and the theorem `rule` are over them.
pub fn entry(flag: Flag, step: u8, clean: u8) -> u8
    ensures { result ≡ entry_of flag step clean }
{
    let row = &NEXT[usize::from(flag_number(flag))];
    row.get(column_of(step, clean)).copied().unwrap_or(NEVER)
}

// Whether the step takes this flag; most steps ask nothing of it. By the step's number, as `steps::take`.
fn flag_lets(step: u8, flag: Flag) -> bool
    ensures { result ≡ flag_lets step flag }
{
    match step {
        1 => is_available(flag),
        3 | 4 => claimable(flag),
        6 => writeback_done(flag),
        11 | 12 => is_unmapped(flag),
        23 => open_to_readers(flag),
        24 => not_loading(flag),
        _ => true,
    }
}

// A page that was accepted gets the flag of this number, an entry's: `marked` is over it.
fn mark(mut out: Outcome, number: u8) -> Outcome
    ensures { result ≡ marked number out }
{
    if matches!(out.answer, Answer::Refused(_)) {
        return out;
    }
    out.page.flag = flag_from(number);
    out
}

// A request whose fields are in order, on a page that was judged: what nobody accepts is refused at once, before a reader is searched
// for or a premise is looked at.
#[tactic(auto, unfolding(crate::specs::Engine::looked_up))]
fn look_up(page: Page, request: Request) -> Outcome
    ensures { result ≡ looked_up page request }
{
    let number = entry(page.flag, request.step, request.clean);
    if number == NEVER {
        if flag_lets(request.step, page.flag) {
            return refuse(page, Refusal::NoHolder);
        }
        return refuse(page, Refusal::WrongFlag);
    }
    mark(take_step(page, request), number)
}

// One request on one page, as `lock::step` has it. The two are not one function: it would take the rest as a closure and so have a
// `requires`, which no public function has.
#[tactic(auto, using(lock::proofs::Keeps::unsound_stays, lock::proofs::Keeps::unfit_stays, crate::proofs::Rule::looked_up_lem))]
pub fn step_by_table(page: Page, request: Request) -> Outcome
    ensures { result ≡ step_of page request }
{
    if !is_sound(page) {
        return refuse(page, Refusal::Unsound);
    }
    match judge(request) {
        Ok(()) => look_up(page, request),
        Err(why) => refuse(page, why),
    }
}
