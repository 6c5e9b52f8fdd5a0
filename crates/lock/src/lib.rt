// The lock: one request on one page, by value, and on a page that is lent to be changed. The page is judged first, then the
// request's fields; then the step is decided on the page's head, and its edit is made in the list of readers.
#![tactic(auto)]

ghost use Rattle.std.specs.Prelude.{◌≡◌, Ok};
ghost use Rattle.readers.specs.Listed.{live, pushed, after_push};
ghost use Rattle.lock.specs.Step.{look_for, edited_in, refused_by, stepped, step_of};

use heads::{Decision, Edit};
use kinds::{CAPACITY, Reader};
use page_record::{Page, head_of, page_of};
use readers::{Readers, find, push, put, remove};
use requests::{Answer, Refusal, Request, judge};
use soundness::is_sound;
use steps::{decide, sought_by};

// What a step answers, and the page that it leaves, also where it is refused.
#[derive(Clone, Copy)]
pub struct Outcome {
    pub answer: Answer,
    pub page: Page,
}

// Where the reader that is sought stands.
#[tactic(auto, unfolding(crate::specs::Step::look_for))]
fn look_for(readers: Readers, sought: Option<Reader>) -> Option<usize>
    ensures { result ≡ look_for (live readers) sought }
{
    find(readers, sought?)
}

// The readers with one more, or as they were where there is no room. Not inlined, so that a step that adds nobody need not clear
// the room of what `push` answers.
#[inline(never)]
fn with_one_more(readers: Readers, reader: Reader) -> Readers
    ensures { result ≡ after_push (pushed readers reader) }
{
    match push(readers, reader) {
        Ok(after) | Err(after) => after,
    }
}

// The readers after an edit.
#[tactic(auto, unfolding(crate::specs::Step::edited_in))]
fn edited(readers: Readers, edit: Edit) -> Readers
    ensures { result ≡ edited_in edit readers }
{
    match edit {
        Edit::Keep => readers,
        Edit::Push(reader) => with_one_more(readers, reader),
        Edit::Put(place, reader) => put(readers, place, reader),
        Edit::Remove(place) => remove(readers, place),
    }
}

// A refusal changes nothing.
pub fn refuse(page: Page, why: Refusal) -> Outcome
    ensures { result ≡ refused_by page why }
{
    Outcome {
        answer: Answer::Refused(why),
        page,
    }
}

// The step of a request whose fields are in order, on a page that was judged.
pub fn take_step(page: Page, request: Request) -> Outcome
    ensures { result ≡ stepped page request (Ok tt) }
{
    let readers = page.readers;
    let found = look_for(readers, sought_by(request));
    let full = CAPACITY <= readers.len;
    let Decision { answer, head, edit } = decide(head_of(page), request, found, full);
    Outcome {
        answer,
        page: page_of(head, edited(readers, edit)),
    }
}

// One request on one page.
#[tactic(auto, unfolding(crate::specs::Step::step_of))]
pub fn step(page: Page, request: Request) -> Outcome
    ensures { result ≡ step_of page request }
{
    if !is_sound(page) {
        return refuse(page, Refusal::Unsound);
    }
    match judge(request) {
        Ok(()) => take_step(page, request),
        Err(why) => refuse(page, why),
    }
}

// The same on a page that is lent to be changed: it is copied, handed to `step`, and what `step` left is stored.
pub fn apply(page: &mut Page, request: Request) -> Answer
    ensures { (result ≡ (step_of page.old request).answer) × (page.new ≡ (step_of page.old request).page) }
{
    let out = step(*page, request);
    *page = out.page;
    out.answer
}

// A page of one's own, lent to `apply` for one step. Whoever calls this passes and gets plain values, as of `step`.
pub fn lend(own: Page, request: Request) -> Outcome
    ensures { result ≡ step_of own request }
{
    let mut page = own;
    let answer = apply(&mut page, request);
    Outcome { answer, page }
}
