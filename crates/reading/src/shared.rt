// Readers: steps 19 to 24, the life of one. It comes to a bucket, where it is counted (19). It checks that readers aren't
// shut out (23), then that nobody loads, and from there on has the value that is in storage (24). It may leave before, between
// and after the two checks, and isn't counted any more (20 to 22).
ghost use Rattle.std.specs.Prelude.{◌≡◌};
ghost use Rattle.heads.specs.Decisions.{granted};
ghost use Rattle.reading.specs.Steps.{shared_inc_count, shared_dec_count, shared_check_exc, shared_check_loading};

use heads::{Decision, Edit, accept, lower, number_at, value_of, with_number};
use kinds::{CEILING, Phase, Reader, not_loading, open_to_readers};
use page_record::Head;
use requests::{Refusal, Request};

// 19: a reader comes to a bucket.
pub fn shared_inc_count(h: Head, q: Request, full: bool) -> Result<Decision, Refusal>
    ensures { result ≡ granted (shared_inc_count h q full) }
{
    let n = number_at(h, q.bucket);
    if n >= CEILING {
        return Err(Refusal::AtCeiling);
    }
    if full {
        return Err(Refusal::ListFull);
    }
    let reader = Reader {
        phase: Phase::Pending,
        bucket: q.bucket,
    };
    Ok(accept(with_number(h, q.bucket, n + 1), Edit::Push(reader)))
}

// 20, 21 and 22, the source's shared_dec_count_pending, _pending2 and _obtained: the reader that is found leaves. They differ in
// the phase of the reader that is sought (`sought_by`), before the first check, past it, and past both.
pub fn shared_dec_count(h: Head, q: Request, found: Option<usize>) -> Result<Decision, Refusal>
    ensures { result ≡ granted (shared_dec_count h q found) }
{
    let place = found.ok_or(Refusal::NoHolder)?;
    Ok(accept(lower(h, q.bucket), Edit::Remove(place)))
}

// 23: the first check, that readers aren't shut out. Changed: it takes no value.
pub fn shared_check_exc(h: Head, q: Request, found: Option<usize>) -> Result<Decision, Refusal>
    ensures { result ≡ granted (shared_check_exc h q found) }
{
    if !open_to_readers(h.flag) {
        return Err(Refusal::WrongFlag);
    }
    let place = found.ok_or(Refusal::NoHolder)?;
    let reader = Reader {
        phase: Phase::Pending2,
        bucket: q.bucket,
    };
    Ok(accept(h, Edit::Put(place, reader)))
}

// 24: the second check, that nobody loads; the reader now holds the value in storage.
// 23 and 24 stay two functions, as in the source: one for both would take the test and the phase, which is all that they do.
pub fn shared_check_loading(h: Head, q: Request, found: Option<usize>) -> Result<Decision, Refusal>
    ensures { result ≡ granted (shared_check_loading h q found) }
{
    if !not_loading(h.flag) {
        return Err(Refusal::WrongFlag);
    }
    let place = found.ok_or(Refusal::NoHolder)?;
    let reader = Reader {
        phase: Phase::Obtained(value_of(h.storage)),
        bucket: q.bucket,
    };
    Ok(accept(h, Edit::Put(place, reader)))
}
