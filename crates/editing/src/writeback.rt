// The archive: steps 1 and 2. It writes a page back that nobody loads, claims or edits; readers go on meanwhile, and an editor
// may claim the page, but waits for the archive before it closes it.
ghost use Rattle.std.specs.Prelude.{◌≡◌};
ghost use Rattle.heads.specs.Decisions.{granted};
ghost use Rattle.editing.specs.Steps.{take_writeback, release_writeback};

use heads::{Decision, leave_writeback, value_of};
use kinds::{Flag, is_available, released};
use page_record::Head;
use requests::Refusal;

// 1: the archive starts to write the page back.
pub fn take_writeback(h: Head) -> Result<Decision, Refusal>
    ensures { result ≡ granted (take_writeback h) }
{
    if !is_available(h.flag) {
        return Err(Refusal::WrongFlag);
    }
    let held = Some(value_of(h.storage));
    Ok(leave_writeback(h, Flag::Writeback, held))
}

// 2: the archive is done. A claim that was made meanwhile stays.
pub fn release_writeback(h: Head) -> Result<Decision, Refusal>
    ensures { result ≡ granted (release_writeback h) }
{
    if h.writeback_state.is_none() {
        return Err(Refusal::NoHolder);
    }
    Ok(leave_writeback(h, released(h.flag), None))
}
