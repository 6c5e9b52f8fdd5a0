// A reader's phase as a number, which leaves out the version that it holds.
ghost use Rattle.std.specs.Prelude.{◌≡◌};
ghost use Rattle.kinds.specs.Numbers.{phase_number};

use crate::Phase;

// The phase's number, 1 to 3 in the source's order.
pub fn phase_number(p: Phase) -> u8
    ensures { result ≡ phase_number p }
{
    match p {
        Phase::Pending => 1,
        Phase::Pending2 => 2,
        Phase::Obtained(_) => 3,
    }
}
