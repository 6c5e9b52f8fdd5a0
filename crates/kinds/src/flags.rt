// What the steps ask of the flag, and which flag follows where that depends on the flag before.
ghost use Rattle.std.specs.Prelude.{◌≡◌};
ghost use Rattle.kinds.specs.Flags.{is_available, claimable, writeback_done, is_unmapped, open_to_readers, not_loading};
ghost use Rattle.kinds.specs.Flags.{released, claimed, awaited, lock_flag, unclaimed, unawaited};
ghost use Rattle.kinds.specs.Numbers.{flag_number};

use crate::Flag;

// The flag premise of step 1.
pub fn is_available(f: Flag) -> bool
    ensures { result ≡ is_available f }
{
    f == Flag::Available
}

// The flag premise of steps 3 and 4.
pub fn claimable(f: Flag) -> bool
    ensures { result ≡ claimable f }
{
    matches!(f, Flag::Available | Flag::Writeback)
}

// The flag premise of step 6.
pub fn writeback_done(f: Flag) -> bool
    ensures { result ≡ writeback_done f }
{
    !matches!(f, Flag::Writeback | Flag::WritebackAndPendingExcLock)
}

// The flag premise of steps 11 and 12.
pub fn is_unmapped(f: Flag) -> bool
    ensures { result ≡ is_unmapped f }
{
    f == Flag::Unmapped
}

// The flag premise of step 23: a reader passes the first check.
pub fn open_to_readers(f: Flag) -> bool
    ensures { result ≡ open_to_readers f }
{
    matches!(
        f,
        Flag::Loading
            | Flag::Available
            | Flag::Claimed
            | Flag::Writeback
            | Flag::WritebackAndClaimed
    )
}

// The flag premise of step 24.
pub fn not_loading(f: Flag) -> bool
    ensures { result ≡ not_loading f }
{
    f != Flag::Loading
}

// The flag after step 2. The other flags can't stand beside a writeback, and stay.
pub fn released(f: Flag) -> Flag
    ensures { result ≡ released f }
{
    match f {
        Flag::Writeback => Flag::Available,
        Flag::WritebackAndClaimed => Flag::Claimed,
        Flag::WritebackAndPendingExcLock => Flag::PendingExcLock,
        other => other,
    }
}

// The flag after steps 3 and 4. Under the other flags no claim is granted, and they stay.
pub fn claimed(f: Flag) -> Flag
    ensures { result ≡ claimed f }
{
    match f {
        Flag::Available => Flag::Claimed,
        Flag::Writeback => Flag::WritebackAndClaimed,
        other => other,
    }
}

// The flag after step 5. The other flags can't stand beside a claim, and stay.
pub fn awaited(f: Flag) -> Flag
    ensures { result ≡ awaited f }
{
    match f {
        Flag::Claimed => Flag::PendingExcLock,
        Flag::WritebackAndClaimed => Flag::WritebackAndPendingExcLock,
        other => other,
    }
}

// The flag after step 6: an editor says whether it takes the page as clean.
pub fn lock_flag(clean: bool) -> Flag
    ensures { result ≡ lock_flag clean }
{
    if clean {
        Flag::ExcLockClean
    } else {
        Flag::ExcLockDirty
    }
}

// The flag after steps 25 and 26. The other flags can't stand beside a claim, and stay.
pub fn unclaimed(f: Flag) -> Flag
    ensures { result ≡ unclaimed f }
{
    match f {
        Flag::Claimed => Flag::Available,
        Flag::WritebackAndClaimed => Flag::Writeback,
        other => other,
    }
}

// The flag after step 27. The other flags can't stand beside an editor that waits for the archive, and stay.
pub fn unawaited(f: Flag) -> Flag
    ensures { result ≡ unawaited f }
{
    match f {
        Flag::WritebackAndPendingExcLock => Flag::WritebackAndClaimed,
        Flag::PendingExcLock => Flag::Claimed,
        other => other,
    }
}

// A flag's place in the enum, which lists them in the source's order.
impl From<Flag> for u8 {
    ghost from_gives = { λ f n. n ≡ flag_number f };

    fn from(f: Flag) -> u8 {
        f as u8
    }
}

// The flag's number, 0 to 10 in the source's order.
pub fn flag_number(f: Flag) -> u8
    ensures { result ≡ flag_number f }
{
    u8::from(f)
}
