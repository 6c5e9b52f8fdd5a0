// The kinds of holders as numbers, in the source's order, and back: the bytes of a stored record. Back, any number is taken: one
// that stands for no kind counts as 0. Of the exclusive kinds 4 is such a number: it was Obtained, without the value that was taken.
// Only a flag and its number are conversions: a holder's number leaves out what it carries, and no bucket and bucket 255 have one
// number.
ghost use Rattle.std.specs.Prelude.{◌≡◌};
ghost use Rattle.kinds.specs.Numbers.{storage_number, bucket_number, exc_number, loading_number, writeback_number};
ghost use Rattle.kinds.specs.Numbers.{flag_from, flag_tried, storage_from, bucket_from, phase_from};
ghost use Rattle.kinds.specs.Numbers.{exc_from, loading_from, writeback_from};

use crate::{Bucket, ExcState, Flag, LoadingState, Phase, Visited};

// What stands for no bucket.
const NO_BUCKET: u8 = 255;

// 1 where storage is in, else 0.
pub fn storage_number(s: Option<u64>) -> u8
    ensures { result ≡ storage_number s }
{
    s.is_some() as u8
}

// A bucket, or the number of none.
pub fn bucket_number(b: Option<Bucket>) -> u8
    ensures { result ≡ bucket_number b }
{
    b.map_or(NO_BUCKET, |bucket| bucket.0)
}

// The exclusive holder's number, 1 to 3 and 5, or 0 where there is none.
pub fn exc_number(e: ExcState) -> u8
    ensures { result ≡ exc_number e }
{
    match e {
        ExcState::None => 0,
        ExcState::Claim { .. } => 1,
        ExcState::PendingAwaitWriteback { .. } => 2,
        ExcState::Pending { .. } => 3,
        ExcState::Obtained { .. } => 5,
    }
}

// The loader's number, 1 to 3, or 0 where there is none.
pub fn loading_number(l: LoadingState) -> u8
    ensures { result ≡ loading_number l }
{
    match l {
        LoadingState::None => 0,
        LoadingState::Pending => 1,
        LoadingState::PendingCounted { .. } => 2,
        LoadingState::Obtained { .. } => 3,
    }
}

// 1 where there is a writeback, else 0: as storage's.
pub fn writeback_number(w: Option<u64>) -> u8
    ensures { result ≡ writeback_number w }
{
    storage_number(w)
}

// A number that is no flag's.
#[derive(Clone, Copy, Debug, PartialEq, Eq)]
pub struct UnknownFlag(pub u8);

impl TryFrom<u8> for Flag {
    type Error = UnknownFlag;

    ghost try_from_gives = { λ n r. r ≡ flag_tried n };

    #[tactic(auto, unfolding(crate::specs::Numbers::flag_tried, crate::specs::Numbers::flag_from))]
    fn try_from(number: u8) -> Result<Flag, UnknownFlag> {
        match number {
            0 => Ok(Flag::Unmapped),
            1 => Ok(Flag::Loading),
            2 => Ok(Flag::LoadingExcLock),
            3 => Ok(Flag::Available),
            4 => Ok(Flag::Claimed),
            5 => Ok(Flag::Writeback),
            6 => Ok(Flag::WritebackAndClaimed),
            7 => Ok(Flag::WritebackAndPendingExcLock),
            8 => Ok(Flag::PendingExcLock),
            9 => Ok(Flag::ExcLockClean),
            10 => Ok(Flag::ExcLockDirty),
            _ => Err(UnknownFlag(number)),
        }
    }
}

// The flag of a number; one that is no flag's counts as 0.
#[tactic(auto, unfolding(crate::specs::Numbers::flag_tried, crate::specs::Numbers::flag_from))]
pub fn flag_from(number: u8) -> Flag
    ensures { result ≡ flag_from number }
{
    Flag::try_from(number).unwrap_or(Flag::Unmapped)
}

// Storage of a number, with this value where it is in.
#[tactic(auto, unfolding(crate::specs::Numbers::storage_from))]
pub fn storage_from(number: u8, value: u64) -> Option<u64>
    ensures { result ≡ storage_from number value }
{
    (number == 1).then_some(value)
}

// The bucket of a number, or none.
#[tactic(auto, unfolding(crate::specs::Numbers::bucket_from))]
pub fn bucket_from(number: u8) -> Option<Bucket>
    ensures { result ≡ bucket_from number }
{
    (number != NO_BUCKET).then_some(Bucket(number))
}

// A reader's phase, with this value where it has one.
#[tactic(auto, unfolding(crate::specs::Numbers::phase_from))]
pub fn phase_from(number: u8, value: u64) -> Phase
    ensures { result ≡ phase_from number value }
{
    match number {
        2 => Phase::Pending2,
        3 => Phase::Obtained(value),
        _ => Phase::Pending,
    }
}

// The exclusive holder of a number, with what its kind has of these.
#[tactic(auto, unfolding(crate::specs::Numbers::exc_from))]
pub fn exc_from(
    number: u8,
    bucket: Option<Bucket>,
    visited_count: Visited,
    clean: bool,
    value: u64,
) -> ExcState
    ensures { result ≡ exc_from number bucket visited_count clean value }
{
    match number {
        1 => ExcState::Claim { bucket, value },
        2 => ExcState::PendingAwaitWriteback { bucket, value },
        3 => ExcState::Pending {
            bucket,
            visited_count,
            clean,
            value,
        },
        5 => ExcState::Obtained {
            bucket,
            clean,
            value,
        },
        _ => ExcState::None,
    }
}

// The loader of a number, with this bucket where its kind has one.
#[tactic(auto, unfolding(crate::specs::Numbers::loading_from))]
pub fn loading_from(number: u8, bucket: Option<Bucket>) -> LoadingState
    ensures { result ≡ loading_from number bucket }
{
    match number {
        1 => LoadingState::Pending,
        2 => LoadingState::PendingCounted { bucket },
        3 => LoadingState::Obtained { bucket },
        _ => LoadingState::None,
    }
}

// The writeback of a number, with this value where there is one: as storage's.
#[tactic(auto, unfolding(crate::specs::Numbers::writeback_from, crate::specs::Numbers::storage_from))]
pub fn writeback_from(number: u8, value: u64) -> Option<u64>
    ensures { result ≡ writeback_from number value }
{
    storage_from(number, value)
}
