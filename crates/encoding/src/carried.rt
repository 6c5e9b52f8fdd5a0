// What a holder or a reader carries, as an image has it: zero where its kind carries no such thing.
ghost use Rattle.std.specs.Prelude.{◌≡◌};
ghost use Rattle.page_record.specs.Holders.{exc_clean, exc_value, writeback_value};
ghost use Rattle.encoding.specs.Carried.{phase_value, exc_bucket_number, loading_bucket_number};

use heads::value_of;
use kinds::{ExcState, LoadingState, Phase, bucket_number};
use page_record::{exc_bucket, loading_bucket};

// The value of a reader that has come through.
pub fn phase_value(p: Phase) -> u64
    ensures { result ≡ phase_value p }
{
    match p {
        Phase::Pending | Phase::Pending2 => 0,
        Phase::Obtained(value) => value,
    }
}

// The exclusive holder's bucket: each kind can have one.
pub fn exc_bucket_number(e: ExcState) -> u8
    ensures { result ≡ exc_bucket_number e }
{
    match e {
        ExcState::None => 0,
        _ => bucket_number(exc_bucket(e)),
    }
}

// Whether the exclusive holder is clean.
pub fn exc_clean(e: ExcState) -> bool
    ensures { result ≡ exc_clean e }
{
    match e {
        ExcState::Pending { clean, .. } | ExcState::Obtained { clean, .. } => clean,
        _ => false,
    }
}

// The exclusive holder's value: storage's, or the one that it keeps.
pub fn exc_value(e: ExcState) -> u64
    ensures { result ≡ exc_value e }
{
    match e {
        ExcState::None => 0,
        ExcState::Claim { value, .. }
        | ExcState::PendingAwaitWriteback { value, .. }
        | ExcState::Pending { value, .. }
        | ExcState::Obtained { value, .. } => value,
    }
}

// The loader's bucket: one that is Pending can't have one.
pub fn loading_bucket_number(l: LoadingState) -> u8
    ensures { result ≡ loading_bucket_number l }
{
    match l {
        LoadingState::None | LoadingState::Pending => 0,
        _ => bucket_number(loading_bucket(l)),
    }
}

// The archive's value: as storage's.
pub fn writeback_value(w: Option<u64>) -> u64
    ensures { result ≡ writeback_value w }
{
    value_of(w)
}
