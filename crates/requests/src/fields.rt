// Which fields each step takes (RULES 3.2), and whether a request's fields fit its step.
ghost use Rattle.std.specs.Prelude.{◌≡◌};
ghost use Rattle.requests.specs.Requests.{is_step, takes_bucket, takes_value, fields_fit, bucket_fits};

use crate::Request;
use kinds::BUCKETS;

// The highest step number.
const LAST_STEP: u8 = 30;

// Whether the number names a step.
pub fn is_step(n: u8) -> bool
    ensures { result ≡ is_step n }
{
    (1..=LAST_STEP).contains(&n)
}

// 4, 13 and 18 to 24 take a bucket.
fn takes_bucket(n: u8) -> bool
    ensures { result ≡ takes_bucket n }
{
    matches!(n, 4 | 13 | 18..=24)
}

// 4, 9, 10, 16, 17, 22, 29 and 30 take a value.
fn takes_value(n: u8) -> bool
    ensures { result ≡ takes_value n }
{
    matches!(n, 4 | 9 | 10 | 16 | 17 | 22 | 29 | 30)
}

// A field that the step doesn't take is zero, and clean, which 6 alone takes, is at most 1.
pub fn fields_fit(request: Request) -> bool
    ensures { result ≡ fields_fit request }
{
    (takes_bucket(request.step) || request.bucket.0 == 0)
        && request.clean <= u8::from(request.step == 6)
        && (takes_value(request.step) || request.value == 0)
}

// A bucket that is taken is 0 to 3.
pub fn bucket_fits(request: Request) -> bool
    ensures { result ≡ bucket_fits request }
{
    !takes_bucket(request.step) || request.bucket.0 < BUCKETS
}
