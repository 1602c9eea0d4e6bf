//! Results of functions exported to C, which differ in their numbers.
ghost use Rattle.std.specs.Prelude.{◌≡◌, ◌↔◌, true, Err};

use quic_results::laws::distinct;
use quic_results::results::{Failure, returned};

/// Whether a result is this failure, by its number, which is all that C sees.
pub fn is_failure(outcome: Result<u32, Failure>, failure: Failure) -> bool
    ensures { (result ≡ true) ↔ (outcome ≡ Err failure) }
{
    distinct();
    returned(outcome) == i64::from(failure.number())
}
