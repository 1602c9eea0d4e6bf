//! Laws for callers. The functions do nothing at run time.
ghost use Rattle.std.specs.Prelude.{◌≡◌, ℕ, Result};
ghost use Rattle.quic_results.specs.Results.{returned};

use crate::results::Failure;

/// Results with the same number are equal: a number says which failure it is, and a count isn't one.
#[tactic(auto, using(crate::proofs::Distinct::distinct))]
pub fn distinct()
    ensures { (one other : Result ℕ Failure) → returned one ≡ returned other → one ≡ other }
{}
