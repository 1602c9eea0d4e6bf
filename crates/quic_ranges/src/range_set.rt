//! Two sets of numbers below 2^64 - 1. Contracts see each as the list of its maximal runs.
mod array_range_set;
mod run_vec;
mod runs_iter;
mod sorted_runs;
mod vec_range_set;

pub use array_range_set::{ArrayElts, ArrayIter, ArrayRangeSet};
pub use runs_iter::{EltIter, Iter};
pub use vec_range_set::{RangeSet, Replace};
