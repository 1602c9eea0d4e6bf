//! Each test passes whichever one allocation of its run fails, and if none does: `rt try --test --fail-alloc N` lets
//! the Nth fail.

mod errors;
mod frames;
mod sets;
mod shared;
