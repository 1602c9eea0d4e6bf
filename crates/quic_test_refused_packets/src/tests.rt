//! Each test passes whichever one allocation of its run fails, and if none does: `rt try --test --fail-alloc N` lets
//! the Nth fail.

mod canon;
mod cuts;
mod headers;
mod packets;
mod params;
