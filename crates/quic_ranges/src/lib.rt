//! Sets of packet numbers, held as ascending ranges that never touch: `RangeSet` and `ArrayRangeSet`. An ACK lists such
//! ranges (RFC 9000, section 19.3).
#![tactic(auto)]

pub mod laws;
pub mod range_set;
