//! Functions exported to C that write frames: whole, the header of data, an ACK by its gaps; and what reads a header of
//! data back. Every function is safe with any argument values.
#![tactic(auto)]

mod ack_gaps;
mod data_headers;
mod faults;
mod headers_read;
pub mod laws;
mod write;
mod write_numbers;
