//! The struct that C sees.

/// A run of packet numbers, from `start` to below `end`.
#[repr(C)]
#[derive(Clone, Copy)]
pub struct CRange {
    /// The least number.
    pub start: u64,
    /// The number above the greatest.
    pub end: u64,
}

// The size that every declaration of the struct in C must have.
const _: () = prove!(std::mem::size_of::<CRange>() == 16);
