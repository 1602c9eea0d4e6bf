//! The struct that C sees.

/// Which entries of an array are the runs of a set: `count` of them, from the entry `first` on.
#[repr(C)]
#[derive(Clone, Copy)]
pub struct CRuns {
    /// The index of the first run.
    pub first: usize,
    /// How many runs there are.
    pub count: usize,
}

// The size that every declaration of the struct in C must have.
const _: () = prove!(std::mem::size_of::<CRuns>() == 16);
