//! The struct that C sees. Each of its fields may have any value: no call relies on them.

/// The length of a payload's shortest form, or the type of the invalid frame if it has none.
#[repr(C)]
#[derive(Clone, Copy, PartialEq, Eq)]
pub struct CCanon {
    /// How many bytes the shortest form has.
    pub len: usize,
    /// For an invalid frame: the last type that was read, which may be its own. `u64::MAX` if none was.
    pub last_type: u64,
}

// The size that every declaration of this struct in C must have.
const _: () = prove!(std::mem::size_of::<CCanon>() == 16);
