//! The structs that C sees. Each of their words may have any value: no function relies on it.

/// How far an iterator over a payload has come. The caller keeps it and gives the payload with each call.
#[repr(C)]
#[derive(Clone, Copy)]
pub struct CFrameIter {
    /// The end of the last whole frame.
    pub offset: usize,
    /// The type of the last frame as encoded in the payload; 2^62 or more: none.
    pub last_type: u64,
    /// 0 until something wasn't a valid frame.
    pub ended: u32,
    /// Which rules frames are read by, as bits (`flags.rt`).
    pub flags: u32,
}

/// A frame.
#[repr(C)]
#[derive(Clone, Copy)]
pub struct CFrame {
    /// Its type, the same one for every STREAM, ACK and DATAGRAM.
    pub kind: u16,
    /// Its type as encoded in the payload; 0 if the bytes aren't a valid frame. Writing doesn't look at it.
    pub ty: u16,
    /// 1: the end of a stream (FIN). 2: an ACK with counts.
    pub flags: u32,
    /// Where it begins in the payload.
    pub begin: usize,
    /// Where it ends.
    pub end: usize,
    /// Where its data begin in the payload. Of an ACK: how many of its gaps were written.
    pub data_offset: usize,
    /// How many bytes of data it has. Of an ACK: its first range, less one.
    pub data_len: usize,
    /// Its numbers.
    pub numbers: [u64; 5],
}

/// Numbers from `start` to below `end`.
#[repr(C)]
#[derive(Clone, Copy)]
pub struct CRange {
    /// The least number.
    pub start: u64,
    /// The number above the greatest.
    pub end: u64,
}

/// A range of an ACK below another one, as encoded in the payload (RFC 9000, section 19.3.1).
#[repr(C)]
#[derive(Clone, Copy)]
pub struct CGap {
    /// How many numbers are between the two, less one.
    pub gap: u64,
    /// How many numbers it has, less one.
    pub len: u64,
}

/// How far the ranges of an ACK have been read.
#[repr(C)]
#[derive(Clone, Copy)]
pub struct CRangeIter {
    /// Where the next block begins in the payload.
    pub offset: usize,
    /// How many ranges are left.
    pub left: u64,
    /// The greatest number of the next range.
    pub largest: u64,
}

// The sizes that these structs must have in C.
const _: () = prove!(std::mem::size_of::<CFrameIter>() == 24);

const _: () = prove!(std::mem::size_of::<CFrame>() == 80);

const _: () = prove!(std::mem::size_of::<CRange>() == 16);

const _: () = prove!(std::mem::size_of::<CGap>() == 16);

const _: () = prove!(std::mem::size_of::<CRangeIter>() == 24);
