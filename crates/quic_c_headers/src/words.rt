//! The structs that C sees. Each of their fields may have any value: no function relies on it. No field has the
//! machine's word size, so the layout is the same on all machines.

// The kinds, as C numbers them.
pub(crate) const INITIAL: u8 = 0;

pub(crate) const ZERO_RTT: u8 = 1;

pub(crate) const HANDSHAKE: u8 = 2;

pub(crate) const RETRY: u8 = 3;

pub(crate) const SHORT: u8 = 4;

pub(crate) const VERSION_NEGOTIATION: u8 = 5;

pub(crate) const UNKNOWN_VERSION: u8 = 6;

/// The header of a packet. Offsets count from the packet's front. The receiver's id begins at offset 6 in a long header
/// and at 1 in a short one; the sender's follows it, after its own length byte. Fields that the kind doesn't have are
/// 0.
#[repr(C)]
#[derive(Clone, Copy)]
pub struct CHeader {
    /// 0 Initial, 1 0-RTT, 2 Handshake, 3 Retry, 4 1-RTT, 5 version negotiation, 6 if the version isn't one of those
    /// given.
    pub kind: u8,
    /// The first byte, still protected.
    pub first: u8,
    /// How many bytes the receiver's id has: at most 20, or up to 255 if the version is unknown, or if only a version
    /// negotiation is read.
    pub dst_len: u8,
    /// How many bytes the sender's id has, likewise.
    pub src_len: u8,
    /// The version (RFC 9000, section 15).
    pub version: u32,
    /// The offset at which the header ends, or at which the packet number begins if there is one.
    pub header_end: u32,
    /// The offset at which the packet ends, or the number of bytes if it is cut off.
    pub end: u32,
    /// The offset of the token of an Initial or Retry packet.
    pub token: u32,
    /// How many bytes the token has.
    pub token_len: u32,
    /// How many bytes an Initial, Handshake or 0-RTT packet has from `header_end` on, by the length in its header.
    pub len: u64,
}

/// The fields of a header to be written, other than its ids and its token. Fields that the kind doesn't have are
/// ignored.
#[repr(C)]
#[derive(Clone, Copy)]
pub struct HeaderFields {
    /// 0 Initial, 1 0-RTT, 2 Handshake, 3 Retry, 4 1-RTT, 5 version negotiation.
    pub kind: u8,
    /// With 0 the first byte is that of RFC 9000. 0x40 clears the fixed bit (RFC 9287). In 1-RTT 0x20 is the spin bit
    /// and 0x04 the Key Phase bit. In a version negotiation the flags invert the first byte's seven low bits.
    pub flags: u8,
    /// In how many bytes the packet number is written, 1 to 4; for all kinds except Retry and version negotiation.
    pub number_len: u8,
    /// How many bytes the length has, 1, 2, 4 or 8; for Initial, 0-RTT and Handshake.
    pub length_len: u8,
    /// The version (RFC 9000, section 15).
    pub version: u32,
    /// The packet number, below 2^62.
    pub number: u64,
}
