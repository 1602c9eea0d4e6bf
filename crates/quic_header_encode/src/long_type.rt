//! The first bytes of headers, and the types of long headers (RFC 9000, section 17.2; RFC 9369, section 3.2).
ghost use Rattle.std.specs.Prelude.{◌≡◌, ◌≤◌};
ghost use Rattle.quic_header_encode.specs.Kinds.{row};
ghost use Rattle.quic_header_encode.specs.Writing.{kind_of, type_bits, IsTyped};
ghost use Rattle.quic_header_encode.specs.Types.{first_byte, long_type};

/// The bit of a first byte that is set in long headers.
pub const LONG_HEADER_FORM: u8 = 0x80;

/// The bit of a first byte that is set in all headers, except greased ones (RFC 9287).
pub const FIXED_BIT: u8 = 0x40;

/// The spin bit of a short header's first byte (RFC 9000, section 17.4).
pub const SPIN_BIT: u8 = 0x20;

/// Version 2 of QUIC (RFC 9369, section 3.1).
pub const VERSION_2: u32 = 0x6b33_43cf;

// The values of these constants.
const _: () = prove!(LONG_HEADER_FORM == 128 && FIXED_BIT == 64 && SPIN_BIT == 32);

const _: () = prove!(VERSION_2 == 1_798_521_807);

/// The kinds of headers.
#[derive(Clone, Copy, Debug, PartialEq, Eq)]
pub enum HeaderKind {
    /// Of an Initial packet (RFC 9000, section 17.2.2).
    Initial,
    /// Of a 0-RTT packet (RFC 9000, section 17.2.3).
    ZeroRtt,
    /// Of a Handshake packet (RFC 9000, section 17.2.4).
    Handshake,
    /// Of a Retry packet (RFC 9000, section 17.2.5).
    Retry,
    /// Of a 1-RTT packet (RFC 9000, section 17.3.1).
    Short,
    /// Of a version negotiation (RFC 9000, section 17.2.1).
    VersionNegotiate,
}

impl HeaderKind {
    /// The kind of a long header, by its first byte in a version.
    #[inline(always)]
    pub fn of_long(first: u8, version: u32) -> HeaderKind
        ensures { result ≡ kind_of (long_type version first) }
    {
        let behind = if version == VERSION_2 { 3 } else { 0 };
        match (first / 16 + behind) % 4 {
            0 => HeaderKind::Initial,
            1 => HeaderKind::ZeroRtt,
            2 => HeaderKind::Handshake,
            _ => HeaderKind::Retry,
        }
    }

    /// The bits of a long header's first byte that hold its type in a version. The caller must ensure that the header
    /// is long and has a type.
    #[inline(always)]
    pub fn type_bits(self, version: u32) -> u8
        requires { IsTyped self }
        ensures value { result ≡ type_bits self version }
        ensures few { result ≤ 48 }
    {
        let number = match self {
            HeaderKind::Initial => 0,
            HeaderKind::ZeroRtt => 1,
            HeaderKind::Handshake => 2,
            _ => 3,
        };
        let before = if version == VERSION_2 { 1 } else { 0 };
        (number + before) % 4 * 16
    }

    /// Whether the packet has a number.
    #[inline(always)]
    pub fn has_number(self) -> bool
        ensures { result ≡ (row self).has_number }
    {
        match self {
            HeaderKind::Retry => false,
            HeaderKind::VersionNegotiate => false,
            _ => true,
        }
    }

    /// Whether the header has a length.
    #[inline(always)]
    pub fn has_len(self) -> bool
        ensures { result ≡ (row self).has_len }
    {
        match self {
            HeaderKind::Initial => true,
            HeaderKind::ZeroRtt => true,
            HeaderKind::Handshake => true,
            _ => false,
        }
    }
}

/// Long headers of one form.
#[derive(Clone, Copy, Debug, PartialEq, Eq)]
pub enum LongType {
    /// Of a Handshake packet (RFC 9000, section 17.2.4).
    Handshake,
    /// Of a 0-RTT packet (RFC 9000, section 17.2.3).
    ZeroRtt,
}

/// The types of long headers.
#[derive(Clone, Copy, Debug, PartialEq, Eq)]
pub enum LongHeaderType {
    /// Initial, with a token (RFC 9000, section 17.2.2).
    Initial,
    /// Retry, without protection (RFC 9000, section 17.2.5).
    Retry,
    /// Handshake and 0-RTT, without a token.
    Standard(LongType),
}

impl LongHeaderType {
    /// The type in a long header's first byte in a version.
    #[inline]
    pub fn from_byte(first: u8, version: u32) -> Self
        ensures { result ≡ long_type version first }
    {
        // Initial is compared first, since servers read it most often; a table of four cases is slower.
        if version != VERSION_2 && first % 64 < 16 {
            return Self::Initial;
        }
        let number = first / 16 % 4;
        if version == VERSION_2 {
            return match number {
                0 => Self::Retry,
                1 => Self::Initial,
                2 => Self::Standard(LongType::ZeroRtt),
                _ => Self::Standard(LongType::Handshake),
            };
        }
        match number {
            1 => Self::Standard(LongType::ZeroRtt),
            2 => Self::Standard(LongType::Handshake),
            _ => Self::Retry,
        }
    }

    /// The first byte of a long header in a version, without its number length.
    pub fn byte(self, version: u32) -> u8
        ensures { result ≡ first_byte version self }
    {
        if version == VERSION_2 {
            return match self {
                Self::Retry => 0xc0,
                Self::Initial => 0xd0,
                Self::Standard(LongType::ZeroRtt) => 0xe0,
                Self::Standard(LongType::Handshake) => 0xf0,
            };
        }
        match self {
            Self::Initial => 0xc0,
            Self::Standard(LongType::ZeroRtt) => 0xd0,
            Self::Standard(LongType::Handshake) => 0xe0,
            Self::Retry => 0xf0,
        }
    }
}

/// The first byte in version 1, without the number length.
impl From<LongHeaderType> for u8 {
    ghost from_gives = { λ ty first. first ≡ first_byte 1 ty };

    fn from(ty: LongHeaderType) -> u8 {
        ty.byte(1)
    }
}
