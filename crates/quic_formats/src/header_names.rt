//! What RFC 9000 calls the headers of packets and their fields.
use quic_header_fields::row::Kind;

/// Bits of a first byte: their name, how many they are, and their value if it is fixed.
#[derive(Clone, Copy)]
pub struct Bits(pub &'static str, pub u64, pub Option<u64>);

/// A header: its name, its section, its bits after the form, the fixed bit and the type, and what follows its fields.
#[derive(Clone, Copy)]
pub struct Names {
    pub name: &'static str,
    pub section: &'static str,
    /// The bits that follow the header's form, the fixed bit and the type.
    pub bits: &'static [Bits],
    /// What follows the row's fields.
    pub after: &'static [After],
}

/// What follows a header's fields: its name, the least and the most bytes, 0 at most if these are open, and whether it
/// is repeated to the packet's end.
#[derive(Clone, Copy)]
pub struct After(pub &'static str, pub u64, pub u64, pub bool);

const RESERVED: Bits = Bits("Reserved Bits", 2, None);

const NUMBER_LENGTH: Bits = Bits("Packet Number Length", 2, None);

const NUMBER: After = After("Packet Number", 1, 4, false);

const PAYLOAD: After = After("Packet Payload", 0, 0, false);

/// Initial packets.
pub const INITIAL: Names = Names {
    name: "Initial",
    section: "RFC 9000, section 17.2.2",
    bits: &[RESERVED, NUMBER_LENGTH],
    after: &[NUMBER, PAYLOAD],
};

/// 0-RTT packets.
pub const ZERO_RTT: Names = Names {
    name: "0-RTT",
    section: "RFC 9000, section 17.2.3",
    bits: &[RESERVED, NUMBER_LENGTH],
    after: &[NUMBER, PAYLOAD],
};

/// Handshake packets.
pub const HANDSHAKE: Names = Names {
    name: "Handshake",
    section: "RFC 9000, section 17.2.4",
    bits: &[RESERVED, NUMBER_LENGTH],
    after: &[NUMBER, PAYLOAD],
};

/// Retry packets.
pub const RETRY: Names = Names {
    name: "Retry",
    section: "RFC 9000, section 17.2.5",
    bits: &[Bits("Unused", 4, None)],
    after: &[
        After("Retry Token", 0, 0, false),
        After("Retry Integrity Tag", 16, 16, false),
    ],
};

/// Version negotiations.
pub const NEGOTIATION: Names = Names {
    name: "Version Negotiation",
    section: "RFC 9000, section 17.2.1",
    bits: &[Bits("Unused", 7, None)],
    after: &[After("Supported Version", 4, 4, true)],
};

/// 1-RTT packets.
pub const ONE_RTT: Names = Names {
    name: "1-RTT",
    section: "RFC 9000, section 17.3.1",
    bits: &[
        Bits("Spin Bit", 1, None),
        RESERVED,
        Bits("Key Phase", 1, None),
        NUMBER_LENGTH,
    ],
    after: &[NUMBER, PAYLOAD],
};

/// A field: its kind, its name, the name of its length, the least and the most bytes; 0 at most if these are open.
pub struct Field(
    pub &'static str,
    pub &'static str,
    pub &'static str,
    pub u64,
    pub u64,
);

/// What the fields of a header's row are.
pub fn field_of(kind: Kind) -> Field {
    let destination = "Destination Connection ID";
    match kind {
        Kind::Version => Field("uint32", "Version", "", 4, 4),
        Kind::DestinationId => Field("id", destination, "Destination Connection ID Length", 0, 20),
        Kind::SourceId => {
            Field(
                "id",
                "Source Connection ID",
                "Source Connection ID Length",
                0,
                20,
            )
        }
        Kind::Supported => Field("supported", "Version", "", 0, 0),
        Kind::TokenLength => Field("number", "Token Length", "", 0, 0),
        Kind::Token => Field("token", "Token", "", 0, 0),
        Kind::Length => Field("number", "Length", "", 0, 0),
        Kind::ShortId => Field("short_id", destination, "", 0, 20),
    }
}
