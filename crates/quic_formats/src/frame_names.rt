//! What RFC 9000 and its extensions call the types of frames and their fields.

/// A field: its name in the RFC's figure, what its number counts or names, the name of its length.
#[derive(Clone, Copy)]
pub struct Label(pub &'static str, pub &'static str, pub &'static str);

/// The types of frames that have one name and the same fields.
#[derive(Clone, Copy)]
pub struct Names {
    /// The first and the last type.
    pub types: (u16, u16),
    /// The frame's name.
    pub name: &'static str,
    /// The section that defines it.
    pub section: &'static str,
    /// Its letters in the column "Spec" of table 3 (RFC 9000, section 12.4); for an extension's frame, those that its
    /// document says.
    pub spec: &'static str,
    /// The fields after the type.
    pub fields: &'static [Label],
}

/// The greatest number in the field of a type, by the field's index. Others go up to 2^62 - 1.
pub const GREATEST: [(u16, usize, u64); 4] = [
    (0x12, 2, 1 << 60),
    (0x13, 2, 1 << 60),
    (0x16, 2, 1 << 60),
    (0x17, 2, 1 << 60),
];

/// The numbers of an ACK's ranges: their count after the first, the first, and of each other its gap and its length.
pub const RANGES: [Label; 4] = [
    Label("ACK Range Count", "ranges", ""),
    Label("First ACK Range", "packets", ""),
    Label("Gap", "packets", ""),
    Label("ACK Range Length", "packets", ""),
];

// A rule on the fields before it.
const NO_BYTES: Label = Label("", "", "");

const STREAM_ID: Label = Label("Stream ID", "stream id", "");

const APPLICATION_CODE: Label = Label(
    "Application Protocol Error Code",
    "application error code",
    "",
);

const OFFSET: Label = Label("Offset", "bytes", "");

const MAXIMUM_DATA: Label = Label("Maximum Data", "bytes", "");

const MAXIMUM_STREAM_DATA: Label = Label("Maximum Stream Data", "bytes", "");

const DIRECTION: Label = Label("Direction", "0 bidirectional, 1 unidirectional", "");

const MAXIMUM_STREAMS: Label = Label("Maximum Streams", "streams", "");

const SEQUENCE_NUMBER: Label = Label("Sequence Number", "sequence number", "");

const LARGEST: Label = Label("Largest Acknowledged", "packet number", "");

const ACK_DELAY: Label = Label("ACK Delay", "2^ack_delay_exponent microseconds", "");

const ACK_RANGES: Label = Label("ACK Ranges", "packet numbers", "");

const PATH_DATA: Label = Label("Data", "", "");

const REASON: Label = Label("Reason Phrase", "UTF-8", "Reason Phrase Length");

/// The frames in the order of their types.
pub const FRAMES: &[Names] = &[
    Names {
        types: (0x00, 0x00),
        name: "PADDING",
        section: "RFC 9000, section 19.1",
        spec: "NP",
        fields: &[],
    },
    Names {
        types: (0x01, 0x01),
        name: "PING",
        section: "RFC 9000, section 19.2",
        spec: "",
        fields: &[],
    },
    Names {
        types: (0x02, 0x02),
        name: "ACK",
        section: "RFC 9000, section 19.3",
        spec: "NC",
        fields: &[LARGEST, ACK_DELAY, ACK_RANGES],
    },
    Names {
        types: (0x03, 0x03),
        name: "ACK",
        section: "RFC 9000, section 19.3",
        spec: "NC",
        fields: &[
            LARGEST,
            ACK_DELAY,
            ACK_RANGES,
            Label("ECT0 Count", "packets", ""),
            Label("ECT1 Count", "packets", ""),
            Label("ECN-CE Count", "packets", ""),
        ],
    },
    Names {
        types: (0x04, 0x04),
        name: "RESET_STREAM",
        section: "RFC 9000, section 19.4",
        spec: "",
        fields: &[
            STREAM_ID,
            APPLICATION_CODE,
            Label("Final Size", "bytes", ""),
        ],
    },
    Names {
        types: (0x05, 0x05),
        name: "STOP_SENDING",
        section: "RFC 9000, section 19.5",
        spec: "",
        fields: &[STREAM_ID, APPLICATION_CODE],
    },
    Names {
        types: (0x06, 0x06),
        name: "CRYPTO",
        section: "RFC 9000, section 19.6",
        spec: "",
        fields: &[OFFSET, Label("Crypto Data", "", "Length")],
    },
    Names {
        types: (0x07, 0x07),
        name: "NEW_TOKEN",
        section: "RFC 9000, section 19.7",
        spec: "",
        fields: &[Label("Token", "", "Token Length")],
    },
    Names {
        types: (0x08, 0x0f),
        name: "STREAM",
        section: "RFC 9000, section 19.8",
        spec: "F",
        fields: &[
            Label("FIN", "1 at the end of the stream", ""),
            STREAM_ID,
            OFFSET,
            Label("Stream Data", "", "Length"),
        ],
    },
    Names {
        types: (0x10, 0x10),
        name: "MAX_DATA",
        section: "RFC 9000, section 19.9",
        spec: "",
        fields: &[MAXIMUM_DATA],
    },
    Names {
        types: (0x11, 0x11),
        name: "MAX_STREAM_DATA",
        section: "RFC 9000, section 19.10",
        spec: "",
        fields: &[STREAM_ID, MAXIMUM_STREAM_DATA],
    },
    Names {
        types: (0x12, 0x13),
        name: "MAX_STREAMS",
        section: "RFC 9000, section 19.11",
        spec: "",
        fields: &[DIRECTION, MAXIMUM_STREAMS],
    },
    Names {
        types: (0x14, 0x14),
        name: "DATA_BLOCKED",
        section: "RFC 9000, section 19.12",
        spec: "",
        fields: &[MAXIMUM_DATA],
    },
    Names {
        types: (0x15, 0x15),
        name: "STREAM_DATA_BLOCKED",
        section: "RFC 9000, section 19.13",
        spec: "",
        fields: &[STREAM_ID, MAXIMUM_STREAM_DATA],
    },
    Names {
        types: (0x16, 0x17),
        name: "STREAMS_BLOCKED",
        section: "RFC 9000, section 19.14",
        spec: "",
        fields: &[DIRECTION, MAXIMUM_STREAMS],
    },
    Names {
        types: (0x18, 0x18),
        name: "NEW_CONNECTION_ID",
        section: "RFC 9000, section 19.15",
        spec: "P",
        fields: &[
            SEQUENCE_NUMBER,
            Label("Retire Prior To", "sequence number", ""),
            NO_BYTES,
            Label("Connection ID", "", "Length"),
            Label("Stateless Reset Token", "", ""),
        ],
    },
    Names {
        types: (0x19, 0x19),
        name: "RETIRE_CONNECTION_ID",
        section: "RFC 9000, section 19.16",
        spec: "",
        fields: &[SEQUENCE_NUMBER],
    },
    Names {
        types: (0x1a, 0x1a),
        name: "PATH_CHALLENGE",
        section: "RFC 9000, section 19.17",
        spec: "P",
        fields: &[PATH_DATA],
    },
    Names {
        types: (0x1b, 0x1b),
        name: "PATH_RESPONSE",
        section: "RFC 9000, section 19.18",
        spec: "P",
        fields: &[PATH_DATA],
    },
    Names {
        types: (0x1c, 0x1c),
        name: "CONNECTION_CLOSE",
        section: "RFC 9000, section 19.19",
        spec: "N",
        fields: &[
            Label("Error Code", "error code", ""),
            Label("Frame Type", "frame type, 0 if unknown", ""),
            REASON,
        ],
    },
    Names {
        types: (0x1d, 0x1d),
        name: "CONNECTION_CLOSE",
        section: "RFC 9000, section 19.19",
        spec: "N",
        fields: &[Label("Error Code", "application error code", ""), REASON],
    },
    Names {
        types: (0x1e, 0x1e),
        name: "HANDSHAKE_DONE",
        section: "RFC 9000, section 19.20",
        spec: "",
        fields: &[],
    },
    Names {
        types: (0x1f, 0x1f),
        name: "IMMEDIATE_ACK",
        section: "draft-ietf-quic-ack-frequency, section 5",
        spec: "",
        fields: &[],
    },
    Names {
        types: (0x30, 0x31),
        name: "DATAGRAM",
        section: "RFC 9221, section 4",
        spec: "",
        fields: &[Label("Datagram Data", "", "Length")],
    },
    Names {
        types: (0xaf, 0xaf),
        name: "ACK_FREQUENCY",
        section: "draft-ietf-quic-ack-frequency, section 4",
        spec: "",
        fields: &[
            SEQUENCE_NUMBER,
            Label("Ack-Eliciting Threshold", "packets", ""),
            Label("Requested Max Ack Delay", "microseconds", ""),
            Label("Reordering Threshold", "packets", ""),
        ],
    },
];
