//! What RFC 9000 and its extensions call the transport parameters, and the bounds of their values.
use quic_params::transport_parameters::TransportParameterId;
use quic_params::transport_parameters::TransportParameterId::*;

/// A transport parameter.
#[derive(Clone, Copy)]
pub struct Names {
    /// The library's name.
    pub id: TransportParameterId,
    /// The number.
    pub number: u64,
    /// The RFC's name.
    pub name: &'static str,
    /// The name in quinn-proto, if it is another.
    pub alias: &'static str,
    /// The section that defines it.
    pub section: &'static str,
    /// What a number counts.
    pub unit: &'static str,
    /// The least number.
    pub least: u64,
    /// The greatest number.
    pub most: Most,
}

/// The greatest number of a parameter.
#[derive(Clone, Copy)]
pub enum Most {
    /// That of all numbers.
    Any,
    /// This.
    Number(u64),
    /// So many times max_ack_delay.
    Times(u64),
}

/// The parameters in the order of their numbers.
pub const PARAMETERS: &[Names] = &[
    Names {
        id: OriginalDestinationConnectionId,
        number: 0x00,
        name: "original_destination_connection_id",
        alias: "original_dst_cid",
        section: "RFC 9000, section 18.2",
        unit: "",
        least: 0,
        most: Most::Any,
    },
    Names {
        id: MaxIdleTimeout,
        number: 0x01,
        name: "max_idle_timeout",
        alias: "",
        section: "RFC 9000, section 18.2",
        unit: "milliseconds, 0 for none",
        least: 0,
        most: Most::Any,
    },
    Names {
        id: StatelessResetToken,
        number: 0x02,
        name: "stateless_reset_token",
        alias: "",
        section: "RFC 9000, section 18.2",
        unit: "",
        least: 0,
        most: Most::Any,
    },
    Names {
        id: MaxUdpPayloadSize,
        number: 0x03,
        name: "max_udp_payload_size",
        alias: "",
        section: "RFC 9000, section 18.2",
        unit: "bytes",
        least: 1200,
        most: Most::Any,
    },
    Names {
        id: InitialMaxData,
        number: 0x04,
        name: "initial_max_data",
        alias: "",
        section: "RFC 9000, section 18.2",
        unit: "bytes",
        least: 0,
        most: Most::Any,
    },
    Names {
        id: InitialMaxStreamDataBidiLocal,
        number: 0x05,
        name: "initial_max_stream_data_bidi_local",
        alias: "",
        section: "RFC 9000, section 18.2",
        unit: "bytes",
        least: 0,
        most: Most::Any,
    },
    Names {
        id: InitialMaxStreamDataBidiRemote,
        number: 0x06,
        name: "initial_max_stream_data_bidi_remote",
        alias: "",
        section: "RFC 9000, section 18.2",
        unit: "bytes",
        least: 0,
        most: Most::Any,
    },
    Names {
        id: InitialMaxStreamDataUni,
        number: 0x07,
        name: "initial_max_stream_data_uni",
        alias: "",
        section: "RFC 9000, section 18.2",
        unit: "bytes",
        least: 0,
        most: Most::Any,
    },
    Names {
        id: InitialMaxStreamsBidi,
        number: 0x08,
        name: "initial_max_streams_bidi",
        alias: "",
        section: "RFC 9000, section 18.2",
        unit: "streams",
        least: 0,
        most: Most::Number(1 << 60),
    },
    Names {
        id: InitialMaxStreamsUni,
        number: 0x09,
        name: "initial_max_streams_uni",
        alias: "",
        section: "RFC 9000, section 18.2",
        unit: "streams",
        least: 0,
        most: Most::Number(1 << 60),
    },
    Names {
        id: AckDelayExponent,
        number: 0x0a,
        name: "ack_delay_exponent",
        alias: "",
        section: "RFC 9000, section 18.2",
        unit: "power of 2",
        least: 0,
        most: Most::Number(20),
    },
    Names {
        id: MaxAckDelay,
        number: 0x0b,
        name: "max_ack_delay",
        alias: "",
        section: "RFC 9000, section 18.2",
        unit: "milliseconds",
        least: 0,
        most: Most::Number((1 << 14) - 1),
    },
    Names {
        id: DisableActiveMigration,
        number: 0x0c,
        name: "disable_active_migration",
        alias: "",
        section: "RFC 9000, section 18.2",
        unit: "",
        least: 0,
        most: Most::Any,
    },
    Names {
        id: PreferredAddress,
        number: 0x0d,
        name: "preferred_address",
        alias: "",
        section: "RFC 9000, section 18.2",
        unit: "",
        least: 0,
        most: Most::Any,
    },
    Names {
        id: ActiveConnectionIdLimit,
        number: 0x0e,
        name: "active_connection_id_limit",
        alias: "",
        section: "RFC 9000, section 18.2",
        unit: "connection ids",
        least: 2,
        most: Most::Any,
    },
    Names {
        id: InitialSourceConnectionId,
        number: 0x0f,
        name: "initial_source_connection_id",
        alias: "initial_src_cid",
        section: "RFC 9000, section 18.2",
        unit: "",
        least: 0,
        most: Most::Any,
    },
    Names {
        id: RetrySourceConnectionId,
        number: 0x10,
        name: "retry_source_connection_id",
        alias: "retry_src_cid",
        section: "RFC 9000, section 18.2",
        unit: "",
        least: 0,
        most: Most::Any,
    },
    Names {
        id: ReservedTransportParameter,
        number: 0x1b,
        name: "reserved",
        alias: "grease_transport_parameter",
        section: "RFC 9000, section 18.1",
        unit: "",
        least: 0,
        most: Most::Any,
    },
    Names {
        id: MaxDatagramFrameSize,
        number: 0x20,
        name: "max_datagram_frame_size",
        alias: "",
        section: "RFC 9221, section 3",
        unit: "bytes",
        least: 0,
        most: Most::Any,
    },
    Names {
        id: GreaseQuicBit,
        number: 0x2ab2,
        name: "grease_quic_bit",
        alias: "",
        section: "RFC 9287, section 3",
        unit: "",
        least: 0,
        most: Most::Any,
    },
    Names {
        id: MinAckDelayDraft07,
        number: 0xff04_de1b,
        name: "min_ack_delay",
        alias: "",
        section: "draft-ietf-quic-ack-frequency, section 3",
        unit: "microseconds",
        least: 0,
        most: Most::Times(1000),
    },
];

/// The fields of a preferred address in their order, each with the least and the most bytes. A byte before the id has
/// its length.
pub const ADDRESS: [(&str, u8, u8); 6] = [
    ("IPv4 Address", 4, 4),
    ("IPv4 Port", 2, 2),
    ("IPv6 Address", 16, 16),
    ("IPv6 Port", 2, 2),
    ("Connection ID", 1, 20),
    ("Stateless Reset Token", 16, 16),
];
