//! The structs that C sees. Each of their fields may have any value: no call relies on them.

/// Transport parameters (RFC 9000, section 18.2). Values that are absent are 0 in all of their fields and bytes, except
/// numbers that have a default: these hold it then.
#[repr(C)]
#[derive(Clone, Copy, PartialEq, Eq)]
pub struct CParams {
    /// What is present, by the bits from the lowest: 0 `stateless_reset_token`, 1 `disable_active_migration`,
    /// 2 `max_datagram_frame_size`, 3 a preferred address, 4 its address of IPv4, 5 that of IPv6,
    /// 6 `original_dst_cid`, 7 `initial_src_cid`, 8 `retry_src_cid`, 9 `grease_quic_bit`, 10 `min_ack_delay`.
    pub present: u32,
    /// 0.
    pub reserved: u32,
    /// In milliseconds; 0 means no limit.
    pub max_idle_timeout: u64,
    /// In bytes, at least 1200.
    pub max_udp_payload_size: u64,
    /// In bytes.
    pub initial_max_data: u64,
    /// In bytes.
    pub initial_max_stream_data_bidi_local: u64,
    /// In bytes.
    pub initial_max_stream_data_bidi_remote: u64,
    /// In bytes.
    pub initial_max_stream_data_uni: u64,
    /// At most 2^60.
    pub initial_max_streams_bidi: u64,
    /// At most 2^60.
    pub initial_max_streams_uni: u64,
    /// At most 20.
    pub ack_delay_exponent: u64,
    /// In milliseconds, below 2^14.
    pub max_ack_delay: u64,
    /// At least 2.
    pub active_connection_id_limit: u64,
    /// In bytes (RFC 9221, section 3).
    pub max_datagram_frame_size: u64,
    /// In microseconds, at most `max_ack_delay`.
    pub min_ack_delay: u64,
    /// How many bytes the id has, at most 20.
    pub original_dst_cid_len: u32,
    /// How many bytes the id has, at most 20.
    pub initial_src_cid_len: u32,
    /// How many bytes the id has, at most 20.
    pub retry_src_cid_len: u32,
    /// How many bytes the id of the preferred address has, 1 to 20.
    pub preferred_id_len: u32,
    /// The port of IPv4.
    pub preferred_v4_port: u16,
    /// The port of IPv6.
    pub preferred_v6_port: u16,
    /// The destination id of the client's first packet, followed by zeros.
    pub original_dst_cid: [u8; 20],
    /// The source id of the sender's first packet, followed by zeros.
    pub initial_src_cid: [u8; 20],
    /// The source id of the server's Retry, followed by zeros.
    pub retry_src_cid: [u8; 20],
    /// The id of connections to the preferred address, followed by zeros.
    pub preferred_id: [u8; 20],
    /// The token by which the server resets the connection.
    pub stateless_reset_token: [u8; 16],
    /// The token by which a connection to the preferred address is reset.
    pub preferred_token: [u8; 16],
    /// The preferred address of IPv6, the highest byte first.
    pub preferred_v6: [u8; 16],
    /// The preferred address of IPv4, the highest byte first.
    pub preferred_v4: [u8; 4],
}

/// An entry of a list of parameters (RFC 9000, section 18).
#[repr(C)]
#[derive(Clone, Copy, PartialEq, Eq)]
pub struct CParam {
    /// Its number, below 2^62.
    pub id: u64,
    /// The offset of its value in the bytes that were read.
    pub value: usize,
    /// How many bytes its value has. The next entry begins after them.
    pub value_len: usize,
}

/// At which entry a list of parameters is rejected.
#[repr(C)]
#[derive(Clone, Copy, PartialEq, Eq)]
pub struct CRefusal {
    /// The number of the parameter, or 2^64 - 1 if the list ends within that.
    pub id: u64,
    /// The offset of its entry in the list.
    pub offset: usize,
}

// The sizes that every declaration of these structs in C must have.
const _: () = prove!(std::mem::size_of::<CParams>() == 264);

const _: () = prove!(std::mem::size_of::<CParam>() == 24);

const _: () = prove!(std::mem::size_of::<CRefusal>() == 16);
