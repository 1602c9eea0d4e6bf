//! The limits and options that endpoints declare in the handshake (RFC 9000, section 7.4).

pub use crate::error::{Error, Refusal};
pub use crate::options::ReadOptions;
pub use crate::order::WriteOrder;
pub use crate::parameter::TransportParameterId;
pub use crate::reading::{known, split_entry};
pub use crate::record::TransportParameters;
pub use crate::reserved::{MAX_PAYLOAD_SIZE, ReservedTransportParameter};
pub use crate::storing::{write_entry_header_into, write_entry_into, write_number_entry_into};
pub use crate::value::{PreferredAddress, Value};
pub use crate::value_decode::value_number;
pub use crate::writing::write_entry;
