//! The fields of the value of each parameter.
ghost use Rattle.std.specs.Prelude.{◌≡◌, ◌≤◌, length};
ghost use Rattle.quic_param_fields.specs.Rows.{fields_of, sort_of};

use quic_params::transport_parameters::TransportParameterId;

/// A kind of field (RFC 9000, section 18.2).
#[derive(Clone, Copy, Debug, PartialEq, Eq)]
pub enum Kind {
    /// A number of any width.
    Varint,
    /// A number of two bytes.
    Port,
    /// An address of IPv4.
    Ip4,
    /// An address of IPv6.
    Ip6,
    /// Sixteen bytes.
    Bytes16,
    /// A byte of at most 20, and that many bytes.
    LongId,
    /// All bytes that are left, at most 20.
    Id,
    /// All bytes that are left.
    Rest,
}

/// What the value of a parameter is.
#[derive(Clone, Copy, Debug, PartialEq, Eq)]
pub enum Sort {
    /// A number.
    Number,
    /// No bytes.
    Flag,
    /// A token of 16 bytes.
    Token,
    /// An id of at most 20 bytes.
    Id,
    /// A preferred address.
    Address,
    /// Any bytes.
    Any,
}

static NUMBER: [Kind; 1] = [Kind::Varint];

static TOKEN: [Kind; 1] = [Kind::Bytes16];

static ID: [Kind; 1] = [Kind::Id];

static ADDRESS: [Kind; 6] = [
    Kind::Ip4,
    Kind::Port,
    Kind::Ip6,
    Kind::Port,
    Kind::LongId,
    Kind::Bytes16,
];

static ANY: [Kind; 1] = [Kind::Rest];

/// What the value of this parameter is.
pub fn sort_of(id: TransportParameterId) -> Sort
    ensures { result ≡ sort_of id }
{
    use TransportParameterId::*;
    match id {
        DisableActiveMigration | GreaseQuicBit => Sort::Flag,
        StatelessResetToken => Sort::Token,
        OriginalDestinationConnectionId | InitialSourceConnectionId | RetrySourceConnectionId =>
            Sort::Id,
        PreferredAddress => Sort::Address,
        ReservedTransportParameter => Sort::Any,
        _ => Sort::Number,
    }
}

/// The fields of such a value.
pub fn row(sort: Sort) -> &'static [Kind]
    ensures fields { result.now ≡ fields_of sort }
    ensures few { length result.now ≤ 6 }
{
    match sort {
        Sort::Number => &NUMBER,
        Sort::Flag => &ANY[..0],
        Sort::Token => &TOKEN,
        Sort::Id => &ID,
        Sort::Address => &ADDRESS,
        Sort::Any => &ANY,
    }
}
