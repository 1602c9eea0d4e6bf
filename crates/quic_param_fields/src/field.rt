//! Fields, read one after another from the front of a value, with their spans.
ghost use Rattle.std.specs.Prelude.{◌≡◌, ◌<◌, ◌≤◌, ◌+◌, ◌^◌, length, IfOk, IfErr, None, IfSome};
ghost use Rattle.quic_base.specs.Codec.{Takes};
ghost use Rattle.quic_param_fields.specs.Fields.{error_of, IsField, Stops, HasFields, StopsIn};

use crate::row::Kind;
use quic_base::coding::Codec;
use quic_base::ids::{MAX_CID_SIZE, RESET_TOKEN_SIZE};
use quic_base::varint::split_var;
use quic_fields::field::{Span, put};
use quic_params::transport_parameters::Error;
use std::net::{Ipv4Addr, Ipv6Addr};

/// Why a value isn't valid (RFC 9000, section 18.2).
#[derive(Clone, Copy, Debug, PartialEq, Eq)]
pub enum Reason {
    /// The field goes beyond the end of the value.
    UnexpectedEnd,
    /// An id has more than 20 bytes.
    LongId,
    /// Bytes follow the last field.
    BytesLeft,
    /// The number isn't in its shortest encoding although it must be.
    LongNumber,
    /// The number is below the parameter's least value or above its greatest.
    OutOfRange,
    /// The address has neither an address of IPv4 nor one of IPv6.
    NoAddress,
    /// The address has an empty id.
    EmptyId,
}

impl Reason {
    /// The error of a list with such a value.
    pub fn error(self) -> Error
        ensures { result ≡ error_of self }
    {
        match self {
            Reason::OutOfRange | Reason::NoAddress | Reason::EmptyId => Error::IllegalValue,
            _ => Error::Malformed,
        }
    }
}

/// How far the fields of a value were read.
#[derive(Clone, Copy, Debug, PartialEq, Eq)]
pub struct Walked {
    /// How many fields come before the one at fault, which has this index; how many there are if none is at fault.
    /// Bytes after the last field have the index after that field's.
    pub count: usize,
    /// Where the field at fault begins; or where the value ends.
    pub end: usize,
    /// Why the value isn't valid; `None` if it is.
    pub fault: Option<Reason>,
    /// How many bytes of the field at fault come before the bytes that can't be read: 1 in an id after its length.
    pub inside: usize,
    /// How many numbers these are.
    pub numbers: u64,
}

// What a field that can't be read has before the bytes at fault, in bytes and numbers, and why.
#[derive(Clone, Copy, Debug, PartialEq, Eq)]
pub(crate) struct Stop {
    pub(crate) inside: usize,
    pub(crate) numbers: u64,
    pub(crate) reason: Reason,
}

impl Stop {
    // At the beginning of the field.
    fn here(reason: Reason) -> Stop
        ensures { result ≡ record { inside = 0; numbers = 0; reason = reason } }
    {
        Stop {
            inside: 0,
            numbers: 0,
            reason,
        }
    }
}

fn read_number(bytes: &[u8]) -> Result<(u64, &[u8]), Stop>
    ensures ok { IfOk result (λ x. Takes (λ front. IsField Kind.Varint x.0 front x.1.now) bytes.now x.1.now) }
    ensures err { IfErr result (Stops Kind.Varint bytes.now) }
{
    match split_var(bytes) {
        Ok(read) => Ok(read),
        Err(_) => Err(Stop::here(Reason::UnexpectedEnd)),
    }
}

fn read_port(bytes: &[u8]) -> Result<(u64, &[u8]), Stop>
    ensures ok { IfOk result (λ x. Takes (λ front. IsField Kind.Port x.0 front x.1.now) bytes.now x.1.now) }
    ensures err { IfErr result (Stops Kind.Port bytes.now) }
{
    let mut rest = bytes;
    match u16::decode(&mut rest) {
        Ok(port) => Ok((u64::from(port), rest)),
        Err(_) => Err(Stop::here(Reason::UnexpectedEnd)),
    }
}

fn read_ip4(bytes: &[u8]) -> Result<(u64, &[u8]), Stop>
    ensures ok { IfOk result (λ x. Takes (λ front. IsField Kind.Ip4 x.0 front x.1.now) bytes.now x.1.now) }
    ensures err { IfErr result (Stops Kind.Ip4 bytes.now) }
{
    let mut rest = bytes;
    match Ipv4Addr::decode(&mut rest) {
        Ok(_) => Ok((4, rest)),
        Err(_) => Err(Stop::here(Reason::UnexpectedEnd)),
    }
}

fn read_ip6(bytes: &[u8]) -> Result<(u64, &[u8]), Stop>
    ensures ok { IfOk result (λ x. Takes (λ front. IsField Kind.Ip6 x.0 front x.1.now) bytes.now x.1.now) }
    ensures err { IfErr result (Stops Kind.Ip6 bytes.now) }
{
    let mut rest = bytes;
    match Ipv6Addr::decode(&mut rest) {
        Ok(_) => Ok((16, rest)),
        Err(_) => Err(Stop::here(Reason::UnexpectedEnd)),
    }
}

// Sixteen bytes.
fn read_token(bytes: &[u8]) -> Result<(u64, &[u8]), Stop>
    ensures ok { IfOk result (λ x. Takes (λ front. IsField Kind.Bytes16 x.0 front x.1.now) bytes.now x.1.now) }
    ensures err { IfErr result (Stops Kind.Bytes16 bytes.now) }
{
    if bytes.len() < RESET_TOKEN_SIZE {
        return Err(Stop::here(Reason::UnexpectedEnd));
    }
    Ok((16, &bytes[RESET_TOKEN_SIZE..]))
}

// An id after its length.
fn read_long_id(bytes: &[u8]) -> Result<(u64, &[u8]), Stop>
    ensures ok { IfOk result (λ x. Takes (λ front. IsField Kind.LongId x.0 front x.1.now) bytes.now x.1.now) }
    ensures err { IfErr result (Stops Kind.LongId bytes.now) }
{
    let Some((n, rest)) = bytes.split_first() else {
        return Err(Stop::here(Reason::UnexpectedEnd));
    };
    let n = usize::from(*n);
    if n > MAX_CID_SIZE {
        return Err(Stop::here(Reason::LongId));
    }
    if rest.len() < n {
        return Err(Stop {
            inside: 1,
            numbers: 1,
            reason: Reason::UnexpectedEnd,
        });
    }
    Ok((n as u64, &rest[n..]))
}

// An id that is all of the bytes.
fn read_id(bytes: &[u8]) -> Result<(u64, &[u8]), Stop>
    ensures ok { IfOk result (λ x. Takes (λ front. IsField Kind.Id x.0 front x.1.now) bytes.now x.1.now) }
    ensures err { IfErr result (Stops Kind.Id bytes.now) }
{
    if bytes.len() > MAX_CID_SIZE {
        return Err(Stop::here(Reason::LongId));
    }
    Ok((bytes.len() as u64, &bytes[bytes.len()..]))
}

fn read_rest(bytes: &[u8]) -> (u64, &[u8])
    ensures { Takes (λ front. IsField Kind.Rest result.0 front result.1.now) bytes.now result.1.now }
{
    (bytes.len() as u64, &bytes[bytes.len()..])
}

// A field of any kind: its number, and what follows it.
fn read_field(kind: Kind, bytes: &[u8]) -> Result<(u64, &[u8]), Stop>
    ensures ok { IfOk result (λ x. Takes (λ front. IsField kind x.0 front x.1.now) bytes.now x.1.now) }
    ensures err { IfErr result (Stops kind bytes.now) }
{
    match kind {
        Kind::Varint => read_number(bytes),
        Kind::Port => read_port(bytes),
        Kind::Ip4 => read_ip4(bytes),
        Kind::Ip6 => read_ip6(bytes),
        Kind::Bytes16 => read_token(bytes),
        Kind::LongId => read_long_id(bytes),
        Kind::Id => read_id(bytes),
        Kind::Rest => Ok(read_rest(bytes)),
    }
}

// Reads the fields in a row, of which the first has this index and begins at this offset, and stores their spans from
// that index on.
pub(crate) fn walk(
    kinds: &[Kind],
    index: usize,
    start: usize,
    bytes: &[u8],
    room: &mut [Span],
) -> Walked
    requires fits { start + length bytes.now < 2 ^ 63 }
    requires few { index + length kinds.now < 2 ^ 32 }
    ensures ok { result.fault ≡ None → HasFields index start kinds.now bytes.now room.old room.new result }
    ensures err { IfSome result.fault (λ reason. StopsIn index start kinds.now bytes.now room.old room.new result) }
{
    let Some((kind, others)) = kinds.split_first() else {
        return Walked {
            count: index,
            end: start,
            fault: None,
            inside: 0,
            numbers: 0,
        };
    };
    match read_field(*kind, bytes) {
        Ok((number, rest)) => {
            let end = start + bytes.len().saturating_sub(rest.len());
            let span = Span {
                field: index,
                start,
                end,
                number,
            };
            put(room, index, span);
            walk(others, index + 1, end, rest, room)
        }
        Err(stop) => Walked {
            count: index,
            end: start,
            fault: Some(stop.reason),
            inside: stop.inside,
            numbers: stop.numbers,
        },
    }
}
