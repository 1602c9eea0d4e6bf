//! Reading the value of a parameter, which fills the bytes of its entry.
ghost use Rattle.std.specs.Prelude.{◌≡◌, ◌≢◌, ◌++◌, ◌<◌, ◌≤◌, ◌^◌, ℕ, List, length, IfOk, IfErr, IfSome, IsNone, MatchOption, OnOk};
ghost use Rattle.quic_base.specs.Varint.{Encodes, shortest_varint};
ghost use Rattle.quic_params.specs.Address.{IsAddress, IsV4, IsV6, AreAddressFields};
ghost use Rattle.quic_base.specs.Codec.{NoFront};
ghost use Rattle.quic_base.specs.Number.{IsNumber, IsOctets};
ghost use Rattle.std.specs.Net.Addr.{ipv4_octets, ipv6_octets};
ghost use Rattle.quic_params.specs.Record.{IsOfKind, Sets};
ghost use Rattle.quic_params.specs.Options.{kind_in};
ghost use Rattle.quic_params.specs.State.{PutsParameter};
ghost use Rattle.quic_params.specs.Table.{row_of};
ghost use Rattle.quic_params.specs.Value.{IsAddressAnswer, IsNoValue};

use crate::error::Error;
use crate::parameter::{Kind, TransportParameterId};
use crate::record::TransportParameters;
use crate::value::{PreferredAddress, Value};
use bytes::Buf;
use quic_base::coding::{BufExt, Codec};
use quic_base::ids::{ConnectionId, MAX_CID_SIZE, RESET_TOKEN_SIZE, ResetToken};
use quic_base::laws::encodings;
use quic_base::varint::VarInt;
use std::net::{Ipv4Addr, Ipv6Addr, SocketAddrV4, SocketAddrV6};

/// The number that all of the bytes encode, in any width: the value of a parameter that is an integer (RFC 9000,
/// sections 16 and 18.2). `None` if they encode none.
#[tactic(auto, using(crate::proofs::Values::numbers))]
pub fn value_number(bytes: &[u8]) -> Option<VarInt>
    ensures value { MatchOption result ((n : ℕ) → ¬ (Encodes n bytes.now)) (λ n. Encodes n bytes.now) }
    ensures bound { MatchOption result (Unit {0}) (λ n. n < 2 ^ 62) }
{
    let mut rest = bytes;
    let Ok(n) = rest.get_var() else {
        return None;
    };
    if rest.len() == 0 {
        Some(VarInt::from_u64_unchecked(n))
    } else {
        None
    }
}

// The number of which the bytes are the shortest encoding.
fn integer(bytes: &[u8]) -> Option<VarInt>
    ensures { MatchOption result ((n : ℕ) → n < 2 ^ 62 → bytes.now ≢ shortest_varint n)
        (λ n. (n < 2 ^ 62) × (bytes.now ≡ shortest_varint n)) }
{
    encodings();
    let n = value_number(bytes)?;
    if n.size() == bytes.len() {
        Some(n)
    } else {
        None
    }
}

impl TransportParameters {
    // Puts the value that the bytes encode into its field.
    #[tactic(auto, using(crate::proofs::Values::values))]
    pub(crate) fn decode_value(
        &mut self,
        id: TransportParameterId,
        kind: Kind,
        any_width: bool,
        bytes: &[u8],
    ) -> Result<(), Error>
        requires { kind ≡ (row_of id).kind }
        ensures ok { OnOk result (PutsParameter id (kind_in any_width kind) bytes.now self.old self.new) }
        ensures err { IfErr result (λ e. IsNoValue (kind_in any_width kind) bytes.now e) }
    {
        match kind {
            Kind::Integer(_) if !any_width => {
                let Some(n) = integer(bytes) else {
                    return Err(Error::Malformed);
                };
                self.set_number(id, n);
            }
            Kind::Integer(_) | Kind::Varint => {
                let Some(n) = value_number(bytes) else {
                    return Err(Error::Malformed);
                };
                self.set_number(id, n);
            }
            Kind::Flag if bytes.is_empty() => self.set_flag(id),
            Kind::Token => {
                let Some(token) = token(bytes) else {
                    return Err(Error::Malformed);
                };
                self.set_token(id, token);
            }
            Kind::Id if bytes.len() <= MAX_CID_SIZE => self.decode_cid(id, bytes),
            Kind::Address => match address_of(bytes) {
                Ok(address) => self.set_address(id, address),
                Err(e) => return Err(e),
            },
            Kind::Flag | Kind::Id | Kind::Skipped => return Err(Error::Malformed),
        }
        Ok(())
    }

    // Puts the connection id of these bytes into its field.
    #[inline(never)]
    fn decode_cid(&mut self, id: TransportParameterId, bytes: &[u8])
        requires kind { IsOfKind (row_of id).kind (Value.Id bytes.now) }
        requires short { length bytes.now ≤ MAX_CID_SIZE }
        ensures { Sets id (Value.Id bytes.now) self.old self.new }
    {
        self.set_cid(id, ConnectionId::new(bytes));
    }
}

// Sixteen bytes.
fn token(bytes: &[u8]) -> Option<ResetToken>
    ensures { MatchOption result (length bytes.now ≢ 16) (λ t. (bytes.now ≡ t) × (length t ≡ 16)) }
{
    if bytes.len() != RESET_TOKEN_SIZE {
        return None;
    }
    let mut token = [0; RESET_TOKEN_SIZE];
    token.copy_from_slice(bytes);
    Some(ResetToken::from(token))
}

// The address and port of IPv4, `None` if all is zero.
#[tactic(auto, using(crate::proofs::Hosts::v4_hosts))]
fn v4_of(ip: Ipv4Addr, port: u16) -> Option<SocketAddrV4>
    ensures { (i p : List ℕ) → IsOctets 4 (ipv4_octets ip) i → IsNumber 2 port p → IsV4 result (i ++ p) }
{
    if ip.is_unspecified() && port == 0 {
        return None;
    }
    Some(SocketAddrV4::new(ip, port))
}

// Those of IPv6, `None` if all is zero.
#[tactic(auto, using(crate::proofs::Hosts::v6_hosts))]
fn v6_of(ip: Ipv6Addr, port: u16) -> Option<SocketAddrV6>
    ensures { (i p : List ℕ) → IsOctets 16 (ipv6_octets ip) i → IsNumber 2 port p → IsV6 result (i ++ p) }
{
    if ip.is_unspecified() && port == 0 {
        return None;
    }
    Some(SocketAddrV6::new(ip, port, 0, 0))
}

// Reads the next sixteen bytes.
fn take_token<B: Buf>(buf: &mut B) -> Option<ResetToken>
    ensures some { IfSome result (λ t. (B.unread buf.old ≡ t ++ B.unread buf.new) × (length t ≡ 16)) }
    ensures none { IsNone result → length (B.unread buf.old) < 16 }
{
    if buf.remaining() < RESET_TOKEN_SIZE {
        return None;
    }
    let mut token = [0; RESET_TOKEN_SIZE];
    buf.copy_to_slice(&mut token);
    Some(ResetToken::from(token))
}

// The fields of a preferred address at the front, and how many bytes follow them.
#[tactic(auto, using(crate::proofs::Addresses::fields))]
fn fields_of(bytes: &[u8]) -> Option<(PreferredAddress, usize)>
    ensures some { IfSome result (λ x. (front rest : List ℕ) × (bytes.now ≡ front ++ rest) × AreAddressFields x.0 front
        × (length rest ≡ x.1)) }
    ensures none { IsNone result → (a : PreferredAddress) → NoFront (AreAddressFields a) bytes.now }
{
    let mut rest = bytes;
    let Ok(ip4) = Ipv4Addr::decode(&mut rest) else {
        return None;
    };
    let Ok(port4) = u16::decode(&mut rest) else {
        return None;
    };
    let Ok(ip6) = Ipv6Addr::decode(&mut rest) else {
        return None;
    };
    let Ok(port6) = u16::decode(&mut rest) else {
        return None;
    };
    let Some(connection_id) = ConnectionId::decode_long(&mut rest) else {
        return None;
    };
    let Some(stateless_reset_token) = take_token(&mut rest) else {
        return None;
    };
    let address = PreferredAddress {
        address_v4: v4_of(ip4, port4),
        address_v6: v6_of(ip6, port6),
        connection_id,
        stateless_reset_token,
    };
    Some((address, rest.len()))
}

// The preferred address that the bytes encode.
#[tactic(auto, using(crate::proofs::Addresses::addresses))]
fn address_of(bytes: &[u8]) -> Result<PreferredAddress, Error>
    ensures ok { IfOk result (λ a. IsAddress a bytes.now) }
    ensures err { IfErr result (λ e. IsNoValue Kind.Address bytes.now e) }
{
    let Some((address, left)) = fields_of(bytes) else {
        return Err(Error::Malformed);
    };
    if address.address_v4.is_none() && address.address_v6.is_none() {
        return Err(Error::IllegalValue);
    }
    if left != 0 {
        return Err(Error::Malformed);
    }
    Ok(address)
}

impl PreferredAddress {
    /// Reads the value of `preferred_address`, which fills the bytes (RFC 9000, section 18.2): `IllegalValue` if it has
    /// neither address, whatever follows, or an empty connection id; `Malformed` if the bytes are no such value. It
    /// allocates no memory.
    pub fn decode(bytes: &[u8]) -> Result<PreferredAddress, Error>
        ensures { IsAddressAnswer bytes.now result }
    {
        match address_of(bytes) {
            Ok(address) => {
                if address.connection_id.as_slice().is_empty() {
                    return Err(Error::IllegalValue);
                }
                Ok(address)
            }
            Err(e) => Err(e),
        }
    }
}
