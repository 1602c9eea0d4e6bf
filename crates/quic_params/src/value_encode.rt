//! Writes the values of parameters (RFC 9000, section 18.2).
ghost use Rattle.std.specs.Prelude.{◌≡◌, ◌++◌, ◌≤◌, length};
ghost use Rattle.std.specs.Net.Addr.{ipv4_octets, ipv6_octets};
ghost use Rattle.std.specs.Net.Socket.{v4_ip, v4_port, v6_ip, v6_port};
ghost use Rattle.quic_base.specs.ConnectionId.{long_id};
ghost use Rattle.quic_base.specs.Number.{bytes_of};
ghost use Rattle.quic_base.specs.Writing.{WritesTo};
ghost use Rattle.quic_params.specs.Writing.{encoding, v4_bytes, v6_bytes};

use crate::value::{PreferredAddress, Value};
use bytes::BufMut;
use quic_base::coding::{BufMutExt, Codec, NoRoom};
use quic_base::ids::{ConnectionId, ResetToken};
use std::net::{SocketAddrV4, SocketAddrV6};

// Bytes as they are. Here and below `NoRoom` is returned only if the spare room is less than what is to be written;
// then a prefix of that may have been written.
pub(crate) fn write_bytes<W: BufMut>(bytes: &[u8], out: &mut W) -> Result<(), NoRoom>
    ensures { WritesTo W.written W.spare bytes.now out.old out.new result }
{
    match out.put_slice(bytes) {
        Ok(()) => Ok(()),
        Err(_) => Err(NoRoom),
    }
}

// An address of IPv4 and its port, or zeros.
fn write_v4<W: BufMut>(address: Option<SocketAddrV4>, out: &mut W) -> Result<(), NoRoom>
    ensures { WritesTo W.written W.spare (v4_bytes address) out.old out.new result }
{
    match address {
        Some(address) => write_socket_v4(address, out),
        None => write_bytes(&[0; 6], out),
    }
}

fn write_socket_v4<W: BufMut>(address: SocketAddrV4, out: &mut W) -> Result<(), NoRoom>
    ensures { WritesTo W.written W.spare (ipv4_octets (v4_ip address) ++ bytes_of 2 (v4_port address))
        out.old out.new result }
{
    write_ip_v4(address, out)?;
    write_u16(address.port(), out)
}

fn write_ip_v4<W: BufMut>(address: SocketAddrV4, out: &mut W) -> Result<(), NoRoom>
    ensures { WritesTo W.written W.spare (ipv4_octets (v4_ip address)) out.old out.new result }
{
    write_bytes(&address.ip().octets(), out)
}

// An address of IPv6 and its port, or zeros.
fn write_v6<W: BufMut>(address: Option<SocketAddrV6>, out: &mut W) -> Result<(), NoRoom>
    ensures { WritesTo W.written W.spare (v6_bytes address) out.old out.new result }
{
    match address {
        Some(address) => write_socket_v6(address, out),
        None => write_bytes(&[0; 18], out),
    }
}

fn write_socket_v6<W: BufMut>(address: SocketAddrV6, out: &mut W) -> Result<(), NoRoom>
    ensures { WritesTo W.written W.spare (ipv6_octets (v6_ip address) ++ bytes_of 2 (v6_port address))
        out.old out.new result }
{
    write_ip_v6(address, out)?;
    write_u16(address.port(), out)
}

fn write_ip_v6<W: BufMut>(address: SocketAddrV6, out: &mut W) -> Result<(), NoRoom>
    ensures { WritesTo W.written W.spare (ipv6_octets (v6_ip address)) out.old out.new result }
{
    write_bytes(&address.ip().octets(), out)
}

// Writes one byte.
pub(crate) fn write_u8<W: BufMut>(x: u8, out: &mut W) -> Result<(), NoRoom>
    ensures { WritesTo W.written W.spare (bytes_of 1 x) out.old out.new result }
{
    out.write(x)
}

// Four bytes, the highest one first.
pub(crate) fn write_u32<W: BufMut>(x: u32, out: &mut W) -> Result<(), NoRoom>
    ensures { WritesTo W.written W.spare (bytes_of 4 x) out.old out.new result }
{
    out.write(x)
}

// Eight bytes, the highest one first.
pub(crate) fn write_u64<W: BufMut>(x: u64, out: &mut W) -> Result<(), NoRoom>
    ensures { WritesTo W.written W.spare (bytes_of 8 x) out.old out.new result }
{
    out.write(x)
}

// Two bytes, the higher one first.
pub(crate) fn write_u16<W: BufMut>(x: u16, out: &mut W) -> Result<(), NoRoom>
    ensures { WritesTo W.written W.spare (bytes_of 2 x) out.old out.new result }
{
    out.write(x)
}

// An id after its length, and a token.
fn write_id_and_token<W: BufMut>(
    id: &ConnectionId,
    token: &ResetToken,
    out: &mut W,
) -> Result<(), NoRoom>
    ensures { WritesTo W.written W.spare (long_id id.now ++ token.now) out.old out.new result }
{
    write_long_id(id, out)?;
    write_bytes(token.as_slice(), out)
}

fn write_long_id<W: BufMut>(id: &ConnectionId, out: &mut W) -> Result<(), NoRoom>
    ensures { WritesTo W.written W.spare (long_id id.now) out.old out.new result }
{
    id.encode_long(out)
}

// All fields after the address of IPv4.
fn write_after_v4<W: BufMut>(address: &PreferredAddress, out: &mut W) -> Result<(), NoRoom>
    ensures { WritesTo W.written W.spare (v6_bytes address.now.address_v6
        ++ (long_id address.now.connection_id ++ address.now.stateless_reset_token)) out.old out.new result }
{
    write_v6(address.address_v6, out)?;
    write_id_and_token(&address.connection_id, &address.stateless_reset_token, out)
}

impl PreferredAddress {
    /// Appends the value of the parameter: both addresses with their ports, zeros for an absent one, the id after
    /// its length, and the token (RFC 9000, section 18.2). Returns `NoRoom` only if the spare room is less
    /// than that: the buffer then keeps its contents, and may have a prefix of the value after them.
    pub fn encode<W: BufMut>(&self, out: &mut W) -> Result<(), NoRoom>
        ensures { WritesTo W.written W.spare (encoding (Value.Address self.now)) out.old out.new result }
    {
        write_v4(self.address_v4, out)?;
        write_after_v4(self, out)
    }

    // How many bytes that is.
    pub(crate) fn encoded_len(&self) -> usize
        ensures value { result ≡ length (encoding (Value.Address self.now)) }
        ensures bound { result ≤ 61 }
    {
        let v4 = v4_len(self.address_v4);
        let v6 = v6_len(self.address_v6);
        let id = self.connection_id.as_slice().len();
        let token = self.stateless_reset_token.as_slice().len();
        v4 + v6 + 1 + id + token
    }
}

// How many bytes these are.
fn len_of(bytes: &[u8]) -> usize
    ensures { result ≡ length bytes.now }
{
    bytes.len()
}

// How many bytes an address and a port of IPv4 are.
#[tactic(auto, using(crate::proofs::Written::widths))]
fn v4_len(address: Option<SocketAddrV4>) -> usize
    ensures value { result ≡ length (v4_bytes address) }
    ensures bound { result ≡ 6 }
{
    if let Some(address) = address {
        let octets: [u8; 4] = address.ip().octets();
        return len_of(&octets) + 2;
    }
    6
}

// How many those of IPv6 are.
#[tactic(auto, using(crate::proofs::Written::widths))]
fn v6_len(address: Option<SocketAddrV6>) -> usize
    ensures value { result ≡ length (v6_bytes address) }
    ensures bound { result ≡ 18 }
{
    if let Some(address) = address {
        let octets: [u8; 16] = address.ip().octets();
        return len_of(&octets) + 2;
    }
    18
}
