//! Datagrams that are cut, and packets whose length is filled in: what callers learn from contracts and from the laws
//! of headers, for every lawful parser of ids and all lawful keys.
ghost use Rattle.std.specs.Prelude.{◌≡◌, ◌+◌, ◌-◌, ◌∷◌, [], ◌++◌, ◌≤◌, ℕ, true, IsTrue, IfSome, IsOk, OnOk, Contains, length, option_map, take, vec_capacity};
ghost use Rattle.quic_base.specs.Varint.{encoding_in};
ghost use Rattle.quic_header_encode.specs.Writing.{HasRoom, IsWritable, has_length, header_size, header_with, sealed_packet, size_in};
ghost use Rattle.quic_header_decode.specs.declared.protected.ProtectedHeader.{ProtectedHeader};
ghost use Rattle.quic_header_decode.specs.Grammar.{Cut};
ghost use Rattle.quic_header_decode.specs.Reading.{read_by};

use bytes::BytesMut;
use quic_base::coding::{NoRoom, are_bytes};
use quic_crypto::crypto::{HeaderKey, PacketKey};
use quic_header_decode::cut::PartialDecode;
use quic_header_decode::decode_error::PacketDecodeError;
use quic_header_decode::laws;
use quic_header_decode::parser::ConnectionIdParser;
use quic_header_encode::header::Header;
use quic_header_encode::laws::length_later;

// Cuts the first packet, and returns how many bytes it has.
fn cut_len<C: ConnectionIdParser>(
    datagram: BytesMut,
    parser: &C,
    versions: &[u32],
    grease: bool,
) -> Option<usize>
    ensures { IfSome result (λ len. (h : ProtectedHeader) × (end : ℕ)
        × Cut (read_by (C.parsed parser.now) versions.now grease) datagram.items h end len) }
{
    match PartialDecode::new(datagram, parser, versions, grease) {
        Ok((packet, _rest)) => Some(packet.len()),
        Err(_) => None,
    }
}

/// Cuts two datagrams of the same bytes, and returns whether both packets have the same length: they have, unless
/// memory runs out.
pub fn cut_twice<C: ConnectionIdParser>(
    one: BytesMut,
    other: BytesMut,
    parser: &C,
    versions: &[u32],
    grease: bool,
) -> Option<bool>
    requires { one.items ≡ other.items }
    ensures { IfSome result (λ same. same ≡ true) }
{
    laws::one_answer();
    are_bytes(one.as_slice());
    let first = cut_len(one, parser, versions, grease)?;
    let second = cut_len(other, parser, versions, grease)?;
    Some(first == second)
}

/// Cuts the first packet of a datagram that begins with the header of the client's first Initial packet in RFC 9001,
/// section A.2, and returns how many bytes the packet has: 1200. The caller must give version 1 as a known one, and a
/// datagram that is no shorter than the packet.
pub fn client_initial_len<C: ConnectionIdParser>(
    datagram: BytesMut,
    parser: &C,
    versions: &[u32],
    grease: bool,
) -> Option<usize>
    requires known { Contains versions.now 1 }
    requires header { take 18 datagram.items
        ≡ 0xc0 ∷ 0x00 ∷ 0x00 ∷ 0x00 ∷ 0x01 ∷ 0x08 ∷ 0x83 ∷ 0x94 ∷ 0xc8 ∷ 0xf0 ∷ 0x3e ∷ 0x51 ∷ 0x57 ∷ 0x08 ∷ 0x00 ∷ 0x00
        ∷ 0x44 ∷ 0x9e ∷ [] }
    requires whole { 1200 ≤ length datagram.items }
    ensures { IfSome result (λ len. len ≡ 1200) }
{
    laws::examples();
    laws::one_answer();
    are_bytes(datagram.as_slice());
    cut_len(datagram, parser, versions, grease)
}

/// Writes a header and its payload into an empty buffer, and then fills in the length, seals the payload by the number
/// and key of `crypto`, if there is one, and protects the header: on success, the packet is the same as if its header
/// had been written with its length from the start. It succeeds if the buffer has spare room for both. The caller must
/// ensure that the header can be written and has a length, and that the packet has the room that
/// `PartialEncode::finish` requires; the payload's last bytes are room for the tag.
pub fn packet_with_length<H: HeaderKey, P: PacketKey>(
    header: &Header,
    payload: &[u8],
    header_key: &H,
    crypto: Option<(u64, &P)>,
    out: &mut Vec<u8>,
) -> Result<(), NoRoom>
    requires empty { out.old.items ≡ [] }
    requires writable { IsWritable header.now }
    requires len { IsTrue (has_length header.now) }
    requires room { HasRoom (size_in header.now) true (header_size header.now) (H.sample_len header_key.now)
        (header_size header.now + length payload.now) }
    requires tag { IfSome crypto (λ c. P.tag_size c.1.now ≤ length payload.now) }
    ensures packet { OnOk result (out.new.items
        ≡ H.protected header_key.now (header_size header.now - size_in header.now)
        (sealed_packet (header_size header.now)
        (option_map (λ c. (P.tag_size c.1.now, P.sealed c.1.now c.0)) crypto.entry)
        (header_with (encoding_in 2 (size_in header.now + length payload.now)) header.now ++ payload.now))) }
    ensures spare { header_size header.now + length payload.now ≤ vec_capacity out.old → IsOk result }
{
    length_later();
    let partial = header.encode(out)?;
    out.extend_from_slice(payload)?;
    partial.finish(out.as_mut_slice(), header_key, crypto);
    Ok(())
}
