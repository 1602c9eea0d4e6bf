//! Removes header protection (RFC 9001, section 5.4).
ghost use Rattle.std.specs.Prelude.{◌≡◌, ◌≤◌, ◌<◌, ◌/◌, ◌%◌, ◌++◌, length, take, drop, IfOk, IfErr, IsTrue, IsSome, IsNone, IfSome, true, false, nat_eq, slice_index, slice_range};
ghost use Rattle.quic_crypto.specs.Keys.{HasSample};
ghost use Rattle.quic_header_decode.specs.Headers.{IsUnfinished, IsNumberIn};
ghost use Rattle.quic_header_decode.specs.Headers.{is_protected, IsOpened, IsOpenedBy};
ghost use Rattle.quic_header_decode.specs.Refusal.{refusal_of, NoMemory};

use crate::cut::PartialDecode;
use crate::decode_error::PacketDecodeError;
use crate::packet::Packet;
use crate::protected::{ProtectedHeader, ProtectedInitialHeader};
use bytes::{Bytes, BytesMut};
use quic_base::ids::ConnectionId;
use quic_crypto::crypto::HeaderKey;
use quic_crypto::packet_number::PacketNumber;
use quic_header_encode::header::{Header, InitialHeader};
use quic_header_encode::long_type::LongType;
use std::alloc::AllocError;

impl PartialDecode {
    /// Removes the protection of the packet's header, and splits the packet after the header, which ends with the
    /// packet number (RFC 9001, section 5.4). The error is `InvalidHeader("packet too short to extract header
    /// protection sample")` exactly when there are fewer than four bytes and the sample from the number on; any other
    /// error is `OutOfMemory`. A Retry or version negotiation has no protection: it needs no key, and is returned
    /// unchanged. The caller must pass a key for other packets, which are those with a `space()`.
    pub fn finish<H: HeaderKey>(self, key: Option<&H>) -> Result<Packet, PacketDecodeError>
        requires { IsTrue (is_protected self.head) → IsSome key }
        ensures opened { IfOk result
            (λ packet. IsOpened self.head self.header_end packet.header (packet.header_data ++ packet.payload.items)
            (length packet.header_data)) }
        ensures plain { IfOk result (λ packet. is_protected self.head ≡ false
            → packet.header_data ++ packet.payload.items ≡ self.bytes) }
        ensures unprotected { IfOk result (λ packet. IfSome key.entry (λ k. IsTrue (is_protected self.head)
            → packet.header_data ++ packet.payload.items ≡ H.unprotected k.now self.header_end self.bytes)) }
        ensures sample { IfOk result (λ _. IfSome key.entry (λ k. IsTrue (is_protected self.head)
            → HasSample (H.sample_len k.now) self.header_end self.bytes)) }
        ensures refused { IfErr result (λ e. IfSome key.entry (λ k. IsTrue (is_protected self.head)
            → IsUnfinished (HasSample (H.sample_len k.now) self.header_end self.bytes) (refusal_of e))) }
        ensures refused_plain { IfErr result (λ e. is_protected self.head ≡ false → refusal_of e ≡ NoMemory) }
    {
        if self.space().is_some() {
            self.finish_protected(key.unwrap())
        } else {
            self.finish_plain()
        }
    }

    /// Does what `finish` does for a packet that has protection. The caller must ensure that it has a `space()`.
    pub fn finish_protected<H: HeaderKey>(self, key: &H) -> Result<Packet, PacketDecodeError>
        requires { IsTrue (is_protected self.head) }
        ensures opened { IfOk result
            (λ packet. IsOpenedBy true self.head self.header_end packet.header
            (packet.header_data ++ packet.payload.items) (length packet.header_data)) }
        ensures unprotected { IfOk result
            (λ packet. packet.header_data ++ packet.payload.items ≡ H.unprotected key.now self.header_end self.bytes) }
        ensures sample { IfOk result (λ _. HasSample (H.sample_len key.now) self.header_end self.bytes) }
        ensures refused { IfErr result
            (λ e. IsUnfinished (HasSample (H.sample_len key.now) self.header_end self.bytes) (refusal_of e)) }
    {
        let PartialDecode {
            plain_header,
            mut packet,
            position,
        } = self;
        let Some(number) = decrypt_header(&mut packet, position, key) else {
            return Err(PacketDecodeError::InvalidHeader(
                "packet too short to extract header protection sample",
            ));
        };
        let end = position + number.len();
        let header = match plain_header {
            ProtectedHeader::Initial(head) => return finish_initial(packet, end, head, number),
            ProtectedHeader::Long {
                ty,
                dst_cid,
                src_cid,
                len: _,
                version,
            } => Header::Long {
                ty,
                dst_cid,
                src_cid,
                number,
                version,
            },
            ProtectedHeader::Short { spin, dst_cid } => Header::Short {
                spin,
                key_phase: packet.as_slice()[0] / 4 % 2 == 1,
                dst_cid,
                number,
            },
            _ => unreachable!(),
        };
        finish_with(packet, end, header)
    }

    /// Splits a Retry or version negotiation after its header, and returns it unchanged. The only error is
    /// `OutOfMemory`. The caller must ensure that the packet has no `space()`.
    pub fn finish_plain(self) -> Result<Packet, PacketDecodeError>
        requires { is_protected self.head ≡ false }
        ensures opened { IfOk result
            (λ packet. IsOpenedBy false self.head self.header_end packet.header
            (packet.header_data ++ packet.payload.items) (length packet.header_data)) }
        ensures plain { IfOk result (λ packet. packet.header_data ++ packet.payload.items ≡ self.bytes) }
        ensures refused { IfErr result (λ e. refusal_of e ≡ NoMemory) }
    {
        let PartialDecode {
            plain_header,
            packet,
            position,
        } = self;
        let header = match plain_header {
            ProtectedHeader::Retry {
                dst_cid,
                src_cid,
                version,
            } => Header::Retry {
                dst_cid,
                src_cid,
                version,
            },
            ProtectedHeader::VersionNegotiate {
                random,
                dst_cid,
                src_cid,
            } => Header::VersionNegotiate {
                random,
                src_cid,
                dst_cid,
            },
            _ => unreachable!(),
        };
        finish_with(packet, position, header)
    }
}

// Removes the protection of a header whose number begins at `at`, and reads the number. `None` if the packet is too
// short for a sample.
#[tactic(auto, using(crate::proofs::Finishes::number_at_place))]
fn decrypt_header<H: HeaderKey>(packet: &mut BytesMut, at: usize, key: &H) -> Option<PacketNumber>
    requires after_first { 0 < at }
    requires within { at ≤ length packet.old.items }
    ensures found { IfSome result (λ number. HasSample (H.sample_len key.now) at packet.old.items
        × (packet.new.items ≡ H.unprotected key.now at packet.old.items)
        × IsNumberIn number at packet.new.items) }
    ensures refused { IsNone result → HasSample (H.sample_len key.now) at packet.old.items → ⊥ }
{
    let left = packet.len() - at;
    if left < 4 || left - 4 < key.sample_size() {
        return None;
    }
    key.decrypt(at, packet.as_mut_slice());
    let count = PacketNumber::decode_len(packet.as_slice()[0]);
    let mut rest = &packet.as_slice()[at..];
    PacketNumber::decode(count, &mut rest).ok()
}

// A packet whose header ends at `end`.
fn finish_with(packet: BytesMut, end: usize, header: Header) -> Result<Packet, PacketDecodeError>
    requires { end ≤ length packet.items }
    ensures header { IfOk result (λ x. x.header ≡ header) }
    ensures whole { IfOk result (λ x. x.header_data ++ x.payload.items ≡ packet.items) }
    ensures len { IfOk result (λ x. length x.header_data ≡ end) }
    ensures err { IfErr result (λ e. refusal_of e ≡ NoMemory) }
{
    let Ok((header_data, payload)) = split_header(packet, end) else {
        return Err(PacketDecodeError::OutOfMemory);
    };
    Ok(Packet {
        header,
        header_data,
        payload,
    })
}

// Splits a packet after its header.
fn split_header(mut packet: BytesMut, end: usize) -> Result<(Bytes, BytesMut), AllocError>
    requires { end ≤ length packet.items }
    ensures head { IfOk result (λ x. x.0 ≡ take end packet.items) }
    ensures rest { IfOk result (λ x. x.1.items ≡ drop end packet.items) }
{
    let head = packet.freeze_to(end)?;
    Ok((head, packet))
}

// An Initial packet, whose token is a part of its header.
fn finish_initial(
    packet: BytesMut,
    end: usize,
    head: ProtectedInitialHeader,
    number: PacketNumber,
) -> Result<Packet, PacketDecodeError>
    requires room { end ≤ length packet.items }
    requires order { head.token_pos.start ≤ head.token_pos.end }
    requires within { head.token_pos.end ≤ end }
    ensures opened { IfOk result (λ x. x.header ≡ Header.Initial (record {
      dst_cid = head.dst_cid;
      src_cid = head.src_cid;
      token = slice_range packet.items head.token_pos.start head.token_pos.end;
      number = number;
      version = head.version;
    })) }
    ensures whole { IfOk result (λ x. x.header_data ++ x.payload.items ≡ packet.items) }
    ensures len { IfOk result (λ x. length x.header_data ≡ end) }
    ensures err { IfErr result (λ e. refusal_of e ≡ NoMemory) }
{
    let ProtectedInitialHeader {
        dst_cid,
        src_cid,
        token_pos,
        len: _,
        version,
    } = head;
    let Ok((header_data, payload)) = split_header(packet, end) else {
        return Err(PacketDecodeError::OutOfMemory);
    };
    let Ok(token) = header_data.slice(token_pos.start..token_pos.end) else {
        return Err(PacketDecodeError::OutOfMemory);
    };
    Ok(Packet {
        header: Header::Initial(InitialHeader {
            dst_cid,
            src_cid,
            token,
            number,
            version,
        }),
        header_data,
        payload,
    })
}
