//! What is proved of callers of the exported functions. Their clauses are laws.
ghost use Rattle.std.specs.Prelude.{◌≡◌, ◌+◌, ◌<◌, ◌≤◌, ◌⊎◌, ◌↔◌, ◌^◌, ℕ, None, Some, drop, false, length, pos, take};
ghost use Rattle.quic_base.specs.One.{ReturnsOne};
ghost use Rattle.quic_c_headers.specs.Packets.{IsReturned, PacketAnswerBy, StandsFor};
ghost use Rattle.quic_c_headers.specs.Walks.{IsRow, StoresRow, placed_shown};
ghost use Rattle.quic_header_decode.specs.Datagram.{ArePackets};
ghost use Rattle.quic_header_decode.specs.Parsers.{fixed_parsed};
ghost use Rattle.quic_header_decode.specs.Places.{any_fixed};
ghost use Rattle.quic_header_decode.specs.Reading.{read_by};
ghost use Rattle.quic_header_decode.specs.Refusal.{Refusal};
ghost use Rattle.quic_header_decode.specs.Rfc.{IsRfcPacket, IsRfcRefused, RfcPacketAnswer, RfcRefusal};
ghost use Rattle.quic_header_decode.specs.declared.protected.ProtectedHeader.{ProtectedHeader};
ghost use Rattle.quic_results.specs.Results.{failed};

use crate::headers::quic_wire_header_read_;
use crate::laws::{no_flags, rfc_flags};
use crate::words::CHeader;
use quic_base::coding::are_bytes;
use quic_header_decode::laws::one_answer;
use quic_results::laws::distinct;
use quic_results::results::Failure;

// QUIC_WIRE_READ_RFC.
const READ_RFC: u32 = 0x3ef;

/// What a walk stored.
#[derive(Clone, Copy)]
pub struct Walked {
    /// How many headers it stored.
    pub count: usize,
    /// 0 if the datagram has no more packets; `NoRoom`; or what the last call returned.
    pub last: i64,
}

/// Reads the first header of a datagram with `QUIC_WIRE_READ_RFC`. It returns where the packet ends exactly if RFC 9000
/// allows that packet, and an error exactly if it is the first thing that RFC 9000 doesn't allow.
pub fn read_rfc(packet: &[u8], id_len: u32, versions: &[u32], head: &mut CHeader) -> i64
    ensures one { length packet.now < 2 ^ 32 → id_len ≤ 20
        → ReturnsOne (RfcPacketAnswer (any_fixed id_len versions.now) packet.now) (IsReturned packet.now result head.new) }
    ensures packet { length packet.now < 2 ^ 32 → id_len ≤ 20 → (end : ℕ)
        → (result ≡ pos end ↔ ((h : ProtectedHeader)
        × IsRfcPacket (any_fixed id_len versions.now) packet.now h head.new.header_end end)) }
    ensures refused { length packet.now < 2 ^ 32 → id_len ≤ 20 → (why : Failure)
        → (result ≡ failed why ↔ ((e : RfcRefusal) × StandsFor why e
        × IsRfcRefused (any_fixed id_len versions.now) packet.now e)) }
{
    rfc_flags();
    distinct();
    quic_wire_header_read_(packet, id_len, versions, READ_RFC, head)
}

/// Stores the headers of a datagram's packets, read by these flags: from its front on, until it ends, a call fails, or
/// there is no more room (RFC 9000, section 12.2). Then these are exactly the packets that the datagram has by the
/// flags. `Length` is as in `quic_wire_header_read_`.
pub fn walk_packets(
    datagram: &[u8],
    id_len: u32,
    versions: &[u32],
    flags: u32,
    heads: &mut [CHeader],
) -> Walked
    ensures one { length datagram.now < 2 ^ 32 → id_len ≤ 20
        → ReturnsOne (IsRow (PacketAnswerBy flags id_len versions.now) (length heads.old) datagram.now)
        (StoresRow datagram.now result.count result.last heads.new) }
    ensures invalid { (2 ^ 32 ≤ length datagram.now) ⊎ (20 < id_len) → result.last ≡ failed Failure.Length }
    // Only the headers that it stored change, and the one after them, which a call that fails may change.
    ensures kept { drop (result.count + 1) heads.new ≡ drop (result.count + 1) heads.old }
{
    are_bytes(datagram);
    let size = datagram.len();
    if size > u32::MAX as usize || id_len > 20 {
        return Walked {
            count: 0,
            last: i64::from(Failure::Length.number()),
        };
    }
    let mut start = 0;
    let mut count = 0;
    while count < heads.len() {
        let read = quic_wire_header_read_(
            &datagram[start..],
            id_len,
            versions,
            flags,
            &mut heads[count],
        );
        if read < 0 {
            return Walked { count, last: read };
        }
        count += 1;
        let end = read as usize;
        if end >= size - start {
            return Walked { count, last: 0 };
        }
        start += end;
    }
    Walked {
        count,
        last: i64::from(Failure::NoRoom.number()),
    }
}

/// The same with `QUIC_WIRE_READ_RFC`: these are exactly the packets that RFC 9000 allows.
pub fn walk_rfc(datagram: &[u8], id_len: u32, versions: &[u32], heads: &mut [CHeader]) -> Walked
    ensures one { length datagram.now < 2 ^ 32 → id_len ≤ 20
        → ReturnsOne (IsRow (RfcPacketAnswer (any_fixed id_len versions.now)) (length heads.old) datagram.now)
        (StoresRow datagram.now result.count result.last heads.new) }
    ensures invalid { (2 ^ 32 ≤ length datagram.now) ⊎ (20 < id_len) → result.last ≡ failed Failure.Length }
    ensures kept { drop (result.count + 1) heads.new ≡ drop (result.count + 1) heads.old }
{
    rfc_flags();
    walk_packets(datagram, id_len, versions, READ_RFC, heads)
}

/// The same without flags: these are exactly the packets that are cut from the datagram one after another, with the
/// fixed bit checked, up to its end, or up to bytes from which none is cut.
pub fn walk_plain(datagram: &[u8], id_len: u32, versions: &[u32], heads: &mut [CHeader]) -> Walked
    ensures one { length datagram.now < 2 ^ 32 → id_len ≤ 20
        → ReturnsOne (IsRow (PacketAnswerBy 0 id_len versions.now) (length heads.old) datagram.now)
        (StoresRow datagram.now result.count result.last heads.new) }
    ensures whole { length datagram.now < 2 ^ 32 → id_len ≤ 20 → result.last ≡ pos 0
        → ArePackets (read_by (fixed_parsed id_len) versions.now false) 0 datagram.now
        (placed_shown 0 datagram.now (take result.count heads.new)) None }
    ensures refused { length datagram.now < 2 ^ 32 → id_len ≤ 20 → (why : Failure) → result.last ≡ failed why
        → (why ≡ Failure.NoRoom) ⊎ ((e : Refusal) × ArePackets (read_by (fixed_parsed id_len) versions.now false) 0
        datagram.now (placed_shown 0 datagram.now (take result.count heads.new)) (Some e)) }
    ensures invalid { (2 ^ 32 ≤ length datagram.now) ⊎ (20 < id_len) → result.last ≡ failed Failure.Length }
    ensures kept { drop (result.count + 1) heads.new ≡ drop (result.count + 1) heads.old }
{
    no_flags();
    one_answer();
    distinct();
    are_bytes(datagram);
    walk_packets(datagram, id_len, versions, 0, heads)
}
