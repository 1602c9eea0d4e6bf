//! Version negotiation packets, whose ids may have up to 255 bytes (RFC 8999, section 6; RFC 9000, section 17.2.1).
ghost use Rattle.std.specs.Prelude.{◌≡◌, ◌+◌, ◌*◌, ◌^◌, ◌<◌, ◌≤◌, ◌⊎◌, ◌↔◌, ◌++◌, ℕ, List, length, take, drop, pos, Ok, IfSome, MatchOption};
ghost use Rattle.quic_c_headers.specs.Reading.{negotiation_bytes, negotiation_words, IsNegotiation};
ghost use Rattle.quic_versions.specs.Versions.{version_bytes};
ghost use Rattle.quic_c_headers.specs.Reading.{Reported};
ghost use Rattle.quic_results.specs.Results.{failed};

use crate::words::CHeader;
use crate::write::first_word;
use quic_base::coding::store_array;
use quic_header_encode::long_type::HeaderKind;
use quic_negotiation::ids::{ids_of, store_id};
use quic_results::results::Failure;
use quic_versions::store::store_versions;

/// Reads the header of the version negotiation at the front of a packet. Its ids have up to 255 bytes (RFC 8999,
/// section 6). The versions are the bytes after the header, up to the packet's end. It returns the packet's length,
/// with the header; `Kind` exactly when there is no such header: the highest bit of the first byte is clear, the
/// version isn't 0, or the bytes end within the ids; `Length` exactly when there are 2^32 bytes or more. `head` changes
/// only with the first. If both ids have at most 20 bytes, the header is the one that `quic_wire_header_read_` returns.
#[unsafe(no_mangle)]
pub extern "C" fn quic_wire_negotiation_read_(packet: &[u8], head: &mut CHeader) -> i64
    ensures returns { (result ≡ pos (length packet.now)) ⊎ (result ≡ failed Failure.Kind)
        ⊎ (result ≡ failed Failure.Length) }
    ensures invalid { (result ≡ failed Failure.Length) ↔ (2 ^ 32 ≤ length packet.now) }
    ensures read { result ≡ pos (length packet.now)
        → (dst src rest : List ℕ) × IsNegotiation packet.now dst src rest }
    ensures reported { result ≡ pos (length packet.now) → (dst src rest : List ℕ)
        → IsNegotiation packet.now dst src rest → head.new ≡ negotiation_words packet.now dst src }
    ensures none { result ≡ failed Failure.Kind → (dst src rest : List ℕ)
        → IsNegotiation packet.now dst src rest → ⊥ }
    ensures same { (result ≡ pos (length packet.now)) ⊎ (head.new ≡ head.old) }
    // It agrees with what is reported for headers of all kinds.
    ensures agrees { result ≡ pos (length packet.now) → head.new.dst_len ≤ 20 → head.new.src_len ≤ 20
        → (flags id_len : ℕ) (versions : List ℕ)
        → Reported flags id_len versions packet.now head.old (Ok (length packet.now)) head.new }
{
    if packet.len() > u32::MAX as usize {
        return i64::from(Failure::Length.number());
    }
    let Some((version, dst, src)) = ids_of(packet) else {
        return i64::from(Failure::Kind.number());
    };
    if version != 0 {
        return i64::from(Failure::Kind.number());
    }
    *head = CHeader {
        kind: 5,
        first: packet[0],
        dst_len: dst.len() as u8,
        src_len: src.len() as u8,
        version: 0,
        header_end: (7 + dst.len() + src.len()) as u32,
        end: packet.len() as u32,
        token: 0,
        token_len: 0,
        len: 0,
    };
    packet.len() as i64
}

// Stores the packet at the front, and returns how many bytes it has.
#[inline(always)]
fn store_packet(flags: u8, dst: &[u8], src: &[u8], versions: &[u32], dest: &mut [u8]) -> usize
    requires dst_few { length dst.now ≤ 255 }
    requires src_few { length src.now ≤ 255 }
    requires room { 7 + length dst.now + length src.now + 4 * length versions.now ≤ length dest.old }
    ensures end { result ≡ 7 + length dst.now + length src.now + 4 * length versions.now }
    ensures wrote { dest.new ≡ negotiation_bytes flags dst.now src.now versions.now ++ drop result dest.old }
{
    let at = store_array(dest, 0, [first_word(HeaderKind::VersionNegotiate, flags)]);
    let at = store_array(dest, at, [0; 4]);
    let at = store_id(dest, at, dst);
    let at = store_id(dest, at, src);
    store_versions(versions, dest, at)
}

/// Writes a version negotiation at the front of `dest` (RFC 9000, section 17.2.1): the first byte 0xc0, in which
/// `flags` inverts the seven low bits; version 0; the ids of the receiver and of the sender, each after its length; and
/// the versions. It returns 0 and how many bytes were written, and the bytes after those don't change; `NoRoom` and how
/// many are needed, if `dest` has fewer; `Length` exactly when an id has more than 255 bytes. `dest` changes only with
/// 0, and `written` doesn't change with `Length`.
#[unsafe(no_mangle)]
pub extern "C" fn quic_wire_negotiation_write_(
    flags: u8,
    dst: &[u8],
    src: &[u8],
    versions: &[u32],
    dest: &mut [u8],
    written: &mut usize,
) -> i32
    ensures returns { (result ≡ pos 0) ⊎ (result ≡ failed Failure.NoRoom) ⊎ (result ≡ failed Failure.Length) }
    ensures invalid { (result ≡ failed Failure.Length) ↔ ((255 < length dst.now) ⊎ (255 < length src.now)) }
    ensures wrote { result ≡ pos 0
        → dest.new ≡ negotiation_bytes flags dst.now src.now versions.now ++ drop written.new dest.old }
    ensures count { (result ≡ failed Failure.Length)
        ⊎ (written.new ≡ length (negotiation_bytes flags dst.now src.now versions.now)) }
    ensures room { result ≡ failed Failure.NoRoom
        → length dest.old < length (negotiation_bytes flags dst.now src.now versions.now) }
    ensures same { (result ≡ pos 0) ⊎ (dest.new ≡ dest.old) }
    ensures kept { result ≡ failed Failure.Length → written.new ≡ written.old }
    // It is read back.
    ensures again { result ≡ pos 0
        → IsNegotiation (take written.new dest.new) dst.now src.now (version_bytes versions.now) }
{
    if dst.len() > 255 || src.len() > 255 {
        return Failure::Length.number();
    }
    let needed = 7 + dst.len() + src.len() + 4 * versions.len();
    *written = needed;
    if dest.len() < needed {
        return Failure::NoRoom.number();
    }
    store_packet(flags, dst, src, versions, dest);
    0
}
