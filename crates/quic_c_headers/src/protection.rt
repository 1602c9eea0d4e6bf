//! Applies and removes header protection, with masks that the caller makes (RFC 9001, section 5.4).
ghost use Rattle.std.specs.Prelude.{◌≡◌, ◌⊎◌, ◌↔◌, ◌<◌, ◌≤◌, ◌+◌, ◌^◌, ◌++◌, ℕ, pos, length, take, drop, slice_index, slice_set, IsTrue};
ghost use Rattle.quic_crypto.specs.Keys.{number_len};
ghost use Rattle.quic_crypto.specs.Masks.{masked_packet, unmasked, unmasked_at, unmasked_first, HasNumber};
ghost use Rattle.quic_crypto.specs.PacketNumbers.{number_size};
ghost use Rattle.quic_header_encode.specs.Writing.{with_len, TakesLen};
ghost use Rattle.quic_c_headers.specs.Protection.{GivesNumber, StandsAt};
ghost use Rattle.quic_results.specs.Results.{failed};

use quic_crypto::packet_number::PacketNumber;
use quic_header_encode::store::set_len;
use quic_results::results::Failure;

// Applies a mask to the first byte: to five bits in a short header, to four in a long one.
#[inline(always)]
fn mask_first(packet: &mut [u8], mask: &[u8; 5]) -> u8
    requires { 0 < length packet.old }
    ensures first { result ≡ unmasked_first mask.now (slice_index packet.old 0) }
    ensures put { packet.new ≡ slice_set packet.old 0 result }
{
    let bits = if packet[0] < 0x80 {
        mask[0] % 32
    } else {
        mask[0] % 16
    };
    let first = packet[0] ^ bits;
    packet[0] = first;
    first
}

// Applies a mask to the bytes of the number, which begins at `at`.
#[inline(always)]
fn mask_number(packet: &mut [u8], at: usize, mask: &[u8; 5], count: usize)
    requires inside { at + 4 ≤ length packet.old }
    requires some { 1 ≤ count }
    requires few { count ≤ 4 }
    ensures put { packet.new ≡ unmasked_at at mask.now count packet.old }
    ensures len { length packet.new ≡ length packet.old }
{
    packet[at] ^= mask[1];
    if count >= 2 {
        packet[at + 1] ^= mask[2];
    }
    if count >= 3 {
        packet[at + 2] ^= mask[3];
    }
    if count >= 4 {
        packet[at + 3] ^= mask[4];
    }
}

// Removes the header protection of a packet whose number begins at `at`, and returns the truncated number.
#[inline(always)]
fn unmask(packet: &mut [u8], at: usize, mask: &[u8; 5]) -> PacketNumber
    requires { HasNumber at (length packet.old) }
    ensures put { packet.new ≡ unmasked at mask.now packet.old }
    ensures size { number_size result ≡ number_len (unmasked_first mask.now (slice_index packet.old 0)) }
    ensures stands { StandsAt result at packet.new }
{
    let count = PacketNumber::decode_len(mask_first(packet, mask));
    mask_number(packet, at, mask, count);
    let mut rest = &packet[at..];
    let Ok(written) = PacketNumber::decode(count, &mut rest) else {
        unreachable!()
    };
    written
}

// Whether a number of up to four bytes can begin at an offset after the first byte.
#[inline(always)]
fn has_number(packet: &[u8], place: usize) -> bool
    ensures { IsTrue result ↔ HasNumber place (length packet.now) }
{
    packet.len() >= 4 && place != 0 && place <= packet.len() - 4
}

// Removes the header protection of a packet whose number begins at `place`, stores the whole number, and returns how
// many bytes it has.
#[inline(always)]
fn open_header(
    packet: &mut [u8],
    place: usize,
    mask: &[u8; 5],
    expected: u64,
    number: &mut u64,
) -> i32
    requires there { HasNumber place (length packet.old) }
    requires small { expected < 2 ^ 62 }
    ensures { (count : ℕ) × (result ≡ pos count)
        × GivesNumber place mask.now expected packet.old packet.new number.new count }
{
    let written = unmask(packet, place, mask);
    *number = written.expand(expected);
    written.len() as i32
}

/// Removes the header protection of a packet whose number begins at `place`, with the mask that the caller made from
/// the sample (RFC 9001, section 5.4.1). It stores the whole number, which follows from the `expected` one (RFC 9000,
/// appendix A.3), and returns how many bytes the number has: the payload begins after them. It returns `Number` exactly
/// when `expected` is 2^62 or more; else `PacketSmall` exactly when `place` is 0 or the packet has fewer than four
/// bytes from there on. Nothing changes then. Otherwise only the low bits of the first byte, five in a short header and
/// four in a long one, and the number's bytes change.
#[unsafe(no_mangle)]
pub extern "C" fn quic_wire_unprotect_(
    packet: &mut [u8],
    place: usize,
    mask: &[u8; 5],
    expected: u64,
    number: &mut u64,
) -> i32
    ensures opened { (result ≡ failed Failure.PacketSmall) ⊎ (result ≡ failed Failure.Number)
        ⊎ ((count : ℕ) × (result ≡ pos count)
        × GivesNumber place mask.now expected packet.old packet.new number.new count) }
    ensures short { (result ≡ failed Failure.PacketSmall) ↔ ((expected < 2 ^ 62) × (HasNumber place (length packet.old) → ⊥)) }
    ensures invalid { (result ≡ failed Failure.Number) ↔ (2 ^ 62 ≤ expected) }
    ensures same { (result ≡ failed Failure.PacketSmall) ⊎ (result ≡ failed Failure.Number) → (packet.new ≡ packet.old) × (number.new ≡ number.old) }
{
    if expected >= 1 << 62 {
        return Failure::Number.number();
    }
    if !has_number(packet, place) {
        return Failure::PacketSmall.number();
    }
    open_header(packet, place, mask, expected, number)
}

/// The same for a packet that doesn't change. The bytes before `place` and the four from there on are copied to the
/// front of `dest`, and the protection is removed there. It fails as `quic_wire_unprotect_` does; else it returns
/// `NoRoom` exactly when `dest` has fewer than these bytes. Nothing changes after a failure.
#[unsafe(no_mangle)]
pub extern "C" fn quic_wire_unprotect_copy_(
    packet: &[u8],
    place: usize,
    mask: &[u8; 5],
    expected: u64,
    dest: &mut [u8],
    number: &mut u64,
) -> i32
    ensures opened { (result ≡ failed Failure.PacketSmall) ⊎ (result ≡ failed Failure.Number)
        ⊎ (result ≡ failed Failure.NoRoom) ⊎ ((count : ℕ) × (result ≡ pos count)
        × GivesNumber place mask.now expected (take (place + 4) packet.now ++ drop (place + 4) dest.old) dest.new
        number.new count) }
    ensures short { (result ≡ failed Failure.PacketSmall)
        ↔ ((expected < 2 ^ 62) × (HasNumber place (length packet.now) → ⊥)) }
    ensures invalid { (result ≡ failed Failure.Number) ↔ (2 ^ 62 ≤ expected) }
    ensures room { (result ≡ failed Failure.NoRoom)
        ↔ ((expected < 2 ^ 62) × HasNumber place (length packet.now) × (length dest.old < place + 4)) }
    ensures same { ((count : ℕ) × (result ≡ pos count)) ⊎ ((dest.new ≡ dest.old) × (number.new ≡ number.old)) }
{
    if expected >= 1 << 62 {
        return Failure::Number.number();
    }
    if !has_number(packet, place) {
        return Failure::PacketSmall.number();
    }
    let end = place + 4;
    if dest.len() < end {
        return Failure::NoRoom.number();
    }
    dest[..end].copy_from_slice(&packet[..end]);
    open_header(dest, place, mask, expected, number)
}

/// Applies header protection to a packet whose payload is sealed and whose number begins at `place`, with the mask that
/// the caller made from the sample (RFC 9001, section 5.4.1), and returns how many bytes the number has. It returns
/// `PacketSmall` exactly when `place` is 0 or the packet has fewer than four bytes from there on; nothing changes then.
/// Removing the protection with the same mask restores the bytes.
#[unsafe(no_mangle)]
pub extern "C" fn quic_wire_protect_(packet: &mut [u8], place: usize, mask: &[u8; 5]) -> i32
    ensures answers { (result ≡ failed Failure.PacketSmall) ⊎ (result ≡ pos (number_len (slice_index packet.old 0))) }
    ensures protected { (result ≡ failed Failure.PacketSmall) ⊎ (packet.new ≡ masked_packet place mask.now packet.old) }
    ensures back { (result ≡ failed Failure.PacketSmall) ⊎ (unmasked place mask.now packet.new ≡ packet.old) }
    ensures short { (result ≡ failed Failure.PacketSmall) ↔ (HasNumber place (length packet.old) → ⊥) }
    ensures same { result ≡ failed Failure.PacketSmall → packet.new ≡ packet.old }
{
    if !has_number(packet, place) {
        return Failure::PacketSmall.number();
    }
    let count = PacketNumber::decode_len(packet[0]);
    mask_first(packet, mask);
    mask_number(packet, place, mask, count);
    count as i32
}

/// Sets the length in the header of a packet whose number begins at `place` to the count of bytes from there on (RFC
/// 9000, section 17.2). The length is in the `length_len` bytes before `place`: 1, 2, 4 or 8. It returns 0, or `Length`
/// exactly when `length_len` is another number, the packet has no such offset, or the count doesn't fit. Nothing
/// changes then.
#[unsafe(no_mangle)]
pub extern "C" fn quic_wire_set_len_(packet: &mut [u8], place: usize, length_len: u32) -> i32
    ensures answers { (result ≡ pos 0) ⊎ (result ≡ failed Failure.Length) }
    ensures set { result ≡ pos 0 → packet.new ≡ with_len length_len place packet.old }
    ensures taken { (result ≡ pos 0) ↔ TakesLen length_len place (length packet.old) }
    ensures same { (result ≡ pos 0) ⊎ (packet.new ≡ packet.old) }
{
    if set_len(packet, place, length_len as usize) {
        0
    } else {
        Failure::Length.number()
    }
}
