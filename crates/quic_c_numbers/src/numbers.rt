//! Varints and packet numbers.
ghost use Rattle.std.specs.Prelude.{◌≡◌, ◌+◌, ◌-◌, ◌*◌, ◌%◌, ◌^◌, ◌<◌, ◌≤◌, ◌⊎◌, ◌↔◌, ◌++◌, List, ℕ, length, take, drop, pos};
ghost use Rattle.quic_base.specs.Codec.{NoFront, Takes};
ghost use Rattle.quic_base.specs.Varint.{encoding_in, size, CanEncode, Encodes, IsWidth};
ghost use Rattle.quic_crypto.specs.PacketNumbers.{low_part, CanExpand, Expands, IsNumberLen, SizeFor};
ghost use Rattle.quic_base.specs.Number.{IsNumber, bytes_of};
ghost use Rattle.quic_results.specs.Results.{failed};

use quic_base::coding::store_array;
use quic_base::varint::{IN_EIGHT, IN_FOUR, IN_TWO, split_var, var_size};
use quic_crypto::packet_number::PacketNumber;
use quic_header_encode::fields::store_low;
use quic_results::results::Failure;

/// Reads the varint at the front of the bytes (RFC 9000, section 16), and returns how many bytes it has; 0 exactly when
/// the bytes end within it. `value` doesn't change then.
#[unsafe(no_mangle)]
pub extern "C" fn quic_wire_varint_read_(bytes: &[u8], value: &mut u64) -> usize
    ensures read { 0 < result → Takes (Encodes value.new) bytes.now (drop result bytes.now) }
    ensures within { result ≤ length bytes.now }
    ensures none { result ≡ 0 → ((v : ℕ) → NoFront (Encodes v) bytes.now) × (value.new ≡ value.old) }
{
    match split_var(bytes) {
        Ok((number, rest)) => {
            *value = number;
            bytes.len() - rest.len()
        }
        Err(_) => 0,
    }
}

/// How many bytes the shortest encoding of a number has: 1, 2, 4 or 8 (RFC 9000, section 16). It is 0 exactly when the
/// number is 2^62 or more, which has no encoding.
#[unsafe(no_mangle)]
pub extern "C" fn quic_wire_varint_len_(value: u64) -> usize
    ensures { (2 ^ 62 ≤ value) × (result ≡ 0) ⊎ (value < 2 ^ 62) × (result ≡ size value) }
{
    if value >= 1 << 62 { 0 } else { var_size(value) }
}

// Stores a number in a width that is enough for it.
#[inline(always)]
#[tactic(auto, unfolding(quic_base::specs::Number::bytes_of, quic_base::specs::Varint::size))]
fn store_encoding(value: u64, width: usize, dest: &mut [u8]) -> usize
    requires numeric { value < 2 ^ 62 }
    requires room { width ≤ length dest.old }
    requires fits { size value ≤ width }
    ensures wrote { (result ≡ 0)
        ⊎ ((result ≡ width) × IsWidth width × (take result dest.new ≡ encoding_in width value)) }
    ensures back { drop result dest.new ≡ drop result dest.old }
    ensures none { result ≡ 0 → IsWidth width → ⊥ }
    ensures same { (0 < result) ⊎ (dest.new ≡ dest.old) }
{
    match width {
        1 => store_array(dest, 0, [value as u8]),
        2 => store_array(dest, 0, (IN_TWO + value as u16).to_be_bytes()),
        4 => store_array(dest, 0, (IN_FOUR + value as u32).to_be_bytes()),
        8 => store_array(dest, 0, (IN_EIGHT + value).to_be_bytes()),
        _ => 0,
    }
}

/// Writes a number at the front of `dest` in `width` bytes, 1, 2, 4 or 8, or in as few as possible if `width` is 0 (RFC
/// 9000, section 16), and returns how many; the bytes after those don't change. It returns 0 exactly when there is no
/// such width, the number doesn't fit in it, the number is 2^62 or more, or `dest` has fewer bytes. Nothing changes
/// then.
#[unsafe(no_mangle)]
pub extern "C" fn quic_wire_varint_write_(value: u64, width: u32, dest: &mut [u8]) -> usize
    ensures wrote { (result ≡ 0)
        ⊎ (Encodes value (encoding_in result value) × (dest.new ≡ encoding_in result value ++ drop result dest.old)) }
    ensures width { (result ≡ 0) ⊎ CanEncode value width (length dest.old) result }
    ensures none { result ≡ 0 → (n : ℕ) → CanEncode value width (length dest.old) n → ⊥ }
    ensures same { (0 < result) ⊎ (dest.new ≡ dest.old) }
{
    let least = var_size(value);
    let width = if width == 0 { least } else { width as usize };
    if value >= 1 << 62 || width < least || dest.len() < width {
        return 0;
    }
    store_encoding(value, width, dest)
}

/// How many bytes of a packet number to write for a receiver that has acknowledged `largest_acked`, chosen as
/// quinn-proto does: the least of 1 to 4 for which twice the distance is below 2^8, 2^16, 2^24 or 2^32. A receiver that
/// expects a number from `largest_acked` up to `number` + 1 then finds `number` (RFC 9000, appendix A.3). It returns
/// `Number` exactly when `largest_acked` is above `number`, or 2^31 or more below it.
#[unsafe(no_mangle)]
pub extern "C" fn quic_wire_number_len_(number: u64, largest_acked: u64) -> i32
    ensures invalid { (result ≡ failed Failure.Number) ↔ ((number < largest_acked) ⊎ (largest_acked + 2 ^ 31 ≤ number)) }
    ensures chosen { (result ≡ failed Failure.Number)
        ⊎ ((size : ℕ) × (result ≡ pos size) × (1 ≤ size) × (size ≤ 4) × SizeFor (number - largest_acked) size
        × ((expected m : ℕ) → largest_acked ≤ expected → expected ≤ number + 1
        → Expands (number % 2 ^ (8 * size)) (2 ^ (8 * size)) expected m → m ≡ number)) }
{
    if number < largest_acked || number - largest_acked >= 1 << 31 {
        return Failure::Number.number();
    }
    PacketNumber::new(number, largest_acked).len() as i32
}

// The part of a packet number that is written, as a number.
#[inline(always)]
fn low_part(written: PacketNumber) -> u64
    ensures { result ≡ low_part written }
{
    match written {
        PacketNumber::U8(low) => u64::from(low),
        PacketNumber::U16(low) => u64::from(low),
        PacketNumber::U24(low) | PacketNumber::U32(low) => u64::from(low),
    }
}

/// Reads a truncated packet number of `len` bytes at the front of the bytes, the highest first (RFC 9000, section
/// 17.1), and returns `len`. It returns `Length` if `len` isn't 1 to 4, else `PacketEnd` if there are fewer bytes;
/// `number` doesn't change then.
#[unsafe(no_mangle)]
pub extern "C" fn quic_wire_number_read_(bytes: &[u8], len: u32, number: &mut u64) -> i32
    ensures { (result ≡ pos len) × IsNumberLen len × ((rest : List ℕ) × Takes (IsNumber len number.new) bytes.now rest)
        ⊎ (number.new ≡ number.old) × ((result ≡ failed Failure.Length) × (IsNumberLen len → ⊥)
        ⊎ (result ≡ failed Failure.PacketEnd) × IsNumberLen len × (length bytes.now < len)) }
{
    if len < 1 || len > 4 {
        return Failure::Length.number();
    }
    let mut rest = bytes;
    let Ok(written) = PacketNumber::decode(len as usize, &mut rest) else {
        return Failure::PacketEnd.number();
    };
    *number = low_part(written);
    len as i32
}

/// Writes the low `len` bytes of a packet number at the front of `dest`, the highest first (RFC 9000, section 17.1),
/// and returns `len`; the bytes after those don't change. It returns `Length` if `len` isn't 1 to 4, else `NoRoom` if
/// `dest` has fewer bytes; nothing changes then.
#[unsafe(no_mangle)]
pub extern "C" fn quic_wire_number_write_(number: u64, len: u32, dest: &mut [u8]) -> i32
    ensures { (result ≡ pos len) × IsNumberLen len × (dest.new ≡ bytes_of len number ++ drop len dest.old)
        ⊎ (dest.new ≡ dest.old) × ((result ≡ failed Failure.Length) × (IsNumberLen len → ⊥)
        ⊎ (result ≡ failed Failure.NoRoom) × IsNumberLen len × (length dest.old < len)) }
{
    if len < 1 || len > 4 {
        return Failure::Length.number();
    }
    if dest.len() < len as usize {
        return Failure::NoRoom.number();
    }
    store_low(dest, 0, number, len as usize) as i32
}

/// The whole packet number whose low `count` bytes, 1 to 4, are `low`, from the one that is expected next (RFC 9000,
/// appendix A.3). It is `u64::MAX` exactly when `count` isn't 1 to 4, `low` has more bytes, or `expected` is 2^62 or
/// more. As with `PacketNumber::expand`, the result may be 2^62 or more when that of appendix A.3 is below.
#[unsafe(no_mangle)]
pub extern "C" fn quic_wire_number_expand_(low: u64, count: u32, expected: u64) -> u64
    ensures expanded { CanExpand low count expected
        → Expands low (2 ^ (8 * count)) expected result × (result < 2 ^ 63) }
    ensures none { (CanExpand low count expected → ⊥) → result ≡ 2 ^ 64 - 1 }
{
    if expected >= 1 << 62 {
        return u64::MAX;
    }
    match count {
        1 if low < 1 << 8 => PacketNumber::U8(low as u8).expand(expected),
        2 if low < 1 << 16 => PacketNumber::U16(low as u16).expand(expected),
        3 if low < 1 << 24 => PacketNumber::U24(low as u32).expand(expected),
        4 if low < 1 << 32 => PacketNumber::U32(low as u32).expand(expected),
        _ => u64::MAX,
    }
}
