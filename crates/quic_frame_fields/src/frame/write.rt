//! Appends numbers and bytes to a buffer.
ghost use Rattle.std.specs.Prelude.{◌≡◌, ◌<◌, ◌≤◌, ◌+◌, ◌*◌, ◌++◌, ℕ, List, take, length, get_or, IsOk, OnOk, OnErr, vec_len, vec_capacity};
ghost use Rattle.quic_base.specs.ConnectionId.{long_id};
ghost use Rattle.quic_base.specs.Number.{AreBytes};
ghost use Rattle.quic_base.specs.Writing.{WritesTo};
ghost use Rattle.quic_frame_fields.specs.Numbers.{AreNumeric, AreEncoded, shortest_varints};

use bytes::BufMut;
use quic_base::coding::{BufMutExt, NoRoom};
use quic_base::ids::ConnectionId;
use quic_base::varint::{split_var_by_word, store_var, var_size};

// The size of the array that numbers are written into: five of them, each by a store of at most eight bytes.
pub(super) const HEADER_ROOM: usize = 40;

// Stores numbers, one after the other, and returns the offset at which they end.
#[inline(always)]
pub(super) fn store_numbers(dest: &mut [u8], numbers: &[u64]) -> usize
    requires room { 8 * length numbers.now ≤ length dest.old }
    requires numeric { AreNumeric numbers.now }
    ensures within { result ≤ 8 * length numbers.now }
    ensures front { take result dest.new ≡ shortest_varints numbers.now }
    ensures len { length dest.new ≡ length dest.old }
{
    let mut at = 0;
    for number in numbers {
        at = store_var(dest, at, *number);
    }
    at
}

/// Appends at most five numbers, each below 2^62, in their shortest encodings. They are collected first, so that the
/// room is checked once. Returns `NoRoom` only if they are longer than the buffer's spare room. The buffer then has its
/// old contents, and possibly a prefix of the encodings after them.
#[inline(always)]
pub fn numbers<B: BufMut>(out: &mut B, numbers: &[u64]) -> Result<(), NoRoom>
    requires few { length numbers.now ≤ 5 }
    requires numeric { AreNumeric numbers.now }
    ensures { WritesTo B.written B.spare (shortest_varints numbers.now) out.old out.new result }
{
    let mut encoded = [0; HEADER_ROOM];
    let len = store_numbers(&mut encoded, numbers);
    bytes(out, &encoded[..len])
}

/// Appends bytes, in the same way.
pub fn bytes<B: BufMut>(out: &mut B, bytes: &[u8]) -> Result<(), NoRoom>
    ensures { WritesTo B.written B.spare bytes.now out.old out.new result }
{
    match out.put_slice(bytes) {
        Ok(()) => Ok(()),
        Err(_) => Err(NoRoom),
    }
}

/// Appends numbers and then bytes, in the same way.
pub fn numbers_and_bytes<B: BufMut>(out: &mut B, numbers: &[u64], tail: &[u8]) -> Result<(), NoRoom>
    requires few { length numbers.now ≤ 5 }
    requires numeric { AreNumeric numbers.now }
    ensures { WritesTo B.written B.spare (shortest_varints numbers.now ++ tail.now) out.old out.new result }
{
    self::numbers(out, numbers)?;
    bytes(out, tail)
}

/// Appends an id after its length, and bytes, in the same way.
pub fn id_and_bytes<B: BufMut>(out: &mut B, id: &ConnectionId, tail: &[u8]) -> Result<(), NoRoom>
    ensures { WritesTo B.written B.spare (long_id id.now ++ tail.now) out.old out.new result }
{
    id.encode_long(out)?;
    bytes(out, tail)
}

/// Appends the numbers that the bytes encode, in their shortest encodings, in the same way. `len` must be the length of
/// these; if it is that of the given bytes, they are the shortest already and are copied.
pub fn shortened<B: BufMut>(out: &mut B, encoded: &[u8], len: u64) -> Result<(), NoRoom>
    requires { (ns : List ℕ) → AreEncoded ns encoded.now → len ≡ length (shortest_varints ns) }
    ensures { (ns : List ℕ) → AreEncoded ns encoded.now
        → WritesTo B.written B.spare (shortest_varints ns) out.old out.new result }
{
    if len == encoded.len() as u64 {
        bytes(out, encoded)
    } else {
        each_shortened(out, encoded)
    }
}

// Appends the numbers one by one.
fn each_shortened<B: BufMut>(out: &mut B, encoded: &[u8]) -> Result<(), NoRoom>
    ensures { (ns : List ℕ) → AreEncoded ns encoded.now
        → WritesTo B.written B.spare (shortest_varints ns) out.old out.new result }
{
    let mut rest = encoded;
    while let Ok((number, after)) = split_var_by_word(rest) {
        out.write_var(number)?;
        rest = after;
    }
    Ok(())
}

// How many bytes at the front are below 64: each of them is a number of one byte.
fn ones(bytes: &[u8]) -> usize
    ensures within { result ≤ length bytes.now }
    ensures ones { (i : ℕ) → i < result → get_or bytes.now i 0 < 64 }
    ensures most { result < length bytes.now → 64 ≤ get_or bytes.now result 0 }
{
    let mut n = 0;
    while n < bytes.len() && bytes[n] < 64 {
        n += 1;
    }
    n
}

/// How many numbers the bytes encode, and how many bytes `shortened` appends for them.
pub fn count_and_len(encoded: &[u8]) -> (u64, u64)
    ensures count { (ns : List ℕ) → AreEncoded ns encoded.now → result.0 ≡ length ns }
    ensures len { (ns : List ℕ) → AreEncoded ns encoded.now → result.1 ≡ length (shortest_varints ns) }
    ensures small { result.1 ≤ length encoded.now }
    ensures bytes { AreBytes encoded.now }
{
    let mut count = 0;
    let mut len = 0;
    let mut rest = encoded;
    loop {
        let n = ones(rest);
        let Ok((number, after)) = split_var_by_word(&rest[n..]) else {
            return ((count + n) as u64, (len + n) as u64);
        };
        count += n + 1;
        len += n + var_size(number);
        rest = after;
    }
}

/// How many bytes `numbers` appends.
#[inline(always)]
pub fn numbers_len(numbers: &[u64]) -> u128
    requires { AreNumeric numbers.now }
    ensures value { result ≡ length (shortest_varints numbers.now) }
    ensures small { result ≤ 8 * length numbers.now }
{
    let mut total = 0;
    for number in numbers {
        total += var_size(*number);
    }
    total as u128
}

/// How many bytes `numbers_and_bytes` appends.
#[inline(always)]
pub fn numbers_and_bytes_len(numbers: &[u64], tail: &[u8]) -> u128
    requires few { length numbers.now ≤ 5 }
    requires numeric { AreNumeric numbers.now }
    ensures { result ≡ length (shortest_varints numbers.now ++ tail.now) }
{
    numbers_len(numbers) + tail.len() as u128
}

/// Appends numbers and then bytes to a vector. It reserves room for all of them at once, which can't fail if there is
/// spare room for them. Returns `NoRoom` if that fails; `out` doesn't change then.
pub fn append(out: &mut Vec<u8>, numbers: &[u64], tail: &[u8]) -> Result<(), NoRoom>
    requires few { length numbers.now ≤ 5 }
    requires numeric { AreNumeric numbers.now }
    ensures ok { OnOk result (out.new.items ≡ out.old.items ++ (shortest_varints numbers.now ++ tail.now)) }
    ensures err { OnErr result (out.new.items ≡ out.old.items) }
    ensures capacity { OnErr result (vec_capacity out.new ≡ vec_capacity out.old) }
    ensures room { vec_len out.old + length (shortest_varints numbers.now ++ tail.now) ≤ vec_capacity out.old
        → IsOk result }
{
    if out
        .reserve(numbers_len(numbers) as usize + tail.len())
        .is_err()
    {
        return Err(NoRoom);
    }
    numbers_and_bytes(out, numbers, tail)
}
