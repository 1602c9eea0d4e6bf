//! Writes a list of parameters at the front of a slice.
ghost use Rattle.std.specs.Prelude.{◌≡◌, ◌+◌, ◌-◌, ◌<◌, ◌≤◌, ◌^◌, ◌++◌, ℕ, List, length, take, drop, IfOk, IfErr, OnErr};
ghost use Rattle.quic_base.specs.Varint.{shortest_varint};
ghost use Rattle.quic_params.specs.Writing.{encoding, entry_header, shortest_entry, written, written_for};

use crate::parameter::TransportParameterId;
use crate::record::TransportParameters;
use crate::value::{PreferredAddress, Value};
use crate::writing::write_header_by_parts;
use bytes::BufMut;
use quic_base::coding::BufMutExt;
use std::alloc::AllocError;

// The greatest size of a list that is written of a record: 21 entries, each of at most 77 bytes.
const ROOM: usize = 21 * 77;

// The greatest size of an entry of a record, and of the number and length that an entry begins with.
const ENTRY_ROOM: usize = 77;

const HEADER_ROOM: usize = 16;

const NUMBER_ROOM: usize = 8;

// Room for bytes; the first `len` ones are written.
#[derive(Drop)]
struct Room<const N: usize> {
    bytes: [u8; N],
    len: usize,
}

impl<const N: usize> BufMut for Room<N> {
    ghost written = { λ r. take r.len r.bytes };

    ghost spare = { λ r. N - r.len };

    fn reserve(&mut self, additional: usize) -> Result<(), AllocError> {
        if additional <= N.saturating_sub(self.len) {
            Ok(())
        } else {
            Err(AllocError)
        }
    }

    fn put_slice(&mut self, src: &[u8]) -> Result<(), AllocError> {
        if src.is_empty() {
            return Ok(());
        }
        let at = self.len;
        if at > N || src.len() > N - at {
            return Err(AllocError);
        }
        let end = at + src.len();
        let all = &mut self.bytes[..];
        all[at..end].copy_from_slice(src);
        self.len = end;
        Ok(())
    }
}

impl<const N: usize> Room<N> {
    fn new() -> Room<N>
        ensures { result.len ≡ 0 }
    {
        Room {
            bytes: [0; N],
            len: 0,
        }
    }

    // The bytes that it has.
    fn filled(&self) -> &[u8]
        ensures { result.now ≡ take self.now.len self.now.bytes }
    {
        let all = &self.bytes[..];
        if self.len <= N { &all[..self.len] } else { all }
    }
}

// Stores bytes at the front of a slice. If it is shorter, it doesn't change, and the error is how many are needed.
fn store(dest: &mut [u8], bytes: &[u8]) -> Result<usize, usize>
    ensures count { IfOk result (λ n. n ≡ length bytes.now) }
    ensures front { IfOk result (λ n. dest.new ≡ bytes.now ++ drop n dest.old) }
    ensures needed { IfErr result (λ n. n ≡ length bytes.now) }
    ensures full { OnErr result (length dest.old < length bytes.now) }
    ensures same { OnErr result (dest.new ≡ dest.old) }
{
    let len = bytes.len();
    if dest.len() < len {
        return Err(len);
    }
    dest[..len].copy_from_slice(bytes);
    Ok(len)
}

impl TransportParameters {
    // Fills an empty room with the list of the record.
    fn fill(&self, room: &mut Room<ROOM>)
        requires { room.old.len ≡ 0 }
        ensures { take room.new.len room.new.bytes ≡ written self.now }
    {
        self.type_bounds();
        match self.write(room) {
            Ok(()) => {}
            Err(_) => unreachable!(),
        }
    }

    /// Stores the bytes that `write` appends at the front of a slice, and returns how many they are (RFC 9000, section
    /// 18); the bytes after them don't change. If the slice is shorter, and only then, nothing changes, and the error
    /// is how many bytes are needed. It allocates no memory.
    pub fn write_into(&self, dest: &mut [u8]) -> Result<usize, usize>
        ensures count { IfOk result (λ n. n ≡ length (written self.now)) }
        ensures front { IfOk result (λ n. dest.new ≡ written self.now ++ drop n dest.old) }
        ensures needed { IfErr result (λ n. n ≡ length (written self.now)) }
        ensures full { OnErr result (length dest.old < length (written self.now)) }
        ensures same { OnErr result (dest.new ≡ dest.old) }
    {
        let mut room = Room::<ROOM>::new();
        self.fill(&mut room);
        store(dest, room.filled())
    }

    // Fills an empty room with the entry of a parameter.
    fn fill_one(&self, id: TransportParameterId, room: &mut Room<ENTRY_ROOM>)
        requires { room.old.len ≡ 0 }
        ensures { take room.new.len room.new.bytes ≡ written_for self.now id }
    {
        self.type_bounds();
        match self.write_one(id, room) {
            Ok(()) => {}
            Err(_) => unreachable!(),
        }
    }

    /// Stores the bytes that `write_one` appends at the front of a slice, and returns how many they are (RFC 9000,
    /// section 18); the bytes after them don't change. If the slice is shorter, and only then, nothing changes, and
    /// the error is how many bytes are needed. It allocates no memory.
    pub fn write_one_into(&self, id: TransportParameterId, dest: &mut [u8]) -> Result<usize, usize>
        ensures count { IfOk result (λ n. n ≡ length (written_for self.now id)) }
        ensures front { IfOk result (λ n. dest.new ≡ written_for self.now id ++ drop n dest.old) }
        ensures needed { IfErr result (λ n. n ≡ length (written_for self.now id)) }
        ensures full { OnErr result (length dest.old < length (written_for self.now id)) }
        ensures same { OnErr result (dest.new ≡ dest.old) }
        ensures few { length (written_for self.now id) ≤ 77 }
    {
        self.type_bounds();
        let mut room = Room::<ENTRY_ROOM>::new();
        self.fill_one(id, &mut room);
        store(dest, room.filled())
    }
}

// Fills an empty room with the number and length that an entry begins with.
fn fill_header(number: u64, len: u64, room: &mut Room<HEADER_ROOM>)
    requires number { number < 2 ^ 62 }
    requires len { len < 2 ^ 62 }
    requires empty { room.old.len ≡ 0 }
    ensures { take room.new.len room.new.bytes ≡ shortest_varint number ++ shortest_varint len }
{
    match write_header_by_parts(number, len, room) {
        Ok(()) => {}
        Err(_) => unreachable!(),
    }
}

/// Stores an entry up to its value, in the least widths of its number and of its length, at the front of a slice, and
/// returns how many bytes it has (RFC 9000, section 18); the bytes after them don't change. The value, of `len` bytes,
/// makes it the entry that `write_entry_into` stores. The caller must ensure that the number and the length are below
/// 2^62. If the slice is shorter, and only then, nothing changes, and the error is how many bytes are needed. It
/// allocates no memory.
pub fn write_entry_header_into(number: u64, len: u64, dest: &mut [u8]) -> Result<usize, usize>
    requires number { number < 2 ^ 62 }
    requires len { len < 2 ^ 62 }
    ensures count { IfOk result (λ n. n ≡ length (entry_header number len)) }
    ensures front { IfOk result (λ n. dest.new ≡ entry_header number len ++ drop n dest.old) }
    ensures needed { IfErr result (λ n. n ≡ length (entry_header number len)) }
    ensures full { OnErr result (length dest.old < length (entry_header number len)) }
    ensures same { OnErr result (dest.new ≡ dest.old) }
    ensures whole { (value : List ℕ) → length value ≡ len
        → entry_header number len ++ value ≡ shortest_entry number value }
{
    let mut room = Room::<HEADER_ROOM>::new();
    fill_header(number, len, &mut room);
    store(dest, room.filled())
}

// Fills an empty room with a number in its least width.
fn fill_number(number: u64, room: &mut Room<NUMBER_ROOM>)
    requires number { number < 2 ^ 62 }
    requires empty { room.old.len ≡ 0 }
    ensures { take room.new.len room.new.bytes ≡ shortest_varint number }
{
    match room.write_var(number) {
        Ok(()) => {}
        Err(_) => unreachable!(),
    }
}

/// Stores an entry whose value is a number in its least width, as `write_entry_into` does. The caller must ensure that
/// both numbers are below 2^62.
pub fn write_number_entry_into(number: u64, value: u64, dest: &mut [u8]) -> Result<usize, usize>
    requires number { number < 2 ^ 62 }
    requires value { value < 2 ^ 62 }
    ensures count { IfOk result (λ n. n ≡ length (shortest_entry number (shortest_varint value))) }
    ensures front { IfOk result (λ n. dest.new ≡ shortest_entry number (shortest_varint value) ++ drop n dest.old) }
    ensures needed { IfErr result (λ n. n ≡ length (shortest_entry number (shortest_varint value))) }
    ensures full { OnErr result (length dest.old < length (shortest_entry number (shortest_varint value))) }
    ensures same { OnErr result (dest.new ≡ dest.old) }
{
    let mut room = Room::<NUMBER_ROOM>::new();
    fill_number(value, &mut room);
    write_entry_into(number, room.filled(), dest)
}

impl PreferredAddress {
    // Fills an empty room with the value of the parameter.
    fn fill(&self, room: &mut Room<ENTRY_ROOM>)
        requires { room.old.len ≡ 0 }
        ensures { take room.new.len room.new.bytes ≡ encoding (Value.Address self.now) }
    {
        self.type_bounds();
        match self.encode(room) {
            Ok(()) => {}
            Err(_) => unreachable!(),
        }
    }

    /// Stores the value of `preferred_address`, of at most 61 bytes, at the front of a slice, and returns how many
    /// bytes it has (RFC 9000, section 18.2); the bytes after them don't change. If the slice is shorter, and only
    /// then, nothing changes, and the error is how many bytes are needed. It allocates no memory.
    pub fn encode_into(&self, dest: &mut [u8]) -> Result<usize, usize>
        ensures count { IfOk result (λ n. n ≡ length (encoding (Value.Address self.now))) }
        ensures front { IfOk result (λ n. dest.new ≡ encoding (Value.Address self.now) ++ drop n dest.old) }
        ensures needed { IfErr result (λ n. n ≡ length (encoding (Value.Address self.now))) }
        ensures full { OnErr result (length dest.old < length (encoding (Value.Address self.now))) }
        ensures same { OnErr result (dest.new ≡ dest.old) }
    {
        let mut room = Room::<ENTRY_ROOM>::new();
        self.fill(&mut room);
        store(dest, room.filled())
    }
}

/// Stores an entry in its least widths at the front of a slice, and returns how many bytes it has (RFC 9000, section
/// 18); the bytes after them don't change. The caller must ensure that the number and the length are below 2^62. If
/// the slice is shorter, and only then, nothing changes, and the error is how many bytes are needed. It allocates no
/// memory.
pub fn write_entry_into(number: u64, value: &[u8], dest: &mut [u8]) -> Result<usize, usize>
    requires number { number < 2 ^ 62 }
    requires len { length value.now < 2 ^ 62 }
    ensures count { IfOk result (λ n. n ≡ length (shortest_entry number value.now)) }
    ensures front { IfOk result (λ n. dest.new ≡ shortest_entry number value.now ++ drop n dest.old) }
    ensures needed { IfErr result (λ n. n ≡ length (shortest_entry number value.now)) }
    ensures full { OnErr result (length dest.old < length (shortest_entry number value.now)) }
    ensures same { OnErr result (dest.new ≡ dest.old) }
    ensures few { length (shortest_entry number value.now) ≤ 16 + length value.now }
{
    let mut room = Room::<HEADER_ROOM>::new();
    fill_header(number, value.len() as u64, &mut room);
    let head = room.filled();
    let len = head.len() + value.len();
    if len > dest.len() {
        return Err(len);
    }
    dest[..head.len()].copy_from_slice(head);
    dest[head.len()..len].copy_from_slice(value);
    Ok(len)
}
