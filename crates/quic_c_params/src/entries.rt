//! The entries of a list of transport parameters, whether a record has them or not (RFC 9000, section 18).
ghost use Rattle.std.specs.Prelude.{◌≡◌, ◌≢◌, ◌⊎◌, ◌↔◌, ◌+◌, ◌<◌, ◌≤◌, ◌^◌, ℕ, [], length, pos, MatchOption};
ghost use Rattle.quic_base.specs.Varint.{shortest_varint};
ghost use Rattle.quic_params.specs.Entry.{IsCutEntry};
ghost use Rattle.quic_params.specs.Writing.{entry_header, shortest_entry};
ghost use Rattle.quic_c_params.specs.Lists.{GivesNumber, GivesParameter, HasNoNumber, BytesNeedMore, WroteBytes, TellsKnown};
ghost use Rattle.quic_results.specs.Results.{failed};

use crate::words::CParam;
use quic_params::transport_parameters::{
    known, split_entry, value_number, write_entry_header_into, write_entry_into,
    write_number_entry_into,
};
use quic_results::results::Failure;

/// Whether a record has the parameter of this number: 1 or 0 (RFC 9000, section 18.2). It has none of a number that is
/// kept free of any meaning (section 18.1).
#[unsafe(no_mangle)]
pub extern "C" fn quic_wire_param_is_known_(id: u64) -> u32
    ensures { TellsKnown result id }
{
    match known(id) {
        Some(_) => 1,
        None => 0,
    }
}

/// Reads the entry at the front of a list of transport parameters, one that the record has or another (RFC 9000,
/// section 18). It returns the offset of the entry's end, at which the next one begins, with its number and the offset
/// and the length of its value; 0 exactly if the list is empty; `ParametersMalformed` exactly if its first entry is cut
/// off. `entry` changes only with the first. Whether the value is valid for its parameter isn't tested.
#[unsafe(no_mangle)]
pub extern "C" fn quic_wire_param_read_(list: &[u8], entry: &mut CParam) -> i64
    ensures { (result ≡ pos (entry.new.value + entry.new.value_len)) × GivesParameter list.now entry.new
        ⊎ (result ≡ pos 0) × (list.now ≡ []) × (entry.new ≡ entry.old)
        ⊎ (result ≡ failed Failure.ParametersMalformed) × IsCutEntry list.now × (entry.new ≡ entry.old) }
{
    if list.is_empty() {
        return 0;
    }
    let Some((id, value, rest)) = split_entry(list) else {
        return i64::from(Failure::ParametersMalformed.number());
    };
    let end = list.len() - rest.len();
    *entry = CParam {
        id,
        value: end - value.len(),
        value_len: value.len(),
    };
    end as i64
}

/// Writes an entry in its least widths at the front of `dest`: its number, how many bytes its value has, and these (RFC
/// 9000, section 18). It returns 0 with how many bytes were written, and the bytes after them don't change; `NoRoom`
/// with how many are needed if `dest` has fewer; `Number` exactly if the number is 2^62 or more; else `Length` exactly
/// if the value has 2^62 bytes or more. `dest` changes only with 0, and `written` only with 0 and `NoRoom`.
#[unsafe(no_mangle)]
pub extern "C" fn quic_wire_param_write_(
    id: u64,
    value: &[u8],
    dest: &mut [u8],
    written: &mut usize,
) -> i32
    ensures returns { (result ≡ pos 0) ⊎ (result ≡ failed Failure.NoRoom) ⊎ (result ≡ failed Failure.Number)
        ⊎ (result ≡ failed Failure.Length) }
    ensures wrote { result ≡ pos 0 → WroteBytes (shortest_entry id value.now) dest.old dest.new written.new }
    ensures room { result ≡ failed Failure.NoRoom
        → BytesNeedMore (shortest_entry id value.now) dest.old written.new }
    ensures number { (result ≡ failed Failure.Number) ↔ (2 ^ 62 ≤ id) }
    ensures length { (result ≡ failed Failure.Length) ↔ ((id < 2 ^ 62) × (2 ^ 62 ≤ length value.now)) }
    ensures same { (result ≡ pos 0) ⊎ (dest.new ≡ dest.old) }
    ensures kept { (result ≡ failed Failure.Number) ⊎ (result ≡ failed Failure.Length)
        → written.new ≡ written.old }
{
    if id >= 1 << 62 {
        return Failure::Number.number();
    }
    if value.len() >= 1 << 62 {
        return Failure::Length.number();
    }
    match write_entry_into(id, value, dest) {
        Ok(n) => {
            *written = n;
            0
        }
        Err(n) => {
            *written = n;
            Failure::NoRoom.number()
        }
    }
}

// The number that the value of the entry in front is.
fn number_of(list: &[u8], read: &CParam) -> Option<u64>
    requires { GivesParameter list.now read.now }
    ensures { MatchOption result (HasNoNumber list.now) (GivesNumber list.now read.now) }
{
    let value = &list[read.value..read.value + read.value_len];
    match value_number(value) {
        Some(number) => Some(number.into_inner()),
        None => None,
    }
}

/// Reads the entry at the front of a list as `quic_wire_param_read_` does, whose value must be one number, in any width
/// (RFC 9000, sections 16 and 18), and returns that too. It returns `ParametersMalformed` also if the value isn't one.
/// `entry` and `value` change only if an entry was read.
#[unsafe(no_mangle)]
pub extern "C" fn quic_wire_param_read_number_(
    list: &[u8],
    entry: &mut CParam,
    value: &mut u64,
) -> i64
    ensures { (result ≡ pos (entry.new.value + entry.new.value_len)) × GivesNumber list.now entry.new value.new
        ⊎ (result ≡ pos 0) × (list.now ≡ []) × (entry.new ≡ entry.old) × (value.new ≡ value.old)
        ⊎ (result ≡ failed Failure.ParametersMalformed) × HasNoNumber list.now × (entry.new ≡ entry.old)
        × (value.new ≡ value.old) }
{
    let mut read = CParam {
        id: 0,
        value: 0,
        value_len: 0,
    };
    let end = quic_wire_param_read_(list, &mut read);
    if end <= 0 {
        return end;
    }
    let Some(number) = number_of(list, &read) else {
        return i64::from(Failure::ParametersMalformed.number());
    };
    *entry = read;
    *value = number;
    end
}

/// Writes an entry up to its value in its least widths at the front of `dest`: its number, and how many bytes its value
/// has (RFC 9000, section 18). What it returns and changes is as of `quic_wire_param_write_`; the value behind it makes
/// it the entry that this call writes.
#[unsafe(no_mangle)]
pub extern "C" fn quic_wire_param_header_write_(
    id: u64,
    value_len: usize,
    dest: &mut [u8],
    written: &mut usize,
) -> i32
    ensures returns { (result ≡ pos 0) ⊎ (result ≡ failed Failure.NoRoom) ⊎ (result ≡ failed Failure.Number)
        ⊎ (result ≡ failed Failure.Length) }
    ensures wrote { result ≡ pos 0 → WroteBytes (entry_header id value_len) dest.old dest.new written.new }
    ensures room { result ≡ failed Failure.NoRoom
        → BytesNeedMore (entry_header id value_len) dest.old written.new }
    ensures number { (result ≡ failed Failure.Number) ↔ (2 ^ 62 ≤ id) }
    ensures length { (result ≡ failed Failure.Length) ↔ ((id < 2 ^ 62) × (2 ^ 62 ≤ value_len)) }
    ensures same { (result ≡ pos 0) ⊎ (dest.new ≡ dest.old) }
    ensures kept { (result ≡ failed Failure.Number) ⊎ (result ≡ failed Failure.Length)
        → written.new ≡ written.old }
{
    if id >= 1 << 62 {
        return Failure::Number.number();
    }
    if value_len >= 1 << 62 {
        return Failure::Length.number();
    }
    match write_entry_header_into(id, value_len as u64, dest) {
        Ok(n) => {
            *written = n;
            0
        }
        Err(n) => {
            *written = n;
            Failure::NoRoom.number()
        }
    }
}

/// Writes an entry whose value is a number in its least width at the front of `dest` (RFC 9000, section 18). What it
/// returns and changes is as of `quic_wire_param_write_`, with `Number` exactly if one of the numbers is 2^62 or more.
#[unsafe(no_mangle)]
pub extern "C" fn quic_wire_param_write_number_(
    id: u64,
    value: u64,
    dest: &mut [u8],
    written: &mut usize,
) -> i32
    ensures returns { (result ≡ pos 0) ⊎ (result ≡ failed Failure.NoRoom) ⊎ (result ≡ failed Failure.Number) }
    ensures wrote { result ≡ pos 0
        → WroteBytes (shortest_entry id (shortest_varint value)) dest.old dest.new written.new }
    ensures room { result ≡ failed Failure.NoRoom
        → BytesNeedMore (shortest_entry id (shortest_varint value)) dest.old written.new }
    ensures number { (result ≡ failed Failure.Number) ↔ ((2 ^ 62 ≤ id) ⊎ (2 ^ 62 ≤ value)) }
    ensures same { (result ≡ pos 0) ⊎ (dest.new ≡ dest.old) }
    ensures kept { result ≡ failed Failure.Number → written.new ≡ written.old }
{
    if id >= 1 << 62 {
        return Failure::Number.number();
    }
    if value >= 1 << 62 {
        return Failure::Number.number();
    }
    match write_number_entry_into(id, value, dest) {
        Ok(n) => {
            *written = n;
            0
        }
        Err(n) => {
            *written = n;
            Failure::NoRoom.number()
        }
    }
}
