//! A list of transport parameters with further entries among those of a record.
ghost use Rattle.std.specs.Prelude.{◌≡◌, ◌⊎◌, ◌+◌, ◌*◌, ◌<◌, ◌≤◌, ◌^◌, ◌++◌, ◌↔◌, ℕ, List, [], get_or, length, take, drop, pos, IfOk, IfErr, IfSome, IsNone, OnErr};
ghost use Rattle.std.specs.List.{flat_map};
ghost use Rattle.quic_params.specs.Entry.{Entry};
ghost use Rattle.quic_params.specs.Further.{AreInOrder, IsOrderOf, asked, listed, encoded_entries};
ghost use Rattle.quic_params.specs.Order.{id_of_index};
ghost use Rattle.quic_params.specs.Table.{parameter_count};
ghost use Rattle.quic_params.specs.Writing.{shortest_entry, written_for};
ghost use Rattle.quic_params.specs.declared.record.TransportParameters.{TransportParameters};
ghost use Rattle.quic_c_params.specs.Lists.{CanList, IsFurther, StoresBytes, ListNeedsMore, DescribesNoList, WroteList};
ghost use Rattle.quic_results.specs.Results.{failed};

use crate::further::{ROWS, count_further, index_at, is_order, nth};
use crate::read::side_of;
use crate::words::CParams;
use crate::write::described;
use quic_params::laws;
use quic_params::transport_parameters::{
    TransportParameterId, TransportParameters, write_entry_into,
};
use quic_results::results::Failure;

// The parameter of a row.
fn row_at(index: usize) -> TransportParameterId
    requires { index < parameter_count }
    ensures { result ≡ id_of_index index }
{
    TransportParameterId::SUPPORTED[index]
}

// Stores what is written for a row at the front of a slice.
fn store_row(
    params: &TransportParameters,
    id: TransportParameterId,
    dest: &mut [u8],
) -> Result<usize, usize>
    ensures stores { StoresBytes result (written_for params.now id) dest.old dest.new }
    ensures few { length (written_for params.now id) ≤ 77 }
{
    params.write_one_into(id, dest)
}

// Stores an entry in its least widths at the front of a slice.
fn store_entry(number: u64, value: &[u8], dest: &mut [u8]) -> Result<usize, usize>
    requires number { number < 2 ^ 62 }
    requires len { length value.now < 2 ^ 62 }
    ensures stores { StoresBytes result (shortest_entry number value.now) dest.old dest.new }
    ensures few { length (shortest_entry number value.now) ≤ 16 + length value.now }
{
    write_entry_into(number, value, dest)
}

// Stores the entry at an index at the front of a slice: a row of the record, or a further entry. If the slice is
// shorter, it doesn't change, and the error is how many bytes the entry has.
fn store_entry_at(
    params: &TransportParameters,
    further: &[u8],
    index: usize,
    dest: &mut [u8],
) -> Result<usize, usize>
    requires there { (entries : List Entry) × IsFurther entries further.now × (index < parameter_count + length entries) }
    ensures stores { (entries : List Entry) → AreInOrder entries further.now
        → StoresBytes result (get_or (encoded_entries params.now entries) index []) dest.old dest.new }
    ensures few { (entries : List Entry) → AreInOrder entries further.now
        → length (get_or (encoded_entries params.now entries) index []) ≤ 77 + length further.now }
{
    if index < ROWS {
        return store_row(params, row_at(index), dest);
    }
    let (number, value) = nth(further, index - ROWS);
    store_entry(number, value, dest)
}

// How many entries a list has with these further entries, if they are such, and the order is one of all.
fn count_entries(further: &[u8], order: &[u8]) -> Option<usize>
    ensures some { IfSome result (λ n. (entries : List Entry) × IsFurther entries further.now × (n ≡ parameter_count + length entries)
        × IsOrderOf n (asked n order.now)) }
    ensures none { IsNone result → (entries : List Entry) → IsFurther entries further.now
        → IsOrderOf (parameter_count + length entries) (asked (parameter_count + length entries) order.now) → ⊥ }
{
    let count = ROWS + count_further(further)?;
    if is_order(count, order) {
        Some(count)
    } else {
        None
    }
}

// How many bytes the list has whose entries are in an order.
fn list_len(params: &TransportParameters, further: &[u8], count: usize, order: &[u8]) -> usize
    requires there { (entries : List Entry) × IsFurther entries further.now × (count ≡ parameter_count + length entries) }
    requires order { IsOrderOf count (asked count order.now) }
    ensures { (entries : List Entry) → AreInOrder entries further.now → result ≡ length (listed params.now entries order.now) }
{
    let mut len = 0;
    for place in 0..count {
        let index = index_at(count, order, place);
        len += match store_entry_at(params, further, index, &mut []) {
            Ok(entry_len) => entry_len,
            Err(entry_len) => entry_len,
        };
    }
    len
}

// Stores the entries in an order over the front of a slice that has room for them.
fn store_list(
    params: &TransportParameters,
    further: &[u8],
    count: usize,
    order: &[u8],
    dest: &mut [u8],
)
    requires there { (entries : List Entry) × IsFurther entries further.now × (count ≡ parameter_count + length entries) }
    requires order { IsOrderOf count (asked count order.now) }
    requires room { (entries : List Entry) → AreInOrder entries further.now
        → length (listed params.now entries order.now) ≤ length dest.old }
    ensures { (entries : List Entry) → AreInOrder entries further.now
        → dest.new ≡ listed params.now entries order.now ++ drop (length (listed params.now entries order.now)) dest.old }
{
    let mut at = 0;
    for place in 0..count {
        let index = index_at(count, order, place);
        match store_entry_at(params, further, index, &mut dest[at..]) {
            Ok(entry_len) => at += entry_len,
            Err(_) => unreachable!(),
        }
    }
}

/// Writes the list of the parameters in a struct, with further entries, in an order, at the front of `dest`, each in
/// its least widths (RFC 9000, sections 7.4 and 18): `side` is 0 if a client is to read it, 1 if a server is. `further`
/// is a list of entries that no record has, none of them twice, as `quic_wire_param_write_` writes them. The rows of
/// the table (quinn-proto's `SUPPORTED`) have the numbers 0 to 20, and the further entries those from 21 on, 235 at
/// most; `order` has each of these numbers once, or is empty, and then the entries are in the order of their numbers.
/// It returns 0 with how many bytes were written, and the bytes after them don't change: reading them for this side
/// gives the same struct. It returns `NoRoom` with how many bytes are needed if `dest` has fewer; `Kind` exactly if
/// `side` is above 1; `Parameter` if `quic_wire_params_write_` does, or if `further` or `order` aren't such, or
/// `further` has 2^40 bytes or more. `dest` changes only with 0, and `written` only with 0 and `NoRoom`.
#[unsafe(no_mangle)]
pub extern "C" fn quic_wire_params_write_with_(
    side: u32,
    words: &CParams,
    further: &[u8],
    order: &[u8],
    dest: &mut [u8],
    written: &mut usize,
) -> i32
    ensures returns { (result ≡ pos 0) ⊎ (result ≡ failed Failure.NoRoom) ⊎ (result ≡ failed Failure.Kind)
        ⊎ (result ≡ failed Failure.Parameter) }
    ensures wrote { result ≡ pos 0
        → WroteList side words.now further.now order.now dest.old dest.new written.new }
    ensures room { result ≡ failed Failure.NoRoom
        → ListNeedsMore side words.now further.now order.now dest.old written.new }
    ensures side { (result ≡ failed Failure.Kind) ↔ (1 < side) }
    ensures refused { result ≡ failed Failure.Parameter → DescribesNoList side words.now further.now order.now }
    ensures same { (result ≡ pos 0) ⊎ (dest.new ≡ dest.old) }
    ensures kept { (result ≡ failed Failure.Kind) ⊎ (result ≡ failed Failure.Parameter)
        → written.new ≡ written.old }
{
    let Some(reader) = side_of(side) else {
        return Failure::Kind.number();
    };
    let Some(params) = described(reader, words) else {
        return Failure::Parameter.number();
    };
    let Some(count) = count_entries(further, order) else {
        return Failure::Parameter.number();
    };
    laws::further();
    params.type_bounds();
    let len = list_len(&params, further, count, order);
    *written = len;
    if dest.len() < len {
        return Failure::NoRoom.number();
    }
    store_list(&params, further, count, order, dest);
    0
}
