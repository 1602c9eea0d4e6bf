//! Further entries of a list of transport parameters, which no record has, and the orders of all (RFC 9000, sections
//! 7.4 and 18).
ghost use Rattle.std.specs.Prelude.{◌≡◌, ◌+◌, ◌<◌, ◌≤◌, ◌↔◌, ◌^◌, ℕ, List, get_or, length, IsTrue, IfSome, IsNone};
ghost use Rattle.quic_params.specs.Entry.{Entry};
ghost use Rattle.quic_params.specs.Further.{AreInOrder, AreOthers, HasEntryNumber, IsOrderOf, asked};
ghost use Rattle.quic_params.specs.Table.{parameter_count};
ghost use Rattle.quic_c_params.specs.Lists.{any_entry, IsFurther};

use quic_params::transport_parameters::{TransportParameterId, known, split_entry};

// How many rows the table of parameters has.
pub(crate) const ROWS: usize = TransportParameterId::SUPPORTED.len();

// Whether a list of entries has one of this number.
fn has_number(list: &[u8], number: u64) -> bool
    ensures { (entries : List Entry) → AreInOrder entries list.now → IsTrue result ↔ HasEntryNumber number entries }
{
    let mut rest = list;
    while let Some((other, _, behind)) = split_entry(rest) {
        if other == number {
            return true;
        }
        rest = behind;
    }
    false
}

// How many entries a list has, if all of them may be written among those of a record.
pub(crate) fn count_further(list: &[u8]) -> Option<usize>
    ensures some { IfSome result (λ n. (entries : List Entry) × IsFurther entries list.now × (length entries ≡ n)) }
    ensures none { IsNone result → (entries : List Entry) → IsFurther entries list.now → ⊥ }
{
    if list.len() >= 1 << 40 {
        return None;
    }
    let mut rest = list;
    let mut count = 0;
    while !rest.is_empty() {
        let (number, _, behind) = split_entry(rest)?;
        if count == 256 - ROWS || known(number).is_some() || has_number(behind, number) {
            return None;
        }
        rest = behind;
        count += 1;
    }
    Some(count)
}

// The entry at an index: its number, and the bytes of its value.
pub(crate) fn nth(list: &[u8], index: usize) -> (u64, &[u8])
    requires { (entries : List Entry) × AreInOrder entries list.now × (index < length entries) }
    ensures { (entries : List Entry) → AreInOrder entries list.now
        → (result.0 ≡ (get_or entries index any_entry).number) × (result.1.now ≡ (get_or entries index any_entry).bytes) }
{
    let mut rest = list;
    for _ in 0..index {
        match split_entry(rest) {
            Some((_, _, behind)) => rest = behind,
            None => unreachable!(),
        }
    }
    match split_entry(rest) {
        Some((number, value, _)) => (number, value),
        None => unreachable!(),
    }
}

// Whether the order has `count` numbers, and each index below that is among them.
fn has_each(count: usize, order: &[u8]) -> bool
    requires { count ≤ 256 }
    ensures { IsTrue result ↔ IsOrderOf count order.now }
{
    if order.len() != count {
        return false;
    }
    for index in 0..count {
        if !order.contains(&(index as u8)) {
            return false;
        }
    }
    true
}

// Whether they are an order of so many. An empty one means the order of the indices.
pub(crate) fn is_order(count: usize, order: &[u8]) -> bool
    requires { count ≤ 256 }
    ensures { IsTrue result ↔ IsOrderOf count (asked count order.now) }
{
    order.is_empty() || has_each(count, order)
}

// The index at a position of an order.
#[inline(always)]
pub(crate) fn index_at(count: usize, order: &[u8], place: usize) -> usize
    requires order { IsOrderOf count (asked count order.now) }
    requires place { place < count }
    ensures value { result ≡ get_or (asked count order.now) place 0 }
    ensures below { result < count }
{
    if order.is_empty() {
        place
    } else {
        usize::from(order[place])
    }
}
