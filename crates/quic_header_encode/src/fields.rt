//! The fields of a header, each written at an offset: bytes, ids and packet numbers.
ghost use Rattle.std.specs.Prelude.{◌≡◌, ◌+◌, ◌≤◌, ◌++◌, length, take, drop};
ghost use Rattle.quic_base.specs.Number.{bytes_of};
ghost use Rattle.quic_crypto.specs.PacketNumbers.{number_bytes, number_size, IsInRange};

use quic_base::coding::store_array;
use quic_crypto::packet_number::PacketNumber;

// Stores bytes by two stores: of their first N and of their last N.
#[inline(always)]
pub(crate) fn store_ends<const N: usize>(out: &mut [u8], at: usize, bytes: &[u8]) -> usize
    requires many { N ≤ length bytes.now }
    requires covered { length bytes.now ≤ N + N }
    requires room { at + length bytes.now ≤ length out.old }
    ensures end { result ≡ at + length bytes.now }
    ensures front { take result out.new ≡ take at out.old ++ bytes.now }
    ensures back { drop result out.new ≡ drop result out.old }
    ensures len { length out.new ≡ length out.old }
{
    let Some(first) = bytes.first_chunk::<N>() else {
        unreachable!()
    };
    let Some(last) = bytes.last_chunk::<N>() else {
        unreachable!()
    };
    let (first, last) = (*first, *last);
    store_array(out, at, first);
    store_array(out, at + (bytes.len() - N), last)
}

// Stores an id of at most 20 bytes from `at` on, and returns the offset at which it ends. Ids of 8 bytes, the usual
// length, are written by one store.
#[inline(always)]
pub(crate) fn store_id(out: &mut [u8], at: usize, id: &[u8]) -> usize
    requires few { length id.now ≤ 20 }
    requires room { at + length id.now ≤ length out.old }
    ensures end { result ≡ at + length id.now }
    ensures front { take result out.new ≡ take at out.old ++ id.now }
    ensures back { drop result out.new ≡ drop result out.old }
    ensures len { length out.new ≡ length out.old }
{
    let len = id.len();
    if len == 8 {
        store_whole::<8>(out, at, id)
    } else if len > 16 {
        store_ends::<16>(out, at, id)
    } else if len > 8 {
        store_ends::<8>(out, at, id)
    } else if len >= 4 {
        store_ends::<4>(out, at, id)
    } else if len >= 2 {
        store_ends::<2>(out, at, id)
    } else if len == 1 {
        store_whole::<1>(out, at, id)
    } else {
        at
    }
}

// Stores N bytes.
#[inline(always)]
fn store_whole<const N: usize>(out: &mut [u8], at: usize, bytes: &[u8]) -> usize
    requires many { length bytes.now ≡ N }
    requires room { at + length bytes.now ≤ length out.old }
    ensures end { result ≡ at + length bytes.now }
    ensures front { take result out.new ≡ take at out.old ++ bytes.now }
    ensures back { drop result out.new ≡ drop result out.old }
    ensures len { length out.new ≡ length out.old }
{
    let Some(all) = bytes.first_chunk::<N>() else {
        unreachable!()
    };
    store_array(out, at, *all)
}

/// Stores the low `len` bytes of a number from `at` on, and returns the offset at which they end. The caller must
/// ensure that `len` is 1 to 4, and that there is room.
#[inline(always)]
#[tactic(auto, unfolding(quic_base::specs::Number::bytes_of))]
pub fn store_low(out: &mut [u8], at: usize, number: u64, len: usize) -> usize
    requires some { 1 ≤ len }
    requires few { len ≤ 4 }
    requires room { at + len ≤ length out.old }
    ensures end { result ≡ at + len }
    ensures front { take result out.new ≡ take at out.old ++ bytes_of len number }
    ensures back { drop result out.new ≡ drop result out.old }
    ensures len { length out.new ≡ length out.old }
{
    let [_, _, _, _, first, second, third, fourth] = number.to_be_bytes();
    if len == 2 {
        store_array(out, at, [third, fourth])
    } else if len == 4 {
        store_array(out, at, [first, second, third, fourth])
    } else if len == 1 {
        store_array(out, at, [fourth])
    } else {
        store_array(out, at, [second, third, fourth])
    }
}

/// Stores a truncated packet number from `at` on, and returns the offset at which it ends. The caller must ensure that
/// there is room, and that a `U24` is below 2^24.
#[inline(always)]
#[tactic(auto, using(crate::proofs::Stores::numbers), unfolding(quic_base::specs::Number::bytes_of))]
pub fn store_number(out: &mut [u8], at: usize, number: PacketNumber) -> usize
    requires valid { IsInRange number }
    requires room { at + number_size number ≤ length out.old }
    ensures end { result ≡ at + number_size number }
    ensures front { take result out.new ≡ take at out.old ++ number_bytes number }
    ensures back { drop result out.new ≡ drop result out.old }
    ensures len { length out.new ≡ length out.old }
{
    match number {
        PacketNumber::U8(x) => store_array(out, at, [x]),
        PacketNumber::U16(x) => store_array(out, at, x.to_be_bytes()),
        PacketNumber::U24(x) => {
            let [_, high, middle, low] = x.to_be_bytes();
            store_array(out, at, [high, middle, low])
        }
        PacketNumber::U32(x) => store_array(out, at, x.to_be_bytes()),
    }
}
