//! Numbers in an array, and the bit of a direction.
ghost use Rattle.std.specs.Prelude.{◌≡◌, ◌≤◌, length, take};
ghost use Rattle.quic_base.specs.Ids.{dir_number};

use quic_base::ids::Dir;

/// Numbers in front of zeros, and how many they are.
pub(super) fn padded(numbers: &[u64]) -> ([u64; 5], usize)
    requires { length numbers.now ≤ 5 }
    ensures few { result.1 ≤ 5 }
    ensures numbers { take result.1 result.0 ≡ numbers.now }
{
    let mut array = [0; 5];
    array[..numbers.len()].copy_from_slice(numbers);
    (array, numbers.len())
}

/// The bit of a direction in the types of MAX_STREAMS and STREAMS_BLOCKED.
pub(super) fn bit_of(dir: Dir) -> u64
    ensures { result ≡ dir_number dir }
{
    match dir {
        Dir::Bi => 0,
        Dir::Uni => 1,
    }
}
