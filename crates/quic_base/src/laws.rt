//! Laws of numbers and ids, which no single call states. The functions do nothing at run time.
ghost use Rattle.std.specs.Prelude.{◌≡◌, ◌<◌, ◌≤◌, ◌^◌, ◌/◌, ◌++◌, ◌↔◌, List, ℕ, length, IsTrue};
ghost use Rattle.std.specs.Cmp.{IsTotalOrder};
ghost use Rattle.std.specs.Cmp.Lexicographic.{slice_cmp};
ghost use Rattle.std.specs.Ordering.{nat_cmp};
ghost use Rattle.std.specs.declared.cmp.Ordering.TheVariants.{Less, Equal};
ghost use Rattle.quic_base.specs.Ids.{stream_number, initiator_of, dir_of};
ghost use Rattle.quic_base.specs.Varint.{Encodes, shortest_varint, size};
ghost use Rattle.quic_base.specs.declared.ids.Dir.{Dir};
ghost use Rattle.quic_base.specs.declared.ids.Side.{Side};

use crate::ids::ConnectionId;
use std::hash::Hash;

/// Encodings of numbers below 2^62 (RFC 9000, section 16). A clause of `VarInt::decode` says that decoding the shortest
/// one returns the number and consumes exactly its bytes.
pub fn encodings()
    // The shortest encoding is an encoding, of the stated length.
    ensures shortest { (v : ℕ) → v < 2 ^ 62 → Encodes v (shortest_varint v) }
    ensures length { (v : ℕ) → length (shortest_varint v) ≡ size v }
    // No encoding is a prefix of another, and none encodes two numbers.
    ensures begins_none { (v u : ℕ) (b c r s : List ℕ) → b ++ r ≡ c ++ s → Encodes v b → Encodes u c
        → (v ≡ u) × (b ≡ c) × (r ≡ s) }
    // No encoding is shorter than the shortest, and no other one is as short.
    ensures least { (v : ℕ) (b : List ℕ) → Encodes v b → length (shortest_varint v) ≤ length b }
    ensures alone { (v : ℕ) (b : List ℕ) → Encodes v b → length b ≡ length (shortest_varint v) → b ≡ shortest_varint v }
    // What can be encoded is below 2^62.
    ensures bound { (v : ℕ) (b : List ℕ) → Encodes v b → v < 2 ^ 62 }
{}

/// The number of a stream and its three parts (RFC 9000, section 2.1).
pub fn stream_ids()
    // The parts can be computed from the number, so different parts give different numbers.
    ensures parts { (side : Side) (dir : Dir) (index : ℕ) →
        (initiator_of (stream_number side dir index) ≡ side)
        × (dir_of (stream_number side dir index) ≡ dir)
        × (stream_number side dir index / 4 ≡ index) }
    ensures different { (side other : Side) (dir turned : Dir) (index count : ℕ) →
        stream_number side dir index ≡ stream_number other turned count
        → (side ≡ other) × (dir ≡ turned) × (index ≡ count) }
    // The parts determine the number.
    ensures whole { (n : ℕ) → stream_number (initiator_of n) (dir_of n) (n / 4) ≡ n }
{}

/// How connection ids compare, and how they are hashed.
pub fn connection_ids()
    // Two ids are equal exactly when their bytes are.
    ensures equal { (x y : List ℕ) → IsTrue (⟦<ConnectionId as PartialEq>⟧.eq x y) ↔ (x ≡ y) }
    // Equal ids are hashed alike.
    ensures hashed { (x y : List ℕ) → IsTrue (⟦<ConnectionId as PartialEq>⟧.eq x y)
        → ⟦<ConnectionId as Hash>⟧.hash_input x ≡ ⟦<ConnectionId as Hash>⟧.hash_input y }
    // The order is total, and only equal ids tie.
    ensures total { IsTotalOrder ⟦<ConnectionId as Ord>⟧.cmp }
    ensures ties { (x y : List ℕ) → (⟦<ConnectionId as Ord>⟧.cmp x y ≡ Equal) ↔ (x ≡ y) }
    // A shorter id comes first; the bytes decide between ids of one length.
    ensures shorter { (x y : List ℕ) → length x < length y
        → ⟦<ConnectionId as Ord>⟧.cmp x y ≡ Less }
    ensures as_long { (x y : List ℕ) → length x ≡ length y
        → ⟦<ConnectionId as Ord>⟧.cmp x y ≡ slice_cmp nat_cmp x y }
{}
