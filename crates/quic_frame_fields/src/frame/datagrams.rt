//! Writes DATAGRAM frames (RFC 9221, section 4).
ghost use Rattle.std.specs.Prelude.{◌≡◌, ◌<◌, ◌≤◌, ◌+◌, ◌^◌, ◌++◌, length, not, true, IsOk, OnOk, OnErr, vec_len, vec_capacity};
ghost use Rattle.quic_frame_fields.specs.Parts.{datagram_meaning};
ghost use Rattle.quic_frame_fields.specs.Shortest.{shortest_frame};

use super::{Datagram, write};
use quic_base::coding::NoRoom;

impl Datagram<'_> {
    /// Appends the frame, with the length of its data if `with_length` is set. A frame without it must be the last of
    /// its payload. The call reserves room for `size` bytes at once, which can't fail if there is spare room for them.
    /// Returns `NoRoom` if that fails; `out` doesn't change then. The caller must ensure that the data has fewer than
    /// 2^62 bytes if its length is written.
    #[tactic(auto, using(crate::proofs::Encoding::datagram_counted))]
    pub fn encode(&self, with_length: bool, out: &mut Vec<u8>) -> Result<(), NoRoom>
        requires { with_length ≡ true → length self.now.bytes.now < 2 ^ 62 }
        ensures ok { OnOk result (out.new.items ≡ out.old.items
            ++ shortest_frame (not with_length) (datagram_meaning self.now)) }
        ensures err { OnErr result (out.new.items ≡ out.old.items) }
        ensures capacity { OnErr result (vec_capacity out.new ≡ vec_capacity out.old) }
        ensures room { vec_len out.old + length
            (shortest_frame (not with_length) (datagram_meaning self.now)) ≤ vec_capacity out.old → IsOk result }
    {
        if with_length {
            let numbers = [0x31, self.bytes.len() as u64];
            write::append(out, &numbers, self.bytes)
        } else {
            write::append(out, &[0x30], self.bytes)
        }
    }

    /// How many bytes `encode` appends. The caller must ensure that the data has fewer than 2^62 bytes if its length is
    /// written.
    #[tactic(auto, using(crate::proofs::Encoding::datagram_counted_length, crate::proofs::Encoding::datagram_open_length))]
    pub fn size(&self, with_length: bool) -> usize
        requires { with_length ≡ true → length self.now.bytes.now < 2 ^ 62 }
        ensures { result ≡ length (shortest_frame (not with_length) (datagram_meaning self.now)) }
    {
        if with_length {
            write::numbers_len(&[0x31, self.bytes.len() as u64]) as usize + self.bytes.len()
        } else {
            write::numbers_len(&[0x30]) as usize + self.bytes.len()
        }
    }
}
