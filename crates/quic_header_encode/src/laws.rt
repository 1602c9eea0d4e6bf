//! Laws of written headers, which no single call states. The function does nothing at run time.
ghost use Rattle.std.specs.Prelude.{◌≡◌, ◌+◌, ◌-◌, ◌++◌, List, ℕ, IsTrue, length, replicate};
ghost use Rattle.quic_base.specs.Varint.{encoding_in};
ghost use Rattle.quic_header_encode.specs.Writing.{begun_by, with_len};
ghost use Rattle.quic_header_encode.specs.Writing.{has_length, header_bytes, header_size, header_with, size_in, with_length};

use crate::header::Header;

/// A header whose length is filled in after the payload was appended equals a header that is written with its length at
/// once. The length counts the bytes of the number and of the payload.
pub fn length_later()
    // By `PartialEncode::finish`.
    ensures finished { (h : Header) (body : List ℕ) → IsTrue (has_length h)
        → with_length (size_in h) (has_length h) (header_size h) (header_bytes h ++ body)
        ≡ header_with (encoding_in 2 (size_in h + length body)) h ++ body }
    // By `set_len`, whatever the header's first byte is.
    ensures set { (h : Header) (first width : ℕ) (body : List ℕ) → IsTrue (has_length h)
        → with_len width (length (header_with (replicate width 0) h) - size_in h)
        (begun_by first (header_with (replicate width 0) h) ++ body)
        ≡ begun_by first (header_with (encoding_in width (size_in h + length body)) h) ++ body }
{}
