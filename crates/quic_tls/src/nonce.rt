//! The nonce with which a packet is sealed and opened.
ghost use Rattle.std.specs.Prelude.{◌≡◌};
ghost use Rattle.quic_tls.specs.Nonce.{nonce_of};

/// The nonce of a packet, by the iv of its keys and its number, whole (RFC 9001, section 5.3).
#[tactic(auto, unfolding(quic_base::specs::Number::bytes_of))]
pub fn nonce(iv: [u8; 12], number: u64) -> [u8; 12]
    ensures { result ≡ nonce_of iv number }
{
    let [a, b, c, d, e, f, g, h] = number.to_be_bytes();
    let [i0, i1, i2, i3, i4, i5, i6, i7, i8, i9, i10, i11] = iv;
    let zero = 0;
    [
        i0 ^ zero,
        i1 ^ zero,
        i2 ^ zero,
        i3 ^ zero,
        i4 ^ a,
        i5 ^ b,
        i6 ^ c,
        i7 ^ d,
        i8 ^ e,
        i9 ^ f,
        i10 ^ g,
        i11 ^ h,
    ]
}
