//! Whether stateless reset tokens are equal.
ghost use Rattle.std.specs.Prelude.{◌≡◌, ◌↔◌, ◌⊎◌, length};

use quic_base::ids::{RESET_TOKEN_SIZE, ResetToken};

/// Whether two stateless reset tokens are equal: 1 exactly if both have 16 bytes, and the same ones; else 0. The
/// comparison runs the same instructions for all tokens (RFC 9000, section 10.3.1), which is tested and not proved.
#[unsafe(no_mangle)]
pub extern "C" fn quic_wire_reset_token_equal_(token: &[u8], other: &[u8]) -> u32
    ensures either { (result ≡ 0) ⊎ (result ≡ 1) }
    ensures equal { (result ≡ 1) ↔ ((length token.now ≡ RESET_TOKEN_SIZE) × (token.now ≡ other.now)) }
{
    let (Ok(token), Ok(other)) = (
        <[u8; RESET_TOKEN_SIZE]>::try_from(token),
        <[u8; RESET_TOKEN_SIZE]>::try_from(other),
    ) else {
        return 0;
    };
    if ResetToken::from(token) == ResetToken::from(other) {
        1
    } else {
        0
    }
}
