//! What QUIC_WIRE_READ_RFC means. The functions do nothing at run time.
ghost use Rattle.std.specs.Prelude.{◌≡◌, false};
ghost use Rattle.quic_c_words.specs.Shown.{rules_in};

use quic_frames::frame::Rules;

/// The flags are the rules of RFC 9000 for a receiver that hasn't negotiated the ACK frequency extension; without
/// 0x008, for one that has.
pub fn rfc_flags()
    ensures all { rules_in 0x3ef ≡ Rules.RFC }
    ensures negotiated { rules_in 0x3e7 ≡ record Rules.RFC { no_ack_frequency = false } }
{}
