//! Which packets may carry a frame, and what else RFC 9000, section 12.4, says of its kind.
ghost use Rattle.std.specs.Prelude.{◌≡◌, ◌<◌, true};
ghost use Rattle.quic_frame_fields.specs.Table.{row_of};
ghost use Rattle.quic_c_permitted.specs.Rules.{is_kind, pkts, rules_of, spec_of};

use quic_frames::frame::Rules;
use quic_permitted::permitted::{Packets, Permission};

// What a kind of frame is: not ack-eliciting, not counted as in flight, probing, flow controlled.
const NOT_ELICITING: u32 = 0x100;

const NOT_COUNTED: u32 = 0x200;

const PROBING: u32 = 0x400;

const FLOW_CONTROLLED: u32 = 0x800;

// A bit for each kind of packet that may carry a frame: Initial, Handshake, 0-RTT, 1-RTT.
fn packet_bits(packets: Packets) -> u32
    ensures bits { result ≡ pkts packets }
    ensures small { result < 0x100 }
{
    match packets {
        Packets::All => 0x17,
        Packets::NotZeroRtt => 0x15,
        Packets::ApplicationData => 0x12,
        Packets::OneRtt => 0x10,
    }
}

// What a kind of frame is besides.
fn spec_bits(kind: u32) -> u32
    requires { is_kind kind ≡ true }
    ensures bits { result ≡ spec_of (row_of kind) }
    ensures small { result < 0x1000 }
{
    match kind {
        0x00 => NOT_ELICITING + PROBING,
        0x02 => NOT_ELICITING + NOT_COUNTED,
        0x08 => FLOW_CONTROLLED,
        0x18 | 0x1a | 0x1b => PROBING,
        0x1c | 0x1d => NOT_ELICITING,
        _ => 0,
    }
}

// Whether the number is a kind's, if it is a type: each kind has the number of its first type.
fn is_kind(ty: u32) -> bool
    ensures { result ≡ is_kind ty }
{
    !matches!(ty, 0x03 | 0x09..=0x0f | 0x31)
}

/// What RFC 9000, section 12.4, table 3 says of a kind of frame, as bits; 0 for what is no kind.
#[unsafe(no_mangle)]
pub extern "C" fn quic_wire_frame_rules_(kind: u32) -> u32
    ensures { result ≡ rules_of kind }
{
    if !is_kind(kind) {
        return 0;
    }
    match Permission::of_type(u64::from(kind), Rules::default()) {
        Some(permission) => packet_bits(permission.packets) + spec_bits(kind),
        None => 0,
    }
}
