//! Whether a packet may carry a frame, by its type or of a frame that was read.
ghost use Rattle.std.specs.Prelude.{◌≡◌, ◌⊎◌, IfSome, IsNone, pos};
ghost use Rattle.quic_c_permitted.specs.Answers.{AnswersFrame, AnswersType, IsPacket, IsSide, answered};

use quic_base::ids::Side;
use quic_frames::frame::Rules;
use quic_permitted::permitted::{Forbidden, PacketType, permits_on, permits_type};
use quic_results::results::Failure;

// The type of packets that a word names.
fn packet_in(word: u32) -> Option<PacketType>
    ensures some { IfSome result (λ packet. IsPacket word packet) }
    ensures none { IsNone result → (packet : PacketType) → IsPacket word packet → ⊥ }
{
    match word {
        0 => Some(PacketType::Initial),
        1 => Some(PacketType::ZeroRtt),
        2 => Some(PacketType::Handshake),
        4 => Some(PacketType::OneRtt),
        _ => None,
    }
}

// The side that a word names.
fn side_in(word: u32) -> Option<Side>
    ensures some { IfSome result (λ side. IsSide word side) }
    ensures none { IsNone result → (side : Side) → IsSide word side → ⊥ }
{
    match word {
        0 => Some(Side::Client),
        1 => Some(Side::Server),
        _ => None,
    }
}

// The number of an outcome.
fn answered(outcome: Result<(), Forbidden>) -> i32
    ensures { result ≡ answered outcome }
{
    match outcome {
        Ok(()) => 0,
        Err(Forbidden::Type) => Failure::FrameType.number(),
        Err(Forbidden::Packet) => Failure::FramePacket.number(),
        Err(Forbidden::Sender) => Failure::FrameSender.number(),
        Err(Forbidden::Stream) => Failure::FrameStream.number(),
    }
}

/// Whether a packet of a type from one side may carry a frame of the type `ty`, asked before the frame's fields are
/// read (RFC 9000, section 12.4, table 3, and section 19). `packet` is 0 for Initial, 1 for 0-RTT, 2 for Handshake, 4
/// for 1-RTT; `sender` is 0 for the client, 1 for the server. With 0x008 in `flags` the types of the ACK frequency
/// extension are unknown. It returns 0; `FrameType` exactly if the type is unknown; else `FramePacket` if such packets
/// may not carry it; else `FrameSender` if that side may not send it, or no such packet. `Kind` exactly if `packet` or
/// `sender` is none of these.
#[unsafe(no_mangle)]
pub extern "C" fn quic_wire_type_permitted_(ty: u64, packet: u32, sender: u32, flags: u32) -> i32
    ensures answers { AnswersType ty packet sender flags result }
{
    let (Some(packet), Some(sender)) = (packet_in(packet), side_in(sender)) else {
        return Failure::Kind.number();
    };
    answered(permits_type(ty, packet, sender, Rules::of_flags(flags)))
}

/// The same of a frame of the kind `ty` that was read; `stream` is the id of the stream that it names, if it names one.
/// It returns `FrameStream` if the frame names a stream on which that side may not send it (RFC 9000, sections 2.1 and
/// 19.4 to 19.13), and what `quic_wire_type_permitted_` returns otherwise.
#[unsafe(no_mangle)]
pub extern "C" fn quic_wire_frame_permitted_(
    ty: u64,
    stream: u64,
    packet: u32,
    sender: u32,
    flags: u32,
) -> i32
    ensures answers { AnswersFrame ty stream packet sender flags result }
{
    let (Some(packet), Some(sender)) = (packet_in(packet), side_in(sender)) else {
        return Failure::Kind.number();
    };
    answered(permits_on(ty, stream, packet, sender, Rules::of_flags(flags)))
}
