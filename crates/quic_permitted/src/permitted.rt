//! Which packets may carry a frame, and which side may send it: by its type, before its fields are read, and by the
//! whole frame.
ghost use Rattle.std.specs.Prelude.{◌≡◌, ◌↔◌, Some, IsTrue};
ghost use Rattle.quic_frames.specs.Meaning.{meaning_of};
ghost use Rattle.quic_permitted.specs.Permitted.{FrameAnswer, IsFrom, MayBeSentOn, MayCarry, MaySend, StreamAnswer, StreamAnswerBy, TypeAnswer, TypeAnswerBy, by_servers, code_of, in_packets, on_a_stream, permission_by, stream_by};

use quic_base::ids::Side;
use quic_frames::frame::{Frame, Rules};
use quic_frames::transport_error::Code;

/// The types of packets that carry frames (RFC 9000, section 12.4).
#[derive(Clone, Copy, Debug, PartialEq, Eq)]
pub enum PacketType {
    /// Section 17.2.2.
    Initial,
    /// Section 17.2.3.
    ZeroRtt,
    /// Section 17.2.4.
    Handshake,
    /// Section 17.3.1.
    OneRtt,
}

/// The packets that may carry a frame, as RFC 9000 has them in section 12.4, table 3, column "Pkts".
#[derive(Clone, Copy, Debug, PartialEq, Eq)]
pub enum Packets {
    /// `IH01`: all.
    All,
    /// `IH_1`: all except 0-RTT packets.
    NotZeroRtt,
    /// `__01`: 0-RTT and 1-RTT packets.
    ApplicationData,
    /// `___1`: 1-RTT packets.
    OneRtt,
}

/// What a frame that names a stream does there.
#[derive(Clone, Copy, Debug, PartialEq, Eq)]
pub enum Part {
    /// The frame names no stream.
    None,
    /// Its sender sends the stream's data (RFC 9000, sections 19.4, 19.8 and 19.13).
    SendsData,
    /// Its sender receives the stream's data (RFC 9000, sections 19.5 and 19.10).
    ReceivesData,
}

/// Where a frame may be.
#[derive(Clone, Copy, Debug, PartialEq, Eq)]
pub struct Permission {
    /// The packets that may carry it.
    pub packets: Packets,
    /// Only servers send it (RFC 9000, sections 19.7 and 19.20).
    pub only_servers: bool,
    /// What it does on a stream.
    pub part: Part,
}

/// Why a frame may not be where it is.
#[derive(Clone, Copy, Debug, PartialEq, Eq)]
pub enum Forbidden {
    /// Its type is unknown, or belongs to an extension that wasn't negotiated.
    Type,
    /// Packets of this type may not carry it.
    Packet,
    /// This side may not send it, or no packet of this type.
    Sender,
    /// This side may not send it on this stream.
    Stream,
}

impl Forbidden {
    /// The code to close the connection with: `FRAME_ENCODING_ERROR` or `PROTOCOL_VIOLATION` (RFC 9000, section 12.4),
    /// or `STREAM_STATE_ERROR` (sections 19.4 to 19.13).
    pub fn code(self) -> Code
        ensures { result ≡ code_of self }
    {
        match self {
            Forbidden::Type => Code::FRAME_ENCODING_ERROR,
            Forbidden::Packet | Forbidden::Sender => Code::PROTOCOL_VIOLATION,
            Forbidden::Stream => Code::STREAM_STATE_ERROR,
        }
    }
}

impl PacketType {
    /// Whether a packet of this type may carry a frame.
    #[inline(always)]
    pub fn may_carry(self, packets: Packets) -> bool
        ensures { IsTrue result ↔ MayCarry self packets }
    {
        match packets {
            Packets::All => true,
            Packets::NotZeroRtt => self != PacketType::ZeroRtt,
            Packets::ApplicationData => {
                self == PacketType::ZeroRtt || self == PacketType::OneRtt
            }
            Packets::OneRtt => self == PacketType::OneRtt,
        }
    }

    /// Whether packets of this type come from a side: 0-RTT packets are a client's (RFC 9000, section 17.2.3).
    #[inline(always)]
    pub fn is_from(self, sender: Side) -> bool
        ensures { IsTrue result ↔ IsFrom sender self }
    {
        self != PacketType::ZeroRtt || sender == Side::Client
    }
}

// A permission for frames that name no stream.
#[inline(always)]
fn allowed(packets: Packets) -> Permission
    ensures { result ≡ in_packets packets }
{
    Permission {
        packets,
        only_servers: false,
        part: Part::None,
    }
}

// A permission for frames that name a stream.
#[inline(always)]
fn on_streams(part: Part) -> Permission
    ensures { result ≡ on_a_stream Packets.ApplicationData part }
{
    Permission {
        packets: Packets::ApplicationData,
        only_servers: false,
        part,
    }
}

// A permission for frames that only servers send.
#[inline(always)]
fn of_servers() -> Permission
    ensures { result ≡ by_servers Packets.OneRtt }
{
    Permission {
        packets: Packets::OneRtt,
        only_servers: true,
        part: Part::None,
    }
}

impl Permission {
    /// Where frames of a type may be, by the type's number; `None` exactly when the type is unknown. With
    /// `Rules::no_ack_frequency` the types of the ACK frequency extension are unknown. Other rules don't matter.
    pub fn of_type(ty: u64, rules: Rules) -> Option<Permission>
        ensures { result ≡ permission_by rules ty }
    {
        match ty {
            0x00 | 0x01 | 0x1c => Some(allowed(Packets::All)),
            0x02 | 0x03 | 0x06 => Some(allowed(Packets::NotZeroRtt)),
            0x04 | 0x08..=0x0f | 0x15 => Some(on_streams(Part::SendsData)),
            0x05 | 0x11 => Some(on_streams(Part::ReceivesData)),
            0x07 | 0x1e => Some(of_servers()),
            0x10 | 0x12..=0x14 => Some(allowed(Packets::ApplicationData)),
            0x16..=0x1a => Some(allowed(Packets::ApplicationData)),
            0x1d | 0x30 | 0x31 => Some(allowed(Packets::ApplicationData)),
            0x1b => Some(allowed(Packets::OneRtt)),
            0x1f | 0xaf => {
                if rules.no_ack_frequency {
                    None
                } else {
                    Some(allowed(Packets::ApplicationData))
                }
            }
            _ => None,
        }
    }

    /// Whether a side may send a frame.
    #[inline(always)]
    pub fn may_send(self, sender: Side) -> bool
        ensures { IsTrue result ↔ MaySend sender self }
    {
        !self.only_servers || sender == Side::Server
    }

    /// Whether a side may send a frame on a stream: on a unidirectional stream only the side that opened it sends data,
    /// and only the other side receives them (RFC 9000, section 2.1).
    #[inline(always)]
    pub fn may_be_sent_on(self, stream: u64, sender: Side) -> bool
        ensures { IsTrue result ↔ MayBeSentOn stream sender self.part }
    {
        let is_bidirectional = stream / 2 % 2 == 0;
        let is_opener = (stream % 2 == 0) == (sender == Side::Client);
        match self.part {
            Part::None => true,
            Part::SendsData => is_bidirectional || is_opener,
            Part::ReceivesData => is_bidirectional || !is_opener,
        }
    }
}

// The first reason why a packet may not carry a frame with this permission, before its fields are read.
#[inline(always)]
fn permits_by(permission: Permission, packet: PacketType, sender: Side) -> Result<(), Forbidden>
    ensures { TypeAnswerBy (Some permission) packet sender result }
{
    if !packet.may_carry(permission.packets) {
        return Err(Forbidden::Packet);
    }
    if !permission.may_send(sender) || !packet.is_from(sender) {
        return Err(Forbidden::Sender);
    }
    Ok(())
}

// The same of a frame that names this stream, if it names one.
#[inline(always)]
fn permits_there(
    permission: Permission,
    stream: u64,
    packet: PacketType,
    sender: Side,
) -> Result<(), Forbidden>
    ensures { StreamAnswerBy (Some permission) stream packet sender result }
{
    permits_by(permission, packet, sender)?;
    if !permission.may_be_sent_on(stream, sender) {
        return Err(Forbidden::Stream);
    }
    Ok(())
}

/// Whether a packet of a type from one side may carry a frame of the type with this number: asked before the frame's
/// fields are read. The error is the first that applies, in the order of `Forbidden`, and never `Forbidden::Stream`.
pub fn permits_type(
    ty: u64,
    packet: PacketType,
    sender: Side,
    rules: Rules,
) -> Result<(), Forbidden>
    ensures { TypeAnswer rules ty packet sender result }
{
    match Permission::of_type(ty, rules) {
        Some(permission) => permits_by(permission, packet, sender),
        None => Err(Forbidden::Type),
    }
}

/// The same of a frame that was read and names a stream, if `permits_type` permits it at all. Of a frame that names
/// none, `stream` is ignored.
pub fn permits_on(
    ty: u64,
    stream: u64,
    packet: PacketType,
    sender: Side,
    rules: Rules,
) -> Result<(), Forbidden>
    ensures { StreamAnswer rules ty stream packet sender result }
{
    match Permission::of_type(ty, rules) {
        Some(permission) => permits_there(permission, stream, packet, sender),
        None => Err(Forbidden::Type),
    }
}

// The stream that a frame names; 0 for other frames.
fn stream_of(frame: &Frame<'_>) -> u64
    ensures { let meaning = meaning_of frame.now in result ≡ stream_by meaning.name meaning.values }
{
    let id = match frame {
        Frame::ResetStream(reset) => reset.id,
        Frame::StopSending(stop) => stop.id,
        Frame::Stream(stream) => stream.id,
        Frame::MaxStreamData { id, .. } | Frame::StreamDataBlocked { id, .. } => *id,
        _ => return 0,
    };
    u64::from(id)
}

/// Whether a packet of a type from one side may carry a frame. The error is the first that applies, in the order of
/// `Forbidden`.
pub fn permits(
    frame: &Frame<'_>,
    packet: PacketType,
    sender: Side,
    rules: Rules,
) -> Result<(), Forbidden>
    ensures { FrameAnswer rules (meaning_of frame.now) packet sender result }
{
    permits_on(
        frame.ty().into_inner(),
        stream_of(frame),
        packet,
        sender,
        rules,
    )
}
