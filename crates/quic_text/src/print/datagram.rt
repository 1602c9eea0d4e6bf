//! What is printed of a datagram's packets.
ghost use Rattle.std.specs.Prelude.{◌≡◌, ◌≢◌, ◌++◌, OnOk, codes, false};
ghost use Rattle.std.specs.Fmt.{decimal, digits};
ghost use Rattle.std.specs.String.{string_bytes};
ghost use Rattle.quic_text.specs.Printed.{Error, line_bytes};
ghost use Rattle.quic_text.specs.DatagramText.{datagram_lines, header_text, id_or_dash, long_text, packet_line, eight_digits, refusal_text};
ghost use Rattle.quic_header_decode.specs.Refusal.{NoMemory, refusal_of};
ghost use Rattle.quic_text.specs.IdLens.{count};
ghost use Rattle.quic_text.specs.Whole.{PrintsLines};

use crate::engine::RunError;
use crate::id_len::IdLen;
use crate::output::pass_on_pieces;
use crate::transfer::Sink;
use bytes::BytesMut;
use quic_base::ids::{ConnectionId, DEFAULT_SUPPORTED_VERSIONS};
use quic_header_decode::cut::PartialDecode;
use quic_header_decode::decode_error::PacketDecodeError;
use quic_header_decode::parser::FixedLengthConnectionIdParser;
use quic_header_decode::protected::ProtectedHeader;
use quic_header_encode::long_type::LongType;
use std::alloc::{AllocError, Global};

// Prints a line for each packet, and an `error` line if the rest is rejected. Ids of short headers have the given
// length.
pub(super) fn print_datagram<W: Sink>(
    alloc: Global,
    id_len: IdLen,
    datagram: &[u8],
    text: &mut String,
    sink: &mut W,
) -> Result<bool, RunError>
    ensures { PrintsLines W.taken W.has_failed (datagram_lines (count id_len) datagram.now) sink.old sink.new
        text.old text.new result }
{
    let parser = FixedLengthConnectionIdParser::new(id_len.get());
    let mut left = BytesMut::copy_from_slice(alloc, datagram)?;
    let mut start = 0;
    loop {
        pass_on_pieces(text, sink)?;
        match PartialDecode::new(left, &parser, DEFAULT_SUPPORTED_VERSIONS, false) {
            Ok((packet, rest)) => {
                let end = start + packet.len();
                print_packet(start, end, packet.header(), text)?;
                match rest {
                    Some(rest) => {
                        left = rest;
                        start = end;
                    }
                    None => return Ok(true),
                }
            }
            Err(error) => {
                print_refusal(&error, text)?;
                return Ok(false);
            }
        }
    }
}

// The line of a packet.
fn print_packet(
    start: usize,
    end: usize,
    head: &ProtectedHeader,
    text: &mut String,
) -> Result<(), AllocError>
    ensures { OnOk result (string_bytes text.new ≡ string_bytes text.old
        ++ line_bytes (packet_line (record { start = start; stop = end; header = head.now }))) }
{
    write!(text, "{start}..{end} ")?;
    print_header(head, text)?;
    text.push('\n')
}

// The fields of a header.
fn print_header(head: &ProtectedHeader, text: &mut String) -> Result<(), AllocError>
    ensures { OnOk result (string_bytes text.new ≡ string_bytes text.old ++ header_text head.now) }
{
    match head {
        ProtectedHeader::Initial(initial) => {
            print_long(
                "initial",
                &initial.dst_cid,
                &initial.src_cid,
                initial.version,
                text,
            )?;
            print_token(initial.token_pos.start, initial.token_pos.end, text)?;
        }
        ProtectedHeader::Long {
            ty,
            dst_cid,
            src_cid,
            version,
            ..
        } => {
            let kind = match ty {
                LongType::Handshake => "handshake",
                LongType::ZeroRtt => "0rtt",
            };
            print_long(kind, dst_cid, src_cid, *version, text)?;
        }
        ProtectedHeader::Retry {
            dst_cid,
            src_cid,
            version,
        } => print_long("retry", dst_cid, src_cid, *version, text)?,
        ProtectedHeader::Short { dst_cid, .. } => {
            text.push_str("short dst ")?;
            print_id(dst_cid, text)?;
        }
        ProtectedHeader::VersionNegotiate {
            dst_cid,
            src_cid,
            ..
        } => print_long("version-negotiation", dst_cid, src_cid, 0, text)?,
    }
    Ok(())
}

// The byte range of an Initial packet's token in the packet.
fn print_token(start: usize, end: usize, text: &mut String) -> Result<(), AllocError>
    ensures { OnOk result (string_bytes text.new ≡ string_bytes text.old
        ++ (codes " token " ++ decimal start ++ codes ".." ++ decimal end)) }
{
    write!(text, " token {start}..{end}")
}

// The fields that every long header has.
fn print_long(
    kind: &str,
    dst_cid: &ConnectionId,
    src_cid: &ConnectionId,
    version: u32,
    text: &mut String,
) -> Result<(), AllocError>
    ensures { OnOk result (string_bytes text.new ≡ string_bytes text.old
        ++ long_text kind.now dst_cid.now src_cid.now version) }
{
    write!(text, "{kind} dst ")?;
    print_id(dst_cid, text)?;
    text.push_str(" src ")?;
    print_id(src_cid, text)?;
    print_version(version, text)
}

// A version in eight hexadecimal digits.
fn print_version(version: u32, text: &mut String) -> Result<(), AllocError>
    ensures { OnOk result (string_bytes text.new ≡ string_bytes text.old
        ++ (codes " version " ++ eight_digits version)) }
{
    write!(text, " version {version:08x}")
}

// An id in hexadecimal, and an empty one as a dash.
fn print_id(id: &ConnectionId, text: &mut String) -> Result<(), AllocError>
    ensures { OnOk result (string_bytes text.new ≡ string_bytes text.old ++ id_or_dash id.now) }
{
    if id.as_slice().is_empty() {
        text.push_str("-")?;
    } else {
        write!(text, "{id}")?;
    }
    Ok(())
}

// The `error` line of a packet that is rejected.
fn print_refusal(error: &PacketDecodeError, text: &mut String) -> Result<(), AllocError>
    ensures bytes { OnOk result
        (string_bytes text.new ≡ string_bytes text.old ++ line_bytes (Error (refusal_text (refusal_of error.now)))) }
    ensures memory { OnOk result (refusal_of error.now ≢ NoMemory) }
{
    match error {
        PacketDecodeError::InvalidHeader(reason) => writeln!(text, "error {reason}"),
        PacketDecodeError::UnsupportedVersion { version, .. } => print_unsupported(*version, text),
        PacketDecodeError::OutOfMemory => Err(AllocError),
    }
}

// The `error` line of a version that is not supported.
fn print_unsupported(version: u32, text: &mut String) -> Result<(), AllocError>
    ensures { OnOk result (string_bytes text.new ≡ string_bytes text.old
        ++ line_bytes (Error (codes "unsupported version " ++ digits 16 false version))) }
{
    writeln!(text, "error unsupported version {version:x}")
}
