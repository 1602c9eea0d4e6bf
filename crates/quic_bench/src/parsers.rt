//! Parsers of connection ids as endpoints may bring them.
ghost use Rattle.std.specs.Prelude.{false, true};
ghost use Rattle.quic_header_decode.specs.Parsers.{fixed_parsed, fixed_lawful};
ghost use Rattle.quic_bench.specs.Parsers.{none_parsed, none_lawful, self_sized_parsed, self_sized_lawful};

use quic_base::coding::Cursor;
use quic_base::ids::ConnectionId;
use quic_packets::packet::{ConnectionIdParser, PacketDecodeError};

/// Ids of no bytes, as an endpoint has that knows its peers by their addresses.
#[derive(Clone, Copy, Debug)]
pub struct NoIds;

impl ConnectionIdParser for NoIds {
    ghost parsed = { λ _ bytes. none_parsed bytes };

    ghost takes_memory = { λ _. false };

    ghost lawful = { λ _ bytes. none_lawful bytes };

    fn parse(&self, _buf: &mut Cursor) -> Result<ConnectionId, PacketDecodeError> {
        Ok(ConnectionId::new(&[]))
    }
}

/// Ids of 20 bytes, the greatest length.
#[derive(Clone, Copy, Debug)]
pub struct LongIds;

impl ConnectionIdParser for LongIds {
    ghost parsed = { λ _ bytes. fixed_parsed 20 bytes };

    ghost takes_memory = { λ _. false };

    ghost lawful = { λ _ bytes. fixed_lawful 20 bytes };

    fn parse(&self, buf: &mut Cursor) -> Result<ConnectionId, PacketDecodeError> {
        let Some(id) = buf.rest().first_chunk::<20>() else {
            return Err(PacketDecodeError::InvalidHeader("packet too small"));
        };
        let id = ConnectionId::new(id);
        buf.advance(20);
        Ok(id)
    }
}

/// Ids whose first byte is their length, from 1 to 20, that byte included.
#[derive(Clone, Copy, Debug)]
pub struct SelfSized;

impl ConnectionIdParser for SelfSized {
    ghost parsed = { λ _ bytes. self_sized_parsed bytes };

    ghost takes_memory = { λ _. false };

    ghost lawful = { λ _ bytes. self_sized_lawful bytes };

    fn parse(&self, buf: &mut Cursor) -> Result<ConnectionId, PacketDecodeError> {
        let rest = buf.rest();
        let Some(size) = rest.first() else {
            return Err(PacketDecodeError::InvalidHeader("bad id"));
        };
        let size = *size as usize;
        if size == 0 || size > 20 || rest.len() < size {
            return Err(PacketDecodeError::InvalidHeader("bad id"));
        }
        let id = ConnectionId::new(&rest[..size]);
        buf.advance(size);
        Ok(id)
    }
}

/// Always returns that memory ran out.
#[derive(Clone, Copy, Debug)]
pub struct WithoutMemory;

impl ConnectionIdParser for WithoutMemory {
    ghost parsed = { λ _ bytes. none_parsed bytes };

    ghost takes_memory = { λ _. true };

    ghost lawful = { λ _ bytes. none_lawful bytes };

    fn parse(&self, _buf: &mut Cursor) -> Result<ConnectionId, PacketDecodeError> {
        Err(PacketDecodeError::OutOfMemory)
    }
}
