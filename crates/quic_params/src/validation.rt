//! Which records a side accepts (RFC 9000, sections 7.4 and 18.2).
ghost use Rattle.std.specs.Prelude.{◌≡◌, ◌↔◌, IsTrue, IfErr, IfSome, MatchResult, None, OnOk};
ghost use Rattle.quic_params.specs.Meaning.{IsValid};
ghost use Rattle.quic_params.specs.Range.{IsRecordInRange, IsEncodableAddress, IsEncodableV4, IsEncodableV6};

use crate::error::Error;
use crate::record::TransportParameters;
use crate::value::PreferredAddress;
use quic_base::ids::Side;
use std::net::{SocketAddrV4, SocketAddrV6};

impl TransportParameters {
    // Whether a side accepts the record: `IllegalValue` if it doesn't.
    pub(crate) fn check(&self, side: Side) -> Result<(), Error>
        ensures { MatchResult result (λ _. IsValid side self.now)
            (λ e. ¬ (IsValid side self.now) × (e ≡ Error.IllegalValue)) }
    {
        if self.ack_delay_exponent.into_inner() > 20 {
            return Err(Error::IllegalValue);
        }
        if self.max_ack_delay.into_inner() >= 1 << 14 {
            return Err(Error::IllegalValue);
        }
        if self.active_connection_id_limit.into_inner() < 2 {
            return Err(Error::IllegalValue);
        }
        if self.max_udp_payload_size.into_inner() < 1200 {
            return Err(Error::IllegalValue);
        }
        if self.initial_max_streams_bidi.into_inner() > 1 << 60 {
            return Err(Error::IllegalValue);
        }
        if self.initial_max_streams_uni.into_inner() > 1 << 60 {
            return Err(Error::IllegalValue);
        }
        if let Some(d) = self.min_ack_delay {
            if d.into_inner() > 1000 * self.max_ack_delay.into_inner() {
                return Err(Error::IllegalValue);
            }
        }
        if let Some(a) = self.preferred_address {
            if a.connection_id.as_slice().is_empty() {
                return Err(Error::IllegalValue);
            }
        }
        match side {
            Side::Client => Ok(()),
            Side::Server => self.check_sent_by_client(),
        }
    }

    // Whether a client may send the record: it has none of the values that only servers send.
    fn check_sent_by_client(&self) -> Result<(), Error>
        ensures ok { OnOk result ((self.now.original_dst_cid ≡ None) × (self.now.preferred_address ≡ None)
            × (self.now.retry_src_cid ≡ None) × (self.now.stateless_reset_token ≡ None)) }
        ensures err { IfErr result (λ e. ¬ (IsValid Side.Server self.now) × (e ≡ Error.IllegalValue)) }
    {
        if self.original_dst_cid.is_some() {
            return Err(Error::IllegalValue);
        }
        if self.preferred_address.is_some() {
            return Err(Error::IllegalValue);
        }
        if self.retry_src_cid.is_some() {
            return Err(Error::IllegalValue);
        }
        if self.stateless_reset_token.is_some() {
            return Err(Error::IllegalValue);
        }
        Ok(())
    }

    /// Whether this side reads the record back from what is written of it: the side accepts it, and its preferred
    /// address has an address, none that is unspecified with port 0, and neither a flow label nor a scope, which are
    /// not written (RFC 9000, section 18.2). It allocates no memory.
    pub fn in_range(&self, side: Side) -> bool
        ensures { IsTrue result ↔ IsRecordInRange side self.now }
    {
        if self.check(side).is_err() {
            return false;
        }
        match &self.preferred_address {
            Some(address) => is_encodable(address),
            None => true,
        }
    }
}

// Whether a preferred address is read back as it is.
fn is_encodable(a: &PreferredAddress) -> bool
    ensures { IsTrue result ↔ IsEncodableAddress a.now }
{
    (a.address_v4.is_some() || a.address_v6.is_some())
        && is_v4_encodable(a.address_v4)
        && is_v6_encodable(a.address_v6)
}

fn is_v4_encodable(address: Option<SocketAddrV4>) -> bool
    ensures { IsTrue result ↔ IfSome address IsEncodableV4 }
{
    match address {
        Some(s) => !s.ip().is_unspecified() || s.port() != 0,
        None => true,
    }
}

fn is_v6_encodable(address: Option<SocketAddrV6>) -> bool
    ensures { IsTrue result ↔ IfSome address IsEncodableV6 }
{
    match address {
        Some(s) => {
            (!s.ip().is_unspecified() || s.port() != 0) && s.flowinfo() == 0 && s.scope_id() == 0
        }
        None => true,
    }
}
