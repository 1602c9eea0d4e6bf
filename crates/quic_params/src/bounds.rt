//! The bounds that the types of a record's fields set.
ghost use Rattle.std.specs.Prelude.{◌≤◌, IfSome, length};
ghost use Rattle.std.specs.Net.Socket.{IsSocketAddrV4, IsSocketAddrV6};
ghost use Rattle.quic_base.specs.Number.{AreBytes};
ghost use Rattle.quic_params.specs.Order.{IsOrder};
ghost use Rattle.quic_params.specs.Range.{IsTypedRecord, IsTypedAddress, IsFree};

use crate::order::WriteOrder;
use crate::parameter::TransportParameterId;
use crate::record::TransportParameters;
use crate::reserved::ReservedTransportParameter;
use crate::value::PreferredAddress;
use quic_base::ids::{ConnectionId, MAX_CID_SIZE};
use std::net::{SocketAddrV4, SocketAddrV6};

impl TransportParameters {
    /// Proves that each field is within its type's bound. It does nothing at run time.
    pub fn type_bounds(&self)
        ensures { IsTypedRecord self.now }
    {
        for id in TransportParameterId::SUPPORTED {
            let _value = self.get(id);
        }
        grease_bounds(self.grease_transport_parameter);
        order_bounds(self.write_order);
    }
}

impl PreferredAddress {
    // The bounds that the types of the parts set.
    pub(crate) fn type_bounds(&self)
        ensures { IsTypedAddress self.now }
    {
        v4_bounds(self.address_v4);
        v6_bounds(self.address_v6);
        id_bounds(&self.connection_id);
        let _token = self.stateless_reset_token.as_slice();
    }
}

fn id_bounds(id: &ConnectionId)
    ensures bytes { AreBytes id.now }
    ensures short { length id.now ≤ MAX_CID_SIZE }
{
    are_bytes(id.as_slice());
}

// Each element is a byte.
fn are_bytes(bytes: &[u8])
    ensures { AreBytes bytes.now }
{}

fn v4_bounds(address: Option<SocketAddrV4>)
    ensures { IfSome address IsSocketAddrV4 }
{
    if let Some(address) = address {
        let octets: [u8; 4] = address.ip().octets();
        are_bytes(&octets);
        let _port = address.port();
    }
}

fn v6_bounds(address: Option<SocketAddrV6>)
    ensures { IfSome address IsSocketAddrV6 }
{
    if let Some(address) = address {
        let _segments: [u16; 8] = address.ip().segments();
        let _port = address.port();
        let _scope = address.scope_id();
    }
}

fn grease_bounds(grease: Option<ReservedTransportParameter>)
    ensures { IfSome grease IsFree }
{
    if let Some(grease) = grease {
        let _number = grease.number().into_inner();
        let _payload = grease.payload();
    }
}

fn order_bounds(order: Option<WriteOrder>)
    ensures { IfSome order IsOrder }
{
    if let Some(order) = order {
        let _indices = order.indices();
    }
}
