//! Lists of transport parameters that are written again: what callers learn from the law on their lengths.
ghost use Rattle.std.specs.Prelude.{◌≡◌, ◌≤◌, IfSome, Ok, length};
ghost use Rattle.quic_params.specs.Meaning.{IsReadAnswer};
ghost use Rattle.quic_params.specs.Options.{as_quinn};
ghost use Rattle.quic_params.specs.Writing.{written};
ghost use Rattle.quic_params.specs.declared.record.TransportParameters.{TransportParameters};

use quic_base::ids::Side;
use quic_params::laws;
use quic_params::transport_parameters::TransportParameters;
use std::alloc::Global;

/// Reads a list that the side received, and writes its record again, in no more bytes than the list has. `None` if the
/// list is rejected or memory runs out.
pub fn shortened(alloc: Global, side: Side, list: &[u8]) -> Option<Vec<u8>>
    ensures { IfSome result (λ out. (p : TransportParameters) × IsReadAnswer as_quinn side list.now (Ok p)
        × (out.items ≡ written p) × (length out.items ≤ length list.now)) }
{
    laws::shortest();
    let mut rest = list;
    let Ok(params) = TransportParameters::read(side, &mut rest) else {
        return None;
    };
    let mut out = Vec::new(alloc);
    let Ok(()) = params.write(&mut out) else {
        return None;
    };
    Some(out)
}
