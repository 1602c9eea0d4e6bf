//! Lists of transport parameters, and parameters that are remembered: what callers learn from the contracts and the
//! laws.
ghost use Rattle.std.specs.Prelude.{◌≡◌, ◌<◌, IfSome, OnOk, Ok, Some, List, ◌∷◌, length, slice_get};
ghost use Rattle.quic_params.specs.Entry.{Entry};
ghost use Rattle.quic_params.specs.Further.{IsRecordOf};
ghost use Rattle.quic_params.specs.Meaning.{IsReadAnswer};
ghost use Rattle.quic_params.specs.Options.{as_quinn};
ghost use Rattle.quic_params.specs.Resumption.{Resumes};
ghost use Rattle.quic_params.specs.Table.{ids};
ghost use Rattle.quic_params.specs.declared.record.TransportParameters.{TransportParameters};

use quic_base::ids::Side;
use quic_frames::transport_error::Error;
use quic_params::laws;
use quic_params::transport_parameters::{TransportParameterId, TransportParameters, split_entry};

/// The number of the first entry of a list that a side accepts, of a known parameter or another: `None` if the side
/// rejects the list, or it has no entry. What the record has came from that entry and the ones after it.
pub fn first_read(side: Side, list: &[u8]) -> Option<u64>
    ensures { IfSome result (λ number. (p : TransportParameters) × (first : Entry) × (others : List Entry)
        × IsReadAnswer as_quinn side list.now (Ok p) × (first.number ≡ number) × IsRecordOf (first ∷ others) p) }
{
    laws::entries();
    let mut rest = list;
    let Ok(_record) = TransportParameters::read(side, &mut rest) else {
        return None;
    };
    let (number, _, _) = split_entry(list)?;
    Some(number)
}

/// Whether the second parameters keep what is remembered of the first, and the third of the second. Then the third
/// keep what is remembered of the first, which isn't tested again.
pub fn kept_twice(
    first: &TransportParameters,
    second: &TransportParameters,
    third: &TransportParameters,
) -> Result<(), Error>
    ensures { OnOk result (Resumes first.now third.now) }
{
    laws::resumption();
    second.validate_resumption_from(first)?;
    third.validate_resumption_from(second)
}

/// Parameters keep what is remembered of themselves.
pub fn keeps_itself(params: &TransportParameters) {
    laws::resumption();
    match params.validate_resumption_from(params) {
        Ok(()) => {}
        Err(_) => unreachable!(),
    }
}

/// The parameter that is written at an index, counted from 0 and below 21.
pub fn written_at(place: usize) -> TransportParameterId
    requires { place < length ids }
    ensures { slice_get ids place ≡ Some result }
{
    laws::supported();
    TransportParameterId::SUPPORTED[place]
}
