//! The value of a preferred address by itself (RFC 9000, section 18.2).
ghost use Rattle.std.specs.Prelude.{◌≡◌, ◌⊎◌, pos, Err, Ok};
ghost use Rattle.quic_params.specs.Value.{IsAddressAnswer};
ghost use Rattle.quic_params.specs.declared.error.Error.{Error};
ghost use Rattle.quic_params.specs.declared.value.PreferredAddress.{PreferredAddress};
ghost use Rattle.quic_c_params.specs.Addresses.{AddressNeedsMore, DescribesAddress, GivesAddress, WroteAddress};
ghost use Rattle.quic_c_params.specs.Answers.{failure_of};
ghost use Rattle.quic_results.specs.Results.{failed};

use crate::read::failure_of;
use crate::show::show;
use crate::words::CParams;
use crate::write::{described, flags_in};
use quic_base::ids::Side;
use quic_params::transport_parameters::{PreferredAddress, TransportParameters};
use quic_results::results::Failure;

// The struct of a record of which only the address isn't as by default.
fn show_address(address: PreferredAddress) -> CParams
    ensures { GivesAddress address result }
{
    let mut params = TransportParameters::default();
    params.preferred_address = Some(address);
    show(&params)
}

/// Reads the value of a preferred address, all of these bytes, as a client gets it (RFC 9000, section 18.2). It returns
/// 0 with the struct of parameters that have this address and else only defaults; `ParametersIllegal` if it
/// has neither an address of IPv4 nor one of IPv6, or no connection id, and `ParametersMalformed` if the bytes are no
/// such value. Nothing changes then.
#[unsafe(no_mangle)]
pub extern "C" fn quic_wire_preferred_address_read_(bytes: &[u8], out: &mut CParams) -> i32
    ensures { (result ≡ pos 0) × ((address : PreferredAddress) × IsAddressAnswer bytes.now (Ok address) × GivesAddress address out.new)
        ⊎ ((error : Error) × (result ≡ failed (failure_of error)) × IsAddressAnswer bytes.now (Err error)
        × (out.new ≡ out.old)) }
{
    match PreferredAddress::decode(bytes) {
        Ok(address) => {
            *out = show_address(address);
            0
        }
        Err(error) => failure_of(error).number(),
    }
}

/// Writes the value of the preferred address in a struct at the front of `dest` (RFC 9000, section 18.2). It returns 0
/// with how many bytes were written, and the bytes after them don't change; `NoRoom` with how many are needed if `dest`
/// has fewer; `Parameter` if the struct has no preferred address, or a client wouldn't read the struct back, as
/// `quic_wire_params_write_` says. `dest` changes only with 0, and `written` only with 0 and `NoRoom`.
#[unsafe(no_mangle)]
pub extern "C" fn quic_wire_preferred_address_write_(
    words: &CParams,
    dest: &mut [u8],
    written: &mut usize,
) -> i32
    ensures returns { (result ≡ pos 0) ⊎ (result ≡ failed Failure.NoRoom) ⊎ (result ≡ failed Failure.Parameter) }
    ensures wrote { result ≡ pos 0 → WroteAddress words.now dest.old dest.new written.new }
    ensures room { result ≡ failed Failure.NoRoom → AddressNeedsMore words.now dest.old written.new }
    ensures refused { result ≡ failed Failure.Parameter
        → (address : PreferredAddress) → DescribesAddress words.now address → ⊥ }
    ensures kept { result ≡ failed Failure.Parameter → written.new ≡ written.old }
    ensures same { (result ≡ pos 0) ⊎ (dest.new ≡ dest.old) }
{
    let has_address = flags_in(words.present).address;
    if !has_address {
        return Failure::Parameter.number();
    }
    let Some(params) = described(Side::Client, words) else {
        return Failure::Parameter.number();
    };
    let Some(address) = params.preferred_address else {
        unreachable!();
    };
    match address.encode_into(dest) {
        Ok(n) => {
            *written = n;
            0
        }
        Err(n) => {
            *written = n;
            Failure::NoRoom.number()
        }
    }
}
