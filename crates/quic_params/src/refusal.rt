//! At which entry a list is rejected.
ghost use Rattle.std.specs.Prelude.{◌≡◌, ◌+◌, ◌*◌, List, Bool, Option, Result, Ok, Err, cond, MatchResult, Some};
ghost use Rattle.quic_params.specs.Answer.{absent_at, address_at, delay_at, rules};
ghost use Rattle.quic_params.specs.Entry.{Entry};
ghost use Rattle.quic_params.specs.Further.{AreInOrder, HasEntryNumber};
ghost use Rattle.quic_params.specs.Meaning.{IsMeant, IsReadAnswer, IsValid};
ghost use Rattle.quic_params.specs.Refusal.{IsLastEntry, IsPlacedAnswer, IsRefusedEntry, IsRefusedFrom, IsRefusedRecord, first_broken};

use crate::error::{Error, Refusal};
use crate::options::ReadOptions;
use crate::parameter::TransportParameterId;
use crate::reading::{read_entries, split_entry};
use crate::record::TransportParameters;
use crate::value::PreferredAddress;
use quic_base::coding::BufExt;
use quic_base::ids::{ConnectionId, ResetToken, Side};
use quic_base::varint::VarInt;

// What is reported of a rejected entry, which begins so many bytes before the end of the list.
fn refused_entry(options: ReadOptions, list: &[u8], error: Error, left: usize) -> Refusal
    requires { IsRefusedFrom options list.now error left }
    ensures { IsRefusedEntry options list.now result }
{
    let offset = list.len() - left;
    let mut rest = &list[offset..];
    let id = match rest.get_var() {
        Ok(number) => Some(number),
        Err(_) => None,
    };
    Refusal { error, id, offset }
}

// The offset of the last entry of a number, in a list that has one.
fn last_entry(list: &[u8], number: u64) -> usize
    requires { (entries : List Entry) × AreInOrder entries list.now × HasEntryNumber number entries }
    ensures { IsLastEntry number result list.now }
{
    let mut found = None;
    let mut rest = list;
    'entries: while let Some((other, _, behind)) = split_entry(rest) {
        if other == number {
            found = Some(list.len() - rest.len());
        }
        rest = behind;
    }
    match found {
        Some(offset) => offset,
        None => unreachable!(),
    }
}

// The parameter of a rule that isn't kept, or else that of the rules after it.
fn or_broken(
    id: TransportParameterId,
    kept: bool,
    others: Option<TransportParameterId>,
) -> Option<TransportParameterId>
    ensures { result ≡ cond kept others (Some id) }
{
    if kept { others } else { Some(id) }
}

fn is_delay_kept(delay: Option<VarInt>, max_ack_delay: VarInt) -> bool
    ensures { result ≡ delay_at delay (1000 * max_ack_delay) }
{
    match delay {
        Some(delay) => u128::from(delay.into_inner())
            <= 1000 * u128::from(max_ack_delay.into_inner()),
        None => true,
    }
}

fn is_address_kept(address: &Option<PreferredAddress>) -> bool
    ensures { result ≡ address_at address.now }
{
    match address {
        Some(address) => !address.connection_id.as_slice().is_empty(),
        None => true,
    }
}

fn is_id_kept(side: Side, id: &Option<ConnectionId>) -> bool
    ensures { result ≡ absent_at side id.now }
{
    match side {
        Side::Client => true,
        Side::Server => id.is_none(),
    }
}

fn is_token_kept(side: Side, token: &Option<ResetToken>) -> bool
    ensures { result ≡ absent_at side token.now }
{
    match side {
        Side::Client => true,
        Side::Server => token.is_none(),
    }
}

fn is_no_address_kept(side: Side, address: &Option<PreferredAddress>) -> bool
    ensures { result ≡ absent_at side address.now }
{
    match side {
        Side::Client => true,
        Side::Server => address.is_none(),
    }
}

impl TransportParameters {
    /// The first parameter whose value the side doesn't accept, in the order in which values are validated; `None` if
    /// it accepts the record (RFC 9000, section 18.2). It doesn't allocate.
    pub fn broken(&self, side: Side) -> Option<TransportParameterId>
        ensures { result ≡ first_broken (rules side self.now) }
    {
        use TransportParameterId::*;
        // From the last rule to the first.
        let kept = is_token_kept(side, &self.stateless_reset_token);
        let broken = or_broken(StatelessResetToken, kept, None);
        let kept = is_id_kept(side, &self.retry_src_cid);
        let broken = or_broken(RetrySourceConnectionId, kept, broken);
        let kept = is_no_address_kept(side, &self.preferred_address);
        let broken = or_broken(TransportParameterId::PreferredAddress, kept, broken);
        let kept = is_id_kept(side, &self.original_dst_cid);
        let broken = or_broken(OriginalDestinationConnectionId, kept, broken);
        let kept = is_address_kept(&self.preferred_address);
        let broken = or_broken(TransportParameterId::PreferredAddress, kept, broken);
        let kept = is_delay_kept(self.min_ack_delay, self.max_ack_delay);
        let broken = or_broken(MinAckDelayDraft07, kept, broken);
        let kept = self.initial_max_streams_uni.into_inner() <= 1 << 60;
        let broken = or_broken(InitialMaxStreamsUni, kept, broken);
        let kept = self.initial_max_streams_bidi.into_inner() <= 1 << 60;
        let broken = or_broken(InitialMaxStreamsBidi, kept, broken);
        let kept = 1200 <= self.max_udp_payload_size.into_inner();
        let broken = or_broken(MaxUdpPayloadSize, kept, broken);
        let kept = 2 <= self.active_connection_id_limit.into_inner();
        let broken = or_broken(ActiveConnectionIdLimit, kept, broken);
        let kept = self.max_ack_delay.into_inner() < 1 << 14;
        let broken = or_broken(MaxAckDelay, kept, broken);
        let kept = self.ack_delay_exponent.into_inner() <= 20;
        or_broken(AckDelayExponent, kept, broken)
    }

    // What is reported of a record that the side doesn't accept.
    fn refused_record(&self, options: ReadOptions, side: Side, list: &[u8]) -> Refusal
        requires meant { IsMeant options self.now list.now }
        requires refused { ¬ (IsValid side self.now) }
        ensures { IsRefusedRecord options side list.now result }
    {
        match self.broken(side) {
            Some(id) => {
                let number = id.row().number;
                Refusal {
                    error: Error::IllegalValue,
                    id: Some(number),
                    offset: last_entry(list, number),
                }
            }
            None => unreachable!(),
        }
    }

    /// Reads a list as `read_with` does, and says of one that is rejected at which parameter (RFC 9000, sections 7.4
    /// and 18): the first invalid or forbidden entry; or, if the side doesn't accept the record, the last entry of the
    /// parameter whose value it doesn't accept, the first one in the order in which values are validated. It allocates
    /// no memory.
    pub fn read_list(
        side: Side,
        options: ReadOptions,
        list: &[u8],
    ) -> Result<TransportParameters, Refusal>
        ensures meant { MatchResult result (λ params. IsReadAnswer options side list.now (Ok params))
            (λ refusal. IsReadAnswer options side list.now (Err refusal.error)) }
        ensures place { IsPlacedAnswer options side list.now result }
        // This is the only possible answer.
        ensures only { (answer : Result TransportParameters Refusal) → IsPlacedAnswer options side list.now answer
            → answer ≡ result }
    {
        let mut params = TransportParameters::default();
        let mut rest = list;
        match read_entries(&mut rest, options, &mut params) {
            Ok(()) => {}
            Err((error, left)) => return Err(refused_entry(options, list, error, left)),
        }
        match params.check(side) {
            Ok(()) => Ok(params),
            Err(_) => Err(params.refused_record(options, side, list)),
        }
    }
}
