//! Which field of a header can't be written.
ghost use Rattle.std.specs.Prelude.{◌≡◌, ◌≢◌, ◌==◌, ◌+◌, ◌<◌, ◌≤◌, ◌^◌, ◌⊎◌, ◌↔◌, ℕ, List, length, Bool, None, Some, IfSome, nat_le, nat_lt};
ghost use Rattle.quic_c_headers.specs.Faults.{all_can, can_have_number, is_width, AreLengths, IsWriteFault};
ghost use Rattle.quic_results.specs.Faults.{first_false};
ghost use Rattle.quic_c_headers.specs.Headers.{word_of, CanWriteHeader, DescribesNoHeader};
ghost use Rattle.quic_header_encode.specs.declared.header.Header.{Header};
ghost use Rattle.quic_header_encode.specs.Kinds.{row};

use crate::words::{HANDSHAKE, HeaderFields, INITIAL, RETRY, SHORT, VERSION_NEGOTIATION, ZERO_RTT};
use quic_header_encode::long_type::HeaderKind;
use quic_results::faults::first_false;

// No field.
const NO_FIELD: usize = usize::MAX;

fn is_width(len: u8) -> bool
    ensures { result ≡ is_width len }
{
    len == 1 || len == 2 || len == 4 || len == 8
}

fn has_number(words: &HeaderFields) -> bool
    ensures { result ≡ can_have_number words.now }
{
    0 < words.number_len && words.number_len <= 4 && words.number < 1 << 62
}

// The first field that can't be written in a header of the kind.
fn fault_in(
    kind: HeaderKind,
    words: &HeaderFields,
    dst: usize,
    src: usize,
    token: usize,
) -> Option<usize>
    ensures found { result ≡ first_false 1 (all_can kind words.now dst src token) }
    ensures few { IfSome result (λ found. found < 2 ^ 32) }
{
    let named = words.version > 0;
    let (has_dst, has_src) = (dst <= 20, src <= 20);
    let has_len = is_width(words.length_len);
    let has_number = has_number(words);
    match kind {
        HeaderKind::Initial => {
            let has_token = token < 1 << 62;
            first_false(
                1,
                &[
                    named, has_dst, has_src, true, has_token, true, has_len, has_number,
                ],
            )
        }
        HeaderKind::ZeroRtt => first_false(
            1,
            &[named, has_dst, has_src, true, has_len, has_number],
        ),
        HeaderKind::Handshake => first_false(
            1,
            &[named, has_dst, has_src, true, has_len, has_number],
        ),
        HeaderKind::Retry => first_false(1, &[named, has_dst, has_src, true]),
        HeaderKind::Short => first_false(1, &[has_dst, has_number]),
        HeaderKind::VersionNegotiate => first_false(1, &[true, has_dst, has_src]),
    }
}

// The same as C sees it.
fn fault_of(kind: HeaderKind, words: &HeaderFields, dst: usize, src: usize, token: usize) -> usize
    requires kind { word_of (row kind) ≡ words.now.kind }
    ensures field { (result ≡ usize.MAX) ⊎ IsWriteFault words.now dst src token (Some result) }
    ensures none { result ≡ usize.MAX → IsWriteFault words.now dst src token None }
    ensures some { 1 ≤ result }
    ensures refused { (to from own : List ℕ) → AreLengths to from own dst src token
        → (result ≡ usize.MAX) ⊎ DescribesNoHeader words.now to from own }
    ensures possible { (to from own : List ℕ) → AreLengths to from own dst src token → result ≡ usize.MAX
        → (clear : Bool) × (head : Header) × CanWriteHeader words.now to from own clear head }
{
    match fault_in(kind, words, dst, src, token) {
        Some(index) => index,
        None => NO_FIELD,
    }
}

/// The index of the first field that can't have its value in a header that `quic_wire_header_write_` would write, with
/// ids and a token of so many bytes. Fields are numbered as for `quic_wire_packet_fields_`, and the packet number comes
/// after the others; 0 is the first byte's, if there is no such kind. It returns `usize::MAX` if such a header can be
/// written.
#[unsafe(no_mangle)]
pub extern "C" fn quic_wire_header_write_fault_(
    words: &HeaderFields,
    dst: usize,
    src: usize,
    token: usize,
) -> usize
    ensures field { (result ≡ usize.MAX) ⊎ IsWriteFault words.now dst src token (Some result) }
    ensures none { result ≡ usize.MAX → IsWriteFault words.now dst src token None }
    ensures kind { (result ≡ 0) ↔ (5 < words.now.kind) }
    ensures refused { (to from own : List ℕ) → AreLengths to from own dst src token
        → (result ≡ usize.MAX) ⊎ DescribesNoHeader words.now to from own }
    ensures possible { (to from own : List ℕ) → AreLengths to from own dst src token → result ≡ usize.MAX
        → (clear : Bool) × (head : Header) × CanWriteHeader words.now to from own clear head }
{
    match words.kind {
        INITIAL => fault_of(HeaderKind::Initial, words, dst, src, token),
        ZERO_RTT => fault_of(HeaderKind::ZeroRtt, words, dst, src, token),
        HANDSHAKE => fault_of(HeaderKind::Handshake, words, dst, src, token),
        RETRY => fault_of(HeaderKind::Retry, words, dst, src, token),
        SHORT => fault_of(HeaderKind::Short, words, dst, src, token),
        VERSION_NEGOTIATION => fault_of(HeaderKind::VersionNegotiate, words, dst, src, token),
        _ => 0,
    }
}
