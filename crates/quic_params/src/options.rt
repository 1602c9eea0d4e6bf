//! How lists of parameters are read.
ghost use Rattle.std.specs.Prelude.{◌≡◌, ◌||◌};
ghost use Rattle.quic_params.specs.Options.{as_quinn};

/// How a list is read in what RFC 9000 and quinn-proto differ. The default is quinn-proto's reading: both `false`.
#[derive(Clone, Copy, Debug, PartialEq, Eq)]
pub struct ReadOptions {
    /// Accepts an integer that has a default in an encoding of any width (RFC 9000, section 16), not only in the
    /// shortest one.
    pub any_width: bool,
    /// Rejects each known parameter that is there twice (RFC 9000, section 7.4), `grease_quic_bit` and `min_ack_delay`
    /// too, whose last value counts otherwise.
    pub no_repeats: bool,
}

impl ReadOptions {
    /// The reading of quinn-proto.
    pub const QUINN: ReadOptions = ReadOptions {
        any_width: false,
        no_repeats: false,
    };

    /// The reading of RFC 9000.
    pub const RFC: ReadOptions = ReadOptions {
        any_width: true,
        no_repeats: true,
    };

    // Whether a parameter that is there twice is rejected, from what its row says.
    #[inline(always)]
    pub(crate) fn once_read(self, once: bool) -> bool
        ensures { result ≡ (self.no_repeats || once) }
    {
        self.no_repeats || once
    }
}

impl Default for ReadOptions {
    ghost is_default = { λ options. options ≡ as_quinn };

    fn default() -> ReadOptions {
        ReadOptions::QUINN
    }
}
