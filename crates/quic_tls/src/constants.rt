//! The constants of versions 1 and 2.
ghost use Rattle.std.specs.Prelude.{◌≡◌, MatchOption, None, Some};
ghost use Rattle.quic_tls.specs.Constants.{constants_of};

/// What a version has of its own (RFC 9001, sections 5.1, 5.2, 5.8 and 6.1; RFC 9369, section 3.3).
#[derive(Clone, Copy, Debug, PartialEq, Eq)]
pub struct Constants {
    /// The salt with which the secrets of Initial packets are extracted from the client's first id.
    pub initial_salt: [u8; 20],
    /// The key of AES-128-GCM for a Retry's tag.
    pub retry_key: [u8; 16],
    /// The nonce for a Retry's tag.
    pub retry_nonce: [u8; 12],
    /// The label of a packet's key.
    pub key_label: &'static str,
    /// The label of its iv.
    pub iv_label: &'static str,
    /// The label of the key for header protection.
    pub hp_label: &'static str,
    /// The label of the next secret, after a key update.
    pub ku_label: &'static str,
}

static CONSTANTS_1: Constants = Constants {
    initial_salt: [
        0x38, 0x76, 0x2c, 0xf7, 0xf5, 0x59, 0x34, 0xb3, 0x4d, 0x17, 0x9a, 0xe6, 0xa4, 0xc8, 0x0c,
        0xad, 0xcc, 0xbb, 0x7f, 0x0a,
    ],
    retry_key: [
        0xbe, 0x0c, 0x69, 0x0b, 0x9f, 0x66, 0x57, 0x5a, 0x1d, 0x76, 0x6b, 0x54, 0xe3, 0x68, 0xc8,
        0x4e,
    ],
    retry_nonce: [
        0x46, 0x15, 0x99, 0xd3, 0x5d, 0x63, 0x2b, 0xf2, 0x23, 0x98, 0x25, 0xbb,
    ],
    key_label: "quic key",
    iv_label: "quic iv",
    hp_label: "quic hp",
    ku_label: "quic ku",
};

static CONSTANTS_2: Constants = Constants {
    initial_salt: [
        0x0d, 0xed, 0xe3, 0xde, 0xf7, 0x00, 0xa6, 0xdb, 0x81, 0x93, 0x81, 0xbe, 0x6e, 0x26, 0x9d,
        0xcb, 0xf9, 0xbd, 0x2e, 0xd9,
    ],
    retry_key: [
        0x8f, 0xb4, 0xb0, 0x1b, 0x56, 0xac, 0x48, 0xe2, 0x60, 0xfb, 0xcb, 0xce, 0xad, 0x7c, 0xcc,
        0x92,
    ],
    retry_nonce: [
        0xd8, 0x69, 0x69, 0xbc, 0x2d, 0x7c, 0x6d, 0x99, 0x90, 0xef, 0xb0, 0x4a,
    ],
    key_label: "quicv2 key",
    iv_label: "quicv2 iv",
    hp_label: "quicv2 hp",
    ku_label: "quicv2 ku",
};

impl Constants {
    /// The constants of a version; `None` exactly for versions other than 1 and 2.
    pub fn of(version: u32) -> Option<&'static Constants>
        ensures { MatchOption result (constants_of version ≡ None) (λ c. constants_of version ≡ Some (record {
          initial_salt = c.now.initial_salt;
          retry_key = c.now.retry_key;
          retry_nonce = c.now.retry_nonce;
          key_label = c.now.key_label.now;
          iv_label = c.now.iv_label.now;
          hp_label = c.now.hp_label.now;
          ku_label = c.now.ku_label.now;
        })) }
    {
        match version {
            1 => Some(&CONSTANTS_1),
            0x6b3343cf => Some(&CONSTANTS_2),
            _ => None,
        }
    }
}
