//! The length of the connection ids in short headers, from an argument of the program.
ghost use Rattle.std.specs.Prelude.{◌≡◌, ◌↔◌, ◌≤◌, ℕ, Some, option_map};

/// A length of connection ids in bytes: at most 20.
#[derive(Clone, Copy, Debug, PartialEq, Eq)]
pub struct IdLen {
    bytes: u8,
    ghost in_range: { bytes ≤ 20 },
}

impl IdLen {
    ghost use Rattle.quic_text.specs.IdLens.{IsIdLen, count};

    /// The length in one or two decimal digits. `None` for every other text, and above 20.
    pub fn of_word(word: &str) -> Option<IdLen>
        ensures { (n : ℕ) → (option_map count result ≡ Some n) ↔ IsIdLen n word.now }
    {
        let bytes = match word.as_bytes() {
            [ones @ b'0'..=b'9'] => *ones - b'0',
            [tens @ b'0'..=b'9', ones @ b'0'..=b'9'] => (*tens - b'0') * 10 + (*ones - b'0'),
            _ => return None,
        };
        if bytes <= 20 {
            Some(IdLen { bytes })
        } else {
            None
        }
    }

    /// The number of bytes.
    pub fn get(self) -> usize
        ensures value { result ≡ count self }
        ensures within { result ≤ 20 }
    {
        self.bytes as usize
    }
}
