// Records of fields: definitions and laws in specs/; here the numbers that two and four bytes spell, most significant first.

#![tactic(auto)]

ghost use Rattle.std.specs.Prelude.{◌≡◌, [], ◌∷◌};
ghost use Rattle.rules.specs.Bytes.{number};

#[tactic(auto, unfolding(rules::specs::Bytes::number))]
pub fn two_bytes(a: u8, b: u8) -> u16
    ensures { result ≡ number (a ∷ b ∷ []) }
{
    u16::from_be_bytes([a, b])
}

#[tactic(auto, unfolding(rules::specs::Bytes::number))]
pub fn four_bytes(a: u8, b: u8, c: u8, d: u8) -> u32
    ensures { result ≡ number (a ∷ b ∷ c ∷ d ∷ []) }
{
    u32::from_be_bytes([a, b, c, d])
}
