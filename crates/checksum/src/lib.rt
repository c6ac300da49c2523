// The check of RFC 1071.
#![tactic(auto)]

ghost use Rattle.std.specs.Prelude.{◌≡◌};
ghost use Rattle.checksum.specs.Sum.{ones_plus, check_of};

// The ones' complement sum of two words: the carry is added back.
#[tactic(auto, unfolding(crate::specs::Sum::ones_plus))]
fn plus(x: u16, y: u16) -> u16
    ensures { result ≡ ones_plus x y }
{
    let (sum, carry) = x.overflowing_add(y);
    sum + u16::from(carry)
}

// The check of any bytes: the complement of the sum of their pairs, the last of an odd number paired with a zero.
pub fn check_of(s: &[u8]) -> u32
    ensures { result ≡ check_of s.now }
{
    let (pairs, rest) = s.as_chunks::<2>();
    let mut sum = 0;
    for pair in pairs {
        sum = plus(sum, u16::from_be_bytes(*pair));
    }
    if let [last, ..] = rest {
        sum = plus(sum, u16::from_be_bytes([*last, 0]));
    }
    u32::from(!sum)
}
