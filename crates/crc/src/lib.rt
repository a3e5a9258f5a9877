// The check byte: the SMBus CRC-8 of a run of bytes, worked four bits at a time.

#![tactic(auto)]

ghost use Rattle.std.specs.Prelude.{◌≡◌};
ghost use Rattle.crc.specs.CheckByte.{times_xs, with_byte, remainder, check_byte};

// What half a byte, shifted out at the top, leaves: entry h is the remainder of h times x^8.
const HALF: [u8; 16] = [0, 7, 14, 9, 28, 27, 18, 21, 56, 63, 54, 49, 36, 35, 42, 45];

// The remainder times x^4: the upper four bits are shifted out, and what they leave comes in.
fn half(c: u8) -> u8
    ensures { result ≡ times_xs 4 c }
{
    let h = usize::from(c / 16);
    HALF[h] ^ (c % 16 * 16)
}

// The remainder after one more byte: its upper half, then its lower half.
#[tactic(auto, unfolding(crate::specs::CheckByte::with_byte, crate::specs::CheckByte::times_xs))]
fn with_byte(c: u8, b: u8) -> u8
    ensures { result ≡ with_byte c b }
{
    let upper = half(c ^ b);
    half(upper)
}

// The remainder after more bytes, from the remainder of those before them: a long run of bytes can be taken part by part.
pub fn go_on(c: u8, bytes: &[u8]) -> u8
    ensures { result ≡ remainder c bytes.now }
{
    let mut left = c;
    for b in bytes {
        left = with_byte(left, *b);
    }
    left
}

// The check byte of a run of bytes of any length; of none it is 0.
#[tactic(auto, unfolding(crate::specs::CheckByte::check_byte))]
pub fn check_byte(bytes: &[u8]) -> u8
    ensures { result ≡ check_byte bytes.now }
{
    go_on(0, bytes)
}
