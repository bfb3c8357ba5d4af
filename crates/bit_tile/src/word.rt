//! Bits of two 32-bit words interleaved in a 64-bit word, and taken apart again.

ghost use Rattle.std.specs.Prelude.{◌≡◌, ℕ, ◌+◌, ◌*◌, ◌/◌, ◌%◌, ◌<◌, ◌&&◌, ◌==◌, if◌then◌else◌};
ghost use Rattle.bit_tile.specs.Bit.{bit};

/// The bits of two words in turn: those of the first have the even places.
#[inline]
pub fn in_turn(even: u32, odd: u32) -> u64
    ensures { (i : ℕ) → i < 64 →
        bit result i ≡ (if i % 2 == 0 then bit even (i / 2) else bit odd (i / 2)) }
{
    spread(even) | (spread(odd) << 1)
}

/// The bits of a word at every other place, from the lowest on.
#[inline]
pub fn spread(word: u32) -> u64
    ensures { (i : ℕ) → i < 64 → bit result i ≡ (i % 2 == 0 && bit word (i / 2)) }
{
    let a = word as u64;
    let b = (a | (a << 16)) & 0x0000_ffff_0000_ffff;
    let c = (b | (b << 8)) & 0x00ff_00ff_00ff_00ff;
    let d = (c | (c << 4)) & 0x0f0f_0f0f_0f0f_0f0f;
    let e = (d | (d << 2)) & 0x3333_3333_3333_3333;
    (e | (e << 1)) & 0x5555_5555_5555_5555
}

/// The bits at every other place of a word, from the lowest on, close to one another.
#[inline]
pub fn gather(word: u64) -> u32
    ensures { (i : ℕ) → i < 32 → bit result i ≡ bit word (2 * i) }
{
    let a = word & 0x5555_5555_5555_5555;
    let b = (a | (a >> 1)) & 0x3333_3333_3333_3333;
    let c = (b | (b >> 2)) & 0x0f0f_0f0f_0f0f_0f0f;
    let d = (c | (c >> 4)) & 0x00ff_00ff_00ff_00ff;
    let e = (d | (d >> 8)) & 0x0000_ffff_0000_ffff;
    ((e | (e >> 16)) & 0x0000_0000_ffff_ffff) as u32
}

/// One word after another: the first has the lower half.
#[inline]
pub fn joined(first: u32, second: u32) -> u64
    ensures first { (i : ℕ) → i < 32 → bit result i ≡ bit first i }
    ensures second { (i : ℕ) → i < 32 → bit result (32 + i) ≡ bit second i }
{
    u64::from(first) | (u64::from(second) << 32)
}
