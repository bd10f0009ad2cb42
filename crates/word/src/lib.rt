// Words of a given width: the pattern of an integer, the signed reading, the shift that keeps the sign, and the two
// readings of a packed P. Every function takes every number: a width is read modulo 64, as the machine's shifts do,
// and of a number the low bits alone are read.
#![tactic(auto)]

ghost use Rattle.std.specs.Prelude.{◌≡◌, ◌%◌, ◌^◌};
ghost use Rattle.std.specs.Int.Signed.{shr_z};
ghost use Rattle.word.specs.Word.{word, signed, shifted, low_sum, high_sum};

// The low w bits of n as a signed number. Half of 2^w is added, and taken off again once what is above w bits is gone.
pub fn signed_of(n: u64, w: u64) -> i64
    ensures { result ≡ signed (w % 64) n }
{
    let all = 1u64 << (w % 64);
    let half = all / 2;
    (n.wrapping_add(half) % all) as i64 - half as i64
}

// The word of w bits of an integer. Below zero, -1 - z has the complement of its bits.
pub fn word_of(z: i64, w: u64) -> u64
    ensures { result ≡ word (w % 64) z }
{
    let all = 1u64 << (w % 64);
    if z < 0 {
        all - 1 - (-1 - z) as u64 % all
    } else {
        z as u64 % all
    }
}

// A 48-bit word shifted right by 17, keeping the sign.
pub fn shift17(p: u64) -> u64
    ensures { result ≡ shifted 48 17 p }
{
    word_of(signed_of(p, 48) >> 17, 48)
}

// s divided by 2^18, rounded down. `/` rounds toward zero, so below zero the number one above is divided, and one is taken off.
// 01 names the form, where `>> 18` would do.
fn floor18(s: i64) -> i64
    ensures { result ≡ shr_z s (2 ^ 18) }
{
    if s < 0 {
        (s + 1) / 0x4_0000 - 1
    } else {
        s / 0x4_0000
    }
}

// The low sum of a packed P: its low 18 bits, signed.
pub fn low_sum(p: u64) -> i32
    ensures { result ≡ low_sum p }
{
    signed_of(p, 18) as i32
}

// The high sum of a packed P: signed P divided by 2^18, rounded down, plus bit 17.
pub fn high_sum(p: u64) -> i32
    ensures { result ≡ high_sum p }
{
    let bit = (p / 0x2_0000 % 2) as i64;
    (floor18(signed_of(p, 48)) + bit) as i32
}
