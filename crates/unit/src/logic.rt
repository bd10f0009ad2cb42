// The logic modes, as one formula.
ghost use Rattle.std.specs.Prelude.{◌≡◌, ◌^◌, ◌<◌, if◌then◌else◌, bit_and, bit_or, bit_xor};
ghost use Rattle.unit.specs.Unit.{ones, logic_rows};

use crate::ONES;

// Every bit of 48, or none.
fn all_if(b: bool) -> u64
    ensures { result ≡ (if b then ones 48 else 0) }
{
    if b { ONES } else { 0 }
}

// The adder's cells, each by itself: in each bit the carry of three, or their sum.
fn cells(carry: bool, x: u64, y: u64, z: u64) -> u64
    ensures { result ≡ (if carry then bit_or (bit_and x z) (bit_and y (bit_or x z)) else bit_xor (bit_xor x y) z) }
{
    if carry {
        x & z | y & (x | z)
    } else {
        x ^ y ^ z
    }
}

// Logic modes, of 48-bit words x and z, as the drawing has them: bit 0 of the mode complements Z, Y is all zeros or all ones, the
// top bit chooses between the sum and the carry of X, Y and Z, and bit 1 complements what comes out. Any other mode gives 0.
pub fn formula(mode: u64, x: u64, y: u64, z: u64) -> u64
    requires { (x < 2 ^ 48) × (z < 2 ^ 48) × (3 < mode) }
    ensures { result ≡ logic_rows mode x y z }
{
    let cell = cells(8 <= mode, x, all_if(y != 0), z ^ ONES * (mode % 2));
    let result = cell ^ ONES * (mode / 2 % 2);
    if (mode < 16) & (mode / 4 % 2 == 1) {
        result
    } else {
        0
    }
}
