// The arithmetic modes, lane by lane.
ghost use Rattle.std.specs.Prelude.{◌≡◌, ◌+◌, ◌-◌, ◌*◌, ◌/◌, ◌%◌, ◌^◌, ◌<◌, ◌≤◌, if◌then◌else◌};
ghost use Rattle.unit.specs.Unit.{arithmetic, lanes, lane_width, lane_count};

use crate::Operands;

impl Operands {
    // The bits of the lowest lane, of `all` words; CIN is its own.
    fn lowest(self, all: u64) -> Operands
        requires { 0 < all }
        ensures { result ≡ record { w = self.w % all; x = self.x % all; y = self.y % all; z = self.z % all; cin = self.cin } }
    {
        Operands {
            w: self.w % all,
            x: self.x % all,
            y: self.y % all,
            z: self.z % all,
            ..self
        }
    }

    // The bits above the lowest lane, which get no carry.
    fn above(self, all: u64) -> Operands
        requires { 0 < all }
        ensures { result ≡ record { w = self.w / all; x = self.x / all; y = self.y / all; z = self.z / all; cin = 0 } }
    {
        Operands {
            w: self.w / all,
            x: self.x / all,
            y: self.y / all,
            z: self.z / all,
            cin: 0,
        }
    }

    // W + X + Y + CIN, modulo 2^64.
    fn others(self) -> u64
        ensures { result ≡ (self.w + self.x + self.y + self.cin) % 2 ^ 64 }
    {
        self.w
            .wrapping_add(self.x)
            .wrapping_add(self.y)
            .wrapping_add(self.cin)
    }
}

// How many words a lane of `width` bits has. A width is no type of its own: it would hold one number, for three functions in a row.
fn words_of(width: u64) -> u64
    requires { width < 64 }
    ensures power { result ≡ 2 ^ width }
    ensures some { 0 < result }
{
    1u64 << width
}

// n, or n taken from all ones of `width` bits, modulo 2^64: the low `width` bits are right, since 2^width divides 2^64.
fn complement_if(b: bool, width: u64, n: u64) -> u64
    requires { width < 64 }
    ensures { result % 2 ^ width ≡ (if b then 2 ^ width - 1 - n % 2 ^ width else n % 2 ^ width) }
{
    if b {
        (words_of(width) - 1).wrapping_sub(n) // Z in modes 1 and 3, the sum in modes 2 and 3
    } else {
        n
    }
}

// One lane of `width` bits in arithmetic modes 0 to 3: bit 0 of the mode complements Z, and bit 1 the sum. All wraps at 2^64,
// and one remainder cuts it to the lane.
pub fn lane(width: u64, mode: u64, o: Operands) -> u64
    requires { (width < 64) × (mode < 4) }
    ensures { result ≡ arithmetic width mode o.w o.x o.y o.z o.cin }
{
    let first = complement_if(mode % 2 == 1, width, o.z);
    let sum = first.wrapping_add(o.others());
    complement_if(2 <= mode, width, sum) % words_of(width)
}

// `count` lanes of `width` bits, the lowest first. Each works on its own bits; only the lowest gets a carry.
fn lanes(width: u64, count: u64, mode: u64, o: Operands) -> u64
    requires { (width * count ≤ 48) × (mode < 4) }
    ensures { result ≡ lanes width count mode o.w o.x o.y o.z o.cin }
{
    if count == 0 {
        return 0;
    }
    let all = words_of(width);
    let above = lanes(width, count - 1, mode, o.above(all));
    above * all + lane(width, mode, o.lowest(all))
}

// Arithmetic modes by USE_SIMD: ONE48, TWO24, FOUR12. Mode and USE_SIMD are 01's numbers, which the slice's words hold.
#[tactic(auto, unfolding(crate::specs::Unit::lanes))]
pub fn by_simd(simd: u64, mode: u64, o: Operands) -> u64
    requires { mode < 4 }
    ensures { result ≡ lanes (lane_width simd) (lane_count simd) mode o.w o.x o.y o.z o.cin }
{
    match simd {
        0 => lanes(48, 1, mode, o),
        1 => lanes(24, 2, mode, o),
        2 => lanes(12, 4, mode, o),
        _ => 0,
    }
}
