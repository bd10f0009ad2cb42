// The parts of a slice on plain numbers: adder and logic unit, pre-adder, multiplier and its extension, detector, the load
// of a register; and the C bench's adder. Every function takes every number, and reads as many low bits as it is wide.
#![tactic(auto)]

ghost use Rattle.std.specs.Prelude.{◌≡◌, ◌%◌};
ghost use Rattle.word.specs.Word.{extend};
ghost use Rattle.unit.specs.Unit.{lanes, lane_width, lane_count, unit_result, split_result, carry_out, summed_of, true_sum, pre_adder, cut_mark, product, load, within, forbidden, adder};
ghost use Rattle.unit.specs.Detector.{detected};

mod arithmetic;
mod choice;
mod logic;

pub use choice::bit;

// 48 bits, all ones.
pub const ONES: u64 = 0xffff_ffff_ffff;

// What the unit adds up: its operands, and its carry in.
#[derive(Clone, Copy, Default)]
pub struct Operands {
    pub w: u64,
    pub x: u64,
    pub y: u64,
    pub z: u64,
    pub cin: u64,
}

// What the detector shows: PD and PBD.
#[derive(Clone, Copy)]
pub struct Detected {
    pub pd: u64,
    pub pbd: u64,
}

// The adder and logic unit, in one piece.
#[tactic(auto, unfolding(crate::specs::Unit::unit_result))]
fn result(mode: u64, o: Operands) -> u64
    ensures { result ≡ unit_result mode o.w o.x o.y o.z o.cin }
{
    if mode < 4 {
        arithmetic::lane(48, mode, o)
    } else {
        logic::formula(
            mode,
            o.x % 0x1_0000_0000_0000,
            o.y,
            o.z % 0x1_0000_0000_0000,
        )
    }
}

// An adder that is split, or logic.
#[tactic(auto, unfolding(crate::specs::Unit::split_result))]
fn split_or_logic(simd: u64, mode: u64, o: Operands) -> u64
    ensures { result ≡ split_result simd mode o.w o.x o.y o.z o.cin }
{
    if mode < 4 {
        arithmetic::by_simd(simd, mode, o)
    } else {
        result(mode, o)
    }
}

// The carry that the slice above may take, of the selects of W and Y and the operands that are left: where it shows, 1 exactly if
// X + Z + CIN is at least 2^48.
#[tactic(auto, unfolding(crate::specs::Unit::carry_out))]
pub fn carry_out(simd: u64, mode: u64, wsel: u64, ysel: u64, o: Operands) -> u64
    ensures { result ≡ carry_out simd mode wsel ysel o.x o.z o.cin }
{
    if !((simd == 0) & (mode == 0) & (wsel == 0) & (ysel == 0)) {
        return 0;
    }
    let sum = o.x.wrapping_add(o.z).wrapping_add(o.cin);
    // An operand past 48 bits is enough by itself; without one the sum doesn't wrap.
    ((ONES < o.x) | (ONES < o.z) | (ONES < o.cin) | (ONES < sum)) as u64
}

// What the unit makes: its result, and the carry beside it.
#[derive(Clone, Copy)]
pub struct WithCarry {
    pub result: u64,
    pub carry: u64,
}

// The adder and logic unit, by USE_SIMD, of the selects of W and Y and of all operands. What most slices do stands apart, so that the
// compiler sets it into their clock.
#[tactic(auto, unfolding(crate::specs::Unit::summed_of, crate::specs::Unit::split_result, crate::specs::Unit::carry_out), using(crate::proofs::Lanes::one_lane))]
pub fn summed(simd: u64, mode: u64, wsel: u64, ysel: u64, o: Operands) -> WithCarry
    ensures { result ≡ summed_of simd mode wsel ysel o.w o.x o.y o.z o.cin }
{
    match (simd, mode) {
        (0, 0) => WithCarry {
            result: arithmetic::lane(48, 0, o),
            carry: carry_out(0, 0, wsel, ysel, o),
        },
        (0, 1..=3) => WithCarry {
            result: arithmetic::lane(48, mode, o),
            carry: 0,
        },
        _ => WithCarry {
            result: split_or_logic(simd, mode, o),
            carry: 0,
        },
    }
}

// An arithmetic mode in USE_SIMD's lanes, for callers that know it to be one; any other mode is 0.
#[tactic(auto, using(crate::proofs::Lanes::no_lanes))]
pub fn in_lanes(simd: u64, mode: u64, o: Operands) -> u64
    ensures { result ≡ lanes (lane_width simd) (lane_count simd) mode o.w o.x o.y o.z o.cin }
{
    if mode < 4 {
        arithmetic::by_simd(simd, mode, o)
    } else {
        0
    }
}

// What the pre-adder makes: the 27-bit result, and whether the true sum or difference left the range of 27 bits.
#[derive(Clone, Copy)]
pub struct PreAdded {
    pub ad: u64,
    pub wrap: u64,
}

// d + a, or d - a where `subtract` is not 0, of both sides read as signed 27-bit numbers.
fn true_sum(subtract: u64, d: u64, a: u64) -> i64
    ensures { result ≡ true_sum 27 subtract d a }
{
    let left = word::signed_of(d, 27);
    let right = word::signed_of(a, 27);
    if subtract == 0 {
        left + right
    } else {
        left - right
    }
}

// The pre-adder. It does not saturate: the result is the true sum or difference modulo 2^27, and the mark tells where that is another.
#[tactic(auto, unfolding(crate::specs::Unit::pre_adder), using(crate::proofs::PreAdder::wrapped_true))]
pub fn pre_adder(subtract: u64, d: u64, a: u64) -> PreAdded
    ensures { result ≡ pre_adder subtract d a }
{
    let sum = true_sum(subtract, d, a);
    PreAdded {
        ad: word::word_of(sum, 27),
        wrap: !((-67108864 <= sum) & (sum <= 67108863)) as u64,
    }
}

// The exact product of 27 bits and 18 bits, both signed, in 45 bits.
#[tactic(auto, unfolding(crate::specs::Unit::product))]
pub fn multiply(left: u64, right: u64) -> u64
    ensures { result ≡ product left right }
{
    word::word_of(word::signed_of(left, 27) * word::signed_of(right, 18), 45)
}

// The low `from` bits of n, sign-extended to `to`; of each width the low 6 bits are read.
pub fn extend(from: u64, to: u64, n: u64) -> u64
    ensures { result ≡ extend (from % 64) (to % 64) n }
{
    word::word_of(word::signed_of(n, from), to)
}

// Whether AD, of 27 bits, reads as another number once it is cut to its low 18.
#[tactic(auto, unfolding(crate::specs::Unit::cut_mark))]
pub fn cut_mark(ad: u64) -> u64
    ensures { result ≡ cut_mark 18 27 ad }
{
    (word::signed_of(ad, 18) != word::signed_of(ad, 27)) as u64
}

// The detector on the unit's result. Of the bits that differ from the pattern, or of the others, the mask must hide all.
pub fn detect(p: u64, pattern: u64, mask: u64) -> Detected
    ensures { result ≡ detected p pattern mask }
{
    let differ = (p ^ pattern) % 0x1_0000_0000_0000;
    // Of the two orders this one makes the cheaper clock.
    Detected {
        pbd: ((ONES - differ) | mask == mask) as u64,
        pd: (differ | mask == mask) as u64,
    }
}

// A register after the edge.
#[tactic(auto, unfolding(crate::specs::Unit::load), using(crate::proofs::Laws::mux_1))]
pub fn load(reset: u64, enable: u64, word: u64, input: u64) -> u64
    ensures { result ≡ load reset enable word input }
{
    if reset != 0 {
        0
    } else if enable != 0 {
        input
    } else {
        word
    }
}

// Every word is within its width. `&` leaves no branch: with `&&` the edit `adder_gives_8_before_5` is refused by a search's limit alone.
fn is_within(o: Operands, alumode: u64) -> bool
    ensures { result ≡ within o.w o.x o.y o.z o.cin alumode }
{
    (o.w < 0x1_0000_0000_0000)
        & (o.x < 0x1_0000_0000_0000)
        & (o.y < 0x1_0000_0000_0000)
        & (o.z < 0x1_0000_0000_0000)
        & (o.cin < 2)
        & (alumode < 16)
}

// Modes 8 to 11, or a logic mode with W not 0 or Y neither 0 nor all ones.
fn is_forbidden(o: Operands, alumode: u64) -> bool
    ensures { result ≡ forbidden o.w o.y alumode }
{
    matches!(alumode, 8..=11) || alumode >= 4 && (o.w != 0 || !matches!(o.y, 0 | ONES))
}

// The adder call for the C bench: the result, or 2^48+5 when a word is over width, or else 2^48+8 when the mode forbids it. 01 names refusals
// within the word, and the definition `adder` has them.
#[tactic(auto, unfolding(crate::specs::Unit::adder))]
pub fn adder(o: Operands, alumode: u64) -> u64
    ensures { result ≡ adder o.w o.x o.y o.z o.cin alumode }
{
    if !is_within(o, alumode) {
        return 0x1_0000_0000_0005;
    }
    if is_forbidden(o, alumode) {
        return 0x1_0000_0000_0008;
    }
    result(alumode, o)
}
