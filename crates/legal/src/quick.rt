// Whether a slice breaks any of the checks 3 to 9, in a few steps, as almost none does: what its words have above their widths is
// gathered by shifts, and its settings are looked up in tables. Which check it is, the checks themselves say.
ghost use Rattle.std.specs.Prelude.{◌≡◌, ◌/◌, ◌%◌, ◌^◌, ◌<◌, false, not, ◌&&◌, ◌==◌, nat_lt};
ghost use Rattle.slice.specs.Slice.{selects_of};
ghost use Rattle.legal.specs.Legal.{listed, split_fits, bad_inmode, bad_opmode, bad_alumode, bad_carryinsel, within_widths, breaks_nothing};

use records::{Attributes, Ports, Registers};
use slice::Controls;

// Tables of 64 bits: a bit is 1 where the settings that lead to it go together.

// Bit 4 · AREG + ACASCREG, or of B's: 0 and 0, 1 and 1, 2 and 1, 2 and 2.
const DEPTHS: u64 = 0x621;

// Bit 32 · PREG + 16 · USE_MULT + 4 · Y + X.
const X_AND_Y: u64 = 0xdd2d_dd0d_9929_9909;

// Bit 32 · PREG + 8 · W + Z.
const W_AND_Z: u64 = 0x6f6f_6f6f_2b2b_002b;

// Bit 8 · PREG + CARRYINSEL.
const CARRYINSELS: u64 = 0xaf0f;

// The bits of OPMODE that a logic mode has clear: both of W, bits 8 and 7, and the low one of Y, bit 2.
const CLEAR_IN_LOGIC: u64 = 0x184;

// The bits of INMODE that go with AMULTSEL 1.
const WITH_AD: u64 = 12;

// Below 4 exactly where USE_SIMD goes with USE_MULT, each within its width.
fn split_mark(mult: u64, simd: u64) -> u64
    ensures { mult < 2 → simd < 4 → nat_lt result 4 ≡ split_fits mult simd }
{
    (mult << 1).wrapping_add(simd).wrapping_add(1)
}

// 0 exactly where no word has anything above its width, nor a mark above two bits. The widest go first, and each shift takes them down to
// the next width.
#[tactic(auto, using(crate::proofs::Excess::excess_exact))]
fn excess(a: Attributes, r: Registers, p: Ports, mark: u64) -> u64
    ensures { (result == 0) ≡ (within_widths a r p && nat_lt mark 4) }
{
    let down_to_45 = (a.rnd | a.pattern | a.mask | r.c | r.p | p.c) >> 3;
    let down_to_30 = (down_to_45 | r.m) >> 15;
    let down_to_27 = (down_to_30 | r.a1 | r.a2 | p.a) >> 3;
    let down_to_18 = (down_to_27 | r.d | r.ad | p.d) >> 9;
    let down_to_13 = (down_to_18 | r.b1 | r.b2 | p.b) >> 5;
    let down_to_10 = (down_to_13 | p.ce) >> 3;
    let down_to_9 = (down_to_10 | p.rst) >> 1;
    let down_to_5 = (down_to_9 | r.opmode | p.opmode) >> 4;
    let down_to_4 = (down_to_5 | r.inmode | p.inmode) >> 1;
    let down_to_3 = (down_to_4 | r.alumode | p.alumode) >> 1;
    let down_to_2 = (down_to_3 | r.carryinsel | p.carryinsel) >> 1;
    let down_to_1 = (down_to_2 | a.areg | a.breg | a.acascreg | a.bcascreg | a.use_simd | mark)
        >> 1;
    let inputs = down_to_1 | a.a_input | a.b_input | a.creg | a.dreg | a.adreg | a.mreg | a.preg;
    let controls = inputs
        | a.opmodereg
        | a.alumodereg
        | a.inmodereg
        | a.carryinreg
        | a.carryinselreg;
    let flags = controls | a.use_mult | a.amultsel | r.carryin | p.carryin;
    (flags | r.pd | r.pbd | r.pdpast | r.pbdpast | r.carry) >> 1
}

// Bit `place` of a table of 64.
fn marked(table: u64, place: u64) -> bool
    ensures { result ≡ (table / 2 ^ (place % 64) % 2 == 1) }
{
    unit::bit(table, place) == 1
}

// By AREG and ACASCREG, or by B's.
#[tactic(auto, using(crate::proofs::Tables::depth_table))]
fn depth_fine(reg: u64, cascreg: u64) -> bool
    ensures { reg < 4 → cascreg < 4 → result ≡ listed reg cascreg }
{
    marked(DEPTHS, reg << 2 | cascreg)
}

// Bit 0 goes with an AREG above 0, bit 4 with such a BREG, bits 3 and 2 with AMULTSEL 1.
#[tactic(auto, using(crate::proofs::Tables::inmode_bounds))]
fn inmode_fine(a: Attributes, k: Controls) -> bool
    ensures { k.inmode < 32 → a.amultsel < 2 → a.areg < 4 → a.breg < 4 → result ≡ not (bad_inmode a k) }
{
    (k.inmode % 2 <= a.areg) & (k.inmode >> 4 <= a.breg) & (k.inmode & WITH_AD <= a.amultsel << 4)
}

// W and Z by PREG, then X and Y by USE_MULT and PREG. (Answers are written out: docs/DECISIONS.md, 121.)
fn opmode_fine(a: Attributes, opmode: u64) -> bool
    ensures { opmode < 512 → a.use_mult < 2 → a.preg < 2 → result ≡ not (bad_opmode a (selects_of opmode)) }
{
    marked(W_AND_Z, opmode >> 4 | a.preg << 5)
        & marked(X_AND_Y, opmode % 16 | a.use_mult << 4 | a.preg << 5)
}

// A logic mode goes with W 0 and Y 0 or 2. X 1 needs no test: past number 7 it comes with Y 1.
#[tactic(auto, using(crate::proofs::Tables::alumode_mask))]
fn alumode_fine(a: Attributes, alumode: u64, opmode: u64) -> bool
    ensures { alumode < 16 → opmode < 512 → a.use_mult < 2 → a.preg < 2 → bad_opmode a (selects_of opmode) ≡ false → result ≡ not (bad_alumode alumode (selects_of opmode)) }
{
    (alumode < 4) | !(alumode >> 2 == 2) & (opmode & CLEAR_IN_LOGIC == 0)
}

// By CARRYINSEL and PREG.
#[tactic(auto, unfolding(crate::specs::Legal::bad_carryinsel), using(crate::proofs::Tables::carry_table))]
fn carryinsel_fine(a: Attributes, k: Controls) -> bool
    ensures { k.carryinsel < 8 → a.preg < 2 → result ≡ not (bad_carryinsel a k) }
{
    marked(CARRYINSELS, k.carryinsel | a.preg << 3)
}

// `true` exactly where every word is within its width and no setting is at fault. The tests stand in the order that compiles best, and `&`
// leaves no branch.
pub fn breaks_nothing(a: Attributes, r: Registers, p: Ports) -> bool
    ensures { result ≡ breaks_nothing a r p }
{
    let k = slice::in_effect(a, r, p);
    let mark = split_mark(a.use_mult, a.use_simd);
    (excess(a, r, p, mark) == 0)
        & alumode_fine(a, k.alumode, k.opmode)
        & opmode_fine(a, k.opmode)
        & inmode_fine(a, k)
        & depth_fine(a.areg, a.acascreg)
        & depth_fine(a.breg, a.bcascreg)
        & carryinsel_fine(a, k)
}
