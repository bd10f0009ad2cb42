// One clock of a slice: what settles before the edge, what the slice then shows and hands up, and the registers after it.
ghost use Rattle.std.specs.Prelude.{◌≡◌, ◌<◌, true};
ghost use Rattle.unit.specs.Choice.{mux};
ghost use Rattle.slice.specs.Slice.{result_of, settled_carry, settled_of, outputs_of_settled, cascade_of, edge, next_of, Stepped};
ghost use Rattle.lent.specs.Words.{stored};
ghost use Rattle.records.specs.Records.{registers_words};

use crate::choice::{mux, pick};
use crate::inputs::{Cascade, Controls, Paths, in_effect, routed, selects_of};
use crate::multiplier::{Product, multiplied};
use crate::operands::selected;
use records::{Attributes, Outputs, Ports, Record, Registers};
use unit::{Operands, WithCarry, bit};

// What settles: AD, M, P, PD, PBD and the carry's register load it; the pre-adder's mark is shown and held nowhere.
#[derive(Clone, Copy)]
pub struct Settled {
    pub ad: u64,
    pub wrap: u64,
    pub m: u64,
    pub p: u64,
    pub pd: u64,
    pub pbd: u64,
    pub carry: u64,
}

// What a slice gives away in a clock: the outputs, and what the slice above gets.
#[derive(Clone, Copy)]
pub struct Step {
    pub shown: Outputs,
    pub up: Cascade,
}

// The carry that settles beside the unit's result.
#[tactic(auto, unfolding(crate::specs::Slice::settled_carry))]
pub fn settled_carry(a: Attributes, k: Controls, o: Operands) -> u64
    ensures { result ≡ settled_carry a k o }
{
    let select = selects_of(k.opmode);
    unit::carry_out(a.use_simd, k.alumode, select.w, select.y, o)
}

// The unit's result and the carry.
#[tactic(auto, unfolding(crate::specs::Slice::result_of, crate::specs::Slice::settled_carry, unit::specs::Unit::summed_of))]
fn summed(a: Attributes, k: Controls, o: Operands) -> WithCarry
    ensures { result ≡ record { result = result_of a.use_simd k.alumode o; carry = settled_carry a k o } }
{
    let select = selects_of(k.opmode);
    unit::summed(a.use_simd, k.alumode, select.w, select.y, o)
}

// The detector, on the unit's result.
#[tactic(auto, unfolding(crate::specs::Slice::settled_of))]
fn settled_from(a: Attributes, t: Product, sum: WithCarry) -> Settled
    ensures { result ≡ settled_of a t sum.result sum.carry }
{
    let flags = unit::detect(sum.result, a.pattern, a.mask);
    Settled {
        ad: t.ad,
        wrap: t.wrap,
        m: t.m,
        p: sum.result,
        pd: flags.pd,
        pbd: flags.pbd,
        carry: sum.carry,
    }
}

#[tactic(auto, unfolding(crate::specs::Slice::outputs_of_settled))]
fn shown(a: Attributes, r: Registers, t: Settled) -> Outputs
    ensures { result ≡ outputs_of_settled a r t }
{
    // The gate of both flags: PREG 1, with PD and PBD both 0.
    let gate = (a.preg != 0) & (r.pd == 0) & (r.pbd == 0);
    // Of the orders of these that were tried, this one makes the cheapest clock.
    Outputs {
        carry: mux(a.preg, t.carry, r.carry),
        patterndetect: mux(a.preg, t.pd, r.pd),
        patternbdetect: mux(a.preg, t.pbd, r.pbd),
        p: mux(a.preg, t.p, r.p),
        overflow: (gate & (r.pdpast == 1)) as u64,
        underflow: (gate & (r.pbdpast == 1)) as u64,
        preaddwrap: t.wrap,
    }
}

#[tactic(auto, unfolding(crate::specs::Slice::cascade_of))]
fn handed_up(a: Attributes, r: Registers, s: Paths, p: u64, carry: u64) -> Cascade
    ensures { result ≡ cascade_of a r s p carry }
{
    Cascade {
        a: pick((a.areg == 2) & (a.acascreg == 1), r.a1, s.a),
        b: pick((a.breg == 2) & (a.bcascreg == 1), r.b1, s.b),
        p,
        carry,
    }
}

// What a slice hands up, of the result and the carry that settle.
pub fn cascade_of(a: Attributes, r: Registers, s: Paths, res: u64, carry: u64) -> Cascade
    ensures { result ≡ cascade_of a r s (mux a.preg res r.p) (mux a.preg carry r.carry) }
{
    handed_up(a, r, s, mux(a.preg, res, r.p), mux(a.preg, carry, r.carry))
}

// A register's load, by its bits of RST and CE; where ALL holds, every enable is set and no reset is.
#[tactic(auto, unfolding(crate::specs::Slice::edge, unit::specs::Unit::load), using(crate::proofs::Edges::no_reset, crate::proofs::Edges::every_enable))]
fn load<const ALL: bool>(p: Ports, rst: u64, ce: u64, word: u64, input: u64) -> u64
    requires all { ALL ≡ true → (p.rst ≡ 0) × (p.ce ≡ 8191) }
    requires bits { (rst < 10) × (ce < 13) }
    ensures { result ≡ edge p rst ce word input }
{
    if ALL {
        input
    } else {
        unit::load(bit(p.rst, rst), bit(p.ce, ce), word, input)
    }
}

// Every register after the edge. Most clocks have every enable and no reset, and are compiled by themselves, with no test of those bits:
// tried with `next::<false>` alone, they took a fifth more.
fn next<const ALL: bool>(a: Attributes, r: Registers, p: Ports, s: Paths, t: Settled) -> Registers
    requires { ALL ≡ true → (p.rst ≡ 0) × (p.ce ≡ 8191) }
    ensures { result ≡ next_of a r p s t }
{
    let a2 = pick(a.areg == 2, r.a1, s.ain);
    let b2 = pick(a.breg == 2, r.b1, s.bin);
    Registers {
        a1: load::<ALL>(p, 0, 0, r.a1, s.ain),
        a2: load::<ALL>(p, 0, 1, r.a2, a2),
        b1: load::<ALL>(p, 1, 2, r.b1, s.bin),
        b2: load::<ALL>(p, 1, 3, r.b2, b2),
        c: load::<ALL>(p, 2, 4, r.c, p.c),
        d: load::<ALL>(p, 3, 5, r.d, p.d),
        ad: load::<ALL>(p, 3, 6, r.ad, t.ad),
        m: load::<ALL>(p, 4, 7, r.m, t.m),
        p: load::<ALL>(p, 5, 8, r.p, t.p),
        opmode: load::<ALL>(p, 6, 9, r.opmode, p.opmode),
        alumode: load::<ALL>(p, 7, 10, r.alumode, p.alumode),
        inmode: load::<ALL>(p, 8, 11, r.inmode, p.inmode),
        carryinsel: load::<ALL>(p, 6, 9, r.carryinsel, p.carryinsel),
        carryin: load::<ALL>(p, 9, 12, r.carryin, p.carryin),
        pd: load::<ALL>(p, 5, 8, r.pd, t.pd),
        pbd: load::<ALL>(p, 5, 8, r.pbd, t.pbd),
        pdpast: load::<ALL>(p, 5, 8, r.pdpast, r.pd),
        pbdpast: load::<ALL>(p, 5, 8, r.pbdpast, r.pbd),
        carry: load::<ALL>(p, 5, 8, r.carry, t.carry),
    }
}

// The registers after the edge, put in their words.
fn put_next(words: &mut [u64], a: Attributes, r: Registers, p: Ports, s: Paths, t: Settled)
    ensures { words.new ≡ stored words.old (registers_words (next_of a r p s t)) }
{
    if p.rst == 0 && p.ce == 8191 {
        next::<true>(a, r, p, s, t).put(words);
    } else {
        next::<false>(a, r, p, s, t).put(words);
    }
}

// One slice in one clock, on its own stretch of the column's registers: they become those after the edge. What it shows and hands up is of
// the registers before it. Of the orders of work that were tried, this one makes the cheapest clock.
pub fn stepped(a: Attributes, registers: &mut [u64], p: Ports, x: Cascade) -> Step
    ensures { Stepped a registers.old p x result registers.new }
{
    let r = Registers::of(&registers[..]);
    let k = in_effect(a, r, p);
    let s = routed(a, r, p, x);
    let t = multiplied(a, r, k, s);
    let o = selected(a, r, k, s, x, mux(a.mreg, t.m, r.m));
    let v = settled_from(a, t, summed(a, k, o));
    put_next(registers, a, r, p, s, v);
    let shown = shown(a, r, v);
    let up = handed_up(a, r, s, shown.p, shown.carry);
    Step { shown, up }
}
