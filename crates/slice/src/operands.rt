// The unit's operands. Each is worked out only where its select chooses it. The choice of most slices, W 0 and CARRYINSEL 0, goes first
// (docs/DECISIONS.md, 44): tried as arms of the `match`, the clock took 12 to 14 instructions a slice more, 2 in 100.
ghost use Rattle.std.specs.Prelude.{◌≡◌, [], ◌∷◌, ◌-◌};
ghost use Rattle.word.specs.Word.{extend, shifted};
ghost use Rattle.unit.specs.Choice.{choose, bit};
ghost use Rattle.unit.specs.Unit.{ones};
ghost use Rattle.slice.specs.Slice.{joined, operands_of};

use crate::inputs::{Cascade, Controls, Paths, selects_of};
use records::{Attributes, Registers};
use unit::{ONES, Operands, bit};

fn w_operand(select: u64, own: u64, rnd: u64, c: u64) -> u64
    ensures { result ≡ choose (0 ∷ own ∷ rnd ∷ c ∷ []) select }
{
    if select == 0 {
        return 0;
    }
    match select {
        1 => own,
        2 => rnd,
        3 => c,
        _ => 0,
    }
}

fn x_operand(select: u64, m: u64, own: u64, a: u64, b: u64) -> u64
    ensures { result ≡ choose (0 ∷ extend 45 48 m ∷ own ∷ joined a b ∷ []) select }
{
    match select {
        1 => unit::extend(45, 48, m),
        2 => own,
        3 => joined(a, b),
        _ => 0,
    }
}

// A:B, the A path above the B path.
pub fn joined(a: u64, b: u64) -> u64
    ensures { result ≡ joined a b }
{
    a % 0x4000_0000 * 0x4_0000 + b % 0x4_0000
}

fn y_operand(select: u64, c: u64) -> u64
    ensures { result ≡ choose (0 ∷ 0 ∷ ones 48 ∷ c ∷ []) select }
{
    match select {
        1 => 0, // M, which X contributes
        2 => ONES,
        3 => c,
        _ => 0,
    }
}

fn z_operand(select: u64, below: u64, own: u64, c: u64) -> u64
    ensures { result ≡ choose (0 ∷ below ∷ own ∷ c ∷ 0 ∷ shifted 48 17 below ∷ shifted 48 17 own ∷ []) select }
{
    match select {
        1 => below,
        2 => own,
        3 => c,
        5 => word::shift17(below),
        6 => word::shift17(own),
        _ => 0,
    }
}

fn carry_in(select: u64, carryin: u64, below: u64, carry: u64, own: u64) -> u64
    ensures { result ≡ choose (carryin ∷ (1 - bit below 47) ∷ carry ∷ bit below 47 ∷ 0 ∷ (1 - bit own 47) ∷ 0 ∷ bit own 47 ∷ []) select }
{
    if select == 0 {
        return carryin;
    }
    match select {
        1 => 1 - bit(below, 47),
        2 => carry,
        3 => bit(below, 47),
        5 => 1 - bit(own, 47),
        7 => bit(own, 47),
        _ => 0,
    }
}

// The operands, of the M path m.
#[tactic(auto, unfolding(crate::specs::Slice::operands_of))]
pub fn selected(a: Attributes, r: Registers, k: Controls, s: Paths, x: Cascade, m: u64) -> Operands
    ensures { result ≡ operands_of a r k s x m }
{
    let select = selects_of(k.opmode);
    Operands {
        w: w_operand(select.w, r.p, a.rnd, s.c),
        x: x_operand(select.x, m, r.p, s.a, s.b),
        y: y_operand(select.y, s.c),
        z: z_operand(select.z, x.p, r.p, s.c),
        cin: carry_in(k.carryinsel, s.carryin, x.p, x.carry, r.p),
    }
}
