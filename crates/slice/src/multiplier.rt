// The pre-adder and the multiplier: what AD and M load, and whether the pre-adder wrapped.
ghost use Rattle.std.specs.Prelude.{◌≡◌};
ghost use Rattle.unit.specs.Choice.{mux};
ghost use Rattle.slice.specs.Slice.{a_side, d_side, product_of};

use crate::choice::mux;
use crate::inputs::{Controls, Paths};
use records::{Attributes, Registers};
use unit::bit;

#[derive(Clone, Copy)]
pub struct Product {
    pub ad: u64,
    pub wrap: u64,
    pub m: u64,
}

#[tactic(auto, unfolding(crate::specs::Slice::a_side))]
fn a_side(r: Registers, k: Controls, s: Paths) -> u64
    ensures { result ≡ a_side r k s }
{
    mux(
        bit(k.inmode, 1),
        mux(bit(k.inmode, 0), s.a, r.a1) % 0x800_0000,
        0,
    )
}

#[tactic(auto, unfolding(crate::specs::Slice::d_side))]
fn d_side(k: Controls, s: Paths) -> u64
    ensures { result ≡ d_side k s }
{
    mux(bit(k.inmode, 2), 0, s.d)
}

#[tactic(auto, unfolding(crate::specs::Slice::pre_added_of, crate::specs::Slice::left_of, crate::specs::Slice::right_of, crate::specs::Slice::product_of))]
pub fn multiplied(a: Attributes, r: Registers, k: Controls, s: Paths) -> Product
    ensures { result ≡ product_of a r k s }
{
    let side = a_side(r, k, s);
    let added = unit::pre_adder(bit(k.inmode, 3), d_side(k, s), side);
    let left = mux(a.amultsel, side, mux(a.adreg, added.ad, r.ad));
    let right = mux(bit(k.inmode, 4), s.b, r.b1);
    Product {
        ad: added.ad,
        wrap: added.wrap,
        m: unit::multiply(left, right),
    }
}

// The M path: the register where MREG is 1, else what it loads.
pub fn m_path(a: Attributes, r: Registers, k: Controls, s: Paths) -> u64
    ensures { result ≡ mux a.mreg (product_of a r k s).m r.m }
{
    mux(a.mreg, multiplied(a, r, k, s).m, r.m)
}
