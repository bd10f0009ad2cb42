// What a slice reads: the control words in effect and their selects, the inputs and the paths.
ghost use Rattle.std.specs.Prelude.{◌≡◌};
ghost use Rattle.slice.specs.Slice.{controls_of, selects_of, paths_of};

use crate::choice::mux;
use records::{Attributes, Ports, Registers};

// What a slice gets from the slice below: ACIN, BCIN, PCIN, and the carry.
#[derive(Clone, Copy, Default)]
pub struct Cascade {
    pub a: u64,
    pub b: u64,
    pub p: u64,
    pub carry: u64,
}

// The control words in effect.
#[derive(Clone, Copy)]
pub struct Controls {
    pub opmode: u64,
    pub alumode: u64,
    pub inmode: u64,
    pub carryinsel: u64,
}

// The fields of OPMODE.
#[derive(Clone, Copy)]
pub struct Selects {
    pub w: u64,
    pub x: u64,
    pub y: u64,
    pub z: u64,
}

// The inputs of A and B, and the paths.
#[derive(Clone, Copy)]
pub struct Paths {
    pub ain: u64,
    pub bin: u64,
    pub a: u64,
    pub b: u64,
    pub c: u64,
    pub d: u64,
    pub carryin: u64,
}

// The control words in effect: the register where its ..REG is 1, else the port.
#[tactic(auto, unfolding(crate::specs::Slice::controls_of))]
pub fn in_effect(a: Attributes, r: Registers, p: Ports) -> Controls
    ensures { result ≡ controls_of a r p }
{
    Controls {
        opmode: mux(a.opmodereg, p.opmode, r.opmode),
        alumode: mux(a.alumodereg, p.alumode, r.alumode),
        inmode: mux(a.inmodereg, p.inmode, r.inmode),
        carryinsel: mux(a.carryinselreg, p.carryinsel, r.carryinsel),
    }
}

// The fields of OPMODE.
#[tactic(auto, unfolding(crate::specs::Slice::selects_of))]
pub fn selects_of(opmode: u64) -> Selects
    ensures { result ≡ selects_of opmode }
{
    Selects {
        w: (opmode >> 7) % 4,
        x: opmode % 4,
        y: (opmode >> 2) % 4,
        z: (opmode >> 4) % 8,
    }
}

#[tactic(auto, unfolding(crate::specs::Slice::paths_of))]
pub fn routed(a: Attributes, r: Registers, p: Ports, x: Cascade) -> Paths
    ensures { result ≡ paths_of a r p x }
{
    let ain = mux(a.a_input, p.a, x.a);
    let bin = mux(a.b_input, p.b, x.b);
    Paths {
        ain,
        bin,
        a: mux(a.areg, ain, r.a2),
        b: mux(a.breg, bin, r.b2),
        c: mux(a.creg, p.c, r.c),
        d: mux(a.dreg, p.d, r.d),
        carryin: mux(a.carryinreg, p.carryin, r.carryin),
    }
}
