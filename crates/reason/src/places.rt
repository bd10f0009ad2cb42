// The places that operands are selected from, and which the selects name.
ghost use Rattle.std.specs.Prelude.{◌≡◌, [], ◌∷◌};
ghost use Rattle.reason.specs.declared.places.Place.TheVariants.{Zero};
ghost use Rattle.reason.specs.Reason.{place_number, named, z_place, cin_place, places_of, held_at, held_values};

use records::{Attributes, Registers};
use slice::{Cascade, Controls, Paths};
use unit::{ONES, Operands, bit};

// An entry of a select: 0, M, P, A:B, all ones, C, PCIN, PCIN shifted, P shifted, RND, the CARRYIN path, a sign or its
// complement, the carry of the slice below. The numbers are those that dsp_why tells.
#[derive(Clone, Copy, Default)]
pub enum Place {
    #[default]
    Zero = 0,
    M = 1,
    P = 2,
    AB = 3,
    Ones = 4,
    C = 5,
    Pcin = 6,
    PcinShifted = 7,
    PShifted = 8,
    Rnd = 9,
    Carryin = 10,
    PcinBit47 = 11,
    NotPcinBit47 = 12,
    PBit47 = 13,
    NotPBit47 = 14,
    CarryBelow = 15,
}

impl Place {
    pub(crate) fn number(self) -> u64
        ensures { result ≡ place_number self }
    {
        self as u64
    }
}

// The place of each operand.
#[derive(Clone, Copy, Default)]
pub struct Places {
    pub w: Place,
    pub x: Place,
    pub y: Place,
    pub z: Place,
    pub cin: Place,
}

// A select that names the place 0 and three others.
fn one_of(select: u64, first: Place, second: Place, third: Place) -> Place
    ensures { result ≡ named (Zero ∷ first ∷ second ∷ third ∷ []) select }
{
    match select {
        1 => first,
        2 => second,
        3 => third,
        _ => Place::Zero,
    }
}

fn z_place(select: u64) -> Place
    ensures { result ≡ z_place select }
{
    match select {
        1 => Place::Pcin,
        2 => Place::P,
        3 => Place::C,
        5 => Place::PcinShifted,
        6 => Place::PShifted,
        _ => Place::Zero,
    }
}

fn cin_place(select: u64) -> Place
    ensures { result ≡ cin_place select }
{
    match select {
        0 => Place::Carryin,
        1 => Place::NotPcinBit47,
        2 => Place::CarryBelow,
        3 => Place::PcinBit47,
        5 => Place::NotPBit47,
        7 => Place::PBit47,
        _ => Place::Zero,
    }
}

// Where the operands come from, by the control words in effect.
#[tactic(auto, unfolding(crate::specs::Reason::places_of))]
pub fn places_of(k: Controls) -> Places
    ensures { result ≡ places_of k }
{
    let select = slice::selects_of(k.opmode);
    Places {
        w: one_of(select.w, Place::P, Place::Rnd, Place::C),
        x: one_of(select.x, Place::M, Place::P, Place::AB),
        // M, which X contributes, leaves Y the place 0.
        y: one_of(select.y, Place::Zero, Place::Ones, Place::C),
        z: z_place(select.z),
        cin: cin_place(k.carryinsel),
    }
}

// What a place holds, of the slice's paths s, the cascade x and the M path m.
#[tactic(auto, unfolding(crate::specs::Reason::held_at))]
fn value_at(place: Place, a: Attributes, r: Registers, s: Paths, x: Cascade, m: u64) -> u64
    ensures { result ≡ held_at a r s x m place }
{
    match place {
        Place::Zero => 0,
        Place::M => unit::extend(45, 48, m),
        Place::P => r.p,
        Place::AB => slice::joined(s.a, s.b),
        Place::Ones => ONES,
        Place::C => s.c,
        Place::Pcin => x.p,
        Place::PcinShifted => word::shift17(x.p),
        Place::PShifted => word::shift17(r.p),
        Place::Rnd => a.rnd,
        Place::Carryin => s.carryin,
        Place::PcinBit47 => bit(x.p, 47),
        Place::NotPcinBit47 => 1 - bit(x.p, 47),
        Place::PBit47 => bit(r.p, 47),
        Place::NotPBit47 => 1 - bit(r.p, 47),
        Place::CarryBelow => x.carry,
    }
}

// What the operands' places hold.
#[tactic(auto, unfolding(crate::specs::Reason::held_values))]
pub fn values_at(
    places: Places,
    a: Attributes,
    r: Registers,
    s: Paths,
    x: Cascade,
    m: u64,
) -> Operands
    ensures { result ≡ held_values a r s x m places }
{
    Operands {
        w: value_at(places.w, a, r, s, x, m),
        x: value_at(places.x, a, r, s, x, m),
        y: value_at(places.y, a, r, s, x, m),
        z: value_at(places.z, a, r, s, x, m),
        cin: value_at(places.cin, a, r, s, x, m),
    }
}
