// Which settings of a slice are refused.
ghost use Rattle.std.specs.Prelude.{◌≡◌};
ghost use Rattle.legal.specs.Legal.{listed, split_fits, off_list, bad_inmode, bad_opmode, bad_alumode, bad_carryinsel, breaks};

use records::{Attributes, Ports, Registers};
use slice::{Controls, Selects};
use unit::bit;

// The checks of a slice's settings, numbers 6 to 9. An enum and no closure: the definition `breaks` and the theorem `breaks_once` go by it.
#[derive(Clone, Copy)]
pub enum Rule {
    Inmode,
    Opmode,
    Alumode,
    Carryinsel,
}

fn listed(reg: u64, cascreg: u64) -> bool
    ensures { result ≡ listed reg cascreg }
{
    reg <= 2 && (cascreg == reg || reg == 2 && cascreg == 1)
}

// The adder may be split in two or four where no product is used.
fn split_fits(mult: u64, simd: u64) -> bool
    ensures { result ≡ split_fits mult simd }
{
    simd <= 2 && (simd == 0 || mult == 0)
}

// Number 3, beside the widths.
#[tactic(auto, unfolding(crate::specs::Legal::off_list))]
pub fn off_list(a: Attributes) -> bool
    ensures { result ≡ off_list a }
{
    !(listed(a.areg, a.acascreg)
        && listed(a.breg, a.bcascreg)
        && split_fits(a.use_mult, a.use_simd))
}

// Number 6.
#[tactic(auto, unfolding(crate::specs::Legal::bad_inmode))]
fn bad_inmode(a: Attributes, k: Controls) -> bool
    ensures { result ≡ bad_inmode a k }
{
    (bit(k.inmode, 2) == 1 || bit(k.inmode, 3) == 1) && a.amultsel == 0
        || bit(k.inmode, 0) == 1 && a.areg == 0
        || bit(k.inmode, 4) == 1 && a.breg == 0
}

// Number 7.
#[tactic(auto, unfolding(crate::specs::Legal::bad_opmode))]
fn bad_opmode(a: Attributes, s: Selects) -> bool
    ensures { result ≡ bad_opmode a s }
{
    matches!(s.z, 4 | 7)
        || (s.x == 1) != (s.y == 1)
        || s.x == 1 && a.use_mult == 0
        || (s.x == 2 || matches!(s.z, 2 | 6) || s.w == 1) && a.preg == 0
}

// Number 8.
#[tactic(auto, unfolding(crate::specs::Legal::bad_alumode))]
fn bad_alumode(alumode: u64, s: Selects) -> bool
    ensures { result ≡ bad_alumode alumode s }
{
    matches!(alumode, 8..=11) || alumode >= 4 && (s.w != 0 || !matches!(s.y, 0 | 2) || s.x == 1)
}

// Number 9.
#[tactic(auto, unfolding(crate::specs::Legal::bad_carryinsel))]
fn bad_carryinsel(a: Attributes, k: Controls) -> bool
    ensures { result ≡ bad_carryinsel a k }
{
    matches!(k.carryinsel, 4 | 6) || matches!(k.carryinsel, 5 | 7) && a.preg == 0
}

// Whether a slice's settings break a rule.
#[tactic(auto, unfolding(crate::specs::Legal::breaks))]
pub fn breaks(rule: Rule, a: Attributes, r: Registers, p: Ports) -> bool
    ensures { result ≡ breaks rule a r p }
{
    let k = slice::in_effect(a, r, p);
    let s = slice::selects_of(k.opmode);
    match rule {
        Rule::Inmode => bad_inmode(a, k),
        Rule::Opmode => bad_opmode(a, s),
        Rule::Alumode => bad_alumode(k.alumode, s),
        Rule::Carryinsel => bad_carryinsel(a, k),
    }
}
