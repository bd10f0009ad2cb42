// The rules of the unit: one for each arithmetic mode, and one for each function that a logic mode's row gives.
ghost use Rattle.std.specs.Prelude.{◌≡◌};
ghost use Rattle.reason.specs.Reason.{rule_number, by_y_rule, rule_of, made_by, applied};

use unit::{ONES, Operands};

// The numbers are those that dsp_why tells.
#[derive(Clone, Copy)]
pub enum Rule {
    Sum = 1,
    SumNotZ = 2,
    NotSum = 3,
    Difference = 4,
    Xor = 5,
    Xnor = 6,
    And = 7,
    Or = 8,
    AndNotZ = 9,
    OrNotZ = 10,
    Nand = 11,
    Nor = 12,
    NotXOrZ = 13,
    NotXAndZ = 14,
}

// 0 where there is none.
pub fn number(rule: Option<Rule>) -> u64
    ensures { result ≡ rule_number rule }
{
    rule.map_or(0, |rule| rule as u64)
}

// A logic mode's rule goes by Y.
fn by_y(y: u64, zeros: Rule, ones: Rule) -> Rule
    ensures { result ≡ by_y_rule y zeros ones }
{
    if y == 0 { zeros } else { ones }
}

#[tactic(auto, unfolding(crate::specs::Reason::rule_of))]
pub fn rule_of(mode: u64, y: u64) -> Option<Rule>
    ensures { result ≡ rule_of mode y }
{
    Some(match mode {
        0 => Rule::Sum,
        1 => Rule::SumNotZ,
        2 => Rule::NotSum,
        3 => Rule::Difference,
        4 | 7 => by_y(y, Rule::Xor, Rule::Xnor),
        5 | 6 => by_y(y, Rule::Xnor, Rule::Xor),
        12 => by_y(y, Rule::And, Rule::Or),
        13 => by_y(y, Rule::AndNotZ, Rule::OrNotZ),
        14 => by_y(y, Rule::Nand, Rule::Nor),
        15 => by_y(y, Rule::NotXOrZ, Rule::NotXAndZ),
        _ => return None,
    })
}

// What a rule makes of the operands: an arithmetic one in its lanes, a logic one on the 48 bits of X and Z.
#[tactic(auto, unfolding(crate::specs::Reason::made_by))]
fn made_by(rule: Rule, simd: u64, o: Operands) -> u64
    ensures { result ≡ made_by rule simd o }
{
    let x = o.x % 0x1_0000_0000_0000;
    let z = o.z % 0x1_0000_0000_0000;
    match rule {
        Rule::Sum => unit::in_lanes(simd, 0, o),
        Rule::SumNotZ => unit::in_lanes(simd, 1, o),
        Rule::NotSum => unit::in_lanes(simd, 2, o),
        Rule::Difference => unit::in_lanes(simd, 3, o),
        Rule::Xor => x ^ z,
        Rule::Xnor => ONES - (x ^ z),
        Rule::And => x & z,
        Rule::Or => x | z,
        Rule::AndNotZ => x & (ONES - z),
        Rule::OrNotZ => x | (ONES - z),
        Rule::Nand => ONES - (x & z),
        Rule::Nor => ONES - (x | z),
        Rule::NotXOrZ => (ONES - x) | z,
        Rule::NotXAndZ => (ONES - x) & z,
    }
}

// The same of the rule of a slice; 0 where there is none.
pub fn applied(rule: Option<Rule>, simd: u64, o: Operands) -> u64
    ensures { result ≡ applied rule simd o }
{
    rule.map_or(0, |rule| made_by(rule, simd, o))
}
