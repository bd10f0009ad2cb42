// Why a slice's P is what it is: the unit's operands, the place that each was selected from, the rule by which the unit works,
// and its result. Every function takes every number, and its parameters are named and listed as in `slice`.
#![tactic(auto)]

ghost use Rattle.std.specs.Prelude.{◌≡◌};
ghost use Rattle.reason.specs.Reason.{reason_of, no_reason, reason_words};

use records::{Attributes, Ports, Registers};
use slice::Cascade;
use unit::Operands;

mod places;
mod rules;

pub use places::{Place, Places};
pub use rules::Rule;

// The operands, where each comes from, the rule with its lanes (USE_SIMD), and the unit's result. A refused mode, as a refused call, has no
// rule.
#[derive(Clone, Copy, Default)]
pub struct Reason {
    pub values: Operands,
    pub places: Places,
    pub rule: Option<Rule>,
    pub lanes: u64,
    pub result: u64,
}

impl Reason {
    pub const WORDS: usize = 13;

    // Of a refused call: zeros. By this name, as each record has `cleared`.
    pub fn none() -> Reason
        ensures { result ≡ no_reason }
    {
        Reason::default()
    }

    // As words: the five values, their five places, the rule, the lanes, the result. No `From`, as with each record.
    #[tactic(auto, unfolding(crate::specs::Reason::reason_words))]
    pub fn words(self) -> [u64; Reason::WORDS]
        ensures { result ≡ reason_words self }
    {
        [
            self.values.w,
            self.values.x,
            self.values.y,
            self.values.z,
            self.values.cin,
            self.places.w.number(),
            self.places.x.number(),
            self.places.y.number(),
            self.places.z.number(),
            self.places.cin.number(),
            rules::number(self.rule),
            self.lanes,
            self.result,
        ]
    }
}

// The reason of a slice's result in this clock. It is worked out by the places and the rule, apart from the clock's own code.
#[tactic(auto, unfolding(crate::specs::Reason::reason_of, slice::specs::Slice::slice_settled, slice::specs::Slice::settled_of, slice::specs::Slice::slice_operands), using(crate::proofs::Truth::held_operands, crate::proofs::Truth::rule_true))]
pub fn reason_of(a: Attributes, r: Registers, p: Ports, x: Cascade) -> Reason
    ensures { result ≡ reason_of a r p x }
{
    let k = slice::in_effect(a, r, p);
    let s = slice::routed(a, r, p, x);
    let places = places::places_of(k);
    let values = places::values_at(places, a, r, s, x, slice::m_path(a, r, k, s));
    let rule = rules::rule_of(k.alumode, values.y);
    Reason {
        values,
        places,
        rule,
        lanes: a.use_simd,
        result: rules::applied(rule, a.use_simd, values),
    }
}
