// The refusals: which checks a slice fails, the lowest slice that fails one, and the checks in their order. Nothing is stored.
ghost use Rattle.std.specs.Prelude.{◌≡◌, true, [], ◌≤◌, ◌*◌, length, Err, OnOk, eqb};
ghost use Rattle.lent.specs.Refusing.{unless};
ghost use Rattle.records.specs.Records.{attribute_words};
ghost use Rattle.column.specs.declared.Check.TheVariants.{Attribute};
ghost use Rattle.column.specs.declared.Refusal.TheVariants.{BadCount, BadLength};
ghost use Rattle.column.specs.Refusals.{accepted, fails, lowest, refuse, rules, settings, count_fits, clock_answer, clear_answer, attributes_answer};
ghost use Rattle.column.specs.Parts.{Table, over, earlier_of, off_list_at, breaks_at};

use crate::inputs::Inputs;
use crate::stretch::record_at;
use crate::{Check, MOST_SLICES, Refusal};
use legal::Rule;
use records::{Attributes, Outputs, Ports, Registers};

// The limit check: the lowest slice that has a word over its width. Loops and a label, where `find` would do: 01 names the form.
#[tactic(auto, using(crate::proofs::Limits::first_over_here, crate::proofs::Limits::one_more_fits, crate::proofs::Limits::one_more_passes, crate::proofs::Search::entry_below))]
fn first_over(widths: &[u64], words: &[u64], count: usize) -> Option<usize>
    requires { Table widths.now words.now count }
    ensures { result ≡ lowest (over widths.now words.now) count }
{
    let n = widths.len();
    let mut found = None;
    'slices: for k in 0..count {
        for i in 0..n {
            if words[n * k + i] >> widths[i] != 0 {
                found = Some(k);
                break 'slices;
            }
        }
    }
    found
}

// The earlier of two findings.
fn earlier(f: Option<usize>, g: Option<usize>) -> Option<usize>
    ensures { result ≡ earlier_of f g }
{
    match (f, g) {
        (Some(i), Some(j)) => Some(i.min(j)),
        _ => f.or(g),
    }
}

// The lowest slice whose attributes are off their list. No `Inputs`, here and below: `attributes_answer` is lent no registers and no ports.
fn first_off_list(count: usize, attributes: &[u64]) -> Option<usize>
    requires { (count ≤ 24) × (length attributes.now ≡ attribute_words * count) }
    ensures { result ≡ lowest (off_list_at attributes.now) count }
{
    (0..count).find(|&k| legal::off_list(record_at(attributes, k)))
}

// Number 3: a word over its width, or off its list.
#[tactic(auto, using(crate::proofs::Search::attribute_parts))]
fn first_bad_attributes(count: usize, attributes: &[u64]) -> Option<usize>
    requires { (count ≤ 24) × (length attributes.now ≡ attribute_words * count) }
    ensures { result ≡ lowest (fails Attribute attributes.now [] []) count }
{
    earlier(
        first_over(&Attributes::WIDTHS, attributes, count),
        first_off_list(count, attributes),
    )
}

// The refusal of the slice that a check found, if it found one.
fn refuse(check: Check, found: Option<usize>) -> Result<(), Refusal>
    ensures { result ≡ refuse check found accepted }
{
    match found {
        None => Ok(()),
        Some(k) => Err(Refusal::Broken(check, k)),
    }
}

impl Inputs<'_> {
    // The lowest slice whose settings break a rule.
    fn first_breaking(&self, rule: Rule) -> Option<usize>
        ensures { result ≡ lowest (breaks_at rule self.now.attributes.now self.now.registers.now self.now.ports.now) self.now.count }
    {
        (0..self.count).find(|&k| {
            let (a, r, p) = self.slice(k);
            legal::breaks(rule, a, r, p)
        })
    }

    // `true` only where no slice breaks any of the checks 3 to 9, as in most columns; else the checks themselves decide.
    // `all` was tried: with it a slice-clock takes 1 to 7 instructions more.
    #[tactic(auto, using(crate::proofs::Answers::none_fails, crate::proofs::Passing::passes))]
    fn nothing_broken(&self) -> bool
        ensures { result ≡ true → settings self.now.count self.now.attributes.now self.now.registers.now self.now.ports.now ≡ accepted }
    {
        for k in 0..self.count {
            let (a, r, p) = self.slice(k);
            if !legal::breaks_nothing(a, r, p) {
                return false;
            }
        }
        true
    }

    // Checks 6 to 9, in their order.
    #[tactic(auto, unfolding(crate::specs::Refusals::rules, crate::specs::Refusals::fails, crate::specs::Refusals::broken, crate::specs::Parts::breaks_at))]
    fn rules_answer(&self) -> Result<(), Refusal>
        ensures { result ≡ rules self.now.count self.now.attributes.now self.now.registers.now self.now.ports.now }
    {
        refuse(Check::Inmode, self.first_breaking(Rule::Inmode))?;
        refuse(Check::Opmode, self.first_breaking(Rule::Opmode))?;
        refuse(Check::Alumode, self.first_breaking(Rule::Alumode))?;
        refuse(Check::Carryinsel, self.first_breaking(Rule::Carryinsel))
    }

    // Checks 3 to 9, in their order.
    #[tactic(auto, unfolding(crate::specs::Refusals::settings, crate::specs::Refusals::fails, crate::specs::Refusals::broken, crate::specs::Parts::over))]
    fn settings_answer(&self) -> Result<(), Refusal>
        ensures { result ≡ settings self.now.count self.now.attributes.now self.now.registers.now self.now.ports.now }
    {
        refuse(
            Check::Attribute,
            first_bad_attributes(self.count, self.attributes),
        )?;
        refuse(
            Check::Register,
            first_over(&Registers::WIDTHS, self.registers, self.count),
        )?;
        refuse(
            Check::Port,
            first_over(&Ports::WIDTHS, self.ports, self.count),
        )?;
        self.rules_answer()
    }
}

// Number 1: not 1 to 24 slices.
pub fn counted(count: usize) -> Result<(), Refusal>
    ensures answer { result ≡ unless (count_fits count) (Err BadCount) accepted }
    ensures few { OnOk result (count ≤ 24) }
{
    if (1..=MOST_SLICES).contains(&count) {
        Ok(())
    } else {
        Err(Refusal::BadCount)
    }
}

// Number 2: a lent length differs from the required one.
pub fn lent_as(words: &[u64], required: usize) -> Result<(), Refusal>
    ensures { result ≡ unless (eqb (length words.now) required) (Err BadLength) accepted }
{
    if words.len() == required {
        Ok(())
    } else {
        Err(Refusal::BadLength)
    }
}

// The checks of a clock, in their order.
#[tactic(auto, unfolding(crate::specs::Refusals::clock_answer, crate::specs::Refusals::lengths_fit, crate::specs::Refusals::inputs_fit))]
pub fn clock_answer(
    count: usize,
    attributes: &[u64],
    registers: &[u64],
    ports: &[u64],
    outputs: &[u64],
) -> Result<(), Refusal>
    ensures { result ≡ clock_answer count attributes.now registers.now ports.now outputs.now }
{
    let inputs = Inputs::of(count, attributes, registers, ports)?;
    lent_as(outputs, Outputs::WORDS * count)?;
    if inputs.nothing_broken() {
        return Ok(());
    }
    inputs.settings_answer()
}

// The checks of clearing, in their order.
#[tactic(auto, unfolding(crate::specs::Refusals::clear_answer))]
pub fn clear_answer(count: usize, registers: &[u64]) -> Result<(), Refusal>
    ensures { result ≡ clear_answer count registers.now }
{
    counted(count)?;
    lent_as(registers, Registers::WORDS * count)
}

// Checks 1 to 3 of a column's attributes alone.
#[tactic(auto, unfolding(crate::specs::Refusals::attributes_answer))]
pub fn attributes_answer(count: usize, attributes: &[u64]) -> Result<(), Refusal>
    ensures { result ≡ attributes_answer count attributes.now }
{
    counted(count)?;
    lent_as(attributes, Attributes::WORDS * count)?;
    refuse(Check::Attribute, first_bad_attributes(count, attributes))
}
