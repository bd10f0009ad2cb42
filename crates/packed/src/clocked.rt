// The clocked run: every clock of it from a cleared column, and the answers read off the list that it fills.
ghost use Rattle.std.specs.Prelude.{◌≡◌, ◌*◌, length};
ghost use Rattle.packed.specs.Packed.{run_clocks, read_answers};
ghost use Rattle.packed.specs.Parts.{Standing, OneStep, Stepped};

use crate::answers::put_row;
use crate::batch::Checked;
use crate::checks::MOST_TERMS;
use crate::feed::slice_setting;
use column::{Outputs, Ports, Registers};

impl Checked<'_> {
    // Clock t: the ports are fed, the column is clocked, and the top P that it shows is returned. The words are four parameters:
    // as fields of a struct that steps they were tried, and the proof did not close where two of them are lent at once.
    fn one_step(
        &self,
        t: usize,
        attributes: &[u64],
        registers: &mut [u64],
        ports: &mut [[u64; Ports::WORDS]],
        outputs: &mut [u64],
    ) -> u64
        requires { Standing self.now t attributes.now registers.old outputs.old × (length ports.old ≡ self.now.terms) }
        ensures { OneStep self.now t attributes.now registers.new outputs.new result }
    {
        self.fill_ports(t, ports);
        let ports = ports.as_flattened();
        // Each clock of a run is accepted (`clock_accepted`), so its answer says nothing.
        let _ = column::clock(self.terms, attributes, registers, ports, outputs);
        outputs[Outputs::WORDS * (self.terms - 1)]
    }

    // Every clock of the run from a column that is set and cleared, in the words of as many slices as there are terms; the top P
    // of each goes into the list. What is returned is counted, one for each clock.
    pub fn stepped(&self, list: &mut [u64]) -> u64
        requires { length list.old ≡ run_clocks self.now.terms self.now.rows }
        ensures { Stepped self.now result list.new }
    {
        let attributes = [slice_setting().words(); MOST_TERMS];
        let mut ports = [[0; Ports::WORDS]; MOST_TERMS];
        // What the column writes is flat: the library's `as_flattened_mut` does not say what a slice ends as.
        let mut registers = [0; Registers::WORDS * MOST_TERMS];
        let mut outputs = [0; Outputs::WORDS * MOST_TERMS];
        let attributes = attributes[..self.terms].as_flattened();
        let ports = &mut ports[..self.terms];
        let registers = &mut registers[..Registers::WORDS * self.terms];
        let outputs = &mut outputs[..Outputs::WORDS * self.terms];
        // Counted by hand: the clocks that a run reports are those that it stepped (`Stepped`), not the list's length.
        let mut clocks = 0;
        for word in list.iter_mut() {
            *word = self.one_step(clocks, attributes, registers, ports, outputs);
            clocks += 1;
        }
        clocks as u64
    }

    // The answers read off the list.
    pub fn read_answers(&self, list: &[u64], answers: &mut [i32])
        requires { (length list.now ≡ run_clocks self.now.terms self.now.rows) × (length answers.old ≡ 2 * self.now.rows) }
        ensures { answers.new ≡ read_answers self.now.terms self.now.rows list.now }
    {
        for j in 0..self.rows {
            let p = list[j + self.terms + 3];
            put_row(answers, j, word::high_sum(p), word::low_sum(p));
        }
    }
}
