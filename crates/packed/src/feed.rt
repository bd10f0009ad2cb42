// What the column is set to, and what it is fed in a clock.
ghost use Rattle.std.specs.Prelude.{◌≡◌, ◌<◌, length};
ghost use Rattle.std.specs.List.{flat_map};
ghost use Rattle.packed.specs.Packed.{setting, ports_for};
ghost use Rattle.packed.specs.Parts.{SliceFed, ColumnFed};

use crate::batch::Checked;
use column::{Attributes, Ports};

// The setting of each slice.
pub fn slice_setting() -> Attributes
    ensures { result ≡ setting }
{
    Attributes {
        areg: 1,
        breg: 2,
        acascreg: 1,
        bcascreg: 2,
        dreg: 1,
        adreg: 1,
        mreg: 1,
        preg: 1,
        use_mult: 1,
        amultsel: 1,
        ..Attributes::cleared()
    }
}

// The ports of a slice that is fed a, d and b.
fn ports_for(a: i8, d: i8, b: i8) -> Ports
    ensures { result ≡ ports_for a d b }
{
    Ports {
        a: word::word_of(a as i64 * 0x4_0000, 30),
        b: word::word_of(b as i64, 18),
        d: word::word_of(d as i64, 27),
        opmode: 21,
        inmode: 4,
        ce: 8191,
        ..Ports::cleared()
    }
}

impl Checked<'_> {
    // The ports of slice k in clock t: term k of row t - k, where that row is due.
    fn slice_ports(&self, t: usize, k: usize) -> Ports
        requires { k < self.now.terms }
        ensures { SliceFed self.now t k result }
    {
        if t < k {
            return ports_for(0, 0, 0);
        }
        let j = t - k;
        if self.rows <= j {
            return ports_for(0, 0, 0);
        }
        let i = j * self.terms + k;
        ports_for(self.a[i], self.d[i], self.b[i])
    }

    // The ports of every slice in clock t.
    pub fn fill_ports(&self, t: usize, ports: &mut [[u64; Ports::WORDS]])
        requires { length ports.old ≡ self.now.terms }
        ensures { ColumnFed self.now t (flat_map (λ x. x) ports.new) }
    {
        for (k, words) in ports.iter_mut().enumerate() {
            *words = self.slice_ports(t, k).words();
        }
    }
}
