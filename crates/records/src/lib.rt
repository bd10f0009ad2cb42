// The four records of a slice (01, "The lent words"): their words by name and in their order, how many they are and how wide,
// the record of a stretch of lent words, its words put there, and the cleared slice. `cleared` and `words` stand with each record: 01
// names the constructor, and `words` is the record's own list, which no name of a type would say plainer. `of` reads words by place: a
// slice pattern would name each of them twice.
#![tactic(auto)]

ghost use Rattle.std.specs.Prelude.{ℕ, List, ◌≡◌, replicate};
ghost use Rattle.lent.specs.Words.{enough, stored};
ghost use Rattle.records.specs.Records.{attribute_words, attributes_of, attributes_words, register_words, registers_of, registers_words, port_words, ports_of, ports_words, output_words, outputs_of, outputs_words};

// The slices of a column, at most.
pub const MOST_SLICES: usize = 24;

// A record that is read from lent words: how many, and which record of these. `COUNT` is each record's own `WORDS`, where 01 has it, for code
// that goes by no record's name.
pub trait Record: Copy {
    ghost COUNT: { ℕ };

    ghost record_of: { List ℕ → Self };

    const COUNT: usize;

    // The record of a stretch of lent words. Of a stretch that is too short no word is read: each is 0.
    fn of(words: &[u64]) -> Self
        ensures { result ≡ record_of (enough COUNT words.now) };
}

// A slice's settings.
#[derive(Clone, Copy, Default)]
pub struct Attributes {
    pub areg: u64,
    pub breg: u64,
    pub acascreg: u64,
    pub bcascreg: u64,
    pub a_input: u64,
    pub b_input: u64,
    pub creg: u64,
    pub dreg: u64,
    pub adreg: u64,
    pub mreg: u64,
    pub preg: u64,
    pub opmodereg: u64,
    pub alumodereg: u64,
    pub inmodereg: u64,
    pub carryinreg: u64,
    pub carryinselreg: u64,
    pub use_mult: u64,
    pub amultsel: u64,
    pub rnd: u64,
    pub pattern: u64,
    pub mask: u64,
    pub use_simd: u64,
}

impl Attributes {
    pub const WORDS: usize = 22;
    // The width of every word, in the words' order.
    pub const WIDTHS: [u64; Attributes::WORDS] = [
        2, 2, 2, 2, 1, 1, 1, 1, 1, 1, 1, 1, 1, 1, 1, 1, 1, 1, 48, 48, 48, 2,
    ];

    // Every word 0.
    pub fn cleared() -> Attributes
        ensures { result ≡ attributes_of (replicate attribute_words 0) }
    {
        Attributes::default()
    }

    pub fn words(self) -> [u64; Attributes::WORDS]
        ensures { result ≡ attributes_words self }
    {
        [
            self.areg,
            self.breg,
            self.acascreg,
            self.bcascreg,
            self.a_input,
            self.b_input,
            self.creg,
            self.dreg,
            self.adreg,
            self.mreg,
            self.preg,
            self.opmodereg,
            self.alumodereg,
            self.inmodereg,
            self.carryinreg,
            self.carryinselreg,
            self.use_mult,
            self.amultsel,
            self.rnd,
            self.pattern,
            self.mask,
            self.use_simd,
        ]
    }
}

impl Record for Attributes {
    ghost COUNT = { attribute_words };

    ghost record_of = { attributes_of };

    const COUNT: usize = Attributes::WORDS;

    fn of(words: &[u64]) -> Attributes {
        if words.len() < Attributes::WORDS {
            return Attributes::cleared();
        }
        Attributes {
            areg: words[0],
            breg: words[1],
            acascreg: words[2],
            bcascreg: words[3],
            a_input: words[4],
            b_input: words[5],
            creg: words[6],
            dreg: words[7],
            adreg: words[8],
            mreg: words[9],
            preg: words[10],
            opmodereg: words[11],
            alumodereg: words[12],
            inmodereg: words[13],
            carryinreg: words[14],
            carryinselreg: words[15],
            use_mult: words[16],
            amultsel: words[17],
            rnd: words[18],
            pattern: words[19],
            mask: words[20],
            use_simd: words[21],
        }
    }
}

// What a slice holds between edges.
#[derive(Clone, Copy, Default)]
pub struct Registers {
    pub a1: u64,
    pub a2: u64,
    pub b1: u64,
    pub b2: u64,
    pub c: u64,
    pub d: u64,
    pub ad: u64,
    pub m: u64,
    pub p: u64,
    pub opmode: u64,
    pub alumode: u64,
    pub inmode: u64,
    pub carryinsel: u64,
    pub carryin: u64,
    pub pd: u64,
    pub pbd: u64,
    pub pdpast: u64,
    pub pbdpast: u64,
    pub carry: u64,
}

impl Registers {
    pub const WORDS: usize = 19;
    // The width of every word, in the words' order.
    pub const WIDTHS: [u64; Registers::WORDS] = [
        30, 30, 18, 18, 48, 27, 27, 45, 48, 9, 4, 5, 3, 1, 1, 1, 1, 1, 1,
    ];

    // Every word 0.
    pub fn cleared() -> Registers
        ensures { result ≡ registers_of (replicate register_words 0) }
    {
        Registers::default()
    }

    // Puts the words in a stretch of lent words. In a stretch of another length nothing is put.
    pub fn put(self, words: &mut [u64])
        ensures { words.new ≡ stored words.old (registers_words self) }
    {
        lent::store(words, &self.words());
    }

    pub fn words(self) -> [u64; Registers::WORDS]
        ensures { result ≡ registers_words self }
    {
        [
            self.a1,
            self.a2,
            self.b1,
            self.b2,
            self.c,
            self.d,
            self.ad,
            self.m,
            self.p,
            self.opmode,
            self.alumode,
            self.inmode,
            self.carryinsel,
            self.carryin,
            self.pd,
            self.pbd,
            self.pdpast,
            self.pbdpast,
            self.carry,
        ]
    }
}

impl Record for Registers {
    ghost COUNT = { register_words };

    ghost record_of = { registers_of };

    const COUNT: usize = Registers::WORDS;

    fn of(words: &[u64]) -> Registers {
        if words.len() < Registers::WORDS {
            return Registers::cleared();
        }
        Registers {
            a1: words[0],
            a2: words[1],
            b1: words[2],
            b2: words[3],
            c: words[4],
            d: words[5],
            ad: words[6],
            m: words[7],
            p: words[8],
            opmode: words[9],
            alumode: words[10],
            inmode: words[11],
            carryinsel: words[12],
            carryin: words[13],
            pd: words[14],
            pbd: words[15],
            pdpast: words[16],
            pbdpast: words[17],
            carry: words[18],
        }
    }
}

// What a slice is given in a clock.
#[derive(Clone, Copy, Default)]
pub struct Ports {
    pub a: u64,
    pub b: u64,
    pub c: u64,
    pub d: u64,
    pub opmode: u64,
    pub alumode: u64,
    pub inmode: u64,
    pub carryinsel: u64,
    pub carryin: u64,
    pub ce: u64,
    pub rst: u64,
}

impl Ports {
    pub const WORDS: usize = 11;
    // The width of every word, in the words' order.
    pub const WIDTHS: [u64; Ports::WORDS] = [30, 18, 48, 27, 9, 4, 5, 3, 1, 13, 10];

    // Every word 0.
    pub fn cleared() -> Ports
        ensures { result ≡ ports_of (replicate port_words 0) }
    {
        Ports::default()
    }

    pub fn words(self) -> [u64; Ports::WORDS]
        ensures { result ≡ ports_words self }
    {
        [
            self.a,
            self.b,
            self.c,
            self.d,
            self.opmode,
            self.alumode,
            self.inmode,
            self.carryinsel,
            self.carryin,
            self.ce,
            self.rst,
        ]
    }
}

impl Record for Ports {
    ghost COUNT = { port_words };

    ghost record_of = { ports_of };

    const COUNT: usize = Ports::WORDS;

    fn of(words: &[u64]) -> Ports {
        if words.len() < Ports::WORDS {
            return Ports::cleared();
        }
        Ports {
            a: words[0],
            b: words[1],
            c: words[2],
            d: words[3],
            opmode: words[4],
            alumode: words[5],
            inmode: words[6],
            carryinsel: words[7],
            carryin: words[8],
            ce: words[9],
            rst: words[10],
        }
    }
}

// What a slice shows in a clock.
#[derive(Clone, Copy, Default)]
pub struct Outputs {
    pub p: u64,
    pub patterndetect: u64,
    pub patternbdetect: u64,
    pub overflow: u64,
    pub underflow: u64,
    pub preaddwrap: u64,
    pub carry: u64,
}

impl Outputs {
    pub const WORDS: usize = 7;

    // Where PATTERNDETECT stands among them.
    pub const PATTERNDETECT: usize = 1;

    // Every word 0.
    pub fn cleared() -> Outputs
        ensures { result ≡ outputs_of (replicate output_words 0) }
    {
        Outputs::default()
    }

    pub fn words(self) -> [u64; Outputs::WORDS]
        ensures { result ≡ outputs_words self }
    {
        [
            self.p,
            self.patterndetect,
            self.patternbdetect,
            self.overflow,
            self.underflow,
            self.preaddwrap,
            self.carry,
        ]
    }
}
