// Plays the port listing on standard input and writes what it prints. Everything that matters is in the crate `listing`; here is the
// reading and writing, of which no contract can speak.
#![tactic(auto)]

use std::io::Read;
use std::{fmt, io};

// How much is read at a time, and what is printed at a time.
const BUFFER: usize = 65536;

// Why no more is played.
#[derive(Drop)]
enum Failure {
    Read(io::Error),
    Write(io::Error),
}

impl fmt::Display for Failure {
    fn fmt<W: fmt::Write>(&self, f: &mut fmt::Formatter<W>) -> fmt::Result {
        match self {
            Failure::Read(error) => write!(f, "can't read: {error}"),
            Failure::Write(error) => write!(f, "can't write: {error}"),
        }
    }
}

// What a player is lent, zeros to begin with, and what it prints.
#[derive(Default, Drop)]
struct Desk {
    numbers: [u64; listing::NUMBERS],
    attributes: [u64; listing::ATTRIBUTES],
    registers: [u64; listing::REGISTERS],
    ports: [u64; listing::PORTS],
    outputs: [u64; listing::OUTPUTS],
    line: [u8; listing::LINE],
    out: [u8; BUFFER],
}

impl Desk {
    // Plays a piece and writes all that it prints, before more is read. Answers whether there is more to play.
    fn play(&mut self, rt: &impl Print, piece: &[u8]) -> Result<bool, Failure> {
        let mut rest = piece;
        // No iterator is plainer: how many bytes a turn takes is known in the turn.
        while !rest.is_empty() {
            let part = listing::play(
                rest,
                &mut self.numbers,
                &mut self.attributes,
                &mut self.registers,
                &mut self.ports,
                &mut self.outputs,
                &mut self.line,
                &mut self.out,
            );
            rt.write_all(&self.out[..part.made])
                .map_err(Failure::Write)?;
            if !part.goes | (part.used == 0) {
                return Ok(false);
            }
            rest = &rest[part.used..];
        }
        Ok(true)
    }

    // Plays all that is read. A failed read is not the end of the input.
    fn play_all(&mut self, rt: &(impl Input + Print)) -> Result<(), Failure> {
        let mut text = [0u8; BUFFER];
        // A proved loop has to end, so it counts to a number that no input uses up.
        for _ in 0..u64::MAX {
            let n = rt.reader().read(&mut text).map_err(Failure::Read)?;
            if n == 0 {
                let made = listing::finish(&self.numbers, &mut self.out);
                return rt.write_all(&self.out[..made]).map_err(Failure::Write);
            }
            if !self.play(rt, &text[..n])? {
                return Ok(());
            }
        }
        Ok(())
    }
}

fn main(rt: HostRuntime) {
    let mut desk = Desk::default();
    if let Err(failure) = desk.play_all(&rt) {
        // Where that can't be written either, there is nobody to tell.
        let _told = eprintln!(rt; "dspcol: {failure}");
    }
}
