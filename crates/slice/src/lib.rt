// One slice in one clock: the control words in effect, what settles before an edge, what the slice shows and hands up, and the registers
// after it, which are put in the slice's own words. Every function takes every number.
// A function's parameters are its definition's, in the definition's order: of attributes a, registers r, controls k, ports p, paths s and
// cascade x those that it reads. One struct of them all would be no plainer, since the two would not be read side by side any more.
#![tactic(auto)]

mod choice;
mod edge;
mod inputs;
mod multiplier;
mod operands;

pub use edge::{Step, cascade_of, settled_carry, stepped};
pub use inputs::{Cascade, Controls, Paths, Selects, in_effect, routed, selects_of};
pub use multiplier::m_path;
pub use operands::joined;
