// The letter that each kind of line starts with.
pub const N: u8 = b'N';

pub const A: u8 = b'A';

pub const P: u8 = b'P';
