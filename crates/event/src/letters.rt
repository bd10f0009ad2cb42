// The letter that each kind of printed line starts with.
pub const O: u8 = b'O';

pub const M: u8 = b'M';

pub const R: u8 = b'R';

pub const E: u8 = b'E';
