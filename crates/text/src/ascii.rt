// The bytes that a line is made of.
pub const TAB: u8 = b'\t';

pub const NEWLINE: u8 = b'\n';

pub const DIGIT_0: u8 = b'0';
