// The names of the scope types, compared in reading and written by `spell`.
pub const MODULE: [u8; 6] = *b"module";

pub const TASK: [u8; 4] = *b"task";

pub const FUNCTION: [u8; 8] = *b"function";

pub const BEGIN: [u8; 5] = *b"begin";

pub const FORK: [u8; 4] = *b"fork";
