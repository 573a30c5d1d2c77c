// The types, as in specs/Row: up to REAL one number each. Numbers and no enum: they are decided over with ranges (R16.6), and what find's kind_in
// and limits' rank_of, judge_number and number_by say of every number (docs/PROMISES.md) an enum of nine would leave out.
pub const BOOL: u8 = 0;

pub const USINT: u8 = 1;

pub const UINT: u8 = 2;

pub const UDINT: u8 = 3;

pub const ULINT: u8 = 4;

pub const REAL: u8 = 5;

pub const STRING: u8 = 6;

pub const CARD: u8 = 7;

pub const COMMAND: u8 = 8;
