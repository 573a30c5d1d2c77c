// The rows that have names. tools/table.py writes this file.

// FBF0:01
pub const DEVICE_RESET: usize = 117;

// FBF1:01
pub const EXCEPTION_RESET: usize = 120;

// FBF2:01
pub const STORE_PARAMETERS: usize = 123;

// FBF4:01
pub const LOAD_PARAMETERS: usize = 126;
