// The places in the values that have names, as far as code reads them. tools/table.py writes this file.

// 2003:00
pub const LOCK: usize = 236;

// 6000:11
pub const INPUT_VALUE: usize = 238;

// 6005:01
pub const READING_VALID: usize = 242;

// 6005:02
pub const OVERRANGE: usize = 243;

// 6005:03
pub const UNDERRANGE: usize = 244;

// 600E:01
pub const STATUS_1: usize = 247;

// 800E:01
pub const SETTINGS_1: usize = 258;

// 800F:01
pub const SETTINGS_2: usize = 296;

// 9005:02
pub const SENSOR_ERROR: usize = 336;

// 900E:01
pub const TRIP_INPUT_1: usize = 338;

// 900F:01
pub const TRIP_INPUT_2: usize = 342;

// F380:00
pub const SUMMARY_BYTE: usize = 354;

// F383:01
pub const ACTIVE_WORD: usize = 363;

// F390:00
pub const LATCHED_STATUS: usize = 387;

// F393:01
pub const LATCHED_WORD: usize = 396;

// F3A1:01
pub const MASKS: usize = 420;

// F3A3:01
pub const ERROR_MASK: usize = 428;

// F641:01
pub const TRIP_OUTPUTS: usize = 452;

// F9F6:00
pub const POWER_ON_TIME: usize = 575;

// FBF0:02
pub const RESET_STATUS: usize = 587;

// FBF1:02
pub const EXCEPTION_STATUS: usize = 590;

// FBF2:02
pub const STORE_STATUS: usize = 593;

// FBF4:02
pub const LOAD_STATUS: usize = 596;

// 800E:01 and 800F:01, counted from subindex 01
pub const HIGH_ENABLE: usize = 0;

// 800E:02 and 800F:02, counted from subindex 01
pub const LOW_ENABLE: usize = 1;

// 800E:11 and 800F:11, counted from subindex 01
pub const HIGH_LEVEL: usize = 2;

// 800E:14 and 800F:14, counted from subindex 01
pub const LOW_LEVEL: usize = 14;

// 800E:17 and 800F:17, counted from subindex 01
pub const HIGH_HYSTERESIS: usize = 26;

// 800E:18 and 800F:18, counted from subindex 01
pub const LOW_HYSTERESIS: usize = 30;

// the bytes of F390 to F398, which stand behind each other
pub const LATCHED_SIZE: usize = 33;

// the bytes of F3A1 to F3A8, which stand behind each other
pub const MASKS_SIZE: usize = 32;

// the bytes of 800E, which stand behind each other
pub const SETTINGS_1_SIZE: usize = 38;

// the bytes of 800F, which stand behind each other
pub const SETTINGS_2_SIZE: usize = 38;
