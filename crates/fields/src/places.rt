// Where the items stand, for those who read one. Offsets count from 0 in the file: the UHL is at 0, the DSI at 80, the ACC at 728.
pub const LONGITUDE: usize = 4;

pub const LATITUDE: usize = 12;

pub const LEVEL: usize = 24;

pub const UHL_ACCURACY: usize = 28;

pub const SECURITY: usize = 32;

pub const EDITION: usize = 167;

pub const VERSION: usize = 169;

pub const DATUM: usize = 221;

pub const PARTIAL: usize = 369;

pub const ABSOLUTE_HORIZONTAL: usize = 731;

pub const ABSOLUTE_VERTICAL: usize = 735;

pub const RELATIVE_HORIZONTAL: usize = 739;

pub const RELATIVE_VERTICAL: usize = 743;
