// The fixed texts of the headers, each named once: the judge compares with them and the writer puts them.
pub const UHL1: [u8; 4] = *b"UHL1";

pub const DSI: [u8; 3] = *b"DSI";

pub const DTED: [u8; 4] = *b"DTED";

pub const PRF89020B: [u8; 9] = *b"PRF89020B";

pub const MSL: [u8; 3] = *b"MSL";

pub const E96: [u8; 3] = *b"E96";

pub const WGS84: [u8; 5] = *b"WGS84";

pub const ACC: [u8; 3] = *b"ACC";

pub const NOT_AVAILABLE: [u8; 4] = *b"NA  ";

pub const ORIENTATION: [u8; 9] = *b"0000000.0";

pub const ZERO: [u8; 1] = *b"0";

pub const ZERO_ZERO: [u8; 2] = *b"00";

pub const BLANKS: [u8; 2] = *b"  ";

// Minutes and seconds, and seconds with their tenth.
pub const MMSS: [u8; 4] = *b"0000";

pub const MMSS_S: [u8; 6] = *b"0000.0";

// The latitude intervals, by which a level is known.
pub const LEVEL0: [u8; 4] = *b"0300";

pub const LEVEL1: [u8; 4] = *b"0030";

pub const LEVEL2: [u8; 4] = *b"0010";
