// The free bytes that are written other than as blanks.

// An area of zeros: where it stands, and how many there are.
#[derive(Clone, Copy)]
pub struct Area(pub usize, pub usize);

pub const AREAS: [Area; 4] = [Area(144, 15), Area(170, 12), Area(215, 2), Area(239, 4)];

// Where the date of the specification stands.
pub const DATE: usize = 217;
