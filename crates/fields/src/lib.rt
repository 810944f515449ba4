// The fields of the headers, row by row in the order of judging: headers are judged and written by them.
#![tactic(auto)]

ghost use Rattle.std.specs.Prelude.{◌≡◌, ◌+◌, ◌<◌, ◌≤◌, length};
ghost use Rattle.fields.specs.Table.{bytes_in, field_at};

pub mod free;
pub mod places;

// A fixed text.
#[derive(Clone, Copy)]
pub enum Text {
    Uhl1,
    Zero,
    Dsi,
    Prf89020b,
    Wgs84,
    Orientation,
    Acc,
    ZeroZero,
}

// A number that the grid makes due, in four digits.
#[derive(Clone, Copy)]
pub enum Number {
    LatitudeInterval,
    LongitudeInterval,
    Columns,
    Posts,
}

// An angle that the origin makes due: the origin again in the DSI, and the edges that the corners lie on.
#[derive(Clone, Copy)]
pub enum Angle {
    OriginLatitude,
    OriginLongitude,
    South,
    North,
    West,
    East,
}

// Whose accuracy.
#[derive(Clone, Copy)]
pub enum Whose {
    Uhl,
    AbsoluteHorizontal,
    AbsoluteVertical,
    RelativeHorizontal,
    RelativeVertical,
}

// An item of the description: its field alone says it.
#[derive(Clone, Copy)]
pub enum Item {
    Level,
    Latitude,
    Longitude,
    Security,
    Edition,
    Version,
    Datum,
    Accuracy(Whose),
    Partial,
}

// What is due in a field, once level, origin and security letter are known.
#[derive(Clone, Copy)]
pub enum Due {
    Text(Text),
    Number(Number),
    Angle(Angle),
    Letter,
    Series,
}

// What a field holds.
#[derive(Clone, Copy)]
pub enum Kind {
    Item(Item),
    Due(Due),
}

// Where a field stands, how many bytes it has, and what it holds.
#[derive(Clone, Copy)]
pub struct Field(pub usize, pub usize, pub Kind);

impl Field {
    // Its bytes.
    pub fn bytes(self, s: &[u8]) -> &[u8]
        requires { self.0 + self.1 ≤ length s.now }
        ensures { result.now ≡ bytes_in s.now self }
    {
        let Field(at, len, _) = self;
        &s[at..at + len]
    }
}

pub const FIELDS: usize = 40;

// The fields of the UHL in the order of judging. Kept: a match, and no table, since a table would be laid out anew at each call.
fn uhl(i: usize) -> Field
    requires { i < 10 }
    ensures { result ≡ field_at i }
{
    match i {
        0 => Field(0, 4, Kind::Due(Due::Text(Text::Uhl1))),
        1 => Field(places::LONGITUDE, 8, Kind::Item(Item::Longitude)),
        2 => Field(places::LATITUDE, 8, Kind::Item(Item::Latitude)),
        3 => Field(places::LEVEL, 4, Kind::Item(Item::Level)),
        4 => Field(20, 4, Kind::Due(Due::Number(Number::LongitudeInterval))),
        5 => Field(
            places::UHL_ACCURACY,
            4,
            Kind::Item(Item::Accuracy(Whose::Uhl)),
        ),
        6 => Field(places::SECURITY, 3, Kind::Item(Item::Security)),
        7 => Field(47, 4, Kind::Due(Due::Number(Number::Columns))),
        8 => Field(51, 4, Kind::Due(Due::Number(Number::Posts))),
        _ => Field(55, 1, Kind::Due(Due::Text(Text::Zero))),
    }
}

// Those of the DSI.
fn dsi(i: usize) -> Field
    requires { i < 24 }
    ensures { result ≡ field_at (10 + i) }
{
    match i {
        0 => Field(80, 3, Kind::Due(Due::Text(Text::Dsi))),
        1 => Field(83, 1, Kind::Due(Due::Letter)),
        2 => Field(139, 5, Kind::Due(Due::Series)),
        3 => Field(places::EDITION, 2, Kind::Item(Item::Edition)),
        4 => Field(places::VERSION, 1, Kind::Item(Item::Version)),
        5 => Field(206, 9, Kind::Due(Due::Text(Text::Prf89020b))),
        6 => Field(places::DATUM, 3, Kind::Item(Item::Datum)),
        7 => Field(224, 5, Kind::Due(Due::Text(Text::Wgs84))),
        8 => Field(265, 9, Kind::Due(Due::Angle(Angle::OriginLatitude))),
        9 => Field(274, 10, Kind::Due(Due::Angle(Angle::OriginLongitude))),
        10 => Field(284, 7, Kind::Due(Due::Angle(Angle::South))),
        11 => Field(291, 8, Kind::Due(Due::Angle(Angle::West))),
        12 => Field(299, 7, Kind::Due(Due::Angle(Angle::North))),
        13 => Field(306, 8, Kind::Due(Due::Angle(Angle::West))),
        14 => Field(314, 7, Kind::Due(Due::Angle(Angle::North))),
        15 => Field(321, 8, Kind::Due(Due::Angle(Angle::East))),
        16 => Field(329, 7, Kind::Due(Due::Angle(Angle::South))),
        17 => Field(336, 8, Kind::Due(Due::Angle(Angle::East))),
        18 => Field(344, 9, Kind::Due(Due::Text(Text::Orientation))),
        19 => Field(353, 4, Kind::Due(Due::Number(Number::LatitudeInterval))),
        20 => Field(357, 4, Kind::Due(Due::Number(Number::LongitudeInterval))),
        21 => Field(361, 4, Kind::Due(Due::Number(Number::Posts))),
        22 => Field(365, 4, Kind::Due(Due::Number(Number::Columns))),
        _ => Field(places::PARTIAL, 2, Kind::Item(Item::Partial)),
    }
}

// Those of the ACC.
fn acc(i: usize) -> Field
    requires { i < 6 }
    ensures { result ≡ field_at (34 + i) }
{
    match i {
        0 => Field(728, 3, Kind::Due(Due::Text(Text::Acc))),
        1 => Field(
            places::ABSOLUTE_HORIZONTAL,
            4,
            Kind::Item(Item::Accuracy(Whose::AbsoluteHorizontal)),
        ),
        2 => Field(
            places::ABSOLUTE_VERTICAL,
            4,
            Kind::Item(Item::Accuracy(Whose::AbsoluteVertical)),
        ),
        3 => Field(
            places::RELATIVE_HORIZONTAL,
            4,
            Kind::Item(Item::Accuracy(Whose::RelativeHorizontal)),
        ),
        4 => Field(
            places::RELATIVE_VERTICAL,
            4,
            Kind::Item(Item::Accuracy(Whose::RelativeVertical)),
        ),
        _ => Field(783, 2, Kind::Due(Due::Text(Text::ZeroZero))),
    }
}

// The field that is judged after i others.
pub fn row(i: usize) -> Field
    requires { i < 40 }
    ensures { result ≡ field_at i }
{
    if i < 10 {
        return uhl(i);
    }
    if i < 34 {
        return dsi(i - 10);
    }
    acc(i - 34)
}
