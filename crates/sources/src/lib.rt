// The sources of a writer's heights. What is generic over a source is compiled for each: a loop over heights asks nothing about it.
#![tactic(auto)]

ghost use Rattle.std.specs.Prelude.{◌≡◌, ◌<◌};
ghost use Rattle.sources.specs.Heights.{Heights, numbers, in_bytes, count_of, nth_height, counts};

use octets::choices::both;
use octets::numbers::be16;
use octets::twos::number_of;

// What a writer's heights come from.
pub trait Heights: Copy {
    ghost given: { Self → Heights };

    // Height i of those that are given.
    fn at(self, i: usize) -> i16
        requires { i < count_of (given self) }
        ensures { result ≡ nth_height (given self) i };

    // Whether so many heights are given, and not a byte beside them.
    fn count_is(self, count: usize) -> bool
        ensures { result ≡ counts (given self) count };
}

// 16-bit numbers.
#[derive(Clone, Copy)]
pub struct Numbers<'a>(pub &'a [i16]);

impl<'a> Heights for Numbers<'a> {
    ghost given = { λ source. numbers source.0.now };

    fn at(self, i: usize) -> i16 {
        self.0[i]
    }

    fn count_is(self, count: usize) -> bool {
        self.0.len() == count
    }
}

// Two's complement words in bytes, the high byte first.
#[derive(Clone, Copy)]
pub struct Bytes<'a>(pub &'a [u8]);

impl<'a> Heights for Bytes<'a> {
    ghost given = { λ source. in_bytes source.0.now };

    fn at(self, i: usize) -> i16 {
        number_of(be16(self.0, 2 * i))
    }

    // Halved, no count can wrap.
    fn count_is(self, count: usize) -> bool {
        both(self.0.len() % 2 == 0, self.0.len() / 2 == count)
    }
}
