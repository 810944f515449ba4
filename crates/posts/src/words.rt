// Post words as they stand in a column: sign and magnitude in 16 bits.
ghost use Rattle.std.specs.Prelude.{◌≡◌};
ghost use Rattle.posts.specs.Words.{word_allowed, post_of};

use crate::Post;

// Whether a cell may hold this word: `voids` says whether it may hold voids.
pub fn is_allowed(word: u16, voids: bool) -> bool
    ensures { result ≡ word_allowed voids word }
{
    if word == 0xFFFF {
        return voids;
    }
    if word < 0x8000 {
        return word <= 9000;
    }
    word - 0x8000 <= 12000
}

// The height or void that a word says.
pub fn post_of(word: u16) -> Post
    ensures { result ≡ post_of word }
{
    if word == 0xFFFF {
        return Post::Void;
    }
    if word < 0x8000 {
        return Post::Height(word.cast_signed());
    }
    let magnitude = (word - 0x8000).cast_signed();
    Post::Height(-magnitude)
}
