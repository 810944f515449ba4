// Where the word of a post and the checksum stand in a column.
ghost use Rattle.std.specs.Prelude.{◌≡◌, ◌^◌, ◌<◌};
ghost use Rattle.columns.specs.Column.{word_at, sum_at};

pub fn word_at(post: usize) -> usize
    requires { word_at post < 2 ^ 64 }
    ensures { result ≡ word_at post }
{
    8 + 2 * post
}

// The checksum stands where the word of one post more would.
pub fn sum_at(posts: usize) -> usize
    requires { sum_at posts < 2 ^ 64 }
    ensures { result ≡ sum_at posts }
{
    word_at(posts)
}
