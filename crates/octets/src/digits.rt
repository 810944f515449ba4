// Decimal digits of a fixed width: whether they stand there, the number they write, and a number written as them.
ghost use Rattle.std.specs.Prelude.{◌≡◌, ◌+◌, ◌^◌, ◌<◌, ◌≤◌, length};
ghost use Rattle.octets.specs.Digits.{is_digit, digit_of, digits_at, decimal_at, digits_of};
ghost use Rattle.octets.specs.Pastes.{pasted};
ghost use Rattle.octets.specs.Asked.{FewDigits};

fn is_digit(b: u8) -> bool
    ensures { result ≡ is_digit b }
{
    b.is_ascii_digit()
}

// What a digit counts; 0 for any other byte. Kept: no Option, since `digit_of` counts any byte, and `decimal_at` reads any field by it.
fn digit(b: u8) -> usize
    ensures { (result ≡ digit_of b) × (result < 10) }
{
    if is_digit(b) {
        usize::from(b - b'0')
    } else {
        0
    }
}

// Whether n digits stand at `at`.
pub fn are_digits(s: &[u8], at: usize, n: usize) -> bool
    requires { at + n ≤ length s.now }
    ensures { result ≡ digits_at s.now at n }
{
    s[at..at + n].iter().all(|b| is_digit(*b))
}

// The number that n digits at `at` write.
pub fn decimal(s: &[u8], at: usize, n: usize) -> usize
    requires { FewDigits s.now at n }
    ensures { (result ≡ decimal_at s.now at n) × (result < 10 ^ n) }
{
    let mut v = 0;
    for b in &s[at..at + n] {
        v = v * 10 + digit(*b);
    }
    v
}

// The last n digits of v, over what stands at `at`.
pub fn put_digits(s: &mut [u8], at: usize, n: usize, v: usize)
    requires { at + n ≤ length s.old }
    ensures { s.new ≡ pasted s.old at (digits_of n v) }
{
    let mut rest = v;
    for i in (0..n).rev() {
        s[at + i] = b'0' + (rest % 10) as u8;
        rest /= 10;
    }
}
