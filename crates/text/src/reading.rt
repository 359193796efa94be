// Lines of text read number by number.
ghost use Rattle.std.specs.Prelude.{◌≡◌, ◌<◌};
ghost use Rattle.text.specs.Scan.{longer, signed_by};
ghost use Rattle.text.specs.Words.{First};

// The size with one more digit, whose value is the low half of its byte. No number written reaches 2^20.
fn pushed(size: u32, b: u8) -> u32
    requires small { size < 1048576 }
    ensures appends_digit { result ≡ longer size b }
{
    (10 * size + (b % 16) as u32) % 1_048_576
}

// Two lines, as view has for a `Numeral`: shared, they would make this crate rest on `lines` for them alone.
fn with_sign(minus: bool, size: u32) -> i32
    requires small { size < 1048576 }
    ensures puts_sign { result ≡ signed_by minus size }
{
    let n = size as i32;
    if minus { -n } else { n }
}

// The first number of a text, and how many bytes it takes with the blank that ends it.
pub(crate) fn first_number(text: &[u8]) -> Option<(i32, usize)>
    ensures reads_number { First text.now result }
{
    let mut minus = false;
    let mut size: u32 = 0;
    for (i, b) in text.iter().enumerate() {
        // A space or a line feed.
        if *b < 33 {
            return Some((with_sign(minus, size), i + 1));
        }
        if *b == b'-' {
            minus = true;
        } else {
            size = pushed(size, *b);
        }
    }
    None
}
