// Words of text read as numbers.
ghost use Rattle.std.specs.Prelude.{◌≡◌};
ghost use Rattle.lines.specs.Numbers.{size_of};
ghost use Rattle.lines.specs.Reading.{ReadsWord};

use crate::numeral::Numeral;

// The number that plain digits write, if it is at most `most`.
// `str::parse` is another reader: it takes a plus sign and zeros in front, and wants UTF-8.
pub fn read_size(digits: &[u8], most: usize) -> Option<usize>
    ensures reads_size { result ≡ size_of most digits.now }
{
    if matches!(digits, [] | [b'0', _, ..]) {
        return None;
    }
    let mut n: usize = 0;
    for b in digits {
        if !b.is_ascii_digit() {
            return None;
        }
        n = n.checked_mul(10)?.checked_add(usize::from(*b - b'0'))?;
        if n > most {
            return None;
        }
    }
    Some(n)
}

// The number that a word is, if its size is at most `most`.
pub fn read_number(word: &[u8], most: usize) -> Option<Numeral>
    ensures reads_number { ReadsWord most word.now result }
{
    match word {
        [b'-', digits @ ..] => {
            let size = read_size(digits, most)?;
            if size == 0 {
                None
            } else {
                Some(Numeral { minus: true, size })
            }
        }
        _ => {
            let size = read_size(word, most)?;
            Some(Numeral { minus: false, size })
        }
    }
}
