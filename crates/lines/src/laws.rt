// The theorem of specs/Numbers.antt, carried by the contract of a function that does nothing.
ghost use Rattle.lines.specs.Numbers.{WordsAreNumbers};

// A word is read as a number exactly where it is that number as it is written, and not too large.
pub fn words_are_numbers()
    ensures words_are_written_numbers { WordsAreNumbers }
{}
