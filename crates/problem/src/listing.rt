// From bytes to a problem, or to the first rule that they break.
ghost use Rattle.std.specs.Prelude.{◌≡◌, ◌+◌, ◌<◌, length, IfOk};
ghost use Rattle.std.specs.List.{range_with_len};
ghost use Rattle.rules.specs.Lists.{any};
ghost use Rattle.rules.specs.Refusals.{answer};
ghost use Rattle.problem.specs.Bytes.{word, code as code_at, fact as fact_at, Sized};
ghost use Rattle.problem.specs.Verdict.{pair_verdict, scan, clashes, verdict};
ghost use Rattle.problem.specs.Collected.{Collects};

use rules::Refusal;
use steps::FactSet;

// The unsigned 16-bit number at a byte, low byte first.
fn number(s: &[u8], at: usize) -> usize
    requires within { at + 1 < length s.now }
    ensures value { result ≡ word s.now at }
    ensures small { result < 65536 }
{
    usize::from(u16::from_le_bytes([s[at], s[at + 1]]))
}

// A fact under a code. Pairs are in order by code, then by fact.
#[derive(Clone, Copy, PartialEq, Eq, PartialOrd, Ord)]
struct Pair {
    code: usize,
    fact: usize,
}

// Bytes as long as their own head says, with the numbers of the head: what the rules on the pairs are asked of.
#[derive(Clone, Copy)]
pub(crate) struct Listing<'a> {
    pub(crate) bytes: &'a [u8],
    pub(crate) facts: usize,
    pub(crate) steps: usize,
    pub(crate) pairs: usize,
    ghost sized: { Sized bytes.now facts steps pairs },
}

impl<'a> Listing<'a> {
    // The listing in the bytes, or the first rule that they break.
    pub(crate) fn read(bytes: &'a [u8]) -> Result<Listing<'a>, Refusal>
        ensures first_broken { answer result ≡ verdict bytes.now }
        ensures reads_these_bytes { IfOk result (λ listing. listing.bytes.now ≡ bytes.now) }
    {
        if bytes.len() < 6 {
            return Err(Refusal::TooShort);
        }
        let facts = number(bytes, 0);
        let steps = number(bytes, 2);
        let pairs = number(bytes, 4);
        if facts < 1 || facts > 64 || steps > 128 || pairs > 4096 {
            return Err(Refusal::HeadOutOfRange);
        }
        if bytes.len() != 6 + 4 * pairs {
            return Err(Refusal::WrongLength);
        }
        let listing = Listing {
            bytes,
            facts,
            steps,
            pairs,
        };
        listing.check_pairs()?;
        if listing.has_clash() {
            return Err(Refusal::SetsAndClears);
        }
        Ok(listing)
    }

    // Pair i. It is read by its place, since codes and facts stand in two arrays.
    fn pair(&self, i: usize) -> Pair
        requires below { i < self.now.pairs }
        ensures has_code { result.code ≡ code_at self.now.bytes.now i }
        ensures has_fact { result.fact ≡ fact_at self.now.bytes.now i }
        ensures small { result.code < 65536 }
    {
        Pair {
            code: number(self.bytes, 6 + 2 * i),
            fact: number(self.bytes, 6 + 2 * self.pairs + 2 * i),
        }
    }

    // Whether pair i is of a known kind and above the one before it.
    fn check_pair(&self, i: usize) -> Result<(), Refusal>
        requires below { i < self.now.pairs }
        ensures first_broken { answer result ≡ pair_verdict self.now.bytes.now i }
    {
        let pair = self.pair(i);
        if pair.code == 2
            || pair.code > 4 * self.steps + 2
            || pair.code % 4 == 3
            || pair.fact < 1
            || pair.fact > self.facts
        {
            return Err(Refusal::UnknownPair);
        }
        if i > 0 && self.pair(i - 1) >= pair {
            return Err(Refusal::PairsNotRising);
        }
        Ok(())
    }

    fn check_pairs(&self) -> Result<(), Refusal>
        ensures first_broken { answer result ≡ scan self.now.bytes.now self.now.pairs }
    {
        for i in 0..self.pairs {
            self.check_pair(i)?;
        }
        Ok(())
    }

    // The facts under each code, in one pass over the pairs.
    pub(crate) fn collect(&self) -> [FactSet; 516]
        requires scanned { scan self.now.bytes.now self.now.pairs ≡ 0 }
        ensures collects_pairs { Collects self.now.bytes.now result self.now.pairs }
    {
        let mut sets = [FactSet::empty(); 516];
        for i in 0..self.pairs {
            let pair = self.pair(i);
            sets[pair.code] = sets[pair.code].with(pair.fact);
        }
        sets
    }

    // Whether some step sets and clears one fact.
    fn has_clash(&self) -> bool
        requires scanned { scan self.now.bytes.now self.now.pairs ≡ 0 }
        ensures answers_clash { result ≡ any (clashes self.now.bytes.now) (range_with_len 1 self.now.steps) }
    {
        let sets = self.collect();
        (1..self.steps + 1).any(|a| sets[4 * a + 1].meets(sets[4 * a + 2]))
    }
}
