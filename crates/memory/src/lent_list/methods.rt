ghost use Rattle.std.specs.Prelude.{◌≡◌, min, [], ◌∷◌, ◌++◌, length, take, drop, is_ok, if◌then◌else◌, nat_le, nat_lt};
ghost use Rattle.rules.specs.Refusals.{answer};
ghost use Rattle.memory.specs.Held.{items, spare, room, lent, Read};

use crate::lent_list::List;
use rules::Refusal;

const MOST: usize = 1_048_576;

impl<'a, T: Copy> List<'a, T> {
    // An empty list; the memory stays as it is.
    pub fn new(memory: &'a mut [T]) -> List<'a, T>
        ensures holds_nothing { items result ≡ [] }
        ensures spares_the_memory { spare result ≡ memory.old }
        ensures has_room { room result ≡ min (length memory.old) 1048576 }
        ensures borrows { lent result ≡ memory.entry.ghost_name }
    {
        List { memory, len: 0 }
    }

    pub fn len(&self) -> usize
        ensures counts_items { result ≡ length (items self.now) }
    {
        self.len
    }

    pub fn capacity(&self) -> usize
        ensures answers_room { result ≡ room self.now }
    {
        self.memory.len().min(MOST)
    }

    // The item at a place counted from 0, or none past the end.
    pub fn get(&self, i: usize) -> Option<T>
        ensures reads_item { Read (items self.now) i result }
    {
        self.as_slice().get(i).copied()
    }

    pub fn as_slice(&self) -> &[T]
        ensures shows_items { result.now ≡ items self.now }
    {
        &self.memory[..self.len]
    }

    // The item stands last; a full list is left as it is.
    pub fn add(&mut self, x: T) -> Result<(), Refusal>
        ensures refuses_when_full { answer result ≡ (if nat_lt (length (items self.old)) (room self.old) then 0 else 9) }
        ensures adds_item { items self.new ≡ (if is_ok result then items self.old ++ x ∷ [] else items self.old) }
        ensures takes_spare { spare self.new ≡ (if is_ok result then drop 1 (spare self.old) else spare self.old) }
        ensures keeps_room { room self.new ≡ room self.old }
        ensures keeps_loan { lent self.new ≡ lent self.old }
    {
        if self.len >= self.capacity() {
            return Err(Refusal::NoSpace);
        }
        self.memory[self.len] = x;
        self.len += 1;
        Ok(())
    }

    // Only the first n items are held on; the memory stays as it is.
    pub fn cut(&mut self, n: usize) -> Result<(), Refusal>
        ensures refuses_longer { answer result ≡ (if nat_le n (length (items self.old)) then 0 else 21) }
        ensures cuts_items { items self.new ≡ (if is_ok result then take n (items self.old) else items self.old) }
        ensures gives_back { spare self.new ≡ (if is_ok result then drop n (items self.old) ++ spare self.old else spare self.old) }
        ensures keeps_room { room self.new ≡ room self.old }
        ensures keeps_loan { lent self.new ≡ lent self.old }
    {
        if n > self.len {
            return Err(Refusal::CutTooLong);
        }
        self.len = n;
        Ok(())
    }
}
