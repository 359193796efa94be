// Where a lemma's literals stand: from this place on, counted from 0, so many.
#[derive(Clone, Copy, PartialEq, Eq, Debug)]
pub struct Record {
    pub place: u32,
    pub length: u32,
}
