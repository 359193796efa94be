// Lists in memory that the caller lends.
#![tactic(auto)]

mod lent_list;

pub use lent_list::List;
