// The worked examples: one table of rows, which the definitions give and the calls answer.
#![tactic(auto)]

#[cfg(test)]
mod sheet_tests;
#[cfg(test)]
mod tests;
#[cfg(test)]
mod text_sink_tests;
#[cfg(test)]
mod text_tests;
#[cfg(test)]
mod word_sink_tests;

ghost use Rattle.examples.specs.Table.{ExamplesHold, SheetExamplesHold};

// The definitions that the calls' contracts cite give each row of specs/Table.antt.
pub fn examples_hold()
    ensures definitions_give_each_row { ExamplesHold }
{}

// The rows on decode, assign and what `sheet` prints.
pub fn sheet_examples_hold()
    ensures definitions_give_each_sheet { SheetExamplesHold }
{}
