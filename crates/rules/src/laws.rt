// The theorems of specs/Laws.antt. Each function carries one in its contract.
ghost use Rattle.rules.specs.Laws.{FormulaMeansSheets, AnyOrder, SheetsCanBeDone, SingleLawful, ParallelLawful};

// The models of a problem's formula are exactly the models of its sheets that hold, one for each.
pub fn formula_means_sheets()
    ensures models_are_sheets { FormulaMeansSheets }
{}

// The steps of an allowed slot can be carried out one at a time, in any order, to the same state.
pub fn any_order()
    ensures order_is_free { AnyOrder }
{}

// A sheet that holds can be carried out one step at a time, and reaches the goals.
pub fn sheets_can_be_done()
    ensures sheets_are_plans { SheetsCanBeDone }
{}

// The rule that parts every two steps keeps the law of slot rules.
pub fn single_lawful()
    ensures single_keeps_the_law { SingleLawful }
{}

// So does the rule that parts only the steps that the law demands.
pub fn parallel_lawful()
    ensures parallel_keeps_the_law { ParallelLawful }
{}
