// The theorems of specs/Plans.antt. Each function carries one in its contract.
ghost use Rattle.runs.specs.Plans.{SheetsAreSafe, NoSheetConcludes};

// While a sheet holds no run over its problem's formula concludes.
pub fn sheets_are_safe()
    ensures no_run_concludes { SheetsAreSafe }
{}

// Where no sheet holds some list of lemmas, each granted, ends in a granted conclude.
pub fn no_sheet_concludes()
    ensures some_run_concludes { NoSheetConcludes }
{}
