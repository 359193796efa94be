// The theorems of specs/Laws.antt. Each function carries one in its contract.
ghost use Rattle.runs.specs.Laws.{ModelsAreSafe, NoModelConcludes, CountsWithinVariables, OneAnswerEach, LemmasReadBack, ListsHoldLiveLemmas, RunsKeepOrder};

// Where the source's clauses have a model no run concludes.
pub fn models_are_safe()
    ensures no_run_concludes { ModelsAreSafe }
{}

// Where they have none, some list of lemmas, each granted, ends in a granted conclude.
pub fn no_model_concludes()
    ensures some_run_concludes { NoModelConcludes }
{}

// No count is above V.
pub fn counts_within_variables()
    ensures counts_are_bounded { CountsWithinVariables }
{}

// Each call has one answer for every input.
pub fn one_answer_each()
    ensures answers_are_unique { OneAnswerEach }
{}

// In memory whose records stand end to end, a lemma is read back as it was added, and a cut leaves the first.
pub fn lemmas_read_back()
    ensures memory_tells_the_lemmas { LemmasReadBack }
{}

// After a run the lists hold the lemmas that were granted and not cut since.
pub fn lists_hold_live_lemmas()
    ensures runs_tell_the_lemmas { ListsHoldLiveLemmas }
{}

// A run leaves the memory in order after every call.
pub fn runs_keep_order()
    ensures memory_stays_in_order { RunsKeepOrder }
{}
