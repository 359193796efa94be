// A view over lent text.
ghost use Rattle.std.specs.Prelude.{◌≡◌, ℕ, List, [], MatchResult};
ghost use Rattle.rules.specs.Clauses.{Clause};
ghost use Rattle.rules.specs.Refusals.{number};
ghost use Rattle.view.specs.Body.{clauses_of};
ghost use Rattle.view.specs.Format.{Headed, Rendering, Writable, written};

use crate::check::clauses_fit;
use crate::front::read_front;
use crate::text_view::TextView;
use rules::Refusal;

// Reads clause text, or refuses what is none. Refused, the view stays as it was.
pub fn read_clause_text<'a>(text: &'a [u8], view: &mut TextView<'a>) -> Result<(), Refusal>
    ensures grants_exactly_renderings { MatchResult result (λ _. Rendering text.now view.new.variables (clauses_of view.new.body.now)) (λ e. (number e ≡ 12) × ((v : ℕ) (cs : List Clause) → Rendering text.now v cs → ⊥)) }
    ensures filled_or_kept { MatchResult result (λ _. Headed text.now view.new.variables view.new.clauses view.new.body.now) (λ _. view.new ≡ view.old) }
    ensures reads_back_written { (v : ℕ) (cs : List Clause) → Writable v cs → text.now ≡ written v cs → MatchResult result (λ _. (view.new.variables ≡ v) × (clauses_of view.new.body.now ≡ cs)) (λ _. ⊥) }
{
    let Some((variables, clauses, body)) = read_front(text) else {
        return Err(Refusal::NotClauseText);
    };
    if !clauses_fit(body, variables, clauses) {
        return Err(Refusal::NotClauseText);
    }
    *view = TextView {
        body,
        variables,
        clauses,
    };
    Ok(())
}

impl<'a> TextView<'a> {
    // No variables and no clauses.
    pub fn new() -> TextView<'a>
        ensures no_variables { result.variables ≡ 0 }
        ensures no_clauses { clauses_of result.body.now ≡ [] }
    {
        TextView {
            body: &[],
            variables: 0,
            clauses: 0,
        }
    }

    // V, as the head line has it; 0 where no text is read.
    pub fn variables(&self) -> usize
        ensures answers_variables { result ≡ self.now.variables }
    {
        self.variables
    }
}
