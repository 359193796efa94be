// Lines that are a sheet.
ghost use Rattle.std.specs.Prelude.{◌≡◌, ◌≤◌, true, MatchOption};
ghost use Rattle.rules.specs.Sheets.{Sheet};
ghost use Rattle.problem.specs.Tables.{means};
ghost use Rattle.assigning.specs.Rows.{named as named_line, rows};

use formula::Formula;
use problem::StepTable;
use rules::Line;

// Whether the line names one of the slots and one of the steps.
fn named(slots: usize, steps: usize, l: Line) -> bool
    ensures answers_named { result ≡ named_line slots steps l }
{
    (1..=slots).contains(&usize::from(l.slot)) && (1..=steps).contains(&usize::from(l.step))
}

// Whether each line is named and earlier than the next one: one pass, up to the first line that is not.
fn is_sheet(table: &StepTable, horizon: usize, lines: &[Line]) -> bool
    ensures tests_rows { result ≡ rows horizon table.now.steps lines.now }
{
    lines.is_sorted_by(|l, m| named(horizon, table.steps, *l) && l < m)
        && lines.last().is_none_or(|l| named(horizon, table.steps, *l))
}

// The lines of a sheet of the table's problem, of at most 32 slots. That they are one stands as a test: a ghost field's type is a fact with one proof, and a Sheet has many.
#[derive(Clone, Copy)]
pub(crate) struct SheetLines<'a> {
    pub(crate) table: &'a StepTable,
    pub(crate) horizon: usize,
    pub(crate) lines: &'a [Line],
    ghost few: { horizon ≤ 32 },
    ghost sheet: { rows horizon table.now.steps lines.now ≡ true },
}

impl<'a> SheetLines<'a> {
    // The lines, where they are a sheet of the formula's problem and horizon.
    pub(crate) fn read<R>(formula: &'a Formula<'_, R>, lines: &'a [Line]) -> Option<SheetLines<'a>>
        requires few_slots { formula.now.horizon ≤ 32 }
        ensures answers_sheet { MatchOption result (Sheet (means formula.now.table) formula.now.horizon lines.now → ⊥) (λ sheet. Sheet (means formula.now.table) formula.now.horizon lines.now × (sheet.table.now ≡ formula.now.table) × (sheet.horizon ≡ formula.now.horizon) × (sheet.lines.now ≡ lines.now)) }
    {
        let horizon = formula.horizon as usize;
        if !is_sheet(&formula.table, horizon, lines) {
            return None;
        }
        Some(SheetLines {
            table: &formula.table,
            horizon,
            lines,
        })
    }
}
