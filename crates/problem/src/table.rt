ghost use Rattle.std.specs.Prelude.{◌≡◌, ◌≤◌, length};

use steps::FactSet;

// The sets of a problem by their codes, read once from its bytes: 4 codes for the start and the goals, and 4 for each of 128 steps. One array by code, as the bytes list them: no heap, and a step past the list has empty sets there.
#[derive(Clone, Copy)]
pub struct StepTable {
    pub facts: usize,
    pub steps: usize,
    sets: [FactSet; 516],
    ghost few: { (facts ≤ 64) × (steps ≤ 128) },
    ghost long: { length sets ≡ 516 },
}

mod methods;
