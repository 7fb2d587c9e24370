// What serving a list has in common, however its records are lent: answers in numbers, kind and value, and how many rounds there are.
ghost use Rattle.std.specs.Prelude.{◌≡◌, [], ◌∷◌, ◌||◌, ◌≤◌, leb, eqb};
ghost use Rattle.words.specs.Edition.{one};
ghost use Rattle.points.specs.Stepping.{step_kind, step_value};
ghost use Rattle.points.specs.Serving.{serve_rounds};

use crate::StepAnswer;

// A step's answer in numbers: which it is; and its value.
impl From<StepAnswer> for [u32; 2] {
    ghost from_gives = { λ step numbers. numbers ≡ (step_kind step ∷ step_value step ∷ []) };

    fn from(step: StepAnswer) -> [u32; 2] {
        match step {
            StepAnswer::Stored => [1, 0],
            StepAnswer::Moved => [2, 0],
            StepAnswer::Extending => [3, 0],
            StepAnswer::Committed(retries) => [4, retries as u32],
            StepAnswer::Refused(refusal) => [5, refusal.into()],
            StepAnswer::Copied => [6, 0],
            StepAnswer::Bytes(n) => [7, n],
        }
    }
}

// Whether the write goes on after an answer of this kind: of a beginning, Stored, Moved, Extending, Copied.
pub fn goes_on(kind: u32) -> bool
    ensures { result ≡ (leb kind 3 || eqb kind 6) }
{
    (kind <= 3) | (kind == 6)
}

// How many rounds a list of n points, 1 to 32, has at most.
pub fn most_rounds(n: usize) -> u32
    ensures { 1 ≤ n → n ≤ 32 → result ≡ serve_rounds one n }
{
    let others = n.min(32).saturating_sub(1);
    129 * others as u32 + 260
}
