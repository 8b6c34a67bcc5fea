// Where reading stands in a file, and the table that says which record kinds may come there.
#![tactic(auto)]

ghost use Rattle.std.specs.Prelude.{◌≡◌};
ghost use Rattle.file_stages.specs.Stages.{next_stage, after_last, stage_number};

#[derive(Clone, Copy)]
pub enum Stage {
    Head,
    Elements,
    Links,
    End,
    PlanHead,
    Steps,
    PlanEnd,
    Over,
}

const KINDS: usize = 9;

// The table's entries: the stage that follows, or none for refusal 2.
const NO: Option<Stage> = None;

const ELEMENTS: Option<Stage> = Some(Stage::Elements);

const LINKS: Option<Stage> = Some(Stage::Links);

const PLAN_HEAD: Option<Stage> = Some(Stage::PlanHead);

const STEPS: Option<Stage> = Some(Stage::Steps);

const OVER: Option<Stage> = Some(Stage::Over);

// Rows: the stages in their order. Columns: kinds 0 to 8.
const NEXT: [[Option<Stage>; 9]; 8] = [
    [NO, ELEMENTS, NO, NO, NO, NO, NO, NO, NO],
    [NO, NO, ELEMENTS, NO, NO, NO, NO, ELEMENTS, NO],
    [NO, NO, NO, LINKS, NO, NO, NO, NO, LINKS],
    [NO, NO, NO, NO, PLAN_HEAD, NO, NO, NO, NO],
    [NO, NO, NO, NO, NO, STEPS, NO, NO, NO],
    [NO, NO, NO, NO, NO, NO, STEPS, NO, NO],
    [NO, NO, NO, NO, OVER, NO, NO, NO, NO],
    [NO, NO, NO, NO, NO, NO, NO, NO, NO],
];

// The row of a stage in the table.
fn row_of(stage: Stage) -> usize
    ensures { result ≡ stage_number stage }
{
    stage as usize
}

// What the table says of a kind at a stage; a kind past the table is refused too.
// Kinds are numbers, since `next_stage`, `ComesNext` and `length_of` in specs speak of document 01's numbers.
pub fn next_stage(stage: Stage, kind: u16) -> Option<Stage>
    ensures { result ≡ next_stage stage kind }
{
    let column = kind as usize;
    if KINDS <= column {
        return None;
    }
    let row = row_of(stage);
    NEXT[row][column]
}

// The stage that follows once the last element, link or step is read. Each arm is written out: behind `_` the proof is not told which stage it is.
pub fn after_last(stage: Stage) -> Stage
    ensures { result ≡ after_last stage }
{
    match stage {
        Stage::Head => Stage::Head,
        Stage::Elements => Stage::Links,
        Stage::Links => Stage::End,
        Stage::End => Stage::End,
        Stage::PlanHead => Stage::PlanHead,
        Stage::Steps => Stage::PlanEnd,
        Stage::PlanEnd => Stage::PlanEnd,
        Stage::Over => Stage::Over,
    }
}
