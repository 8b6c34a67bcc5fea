// A switching plan as its file states it.
ghost use Rattle.std.specs.Prelude.{◌≡◌};
ghost use Rattle.file_plan.specs.PlanFiles.{empty_plan};

// Step i + 1 of the file stands at index i: its link and whether it closes that link. Later entries are 0 and false.
// Arrays with a count, since no heap is used, and of one field each, as `steps_of` and `WellFormedPlan` read them.
#[derive(Clone, Copy)]
pub struct Plan {
    pub link: [u16; 255],
    pub close: [bool; 255],
    pub steps: u8,
}

impl Plan {
    pub fn empty() -> Plan
        ensures { result ≡ empty_plan }
    {
        Plan {
            link: [0; 255],
            close: [false; 255],
            steps: 0,
        }
    }
}
