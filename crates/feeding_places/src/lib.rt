// The places of rules 14 to 16, by the labels of the parts and by sets.
#![tactic(auto)]

ghost use Rattle.std.specs.Prelude.{◌≡◌};
ghost use Rattle.feeding.specs.Below.{lowest, some_below};
ghost use Rattle.feeding_places.specs.Places.{LoopsReach, LastReach, least_looped, not_last, with_last};

// Rule 14: the lowest label of a part in which a loop closed.
pub fn tree_place(label: &[u8], looped: &[u8], elements: usize) -> Option<usize>
    requires { LoopsReach label.now looped.now elements }
    ensures { result ≡ some_below elements (least_looped label.now looped.now elements) }
{
    let mut place = elements;
    for x in 0..elements {
        if looped[x] == 1 {
            place = place.min(label[x] as usize);
        }
    }
    if place < elements { Some(place) } else { None }
}

// Rule 15: the lowest sound source that is not the last of its part.
pub fn pair_place(label: &[u8], sound: &[u8], last: &[u8], elements: usize) -> Option<usize>
    requires { LastReach label.now sound.now last.now elements }
    ensures { result ≡ some_below elements (lowest elements (not_last label.now sound.now last.now)) }
{
    for s in 0..elements {
        if sound[s] == 1 && last[label[s] as usize] as usize != s {
            return Some(s);
        }
    }
    None
}

// Rule 16: the lowest faulty element whose part has a sound source.
pub fn fault_place(label: &[u8], faulty: &[u8], last: &[u8], elements: usize) -> Option<usize>
    requires { LastReach label.now faulty.now last.now elements }
    ensures { result ≡ some_below elements (lowest elements (with_last label.now faulty.now last.now)) }
{
    for x in 0..elements {
        if faulty[x] == 1 && last[label[x] as usize] < 64 {
            return Some(x);
        }
    }
    None
}
