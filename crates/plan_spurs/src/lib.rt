// Spurs: elements that hang by one link whatever the set of switches, so that the loads they add are the same in every configuration tried.
#![tactic(auto)]

ghost use Rattle.std.specs.Prelude.{◌≡◌, ◌<◌, ◌≤◌, MatchOption};
ghost use Rattle.plan_spurs.specs.Spurs.{FarIn, hangs_by, bears_both, lumped_to};

use feeding_ends::OwnEnds;
use feeding_load_test::margin_of;

// The links that are closed whatever the set, and the elements' own loads, with the spurs found so far lumped with what they hang from.
#[derive(Clone, Copy)]
pub struct Lumped {
    pub base: [u8; 96],
    pub load: [u32; 64],
}

// The first number that is no end.
const NO_END: usize = 192;

// The end by which e hangs, where it is a spur: it has one chained end alone, is no sound source, and hangs by no switch.
fn hangs_by<'a>(
    head: &'a [u8; 64],
    next: &'a [u8; 192],
    sound: &'a [u8; 96],
    base: &'a [u8; 96],
    e: usize,
) -> Option<usize>
    requires { e < 64 }
    ensures { MatchOption result (192 ≡ hangs_by head.now next.now sound.now base.now e)
        (λ j. (j < 192) × (j ≡ hangs_by head.now next.now sound.now base.now e)) }
{
    let heads: &[u8] = head;
    let j = heads[e] as usize;
    if j >= NO_END || next[j] < 192 || sound[e] == 1 || base[j / 2] != 1 {
        return None;
    }
    Some(j)
}

// Whether a spur's own load is within its limit, and the capacity of what it hangs from bears both own loads.
fn bears(own: u32, limit: u32, load: u32, capacity: u32) -> bool
    ensures { result ≡ bears_both own limit load capacity }
{
    if margin_of(own as u64, limit as u64) < 0 {
        return false;
    }
    margin_of(load as u64 + own as u64, capacity as u64) >= 0
}

// Each spur that overloads nothing by itself is lumped with the element that it hangs from, and its link left out of `base`.
pub fn lump_spurs<'a>(
    own: OwnEnds,
    sound: &'a [u8; 96],
    capacity: &'a [u32; 64],
    before: Lumped,
    elements: usize,
) -> Lumped
    requires far_in { FarIn own.far }
    requires elements_bound { elements ≤ 64 }
    ensures { result ≡ lumped_to own sound.now capacity.now before elements }
{
    let head = own.head;
    let next = own.next;
    let far = own.far;
    let capacities: &[u32] = capacity;
    let mut base = before.base;
    let mut load = before.load;
    for e in 0..elements {
        let Some(j) = hangs_by(&head, &next, sound, &base, e) else {
            continue;
        };
        let to = far[j] as usize;
        if bears(load[e], capacities[e], load[to], capacities[to]) {
            load[to] += load[e];
            base[j / 2] = 0;
        }
    }
    Lumped { base, load }
}
