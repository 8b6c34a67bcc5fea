// The cheapest set of switches, by a search that carries the parts, what they ask, the states and the best set so far along, and walks the loads where a set
// is whole. In its functions `fed` says how many parts no longer wait.
#![tactic(auto)]

ghost use Rattle.std.specs.Prelude.{◌≡◌, ◌+◌, ◌/◌, ◌%◌, ◌<◌, ◌≤◌};
ghost use Rattle.feeding.specs.Networks.{at};
ghost use Rattle.feeding_loads.specs.Walks.{WalkLent};
ghost use Rattle.plan_switches.specs.Switches.{turned};
ghost use Rattle.plan_setting.specs.Packed.{adds_in};
ghost use Rattle.plan_supply.specs.Supply.{Light};
ghost use Rattle.plan_search.specs.Searching.{Seeks, Placed, fits_in, sought, decided, joined};

use feeding_capacity::within_from;
use feeding_parts::root;
use plan_holdings::{clashing, held_together, served_by};
use plan_problem::Best;
use plan_setting::Setting;
use plan_supply::{carried_on, overburdened};

// What a search carries along: the states of the links, the parents of the parts, what each part holds, its number, and the best set so far. All but the
// best set is taken back behind each choice.
#[derive(Clone, Copy)]
pub struct Search {
    pub states: [u8; 96],
    pub parent: [u8; 64],
    pub holds: [u8; 64],
    pub spare: [u64; 64],
    pub best: Best,
}

// Whether the loads stay within capacity in these states: a walk from each source.
fn loads_fit(setting: &Setting, states: &[u8; 96]) -> bool
    requires { WalkLent setting.now.walk states.now }
    ensures { result ≡ fits_in setting.now states.now }
{
    for j in 0..setting.sources.count {
        let s = setting.sources.element[j] as usize;
        if !within_from(&setting.walk, states, s) {
            return false;
        }
    }
    true
}

// What switch i adds to the cost of the choices before it: its price, and its guard's charge where none of its fellows is chosen.
fn added_by(setting: &Setting, i: usize, set: u32) -> u64
    requires { i < 16 }
    ensures { result ≡ adds_in setting.now i set }
{
    let price = setting.switches.price[i] as u64;
    let chosen = set & setting.guards.fellows[i];
    if chosen == 0 {
        return price + setting.guards.charge[i] as u64;
    }
    price
}

// The four numbers of a choice stay parameters: so a call shows which of them change, which `..choice` would hide.
impl Search {
    // The sets behind the choices `set` for the first i switches, which cost `cost`: each in the place of the best one, where it is cheaper and its loads fit.
    #[cycle(decide_join_seek)]
    pub fn seek(&mut self, setting: &Setting, i: usize, fed: usize, set: u32, cost: u64)
        requires seeks { Seeks setting.now self.old i fed set cost }
        requires placed { Placed setting.now self.old.states i set }
        requires light { Light self.old.spare i }
        ensures { self.new ≡ record self.old { best = sought setting.now self.old i fed set } }
    {
        let left = setting.switches.count - i;
        if fed + left < setting.want {
            return;
        }
        if self.best.cost <= cost {
            return;
        }
        if left == 0 {
            if loads_fit(setting, &self.states) {
                let set = set as u64;
                self.best = Best { cost, set };
            }
            return;
        }
        let t = 2 * set;
        let more = cost + added_by(setting, i, set);
        self.decide(setting, i, fed, t + 1, more);
        self.decide(setting, i, fed, t, cost)
    }

    // With switch i operated, or left as it was: the lowest bit of the set says which.
    #[cycle(decide_join_seek)]
    fn decide(&mut self, setting: &Setting, i: usize, fed: usize, set: u32, cost: u64)
        requires seeks { Seeks setting.now self.old (i + 1) fed set cost }
        requires placed { Placed setting.now self.old.states i (set / 2) }
        requires light { Light self.old.spare i }
        requires fed_le_i { fed ≤ i }
        ensures { self.new ≡ record self.old { best = decided setting.now self.old i fed set } }
    {
        if setting.switches.closed[i] as u32 == set % 2 {
            self.seek(setting, i + 1, fed, set, cost);
            return;
        }
        self.join(setting, i, fed, set, cost)
    }

    // With switch i closed: stops at a loop, a clash or too much load, and takes the join back after the sets below it.
    #[cycle(decide_join_seek)]
    fn join(&mut self, setting: &Setting, i: usize, fed: usize, set: u32, cost: u64)
        requires seeks { Seeks setting.now self.old (i + 1) fed set cost }
        requires placed { Placed setting.now self.old.states i (set / 2) }
        requires light { Light self.old.spare i }
        requires fed_le_i { fed ≤ i }
        requires shut { turned (at setting.now.switches.closed i) (set % 2) ≡ 1 }
        ensures { self.new ≡ record self.old { best = joined setting.now self.old i fed set } }
    {
        let x = root(&self.parent, setting.switches.from[i] as usize);
        let y = root(&self.parent, setting.switches.to[i] as usize);
        if x == y {
            return;
        }
        let p = self.holds[x];
        let q = self.holds[y];
        if clashing(p, q) {
            return;
        }
        let u = self.spare[x];
        let v = self.spare[y];
        if overburdened(p, q, u, v) {
            return;
        }
        let lo = x.min(y);
        let hi = x.max(y);
        let l = setting.switches.link[i] as usize;
        let old = self.holds[lo];
        let rest = self.spare[lo];
        self.parent[hi] = lo as u8;
        self.holds[lo] = held_together(p, q);
        self.spare[lo] = carried_on(p, q, u, v);
        self.states[l] = 1;
        self.seek(setting, i + 1, fed + served_by(p, q), set, cost);
        self.parent[hi] = hi as u8;
        self.holds[lo] = old;
        self.spare[lo] = rest;
        self.states[l] = 0;
    }
}
