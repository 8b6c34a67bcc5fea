// The three sums of the LOAD line: loads of live elements, of restorable elements that are dark, and of elements that are not restorable.
#![tactic(auto)]

ghost use Rattle.std.specs.Prelude.{◌≡◌, length};
ghost use Rattle.feeding.specs.Networks.{net_of, at, is_in};
ghost use Rattle.feeding.specs.Parts.{closed_in};
ghost use Rattle.feeding_start.specs.Starting.{Begun};
ghost use Rattle.plan_sums.specs.Sums.{LoadsReach, sums_over, sums_after};

use feeding_restoration::joined_to;
use feeding_start::Start;

#[derive(Clone, Copy)]
pub struct Sums {
    pub fed: u64,
    pub dark: u64,
    pub lost: u64,
}

// The three sums over the first elements, in one pass; each sum asks every element for itself.
pub fn sums_over(load: &[u32], live: &[u8], restorable: &[u8], count: usize) -> Sums
    requires { LoadsReach load.now live.now restorable.now count }
    ensures { result ≡ sums_over (at load.now) (is_in live.now) (is_in restorable.now) count }
{
    let mut fed: u64 = 0;
    let mut dark: u64 = 0;
    let mut lost: u64 = 0;
    for e in 0..count {
        let own = load[e] as u64;
        let is_live = live[e];
        let is_restorable = restorable[e];
        if is_live == 1 {
            fed += own;
        }
        if is_restorable == 1 && is_live != 1 {
            dark += own;
        }
        if is_restorable != 1 {
            lost += own;
        }
    }
    Sums { fed, dark, lost }
}

// The sums in a configuration; closed[l] is 1 for a closed link.
pub fn sums_after(start: Start, closed: &[u8]) -> Sums
    requires begun { Begun start }
    requires closed_len { length closed.now ≡ 96 }
    ensures { result ≡ sums_after (net_of start.net) (closed_in closed.now) }
{
    let net = start.net;
    let load = net.load;
    let from = net.from;
    let to = net.to;
    let sound = start.sound;
    let restorable = start.restorable;
    let live = joined_to(&from, &to, closed, &sound, net.elements, net.links);
    sums_over(&load, &live, &restorable, net.elements)
}
