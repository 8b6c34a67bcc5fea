// What is said behind a plan's steps, of its last configuration: the loads, and the tightest spot.
#![tactic(auto)]

ghost use Rattle.std.specs.Prelude.{◌≡◌, length};
ghost use Rattle.feeding.specs.Networks.{net_of};
ghost use Rattle.feeding.specs.Parts.{closed_in};
ghost use Rattle.feeding.specs.Safety.{Safe};
ghost use Rattle.feeding_start.specs.Starting.{Begun};
ghost use Rattle.plan_tail.specs.Tails.{tail_after};

use feeding_margins::{Spot, tightest_spot};
use feeding_start::Start;
use plan_sums::{Sums, sums_after};

// The sums of loads, and the tightest spot where some element is live.
#[derive(Clone, Copy)]
pub struct Tail {
    pub sums: Sums,
    pub spot: Option<Spot>,
}

// The tail in a safe configuration; closed[l] is 1 for a closed link.
pub fn tail_after(start: Start, closed: &[u8]) -> Tail
    requires begun { Begun start }
    requires closed_len { length closed.now ≡ 96 }
    requires safe { Safe (net_of start.net).grid (closed_in closed.now) }
    ensures { result ≡ tail_after (net_of start.net) (closed_in closed.now) }
{
    let sums = sums_after(start, closed);
    let spot = tightest_spot(start.net, start.own, &start.sound, closed);
    Tail { sums, spot }
}
