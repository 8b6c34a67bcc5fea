// The operable switches of a network by their place among them, and the states that a set of them leaves.
#![tactic(auto)]

ghost use Rattle.std.specs.Prelude.{◌≡◌, ◌≤◌, length};
ghost use Rattle.network.specs.Accepted.{WellFormed};
ghost use Rattle.feeding.specs.Networks.{at};
ghost use Rattle.feeding_sets.specs.Sets.{members};
ghost use Rattle.plan_switches.specs.Switches.{SwitchReach, switch_list, with_set};

use network::Network;

// Columns with a count, since no heap is used and `SwitchReach` and `with_set` speak of columns. Switch i of the list: its link number, its two ends, 1 in `closed` where it is closed at the start, its cost. Entries from `count` on are 0.
#[derive(Clone, Copy)]
pub struct Switches {
    pub link: [u8; 16],
    pub from: [u8; 16],
    pub to: [u8; 16],
    pub closed: [u8; 16],
    pub price: [u16; 16],
    pub count: usize,
}

// The switches of a set of at most 16, by rising link number.
pub fn switches_of(net: Network, operable: &[u8]) -> Switches
    requires well_formed { WellFormed net }
    requires operable_len { (length operable.now ≡ 96) × (length (members operable.now net.links) ≤ 16) }
    ensures { result ≡ switch_list net (members operable.now net.links) }
{
    let mut link: [u8; 16] = [0; 16];
    let mut from: [u8; 16] = [0; 16];
    let mut to: [u8; 16] = [0; 16];
    let mut closed: [u8; 16] = [0; 16];
    let mut price: [u16; 16] = [0; 16];
    let mut count: usize = 0;
    for l in 0..net.links {
        if operable[l] == 1 {
            link[count] = l as u8;
            from[count] = net.from[l] as u8;
            to[count] = net.to[l] as u8;
            closed[count] = u8::from(net.form[l] == 2);
            price[count] = net.cost[l];
            count += 1;
        }
    }
    Switches {
        link,
        from,
        to,
        closed,
        price,
        count,
    }
}

// The states with each of the switches as it is at the start, but those of the set turned over; the set is a number in which the first switch has the
// highest bit.
pub fn with_set<'a>(
    states: [u8; 96],
    link: &'a [u8; 16],
    closed: &'a [u8; 16],
    count: usize,
    set: u32,
) -> [u8; 96]
    requires { SwitchReach link.now count }
    ensures { result ≡ with_set (at link.now) (at closed.now) count set states }
{
    let mut out = states;
    let mut rest = set;
    for i in (0..count).rev() {
        let l = link[i] as usize;
        let bit = (rest % 2) as u8;
        out[l] = u8::from(closed[i] != bit);
        rest /= 2;
    }
    out
}
