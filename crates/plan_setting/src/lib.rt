// What a search over sets of switches does not change, made once per network and lent whole.
#![tactic(auto)]

ghost use Rattle.std.specs.Prelude.{◌≡◌, ◌≤◌, eqb};
ghost use Rattle.feeding.specs.Networks.{at};
ghost use Rattle.plan_problem.specs.Sets.{mask_of};
ghost use Rattle.plan_switches.specs.Switches.{SwitchReach};
ghost use Rattle.feeding_sets.specs.Sets.{members};
ghost use Rattle.plan_setting.specs.Setting.{Columns, Listed, Charging, Settled};

use feeding_walks::Walk;
use plan_switches::Switches;

// The sources from which loads are walked, by rising number, and how many they are: an array with a count, since there is no heap.
#[derive(Clone, Copy)]
pub struct Sources {
    pub element: [u8; 64],
    pub count: usize,
}

// What each switch's guard costs, twice its own cost, and which switches before it have the same guard, as a set; 0 without a guard.
#[derive(Clone, Copy)]
pub struct Guards {
    pub charge: [u32; 16],
    pub fellows: [u32; 16],
}

// The switches with their guards, the sources, how many parts are to be served, and what the walks go over.
#[derive(Clone, Copy)]
pub struct Setting {
    pub switches: Switches,
    pub guards: Guards,
    pub sources: Sources,
    pub want: usize,
    pub walk: Walk,
    pub ghost settled: { Settled switches guards sources want walk },
}

// The members of a set of elements.
fn listed_sources(sound: &[u8; 96], elements: usize) -> Sources
    requires { elements ≤ 64 }
    ensures { Listed result (members sound.now elements) }
{
    let mut element: [u8; 64] = [0; 64];
    let mut count: usize = 0;
    for s in 0..elements {
        if sound[s] == 1 {
            element[count] = s as u8;
            count += 1;
        }
    }
    Sources { element, count }
}

// Which of the first n switches have the guard g, as a set: the first has the highest bit.
fn fellows_of<'a>(guard: &'a [u16; 96], link: &'a [u8; 16], n: usize, g: u16) -> u32
    requires { SwitchReach link.now n }
    ensures { result ≡ mask_of (λ j. eqb (at guard.now (at link.now j)) g) n }
{
    let mut mask: u32 = 0;
    for j in 0..n {
        let l = link[j] as usize;
        let own = guard[l];
        mask = 2 * mask;
        if own == g {
            mask = mask + 1;
        }
    }
    mask
}

// The guards of the switches that are these links.
fn guards_of<'a>(
    guard: &'a [u16; 96],
    cost: &'a [u16; 96],
    links: usize,
    link: &'a [u8; 16],
    count: usize,
) -> Guards
    requires switch_reach { SwitchReach link.now count }
    requires links_bound { links ≤ 96 }
    ensures { Charging guard.now cost.now links link.now count result }
{
    let guards: &[u16] = guard;
    let costs: &[u16] = cost;
    let mut charge: [u32; 16] = [0; 16];
    let mut fellows: [u32; 16] = [0; 16];
    for i in 0..count {
        let l = link[i] as usize;
        let own = guards[l];
        let g = own as usize;
        if g < links {
            charge[i] = 2 * (costs[g] as u32);
            fellows[i] = fellows_of(guard, link, i, own);
        }
    }
    Guards { charge, fellows }
}

impl Setting {
    ghost use Rattle.plan_setting.specs.Packed.{Packed};

    // The setting of these switches, of which each has the guard and the cost of its link, with the sound elements as sources.
    pub fn new<'a>(
        switches: Switches,
        guard: &'a [u16; 96],
        cost: &'a [u16; 96],
        sound: &'a [u8; 96],
        want: usize,
        walk: Walk,
    ) -> Self
        requires columns { Columns switches }
        requires want_bound { (want ≤ 64) × ((walk.elements ≤ 64) × (walk.links ≤ 96)) }
        ensures { Packed result switches guard.now cost.now (members sound.now walk.elements) want walk }
    {
        let link = switches.link;
        let sources = listed_sources(sound, walk.elements);
        let guards = guards_of(guard, cost, walk.links, &link, switches.count);
        Setting {
            switches,
            guards,
            sources,
            want,
            walk,
        }
    }
}
