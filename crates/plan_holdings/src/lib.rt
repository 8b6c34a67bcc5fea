// What a part of a configuration holds, as a number (`holding` of `plan_stops` has it so): 1 for a sound source, 2 for a faulty element, 4 for a restorable one.
#![tactic(auto)]

ghost use Rattle.std.specs.Prelude.{◌≡◌, ◌≤◌, length};
ghost use Rattle.feeding.specs.Below.{sum_to, gate};
ghost use Rattle.plan_stops.specs.Holding.{holding, has_source, has_fault, has_need, waits_for, clash, together, serves};
ghost use Rattle.plan_holdings.specs.Holdings.{waiting_at, holdings_of};

// The part has a sound source.
pub fn source_in(h: u8) -> bool
    ensures { result ≡ has_source h }
{
    h % 2 == 1
}

// Three tests of a bit each: one function of the bit would be proved by cases of `has_source`, `has_fault` and `has_need`, and is no plainer.
fn fault_in(h: u8) -> bool
    ensures { result ≡ has_fault h }
{
    h / 2 % 2 == 1
}

fn need_in(h: u8) -> bool
    ensures { result ≡ has_need h }
{
    h / 4 % 2 == 1
}

fn waits(h: u8) -> bool
    ensures { result ≡ waits_for h }
{
    need_in(h) && !source_in(h)
}

// No safe configuration joins parts that hold these.
pub fn clashing(x: u8, y: u8) -> bool
    ensures { result ≡ clash x y }
{
    source_in(x) && (source_in(y) || fault_in(y)) || source_in(y) && fault_in(x)
}

// What a part holds, by three tests.
fn held(source: bool, fault: bool, need: bool) -> u8
    ensures { result ≡ holding source fault need }
{
    u8::from(source) + 2 * u8::from(fault) + 4 * u8::from(need)
}

// What the two parts hold together.
pub fn held_together(x: u8, y: u8) -> u8
    ensures { result ≡ together x y }
{
    held(
        source_in(x) || source_in(y),
        fault_in(x) || fault_in(y),
        need_in(x) || need_in(y),
    )
}

// 1 where one part fewer waits once the two are joined, else 0.
pub fn served_by(x: u8, y: u8) -> usize
    ensures { result ≡ gate (serves x y) 1 }
{
    usize::from(waits(x) && (waits(y) || source_in(y)) || waits(y) && source_in(x))
}

// What the part of each element holds, by three sets of elements.
pub fn holdings<'a>(live: &'a [u8], faulty: &'a [u8], needed: &'a [u8]) -> [u8; 64]
    requires { (64 ≤ length live.now) × (64 ≤ length faulty.now) × (64 ≤ length needed.now) }
    ensures { result ≡ holdings_of live.now faulty.now needed.now }
{
    let mut out: [u8; 64] = [0; 64];
    for x in 0..64 {
        out[x] = held(live[x] == 1, faulty[x] == 1, needed[x] == 1);
    }
    out
}

// How many of the parts of the first elements wait for a source.
pub fn waiting_parts<'a>(label: &'a [u8], holds: &'a [u8], elements: usize) -> usize
    requires { (elements ≤ length label.now) × (elements ≤ length holds.now) }
    ensures { result ≡ sum_to elements (waiting_at label.now holds.now) }
{
    let mut sum: usize = 0;
    for x in 0..elements {
        if label[x] as usize == x && waits(holds[x]) {
            sum += 1;
        }
    }
    sum
}
