// What the elements of each part ask together, and what the part's source bears beyond that; two parts joined by these numbers.
#![tactic(auto)]

ghost use Rattle.std.specs.Prelude.{◌≡◌, true, not, ◌+◌, ◌<◌};
ghost use Rattle.plan_stops.specs.Searching.{bears, carried_on};
ghost use Rattle.plan_supply.specs.Supply.{Rated, Sourced, Asking, ask_of, asks_in, spare_in, demand_in};

use feeding_load_test::margin_of;
use plan_holdings::source_in;

// What an element asks of its source: its load, or more than any source bears where it is too small for that.
fn ask(load: u32, capacity: u32) -> u64
    ensures { result ≡ ask_of load capacity }
{
    if margin_of(load as u64, capacity as u64) >= 0 {
        return load as u64;
    }
    4294967296
}

// What each part asks, at its label.
fn asks_of<'a>(label: &'a [u8], load: &'a [u32], capacity: &'a [u32], elements: usize) -> [u64; 64]
    requires { Rated label.now load.now capacity.now elements }
    ensures { result ≡ asks_in label.now load.now capacity.now elements }
{
    let mut out: [u64; 64] = [0; 64];
    for e in 0..elements {
        let x = label[e] as usize;
        out[x] += ask(load[e], capacity[e]);
    }
    out
}

// The same, and with a source what that bears beyond it.
fn left_over<'a>(
    asked: [u64; 64],
    label: &'a [u8],
    sound: &'a [u8],
    capacity: &'a [u32],
    elements: usize,
) -> [u64; 64]
    requires { Sourced asked label.now sound.now capacity.now elements }
    ensures { result ≡ spare_in asked label.now sound.now capacity.now elements }
{
    let mut out = asked;
    for s in 0..elements {
        if sound[s] == 1 {
            let x = label[s] as usize;
            out[x] = capacity[s] as u64 - asked[x];
        }
    }
    out
}

// What a search carries for each part, at its label: what its source bears more, or, where it has none, what it asks.
pub fn spare_of<'a>(
    label: &'a [u8],
    sound: &'a [u8],
    load: &'a [u32],
    capacity: &'a [u32],
    elements: usize,
) -> [u64; 64]
    requires rated { Rated label.now load.now capacity.now elements }
    requires sourced { Sourced (asks_in label.now load.now capacity.now elements) label.now sound.now capacity.now elements }
    ensures { result ≡ spare_in (asks_in label.now load.now capacity.now elements) label.now sound.now capacity.now elements }
{
    let asked = asks_of(label, load, capacity, elements);
    left_over(asked, label, sound, capacity, elements)
}

// What those of the first elements that are in the set ask.
pub fn demand_of<'a>(has: &'a [u8], load: &'a [u32], capacity: &'a [u32], elements: usize) -> u64
    requires { Asking has.now load.now capacity.now elements }
    ensures { result ≡ demand_in has.now load.now capacity.now elements }
{
    let mut sum: u64 = 0;
    for e in 0..elements {
        if has[e] == 1 {
            sum += ask(load[e], capacity[e]);
        }
    }
    sum
}

// Of two parts, with what they hold and their numbers: one has a source that does not bear what the other asks.
pub fn overburdened(x: u8, y: u8, a: u64, b: u64) -> bool
    ensures { result ≡ not (bears x y a b) }
{
    if source_in(x) {
        return a < b;
    }
    if source_in(y) {
        return b < a;
    }
    false
}

// The number of the two together.
pub fn carried_on(x: u8, y: u8, a: u64, b: u64) -> u64
    requires b_value { bears x y a b ≡ true }
    requires b_bound { a + b < 18446744073709551616 }
    ensures { result ≡ carried_on x y a b }
{
    if source_in(x) {
        return a - b;
    }
    if source_in(y) {
        return b - a;
    }
    a + b
}
