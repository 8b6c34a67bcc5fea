// Whether closing an open link keeps a safe configuration safe: a walk over the part of each end before, and one of loads from their source afterwards.
#![tactic(auto)]

ghost use Rattle.std.specs.Prelude.{◌≡◌, length, set, ◌<◌};
ghost use Rattle.feeding.specs.Below.{tabulate};
ghost use Rattle.feeding.specs.Networks.{at};
ghost use Rattle.judge_safe_steps.specs.Tests.{joining_of};
ghost use Rattle.judge_closing.specs.Checks.{sign_of, joining_over, closes_over, Joinable, Closable};

use feeding_capacity::within_from;
use feeding_part_sums::element_sum;
use feeding_walks::Walk;
use judge_safe_steps::Joining;

// The signs of a part are one number, so that one walk adds them up. What the element x adds to the signs of its part: x + 1 for a sound source, 128 for a faulty element.
fn sign_of(flags: u16, x: usize) -> u32
    requires { x < 64 }
    ensures { result ≡ sign_of flags x }
{
    match flags {
        1 => x as u32 + 1,
        2 | 3 => 128,
        _ => 0,
    }
}

// What each element adds to the signs of its part; made once per network.
pub fn signs_of(flags: &[u16]) -> [u32; 64]
    requires { length flags.now ≡ 64 }
    ensures { result ≡ tabulate 64 (λ x. sign_of (at flags.now x) x) }
{
    let mut out: [u32; 64] = [0; 64];
    for x in 0..64 {
        out[x] = sign_of(flags[x], x);
    }
    out
}

// What two parts with these signs are found to be; 16,384 in the first says that they are one part.
fn joining_by(first: u64, second: u64) -> Joining
    ensures { result ≡ joining_of first second }
{
    if first >= 16384 {
        return Joining::Clash;
    }
    let s = first % 128;
    let t = second % 128;
    if s != 0 {
        if t != 0 {
            return Joining::Clash;
        }
        if second / 128 % 128 != 0 {
            return Joining::Clash;
        }
        let source = (s - 1) as usize;
        return Joining::FedBy(source);
    }
    if t != 0 {
        if first / 128 % 128 != 0 {
            return Joining::Clash;
        }
        let source = (t - 1) as usize;
        return Joining::FedBy(source);
    }
    Joining::Dark
}

// What the parts of the two ends of the open link l are found to be; while they are walked, `sign` has 16,384 more at the second end.
fn joining_at(walk: &Walk, closed: &[u8; 96], sign: &mut [u32; 64], l: usize) -> Joining
    requires { Joinable walk.now closed.now sign.old l }
    ensures value { result ≡ joining_over walk.now closed.now sign.old l }
    ensures sign_unchanged { sign.new ≡ sign.old }
{
    let a = walk.own.far[2 * l + 1] as usize;
    let b = walk.own.far[2 * l] as usize;
    let own = sign[b];
    let depth = 2 * walk.elements;
    sign[b] = own + 16384;
    let first = element_sum(walk, closed, sign, a, walk.links, depth, 0);
    let second = element_sum(walk, closed, sign, b, walk.links, depth, 0);
    sign[b] = own;
    joining_by(first, second)
}

// Closes the open link l of a safe configuration, and says whether it stays safe; `sign` has what each element adds.
pub fn closing_safe(walk: &Walk, closed: &mut [u8; 96], sign: &mut [u32; 64], l: usize) -> bool
    requires { Closable walk.now closed.old sign.old l }
    ensures value { result ≡ closes_over walk.now closed.old sign.old l }
    ensures closed_after { closed.new ≡ set closed.old l 1 }
    ensures sign_unchanged { sign.new ≡ sign.old }
{
    let joining = joining_at(walk, closed, sign, l);
    closed[l] = 1;
    match joining {
        Joining::Clash => false,
        Joining::Dark => true,
        Joining::FedBy(s) => within_from(walk, closed, s),
    }
}
