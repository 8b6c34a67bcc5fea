// The load test of one element: capacity minus load as a signed number. Every function that compares a load with a capacity asks it.
#![tactic(auto)]

ghost use Rattle.std.specs.Prelude.{◌≡◌, ◌<◌, ◌^◌};
ghost use Rattle.feeding.specs.Loads.{margin};

// Capacity minus load.
pub fn margin_of(load: u64, capacity: u64) -> i64
    requires { (load < 2 ^ 63) × (capacity < 2 ^ 63) }
    ensures { result ≡ margin capacity load }
{
    capacity as i64 - load as i64
}
