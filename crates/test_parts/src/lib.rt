// The parts of a stored corpus that is read: each stands behind its length, two bytes, low byte first.
#![tactic(auto)]

ghost use Rattle.std.specs.Prelude.{◌≡◌, ◌≤◌, IfSome, length, take};

use std::io::Read;
use streams::read_full;

// More items than this are not read.
const MOST_ITEMS: usize = 65536;

// The length of the next part, if there is one.
pub fn next_length<R: Read>(from: &mut R) -> Option<usize> {
    let mut size = [0u8; 2];
    let got = read_full(from, &mut size);
    if got < 2 {
        return None;
    }
    Some(usize::from(u16::from_le_bytes(size)))
}

// How many parts, or pairs of parts, follow.
pub fn next_count<R: Read>(from: &mut R) -> usize {
    let mut count = [0u8; 1];
    read_full(from, &mut count);
    usize::from(count[0])
}

// The next part behind the first `at` bytes of the buffer, which stay, and where it ends; `None` where there is none or it does not fit.
pub fn next_part<R: Read>(from: &mut R, buffer: &mut [u8], at: usize) -> Option<usize>
    ensures within { IfSome result (λ end. (at ≤ end) × (end ≤ length buffer.new)) }
    ensures front_kept { take at buffer.new ≡ take at buffer.old }
{
    let length = next_length(from)?;
    let end = at.checked_add(length)?;
    if buffer.len() < end {
        return None;
    }
    read_full(from, &mut buffer[at..end]);
    Some(end)
}

// Reads a corpus to its end, item by item: `each` gets a buffer with the item's first part in front, and that part's length.
pub fn each_item<R: Read, F: Fn(&mut R, &mut [u8], usize)>(from: &mut R, each: F)
    requires { F.IsAlwaysCallable each }
{
    for _ in 0..MOST_ITEMS {
        let mut buffer = streams::input_buffer();
        let Some(length) = next_part(from, &mut buffer, 0) else {
            return;
        };
        each(from, &mut buffer, length);
    }
}
