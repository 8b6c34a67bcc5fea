// Network and plan files as texts, for the program that tries small ones: a record is its letter with its numbers behind it, parted by commas,
// and a number by itself is two bytes. The letters are H for a network head, E for an element, V for one of kind 7, L for a link, G for a switch of
// kind 8, a dot for the end, P for a plan head and S for a step. Behind that `|121` cuts the file to 121 bytes, and `@4=65` makes its byte 4 a 65.
#![tactic(auto)]

// A text that is being read: the file's length, the sign in front of the number that is being read, that number if there is one, and the
// byte to be changed.
#[derive(Clone, Copy)]
struct Reading {
    length: usize,
    sign: u8,
    number: Option<usize>,
    place: usize,
}

// A number with one more digit behind it, where `sign` is a digit; numbers of a text are below 100,000.
fn with_digit(number: usize, sign: u8) -> usize {
    let digit = sign.saturating_sub(b'0');
    number % 10000 * 10 + usize::from(digit)
}

fn put_byte(out: &mut [u8; 4096], at: usize, n: usize) -> usize {
    if at < 4096 {
        out[at] = (n % 256) as u8;
        return at + 1;
    }
    at
}

// A number of a file: two bytes, low byte first.
fn put_number(out: &mut [u8; 4096], at: usize, n: usize) -> usize {
    let high = put_byte(out, at, n);
    put_byte(out, high, n / 256)
}

// A record's length and kind.
fn put_front(out: &mut [u8; 4096], at: usize, length: usize, kind: usize) -> usize {
    let next = put_number(out, at, length);
    put_number(out, next, kind)
}

fn put_sign(out: &mut [u8; 4096], at: usize, sign: u8) -> usize {
    match sign {
        b'H' => put_front(out, at, 8, 1),
        b'E' => put_front(out, at, 10, 2),
        b'V' => put_front(out, at, 14, 7),
        b'L' => put_front(out, at, 12, 3),
        b'G' => put_front(out, at, 14, 8),
        b'.' => put_front(out, at, 4, 4),
        b'P' => put_front(out, at, 6, 5),
        b'S' => put_front(out, at, 8, 6),
        _ => at,
    }
}

// The number that was read does what the sign in front of it says.
fn number_done(out: &mut [u8; 4096], text: Reading, number: usize) -> Reading {
    let mut next = text;
    match text.sign {
        b'|' => next.length = number.min(text.length),
        b'@' => next.place = number,
        b'=' => {
            put_byte(out, text.place, number);
        }
        _ => next.length = put_number(out, text.length, number),
    }
    next
}

fn with_sign(out: &mut [u8; 4096], text: Reading, sign: u8) -> Reading {
    let mut next = text;
    if sign.is_ascii_digit() {
        next.number = Some(with_digit(text.number.unwrap_or(0), sign));
        return next;
    }
    if let Some(number) = text.number {
        next = number_done(out, text, number);
    }
    next.number = None;
    next.sign = sign;
    next.length = put_sign(out, next.length, sign);
    next
}

// A text's bytes behind the first `at` bytes of a file, and where they end.
pub fn put(out: &mut [u8; 4096], at: usize, signs: &[u8]) -> usize {
    let mut text = Reading {
        length: at,
        sign: b' ',
        number: None,
        place: 0,
    };
    for &sign in signs {
        text = with_sign(out, text, sign);
    }
    let done = with_sign(out, text, b' ');
    done.length
}

// A text's bytes several times.
pub fn put_times(out: &mut [u8; 4096], at: usize, signs: &[u8], times: usize) -> usize {
    let mut to = at;
    for _ in 0..times {
        to = put(out, to, signs);
    }
    to
}

// The number at the front of a text.
pub fn number(signs: &[u8]) -> usize {
    let mut n: usize = 0;
    for &sign in signs {
        if !sign.is_ascii_digit() {
            return n;
        }
        n = with_digit(n, sign);
    }
    n
}
