// What all printed lines share: texts, numbers, fields and line feeds, and the line of a refusal, into a lent array. Numbers are spelled here and not by
// Display, since the library allocates nothing and a line goes to its place in the array (docs/DECISIONS.md, 40).
#![tactic(auto)]

ghost use Rattle.std.specs.Prelude.{◌≡◌, ◌+◌, ◌≤◌, [], ◌∷◌, length};
ghost use Rattle.std.proofs.lemmas.List.Edits.{sets};
ghost use Rattle.texts.specs.Texts.{decimal, field, signed_field, line_of, refused_line, in_front};

use network::refusal::Refusal;

// A fixed text.
pub fn put_text(out: &mut [u8], at: usize, text: &[u8]) -> usize
    requires { at + length text.now ≤ length out.old }
    ensures value { result ≡ at + length text.now }
    ensures out_after { out.new ≡ sets out.old at text.now }
{
    let end = at + text.len();
    out[at..end].copy_from_slice(text);
    end
}

// A number in base ten, without leading zeros.
pub fn put_number(out: &mut [u8], at: usize, n: u64) -> usize
    requires { at + length (decimal n) ≤ length out.old }
    ensures value { result ≡ at + length (decimal n) }
    ensures out_after { out.new ≡ sets out.old at (decimal n) }
{
    if n < 10 {
        out[at] = 48 + n as u8;
        return at + 1;
    }
    let next = put_number(out, at, n / 10);
    out[next] = 48 + (n % 10) as u8;
    next + 1
}

// A blank and a number.
pub fn put_field(out: &mut [u8], at: usize, n: u64) -> usize
    requires { at + length (field n) ≤ length out.old }
    ensures value { result ≡ at + length (field n) }
    ensures out_after { out.new ≡ sets out.old at (field n) }
{
    out[at] = 32;
    put_number(out, at + 1, n)
}

// A blank and a signed number.
pub fn put_signed(out: &mut [u8], at: usize, n: i64) -> usize
    requires { at + length (signed_field n) ≤ length out.old }
    ensures value { result ≡ at + length (signed_field n) }
    ensures out_after { out.new ≡ sets out.old at (signed_field n) }
{
    let size = n.unsigned_abs();
    if n < 0 {
        let next = put_text(out, at, b" -");
        return put_number(out, next, size);
    }
    put_field(out, at, size)
}

// The line feed that ends a line.
pub fn put_feed(out: &mut [u8], at: usize) -> usize
    requires { at + 1 ≤ length out.old }
    ensures value { result ≡ at + 1 }
    ensures out_after { out.new ≡ sets out.old at (10 ∷ []) }
{
    out[at] = 10;
    at + 1
}

// A line of a word and two numbers.
pub fn put_line(out: &mut [u8], at: usize, word: &[u8], first: u64, second: u64) -> usize
    requires { at + length word.now + 43 ≤ length out.old }
    ensures upper_bound { result ≤ at + length word.now + 43 }
    ensures value { result ≡ at + length (line_of word.now first second) }
    ensures out_after { out.new ≡ sets out.old at (line_of word.now first second) }
{
    let after = put_text(out, at, word);
    let next = put_field(out, after, first);
    let last = put_field(out, next, second);
    put_feed(out, last)
}

// `REFUSED number place`.
pub fn put_refused(out: &mut [u8], at: usize, refused: Refusal) -> usize
    requires { at + 50 ≤ length out.old }
    ensures upper_bound { result ≤ at + 50 }
    ensures value { result ≡ at + length (refused_line refused) }
    ensures out_after { out.new ≡ sets out.old at (refused_line refused) }
{
    let number = u8::from(refused.rule) as u64;
    let place = refused.place as u64;
    put_line(out, at, b"REFUSED", number, place)
}

// `REFUSED number place`, the only line.
pub fn refused_line(refused: Refusal, out: &mut [u8; 4096]) -> usize
    ensures value { result ≡ length (refused_line refused) }
    ensures out_after { out.new ≡ in_front (refused_line refused) out.old }
{
    put_refused(out, 0, refused)
}
