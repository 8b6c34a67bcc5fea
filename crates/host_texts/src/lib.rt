// A text for a buffer that a host lends: put where it fits.
#![tactic(auto)]

ghost use Rattle.std.specs.Prelude.{◌≡◌, length};
ghost use Rattle.host_texts.specs.Fitting.{text_in};

use texts::put_text;

// The text into the front of `out`, where it fits; its length in any case.
pub fn put_if_it_fits(text: &[u8], out: &mut [u8]) -> usize
    ensures value { result ≡ length text.now }
    ensures out_after { out.new ≡ text_in text.now out.old }
{
    if out.len() < text.len() {
        return text.len();
    }
    put_text(out, 0, text)
}
