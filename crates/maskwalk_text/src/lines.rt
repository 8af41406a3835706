// Text for the output: digits, a line, sixteen lines.
ghost use Rattle.std.specs.Prelude.{◌≡◌, ◌++◌, ◌≤◌, ◌<◌, length, drop};
ghost use Rattle.maskwalk_text.specs.Text.{line, lines, written};
ghost use Rattle.maskwalk_text.specs.Text.{digit as Text·digit, digits as Text·digits};

// A digit below sixteen.
#[tactic(auto, unfolding(crate::specs::Text::digit))]
fn digit(d: u64) -> u8
    requires { d < 16 }
    ensures { result ≡ Text·digit d }
{
    if d < 10 { 48 + d as u8 } else { 87 + d as u8 }
}

// The low digits of n, one into each place, from the last to the first.
// Kept: tried `write!` with `{:02}`, `{:016x}`; std promises no Ok of it, so `written` stays open.
#[tactic(auto, unfolding(crate::specs::Text::digits))]
fn digits(n: u64, base: u64, out: &mut [u8])
    requires { (0 < base) × (base ≤ 16) }
    ensures { out.new ≡ Text·digits base (length out.old) n }
{
    let mut rest = n;
    for i in (0..out.len()).rev() {
        out[i] = digit(rest % base);
        rest /= base;
    }
}

// A line for one word into the first twenty places.
fn write_line(word: u64, i: usize, out: &mut [u8])
    requires { 20 ≤ length out.old }
    ensures { out.new ≡ line i word ++ drop 20 out.old }
{
    digits(i as u64, 10, &mut out[..2]);
    out[2] = b' ';
    digits(word, 16, &mut out[3..19]);
    out[19] = b'\n';
}

// The sixteen lines of a block into the first 320 places.
#[tactic(auto, unfolding(words::specs::Sequence::cat))]
pub fn write_lines(b: [u64; 16], out: &mut [u8])
    requires { 320 ≤ length out.old }
    ensures { out.new ≡ lines b ++ drop 320 out.old }
{
    for (i, &word) in b.iter().enumerate() {
        let at = 20 * i;
        write_line(word, i, &mut out[at..]);
    }
}

// A text into the first places, and its length.
#[tactic(auto, unfolding(crate::specs::Text::written))]
pub fn put(text: &[u8], out: &mut [u8]) -> usize
    requires { length text.now ≤ length out.old }
    ensures { (result, out.new) ≡ written text.now out.old }
{
    let n = text.len();
    out[..n].copy_from_slice(text);
    n
}
