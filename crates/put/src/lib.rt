// Texts, counts and times, written at the start of an output; and a space and a count, at any place of it. Each writer answers how many bytes it wrote, or
// `None`: the output is too short, nothing was written, and it is as it was.
#![tactic(auto)]

ghost use Rattle.std.specs.Prelude.{◌≡◌, ◌∷◌, ◌++◌, ◌≤◌, ◌<◌, length, drop};
ghost use Rattle.basics.specs.Text.{put_into};
ghost use Rattle.put.specs.Text.{width, digits_of, trim, pointed, count_text, time_text, put_answer, put_answer_at, put_at};

// How many digits n has. The number of turns is fixed, so that the compiler makes a row of comparisons of them, and a shorter one for a caller whose n is smaller: a loop
// that divides n would cost `put_time` a register.
fn width_of(n: u64) -> usize
    ensures { result ≡ width n }
{
    let mut power: u64 = 1;
    for k in 1..20 {
        power *= 10;
        if n < power {
            return k;
        }
    }
    20
}

// The digits of a fraction in thousandths without the zeros at their end: how many they are, and their number. That x is below 1,000 stays a clause of the three functions that
// take such a fraction: each gets it from one remainder.
fn fraction_of(x: u32) -> (usize, u32)
    requires { x < 1000 }
    ensures { (trim (digits_of 3 x) ≡ digits_of result.0 result.1) × (result.0 ≤ 3) }
{
    match x {
        0 => (0, 0),
        _ if x % 100 == 0 => (1, x / 100),
        _ if x % 10 == 0 => (2, x / 10),
        _ => (3, x),
    }
}

// How many bytes a fraction in thousandths takes: a point and its digits, or none.
fn fraction_len(x: u32) -> usize
    requires { x < 1000 }
    ensures { result ≡ length (pointed (trim (digits_of 3 x))) }
{
    match fraction_of(x) {
        (0, _) => 0,
        (k, _) => k + 1,
    }
}

// The last digits of n, as many as fill out. By their places: of what `iter_mut().rev()` lends a proof knows nothing afterwards.
fn put_digits(out: &mut [u8], n: u64)
    ensures { out.new ≡ digits_of (length out.old) n }
{
    let mut rest = n;
    for i in (0..out.len()).rev() {
        out[i] = b'0' + (rest % 10) as u8;
        rest /= 10;
    }
}

// A fraction in thousandths, at the start of out: a point and its digits, or nothing.
fn put_fraction(out: &mut [u8], x: u32)
    requires small { x < 1000 }
    requires room { length (pointed (trim (digits_of 3 x))) ≤ length out.old }
    ensures { out.new ≡ pointed (trim (digits_of 3 x)) ++ drop (length (pointed (trim (digits_of 3 x)))) out.old }
{
    let (k, digits) = fraction_of(x);
    if 0 < k {
        out[0] = b'.';
        put_digits(&mut out[1..1 + k], u64::from(digits));
    }
}

// How long a count's text is.
pub fn count_len(n: u64) -> usize
    ensures { result ≡ length (count_text n) }
{
    width_of(n)
}

// How long a time's text is.
pub fn time_len(us: u32) -> usize
    ensures { result ≡ length (time_text us) }
{
    width_of(u64::from(us / 1000)) + fraction_len(us % 1000)
}

// Any bytes at the start of out.
pub fn put_text(out: &mut [u8], s: &[u8]) -> Option<usize>
    ensures { (result ≡ put_answer s.now out.old) × (out.new ≡ put_into s.now out.old) }
{
    let n = s.len();
    if out.len() < n {
        return None;
    }
    out[..n].copy_from_slice(s);
    Some(n)
}

// A count at the start of out.
pub fn put_count(out: &mut [u8], n: u64) -> Option<usize>
    ensures { (result ≡ put_answer (count_text n) out.old) × (out.new ≡ put_into (count_text n) out.old) }
{
    let k = width_of(n);
    if out.len() < k {
        return None;
    }
    put_digits(&mut out[..k], n);
    Some(k)
}

// A time at the start of out. Its length is known before a byte is stored, so that each goes straight to its place. Of the fraction no more than
// its thousandths is kept meanwhile: a register that has to be saved is stack too.
pub fn put_time(out: &mut [u8], us: u32) -> Option<usize>
    ensures { (result ≡ put_answer (time_text us) out.old) × (out.new ≡ put_into (time_text us) out.old) }
{
    let whole = u64::from(us / 1000);
    let rest = us % 1000;
    let w = width_of(whole);
    let n = w + fraction_len(rest);
    if out.len() < n {
        return None;
    }
    put_digits(&mut out[..w], whole);
    put_fraction(&mut out[w..], rest);
    Some(n)
}

// A space and a count, at a place of out, which may be any number: nothing is added to it before it is known to lie in the output, so that no sum is too large.
pub fn spaced_count(out: &mut [u8], at: usize, n: u64) -> Option<usize>
    ensures { (result ≡ put_answer_at (32 ∷ count_text n) at out.old) × (out.new ≡ put_at (32 ∷ count_text n) at out.old) }
{
    let k = width_of(n);
    if out.len().saturating_sub(k) <= at {
        return None;
    }
    out[at] = b' ';
    put_digits(&mut out[at + 1..at + 1 + k], n);
    Some(k + 1)
}
