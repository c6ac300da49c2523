// The number fields of a listing: read at the start of a part of the line that runs on past them.
#![tactic(auto)]

ghost use Rattle.std.specs.Prelude.{◌≡◌, length, drop, ◌+◌, ◌-◌, ◌*◌, ◌^◌, ◌≤◌, ◌<◌, IfSome};
ghost use Rattle.std.specs.Bool.{OnTrue};
ghost use Rattle.field.specs.Number.{ends, point, rounded, fraction, time_field, count_field};
ghost use Rattle.field.specs.Runs.{run_of};

// A number that a text starts with, and its width in bytes.
#[derive(Clone, Copy)]
pub struct Field {
    pub value: u32,
    pub width: usize,
}

// Which way a time is rounded to the microsecond.
#[derive(Clone, Copy)]
pub enum Rounding {
    Down,
    Up,
}

// The digits that s starts with, unless they are more than so many.
fn leading(s: &[u8], most: usize) -> Option<Field>
    requires { most ≤ 9 }
    ensures run { result ≡ run_of most s.now }
    ensures small { IfSome result (λ f. (f.width ≤ most) × (f.width ≤ length s.now) × (f.value < 10 ^ f.width)) }
{
    let mut value: u32 = 0;
    for (width, b) in s.iter().enumerate() {
        if !b.is_ascii_digit() {
            return Some(Field { value, width });
        }
        if width == most {
            return None;
        }
        value = value * 10 + u32::from(*b - b'0');
    }
    let width = s.len();
    Some(Field { value, width })
}

// Whether a field ends at a place: at a space, an LF or the end.
pub fn ends_at(s: &[u8], at: usize) -> bool
    ensures { result ≡ ends (drop at s.now) }
{
    matches!(s.get(at), None | Some(b' ' | b'\n'))
}

// Whether a point stands at a place.
fn point_at(s: &[u8], at: usize) -> bool
    ensures point { result ≡ point (drop at s.now) }
    ensures inside { OnTrue result (at < length s.now) }
{
    matches!(s.get(at), Some(b'.'))
}

// The number x of so many digits after the point, in millionths: padded on the right.
fn millionths(digits: usize, x: u32) -> u32
    requires { (digits ≤ 6) × (x < 10 ^ digits) }
    ensures { (result ≡ x * 10 ^ (6 - digits)) × (result < 1000000) }
{
    x * 10_u32.pow((6 - digits) as u32)
}

// The nanoseconds past a whole millisecond, in microseconds.
fn micros(way: Rounding, ns: u32) -> u32
    requires { ns < 1000000 }
    ensures { (result ≡ rounded way ns) × (result ≤ 1000) }
{
    match way {
        Rounding::Down => ns / 1000,
        Rounding::Up => (ns + 999) / 1000,
    }
}

// What follows the point of a time whose whole part is v; it begins at a place of the field.
fn fraction(s: &[u8], at: usize, v: u32, way: Rounding) -> Option<Field>
    requires { (at ≤ 6) × (v ≤ 99999) }
    ensures value { result ≡ fraction way v at s.now }
    ensures narrow { IfSome result (λ f. f.width ≤ at + 6) }
{
    let digits = leading(s, 6)?;
    if digits.width == 0 || !ends_at(s, digits.width) {
        return None;
    }
    Some(Field {
        value: v * 1000 + micros(way, millionths(digits.width, digits.value)),
        width: at + digits.width,
    })
}

// A time, in microseconds, rounded as told: at most five digits, a point and six digits.
pub fn time(s: &[u8], way: Rounding) -> Option<Field>
    ensures value { result ≡ time_field way s.now }
    ensures narrow { IfSome result (λ f. f.width ≤ 12) }
{
    let Field { value, width } = leading(s, 5)?;
    if width == 0 {
        return None;
    }
    if ends_at(s, width) {
        let value = value * 1000;
        return Some(Field { value, width });
    }
    if !point_at(s, width) {
        return None;
    }
    fraction(&s[width + 1..], width + 1, value, way)
}

// A count.
pub fn count(s: &[u8]) -> Option<Field>
    ensures value { result ≡ count_field s.now }
    ensures narrow { IfSome result (λ f. f.width ≤ 12) }
{
    let digits = leading(s, 4)?;
    if digits.width == 0 || !ends_at(s, digits.width) {
        return None;
    }
    Some(digits)
}
