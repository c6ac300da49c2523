// The rounds over the shares of one task. They see numbers only: no share that counts nothing, and no division by a period.
#![tactic(auto)]

ghost use Rattle.std.specs.Prelude.{◌&&◌, ◌≡◌, ◌+◌, ◌*◌, ◌/◌, ◌≤◌, ◌<◌};
ghost use Rattle.table.specs.Limits.{max_tasks, max_time};
ghost use Rattle.theory.specs.Rounds.{counted_from};
ghost use Rattle.rounds.specs.Shares.{shares_demand};
ghost use Rattle.rounds.specs.Outcome.{share_fits, head_fits, is_sound, outcome_of, Sound, SoundRow, SoundShares};
ghost use Rattle.rounds.specs.Part.{max_span, GoodPart};

use table::Table;
use theory::{Counted, Verdict};

mod strides;

// What one task's analysis reads of another: the units of it that count whole, and the two counts that are divided by m.
#[derive(Clone, Copy, Default)]
pub struct Share {
    pub period: u32,
    pub deadline: u32,
    pub whole: u64, // S
    pub one: u64, // O, or L
    pub two: u64, // F
}

// C, C + DB, m, and a share for each of the n tasks, whatever n is: `outcome_of` answers of every n. The memory is fixed.
#[derive(Clone, Copy)]
pub struct Shares {
    pub start: u32,
    pub base: u64,
    pub cpus: u64,
    pub n: usize,
    pub of: [Share; Table::MAX_TASKS],
}

// The most that C + DB can be.
const MAX_BASE: u64 = Table::MAX_TIME as u64
    + Table::MAX_RESOURCES as u64 * (Table::MAX_COUNT as u64 * Table::MAX_TIME as u64);

// Units of a task of this period, with off = D - units; a / period is a * mul >> shift.
#[derive(Clone, Copy)]
struct Part {
    period: u32,
    units: u32,
    off: u32,
    shift: u32,
    mul: u64,
    ghost good: { GoodPart period units off shift mul },
}

// What is asked of a length t in each of these, that it is no longer than the longest time, stays a clause: a type for it would be unpacked at every sum.
impl Part {
    ghost use Rattle.rounds.specs.Parts.{PartIs, UncappedIs};

    // No units: what a row holds where no part is stored.
    const NONE: Part = Part {
        period: 1,
        units: 0,
        off: 0,
        shift: 0,
        mul: 1,
    };

    // The multiplier is 2^38 / T + 1 for a short period and 2^49 / T + 1 for a long one: a product with it, shifted, is the quotient for
    // every a that comes up, and fits 64 bits. That depends on the longest time: a is at most twice that, and 2 × 10^7 × 8,192 < 2^38,
    // 2 × 10^7 × 10^7 < 2^49, 2 × 10^7 × (2^38 + 1) < 2^64. A longer one asks for other powers.
    fn new(share: &Share, counted: u64) -> Part
        requires { Sound share.now.period share.now.deadline counted }
        ensures { PartIs share.now.period share.now.deadline counted result }
    {
        let period = share.period;
        let units = counted as u32;
        let shift = if period < 8_192 { 38 } else { 49 };
        Part {
            period,
            units,
            off: share.deadline - units,
            shift,
            mul: (1u64 << shift) / u64::from(period) + 1,
        }
    }

    // a / period.
    fn quot(&self, a: u32) -> u32
        requires { a ≤ max_span }
        ensures { result ≡ a / self.now.period }
    {
        ((u64::from(a) * self.mul) >> self.shift) as u32
    }

    // Document 01's workload over t.
    fn uncapped(&self, t: u32) -> u32
        requires { t ≤ max_time }
        ensures { UncappedIs self.now t result }
    {
        let a = t + self.off;
        let q = self.quot(a);
        q * self.units + (a - q * self.period).min(self.units)
    }
}

// The parts of units that count, in front of a row: the memory is fixed.
#[derive(Drop)]
struct Parts<const N: usize> {
    n: usize,
    of: [Part; N],
    ghost few: { n ≤ N },
    ghost room: { N ≤ 2 * max_tasks },
}

// Those that count whole, and those that are divided by m: two of each task at most.
type Wholes = Parts<{ Table::MAX_TASKS }>;

const MAX_DIVIDED: usize = 2 * Table::MAX_TASKS;

type Divided = Parts<MAX_DIVIDED>;

impl<const N: usize> Parts<N> {
    ghost use Rattle.rounds.specs.Parts.{LoadIs, PushIs};

    // An empty row. No Default, which could not require that the row is no longer than the sums allow.
    fn none() -> Self
        requires { N ≤ 2 * max_tasks }
        ensures { result.n ≡ 0 }
    {
        Parts {
            n: 0,
            of: [Part::NONE; N],
        }
    }

    // So many units of a share as one part more, unless they are none.
    fn push(&mut self, share: &Share, counted: u64)
        requires place { self.old.n < N }
        requires sound { Sound share.now.period share.now.deadline counted }
        ensures { PushIs self.old share.now counted self.new }
    {
        if counted > 0 {
            self.of[self.n] = Part::new(share, counted);
            self.n += 1;
        }
    }

    // The sum of the workloads over t, each held to t: one task cannot run more than t in a window of t.
    fn load(&self, t: u32) -> u64
        requires { t ≤ max_time }
        ensures { LoadIs self.now t result }
    {
        let mut sum = 0;
        for part in &self.of[..self.n] {
            let load = part.uncapped(t);
            sum += u64::from(load.min(t));
        }
        sum
    }
}

// The two rows are filled apart: a share has one part that counts whole and two that are divided.
impl Wholes {
    ghost use Rattle.rounds.specs.Shares.{whole_of};
    ghost use Rattle.rounds.specs.Parts.{PartsAre};

    fn of(s: &Shares) -> Self
        requires { SoundRow s.now }
        ensures { PartsAre s.now s.now.n whole_of result }
    {
        let mut row = Parts::none();
        for share in &s.of[..s.n] {
            row.push(share, share.whole);
        }
        row
    }
}

impl Divided {
    ghost use Rattle.rounds.specs.Shares.{part_of};
    ghost use Rattle.rounds.specs.Parts.{PartsAre};

    fn of(s: &Shares) -> Self
        requires { SoundRow s.now }
        ensures { PartsAre s.now s.now.n part_of result }
    {
        let mut row = Parts::none();
        for share in &s.of[..s.n] {
            row.push(share, share.one);
            row.push(share, share.two);
        }
        row
    }
}

// The lengths from C on, each the demand at the one before, until one repeats or passes D, or the rounds that are allowed are used up. A stride
// moves on past rounds that give no verdict, and counts them: `rounds_alike` of StrideLaws says why that changes nothing.
fn iterate(s: &Shares, deadline: u32, allowance: u32) -> Counted
    requires { SoundShares s.now deadline × (1 ≤ allowance) }
    ensures { result ≡ counted_from (shares_demand s.now) deadline allowance s.now.start }
{
    let wholes = Wholes::of(s);
    let divided = Divided::of(s);
    let mut t = s.start;
    let mut used = 0;
    let mut until_look = strides::BEFORE_FIRST;
    let mut pause = 0;
    // no range or iterator: how far t moves is what the turn finds
    loop {
        let whole = wholes.load(t);
        let part = divided.load(t);
        let f = s.base + whole + part.div_ceil(s.cpus);
        let spent = used + 1;
        if f <= u64::from(t) {
            return Counted {
                verdict: Verdict::Meets(t),
                rounds: spent,
            };
        }
        if u64::from(deadline) < f {
            return Counted {
                verdict: Verdict::Misses,
                rounds: spent,
            };
        }
        if spent == allowance {
            return Counted {
                verdict: Verdict::Open,
                rounds: spent,
            };
        }
        if until_look > 0 {
            t = f as u32;
            used = spent;
            until_look -= 1;
        } else {
            let climb = f as u32 - t;
            let reach = strides::even_reach(&wholes, &divided, s.cpus, t);
            let k = strides::stride(reach, climb, deadline - t, allowance - spent);
            t += k * climb;
            used += k;
            pause = strides::pause_after(k, pause);
            until_look = pause;
        }
    }
}

// Whether a share can be that of a task of an accepted table.
#[tactic(auto, unfolding(crate::specs::Outcome::share_fits))]
fn share_fits(e: &Share) -> bool
    ensures { result ≡ share_fits e.now }
{
    let most = u64::from(e.deadline);
    rules::in_range(e.period, Table::MAX_TIME)
        && e.deadline <= e.period
        && e.whole <= most
        && e.one <= most
        && e.two <= most
}

// Whether C, C + DB, m and n can be those of an accepted table and a task with this deadline.
#[tactic(auto, unfolding(crate::specs::Outcome::head_fits))]
fn head_fits(s: &Shares, deadline: u32) -> bool
    ensures { result ≡ head_fits s.now.start s.now.base s.now.cpus s.now.n deadline }
{
    let start = u64::from(s.start);
    1 <= s.start
        && start <= s.base
        && s.base <= MAX_BASE
        && 1 <= s.cpus
        && s.cpus <= u64::from(Table::MAX_CPUS)
        && s.n <= Table::MAX_TASKS
        && s.start <= deadline
        && deadline <= Table::MAX_TIME
}

// Whether shares can be those of a task of an accepted table, with this deadline.
fn is_sound(s: &Shares, deadline: u32) -> bool
    ensures { result ≡ is_sound s.now deadline }
{
    head_fits(s, deadline) && s.of[..s.n].iter().all(share_fits)
}

// The verdict for the shares of a task and its deadline, and its rounds, so many of them allowed: none where the shares can be those of no accepted table. With no round
// allowed it is open at once.
pub fn outcome_of(s: Shares, deadline: u32, allowance: u32) -> Option<Counted>
    ensures { result ≡ outcome_of s deadline allowance }
{
    if !is_sound(&s, deadline) {
        return None;
    }
    if allowance == 0 {
        return Some(Counted {
            verdict: Verdict::Open,
            rounds: 0,
        });
    }
    Some(iterate(&s, deadline, allowance))
}
