// The task table: its types, its limits and its refusals. The rules that it is held to stand in specs/; their code is in `rules` and `checking`.
#![tactic(auto)]

ghost use Rattle.std.specs.Prelude.{◌≡◌};
ghost use Rattle.table.specs.Limits.{max_cpus, max_tasks, max_resources, max_group, max_time, max_count, max_alpha, max_listing};
ghost use Rattle.table.specs.Empty.{empty_table};
ghost use Rattle.table.specs.Faults.{number_of};

// A priority: a task's number, 1 the highest, or a resource's ceiling.
#[derive(Clone, Copy)]
pub struct Level(pub u32);

// A resource's number, from 1.
#[derive(Clone, Copy, Default)]
pub struct Resource(pub u32);

// What one task asks of one resource; all three are 0, the default, where it does not use it.
#[derive(Clone, Copy, Default)]
pub struct Pair {
    pub requests: u32, // N: most requests by one job
    pub longest: u32, // c: longest single request
    pub total: u32, // CT: total of one job
}

#[derive(Clone, Copy, Default)]
pub struct Task {
    pub period: u32, // T: shortest time between releases
    pub run: u32, // C: run time
    pub deadline: u32, // D
    pub alpha: u32, // A: the tuning number of P-PCP, 0 where none is given
    pub pairs: [Pair; Table::MAX_RESOURCES], // resource k at k - 1
}

// A table as it is handed over, whatever its numbers are: the check's contract speaks of every n, alpha and group, so that none of them has a type that rules some out. The
// memory is fixed.
#[derive(Clone, Copy)]
pub struct Table {
    pub cpus: u32, // m
    pub n: usize,
    pub groups: [u32; Table::MAX_RESOURCES], // the group of resource k at k - 1, 0 where it has none
    pub tasks: [Task; Table::MAX_TASKS], // task i at i - 1
}

// The refusals, each with the number that the paper, or a change request, gives it.
#[derive(Clone, Copy)]
pub enum Fault {
    TooLong = 1,
    BadForm = 2,
    BadField = 3,
    OutOfRange = 4,
    BadTimes = 5,
    NotRising = 6,
    BadTotals = 7,
    TooManyTasks = 8,
    NoTask = 9,
    UnknownTask = 10,
    TooShort = 11,
    BadLength = 12,
    BadBlock = 13,
    Mismatch = 14,
    BadCard = 15,
    NoRounds = 16,
    AlphaMissing = 17,
    AlphaRises = 18,
    GroupNotRising = 19,
    HasGroup = 20,
}

// A fault, and where it was found: a line, a task, or a block of an archive.
#[derive(Clone, Copy)]
pub struct Refusal {
    pub fault: Fault,
    pub place: u32,
}

impl Fault {
    // The number of this refusal.
    pub fn number(self) -> u32
        ensures { result ≡ number_of self }
    {
        self as u32
    }
}

impl Table {
    pub const MAX_CPUS: u32 = 64;

    pub const MAX_TASKS: usize = 32;

    pub const MAX_RESOURCES: usize = 16;

    pub const MAX_GROUP: u32 = 16;

    pub const MAX_TIME: u32 = 10_000_000; // µs

    pub const MAX_COUNT: u32 = 1_000;

    pub const MAX_ALPHA: u32 = 64;

    pub const MAX_LISTING: usize = 65_536; // bytes

    // No task, no group, and zeros in every slot. No Default: a table that is refused would be an odd one.
    pub fn empty() -> Self
        ensures { result ≡ empty_table }
    {
        let tasks = [Task::default(); Table::MAX_TASKS];
        Table {
            cpus: 0,
            n: 0,
            groups: [0; Table::MAX_RESOURCES],
            tasks,
        }
    }
}

// The limits that the definitions read, specs/Limits.antt, are these constants.
fn limits()
    ensures cpus { Table.MAX_CPUS ≡ max_cpus }
    ensures tasks { Table.MAX_TASKS ≡ max_tasks }
    ensures resources { Table.MAX_RESOURCES ≡ max_resources }
    ensures group { Table.MAX_GROUP ≡ max_group }
    ensures time { Table.MAX_TIME ≡ max_time }
    ensures count { Table.MAX_COUNT ≡ max_count }
    ensures alpha { Table.MAX_ALPHA ≡ max_alpha }
    ensures listing { Table.MAX_LISTING ≡ max_listing }
{}
