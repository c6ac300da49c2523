// The blocks left in the order of their numbers: as a table, and at the start of an output.
use crate::left::Card;
use block::SIZE;
use table::{Refusal, Table};

impl Card<'_> {
    ghost use Rattle.std.specs.Prelude.{◌≡◌, ◌++◌, ◌*◌, ◌≤◌, ◌<◌, length, drop};
    ghost use Rattle.block.specs.Block.{block_size};
    ghost use Rattle.card.specs.Archive.{block_at, table_in};
    ghost use Rattle.salvaging.specs.Salvage.{left_in, left_fault, place_of, Placed, in_order};
    ghost use Rattle.table.specs.Answers.{or_wrote};

    // Where the block left with a number is; how many blocks there are if there is none.
    fn place_of(&self, number: u32) -> usize
        ensures { result ≡ place_of self.now.input.now self.now.codes.now number }
    {
        (0..self.codes.len())
            .find(|i| self.has_number(number, *i))
            .unwrap_or(self.codes.len())
    }

    // That block.
    fn numbered(&self, number: u32) -> &[u8]
        requires { place_of self.now.input.now self.now.codes.now number < length self.now.codes.now }
        ensures { result.now ≡ block_at self.now.input.now (place_of self.now.input.now self.now.codes.now number) }
    {
        self.block(self.place_of(number))
    }

    // The table of the first n, with as many of their tasks as it holds.
    pub(crate) fn table(&self, n: usize) -> Table
        requires { (1 ≤ n) × (n ≤ length self.now.codes.now) × Placed self.now.input.now self.now.codes.now n }
        ensures { result ≡ table_in (in_order self.now.input.now self.now.codes.now n) }
    {
        let mut t = Table {
            cpus: block::head_of(self.numbered(1)).cpus,
            n,
            ..Table::empty()
        };
        for p in 0..n.min(Table::MAX_TASKS) {
            t.tasks[p] = block::task_of(self.numbered(p as u32 + 1));
        }
        t
    }

    // The first n, at the start of out.
    pub(crate) fn put_in_order(&self, out: &mut [u8], n: usize)
        requires { (n ≤ length self.now.codes.now) × (block_size * n ≤ length out.old) × Placed self.now.input.now self.now.codes.now n }
        ensures { out.new ≡ in_order self.now.input.now self.now.codes.now n ++ drop (block_size * n) out.old }
    {
        // by an index: of parts that `chunks_exact_mut` lends, a proof learns nothing of the whole
        for p in 0..n {
            out[SIZE * p..SIZE * p + SIZE].copy_from_slice(self.numbered(p as u32 + 1));
        }
    }

    // What is said against the blocks left, 14 and then the table's own; or how many they are.
    #[tactic(auto, unfolding(crate::specs::Salvage::left_fault))]
    pub(crate) fn find(&self) -> Result<usize, Refusal>
        ensures { result ≡ or_wrote (left_fault self.now.input.now self.now.codes.now) (left_in self.now.codes.now) }
    {
        self.check_complete()?;
        let n = self.left();
        checking::check(self.table(n))?;
        Ok(n)
    }
}
