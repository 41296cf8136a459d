// The points of two decoded blocks, as slices of times and values, merged into the fill of the builder. Floor 7: it stands on
// builder.
#![tactic(auto)]

ghost use Rattle.std.specs.Prelude.{◌≡◌, ◌+◌, ◌≤◌, ◌<◌, length};
ghost use Rattle.format.specs.Limits.{writer_block_most};
ghost use Rattle.block_merge.specs.Cells.{NextLaid, Within, RunMoved, BlocksMoved, BlockCopied, Grown};

use format::{Columns, WRITER_BLOCK_MOST};

mod side;

pub use side::Points;

// Which points come next, of the older block and of the newer.
#[derive(Clone, Copy)]
struct Next {
    older: usize,
    newer: usize,
}

// Where a merge stands: the next points of both blocks, and how many points the fill has.
#[derive(Clone, Copy)]
pub struct Merged {
    pub older: usize,
    pub newer: usize,
    pub filled: usize,
}

// Lays the earlier of the points at `i` and `j`, and passes it; of two at one time the newer's, and passes both. It
// branches: points of one side come in runs, and a branch that is foreseen costs less than a chain of selections.
fn lay_next(
    older: Points,
    i: usize,
    newer: Points,
    j: usize,
    fill: &mut Columns<WRITER_BLOCK_MOST>,
    n: usize,
) -> Next
    requires { (i < length older.times.now) × (j < length newer.times.now) × (n < writer_block_most) }
    ensures { NextLaid older.entry i newer.entry j fill.old n result.older result.newer fill.new }
{
    let first = older.times[i];
    let second = newer.times[j];
    if first < second {
        fill.times[n] = first;
        fill.values[n] = older.values[i];
        return Next {
            older: i + 1,
            newer: j,
        };
    }
    fill.times[n] = second;
    if second < first {
        fill.values[n] = newer.values[j];
        return Next {
            older: i,
            newer: j + 1,
        };
    }
    let both = newer.values[j];
    fill.values[n] = both;
    Next {
        older: i + 1,
        newer: j + 1,
    }
}

// Merges `more` points into the fill. Neither block ends before that.
fn merge_run(
    older: Points,
    newer: Points,
    fill: &mut Columns<WRITER_BLOCK_MOST>,
    at: Merged,
    more: usize,
) -> Merged
    requires { Within older at.older more × Within newer at.newer more × (at.filled + more ≤ writer_block_most) }
    ensures { RunMoved older.entry newer.entry at more fill.old result fill.new }
{
    let mut i = at.older;
    let mut j = at.newer;
    let stop = at.filled + more;
    for n in at.filled..stop {
        let next = lay_next(older, i, newer, j, fill, n);
        i = next.older;
        j = next.newer;
    }
    Merged {
        older: i,
        newer: j,
        filled: stop,
    }
}

// Merges points into the fill until a block has none left or the fill is full: run by run, each as long as it can be
// without a look at the ends.
fn merge_blocks(
    older: Points,
    newer: Points,
    fill: &mut Columns<WRITER_BLOCK_MOST>,
    filled: usize,
) -> Merged
    requires { filled ≤ writer_block_most }
    ensures { BlocksMoved older.entry newer.entry filled fill.old result fill.new }
{
    let mut at = Merged {
        older: 0,
        newer: 0,
        filled,
    };
    // No index counts the runs: how long each is shows only where the one before ends.
    loop {
        let left = usize::min(older.times.len() - at.older, newer.times.len() - at.newer);
        let more = usize::min(left, WRITER_BLOCK_MOST - at.filled);
        if more == 0 {
            return at;
        }
        at = merge_run(older, newer, fill, at, more);
    }
}

// Lays values over as many cells, one by one: `copy_from_slice` calls memmove where the compiler cannot tell the slices apart,
// and the archive needs memcpy and memset alone (`tsm.h`).
fn lay<T: Copy>(values: &[T], cells: &mut [T])
    requires { length values.now ≡ length cells.old }
    ensures { cells.new ≡ values.now }
{
    for (i, value) in values.iter().enumerate() {
        cells[i] = *value;
    }
}

// Copies points into the fill, as many as are left and the fill has room for: their number.
fn copy(source: Points, fill: &mut Columns<WRITER_BLOCK_MOST>, filled: usize) -> usize
    requires { filled ≤ writer_block_most }
    ensures { BlockCopied source.entry fill.old filled result fill.new }
{
    let more = usize::min(source.times.len(), WRITER_BLOCK_MOST - filled);
    let end = filled + more;
    lay(&source.times[..more], &mut fill.times[filled..end]);
    lay(&source.values[..more], &mut fill.values[filled..end]);
    more
}

// Merges points of two blocks into the fill, which has `filled`. Where a block has no point left, its side has none left
// at all, and the other's points follow.
pub fn grow(
    older: Points,
    newer: Points,
    fill: &mut Columns<WRITER_BLOCK_MOST>,
    filled: usize,
) -> Merged
    requires { filled ≤ writer_block_most }
    ensures { Grown older.entry newer.entry filled fill.old result fill.new }
{
    if older.times.is_empty() {
        let more = copy(newer, fill, filled);
        return Merged {
            older: 0,
            newer: more,
            filled: filled + more,
        };
    }
    if newer.times.is_empty() {
        let more = copy(older, fill, filled);
        return Merged {
            older: more,
            newer: 0,
            filled: filled + more,
        };
    }
    merge_blocks(older, newer, fill, filled)
}
