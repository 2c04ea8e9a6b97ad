// The sums of a block without a table of weights (02, No. 6): bytes 4 to 507 stand in 21 rows of 24 bytes and are added up by
// columns, eight at a time, in numbers of 16 bits. A byte weighs 24 for each row below its own, and 24 less its column.
ghost use Rattle.std.specs.Prelude.{◌≡◌, ◌+◌, ◌*◌, ◌≤◌, ◌<◌, length};
ghost use Rattle.blocks.specs.Limits.{block_size};
ghost use Rattle.blocks.specs.Block.{byte_at};
ghost use Rattle.blocks.specs.Check.{weight_of};
ghost use Rattle.blocks.specs.Columns.{sum_of, FirstOf, column_sum, column_below, column_weighted};

#[derive(Clone, Copy)]
pub struct ColumnSums {
    // The sum of its bytes.
    pub sum: u16,
    // The sum in which a byte counts once for each row below it.
    pub below: u16,
}

// Eight columns side by side: eight numbers of 16 bits fill a register, so that the compiler adds up all of them at once.
#[derive(Clone, Copy)]
pub struct EightColumns {
    pub sums: [u16; 8],
    pub below: [u16; 8],
}

// The sum of some bytes and their weighted sum, neither reduced.
#[derive(Clone, Copy)]
pub struct Sums {
    pub a: u32,
    pub b: u32,
}

// Column k. Both sums fit in 16 bits: of 21 bytes `below` is at most 53,550.
pub fn column(block: &[u8], k: usize) -> ColumnSums
    requires { (length block.now ≡ block_size) × (k < 24) }
    ensures sum { result.sum ≡ column_sum block.now k }
    ensures below { result.below ≡ column_below block.now k }
{
    let mut sum = 0;
    let mut below = 0;
    for row in 0..21 {
        below += sum;
        sum += u16::from(block[4 + 24 * row + k]);
    }
    ColumnSums { sum, below }
}

// The eight columns from `from` on.
pub fn eight_columns(block: &[u8], from: usize) -> EightColumns
    requires { (length block.now ≡ block_size) × (from ≤ 16) }
    ensures sums { FirstOf 8 (λ k. column_sum block.now (from + k)) result.sums }
    ensures below { FirstOf 8 (λ k. column_below block.now (from + k)) result.below }
{
    let mut sums = [0u16; 8];
    let mut below = [0u16; 8];
    for k in 0..8 {
        let one = column(block, from + k);
        sums[k] = one.sum;
        below[k] = one.below;
    }
    EightColumns { sums, below }
}

// The sums of the eight columns from `from` on: each is weighed as if they were the last eight, and all of them
// by the columns behind them at the end.
pub fn eight_sums(block: &[u8], from: usize) -> Sums
    requires { (length block.now ≡ block_size) × (from ≤ 16) }
    ensures a { result.a ≡ sum_of (λ k. column_sum block.now (from + k)) 8 }
    ensures b { result.b ≡ sum_of (λ k. column_weighted block.now (from + k)) 8 }
    ensures small { (result.a ≤ 524280) × (result.b ≤ 25165440) }
{
    let columns = eight_columns(block, from);
    let mut a = 0;
    let mut b = 0;
    for k in 0..8 {
        let sum = u32::from(columns.sums[k]);
        a += sum;
        b += 24 * u32::from(columns.below[k]) + (8 - k) as u32 * sum;
    }
    Sums {
        a,
        b: b + (16 - from) as u32 * a,
    }
}

// The sums of bytes 0 to 3.
pub fn header_sums(block: &[u8]) -> Sums
    requires { length block.now ≡ block_size }
    ensures a { result.a ≡ sum_of (λ i. byte_at block.now i) 4 }
    ensures b { result.b ≡ sum_of (λ i. weight_of i * byte_at block.now i) 4 }
    ensures small { (result.a ≤ 1020) × (result.b ≤ 516630) }
{
    let kind = u32::from(block[0]);
    let first = u32::from(block[1]);
    let second = u32::from(block[2]);
    let zero = u32::from(block[3]);
    Sums {
        a: kind + first + second + zero,
        b: 508 * kind + 507 * first + 506 * second + 505 * zero,
    }
}
