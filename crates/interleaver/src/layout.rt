// Where the bytes of a block's rows stand.
ghost use Rattle.std.specs.Prelude.{◌≡◌, ◌+◌, ◌*◌, ◌<◌, ◌≤◌, true, length};
ghost use Rattle.gf.specs.Fields.{gf256};
ghost use Rattle.gf.specs.Refusals.{Answers};
ghost use Rattle.codes.specs.Codewords.{code_shape};

use codes::has_shape;
use gf::{Gf256, Refusal};

// How many rows a block has at most.
const MAX_ROWS: usize = 24;

// A block of so many rows, each a word of `Gf256`: byte j of row i is byte i + rows * j of the block.
#[derive(Clone, Copy, PartialEq, Eq, Debug)]
pub struct RowLayout {
    pub(crate) rows: usize,
    // In each row.
    pub(crate) symbols: usize,
    // The last symbols of each row.
    pub(crate) checks: usize,
    ghost some: { (1 ≤ rows) × (rows ≤ 24) },
    ghost shape: { code_shape gf256 symbols checks ≡ true },
}

impl RowLayout {
    ghost use Rattle.interleaver.specs.Rows.{place_of, row_of, layout_complaints};
    ghost use Rattle.interleaver.specs.steps.OneRow.{stored, OnlyRow};
    ghost use Rattle.interleaver.specs.Layouts.{rows_of, symbols_of, checks_of};

    // The layout of a block with 1 to 24 rows; the check code has to have words of so many symbols with so many checks.
    pub fn new(rows: usize, symbols: usize, checks: usize) -> Result<RowLayout, Refusal>
        ensures { Answers (layout_complaints rows symbols checks) (λ l. (rows_of l ≡ rows) × ((symbols_of l ≡ symbols) × (checks_of l ≡ checks))) result }
    {
        if !(1..=MAX_ROWS).contains(&rows) {
            return Err(Refusal::Size);
        }
        if !has_shape::<Gf256>(symbols, checks) {
            return Err(Refusal::Shape);
        }
        Ok(RowLayout {
            rows,
            symbols,
            checks,
        })
    }

    // How many bytes a block has.
    pub fn block_length(&self) -> usize
        ensures { result ≡ rows_of self.now * symbols_of self.now }
    {
        self.rows * self.symbols
    }

    // Where byte `column` of row `row` stands.
    pub(crate) fn place(&self, row: usize, column: usize) -> usize
        requires { (row < self.now.rows) × (column < self.now.symbols) }
        ensures { result ≡ place_of self.now.rows row column }
    {
        row + self.rows * column
    }

    // Reads a row of the block.
    pub(crate) fn gather(&self, row: usize, block: &[u8], word: &mut [Gf256])
        requires { (row < self.now.rows) × ((length block.now ≡ self.now.rows * self.now.symbols) × (length word.old ≡ self.now.symbols)) }
        ensures { stored word.new ≡ row_of self.now.rows self.now.symbols block.now row }
    {
        for (column, symbol) in word.iter_mut().enumerate() {
            *symbol = Gf256(block[self.place(row, column)]);
        }
    }

    // Writes a row of the block, and no other byte.
    pub(crate) fn scatter(&self, row: usize, word: &[Gf256], block: &mut [u8])
        requires { (row < self.now.rows) × ((length block.old ≡ self.now.rows * self.now.symbols) × (length word.now ≡ self.now.symbols)) }
        ensures { OnlyRow self.now.rows self.now.symbols row (stored word.now) block.old block.new }
    {
        for (column, symbol) in word.iter().enumerate() {
            block[self.place(row, column)] = symbol.0;
        }
    }
}
