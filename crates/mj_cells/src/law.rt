//! What tables are: what they show, and how the code's cells stand for them.

ghost use Rattle.std.specs.Prelude.{◌≡◌, List};
ghost use Rattle.mj_maps.specs.Map.{Map, insert, remove};
ghost use Rattle.mj_cells.specs.declared.cell.CellKey.{CellKey};
ghost use Rattle.mj_cells.specs.declared.cell.CellValue.{CellValue};
ghost use Rattle.mj_cells.specs.declared.cell.CellValue.TheVariants.{Gone};
ghost use Rattle.mj_cells.specs.declared.cell.CellWrite.{CellWrite};
ghost use Rattle.mj_cells.specs.Cell.{key_cmp};
ghost use Rattle.mj_cells.specs.Table.{Table, put_at, overlay, value_of, last_of, table_of};
ghost use Rattle.mj_cells.specs.Next.{LeastAbove};

/// After writes each key shows the last write of it, and else what it showed.
pub fn last_write_stands()
    ensures { (t : Table) (ws : List CellWrite) (k : CellKey) → value_of (overlay t ws) k ≡ last_of k ws (value_of t k) }
{}

/// Tables that show the same at each key are equal.
pub fn table_is_what_it_shows()
    ensures { (a b : Table) → ((k : CellKey) → value_of a k ≡ value_of b k) → a ≡ b }
{}

/// A cell that is written is a write of the table that the cells make, and one that goes is a write of `Gone`.
pub fn cells_make_a_table()
    ensures written { (m : Map key_cmp CellValue) (k : CellKey) (v : CellValue) → table_of (insert m k v) ≡ put_at (table_of m) k v }
    ensures gone { (m : Map key_cmp CellValue) (k : CellKey) → table_of (remove m k) ≡ put_at (table_of m) k Gone }
{}

/// The next cell is one of the cells, its key is above, and no other such key is below it; there is none
/// where no key is above.
pub fn next_cell_is_least()
    ensures { LeastAbove }
{}
