// docs/SPECIFICATION.md, "Joins and splits": the joins and splits of every post of a plot. At each post they are its multiplicity together, so that joins are
// told by splits and by the pattern.
#![tactic(auto)]

ghost use Rattle.std.specs.Prelude.{◌≡◌, ℕ, ◌-◌, ◌≤◌, ◌<◌, length, get_or};
ghost use Rattle.surface.specs.Lists.{list_of};
ghost use Rattle.surface.specs.Marks.{multiplicity};
ghost use Rattle.surface.specs.Patterns.{change_table, mark_in};
ghost use Rattle.surface.specs.Refusals.{joins_verdict};
ghost use Rattle.surface.specs.Refused.{outcome, IsGridOf};
ghost use Rattle.surface.specs.Calls.{plot_by, joins_answer, joins_list, splits_list};

use changes::change_table;
use limits::{check_heights, plot_grid};
use patterns::pattern_plot;
use splits::fill_splits;
use surface::{Grid, Refusal};

// Rows 13, 14 and 1 to 4 of the table: the grid of what passes.
fn joins_grid(
    sheet: &[u8],
    rows: u32,
    columns: u32,
    heights: &[i32],
    joins: &[u8],
    splits: &[u8],
) -> Result<Grid, Refusal>
    ensures value { outcome result ≡ joins_verdict (plot_by sheet.now rows columns heights.now) joins.now splits.now }
    ensures grid { IsGridOf (plot_by sheet.now rows columns heights.now) result }
{
    let grid = plot_grid(sheet, rows, columns, heights)?;
    let posts = heights.len();
    if (joins.len() != posts) | (splits.len() != posts) {
        return Err(Refusal::BadListLength);
    }
    check_heights(heights)?;
    Ok(grid)
}

// The joins of a post by its pattern and its splits: half as many runs start as there are changes, and a saddle's multiplicity is one less. No branch, since
// no processor can predict marks.
fn joins_from(table: &[u8], pattern: u8, splits: u8) -> u8
    requires { (table.now ≡ change_table) × (splits ≤ multiplicity (mark_in pattern)) }
    ensures { result ≡ multiplicity (mark_in pattern) - splits }
{
    let runs = table[pattern as usize] / 2;
    runs - (0 < runs) as u8 - splits
}

// Makes the joins of the patterns, in their place.
fn fill_joins(splits: &[u8], joins: &mut [u8])
    requires { (length splits.now ≡ length joins.old) × ((p : ℕ) → p < length joins.old → get_or splits.now p 0 ≤ multiplicity (mark_in (get_or joins.old p 0))) }
    ensures { joins.new ≡ list_of (λ p. multiplicity (mark_in (get_or joins.old p 0)) - get_or splits.now p 0) (length joins.old) }
{
    let table = change_table();
    for p in 0..joins.len() {
        joins[p] = joins_from(&table, joins[p], splits[p]);
    }
}

// Fills the lists with the joins and the splits of every post. Refused: the lists stay as they were.
pub fn joins_and_splits(
    sheet: &[u8],
    rows: u32,
    columns: u32,
    heights: &[i32],
    joins: &mut [u8],
    splits: &mut [u8],
) -> Result<(), Refusal>
    ensures value { outcome result ≡ joins_answer (plot_by sheet.now rows columns heights.now) joins.old splits.old }
    ensures joins_after { joins.new ≡ joins_list (plot_by sheet.now rows columns heights.now) joins.old splits.old }
    ensures splits_after { splits.new ≡ splits_list (plot_by sheet.now rows columns heights.now) joins.old splits.old }
{
    let grid = joins_grid(sheet, rows, columns, heights, joins, splits)?;
    pattern_plot(heights, grid, joins);
    fill_splits(heights, grid, joins, splits);
    fill_joins(splits, joins);
    Ok(())
}
