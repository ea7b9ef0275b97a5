// The loops of a face, which stand one behind the other in a table.
ghost use Rattle.std.specs.Prelude.{◌≡◌, [], get_or};
ghost use Rattle.std.specs.Iterator.{YieldsFirstBy, item_count};
ghost use Rattle.tables.specs.Rows.{rows};
ghost use Rattle.tables.specs.Loops.{loops_by, loops_in};

use super::corners::Corner;
use super::table_row::TableRow;

// A count for each loop; where they run past the end of the table, a loop is what is left. As an
// iterator it gives its loops, one after the other; a loop that it gave keeps the table lent, and not the
// counts.
#[derive(Clone, Copy)]
pub struct Loops<'a, 'c, R: TableRow = Corner> {
    pub corners: &'a [R],
    pub counts: &'c [usize],
}

// Loop k; past the last one, nothing, and without a walk over the loops.
pub fn loop_of<'a>(loops: Loops<'a, '_>, k: usize) -> &'a [Corner]
    ensures { rows result.now ≡ get_or (loops_in loops.entry) k [] }
{
    if loops.counts.len() <= k {
        return &[];
    }
    for (i, one) in loops.enumerate() {
        if i == k {
            return one;
        }
    }
    &[]
}

impl<'a, 'c, R: TableRow> Iterator for Loops<'a, 'c, R> {
    type Item = &'a [R];

    ghost next_gives = { YieldsFirstBy (λ one. R.rows_of one.now) (loops_by R.rows_of) };

    ghost remaining = { item_count (loops_by R.rows_of) };

    fn next(&mut self) -> Option<&'a [R]> {
        let (count, counts) = self.counts.split_first()?;
        let (one, corners) = self.corners.split_at((*count).min(self.corners.len()));
        self.corners = corners;
        self.counts = counts;
        Some(one)
    }
}
