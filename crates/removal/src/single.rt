// A row that goes by itself: which does, and what is left of the tables.
ghost use Rattle.std.specs.Prelude.{◌≡◌, true, ◌<◌, ◌≤◌};
ghost use Rattle.model.specs.Edition.{edition32, most_rows};
ghost use Rattle.model.specs.Tables.{cap_of, lent};
ghost use Rattle.model.specs.Rules.{well_formed};
ghost use Rattle.removal.specs.Marking as marking;
ghost use Rattle.removal.specs.Removing as removing;

use crate::following::row_count;
use model::{Kind, NONE, Row};
use table::caps::same_object;
use table::stores::{put, unlink};
use table::{COUNT, Column, HEAD, cap_at, word};

// A row of the table, another than the given one, names what that one names.
#[tactic(auto, unfolding(crate::specs::Removing::also_names))]
fn also_names(t: &[u32], row: Row, other: u32) -> bool
    requires inside { row.0 < marking.row_count t.now }
    requires few { marking.row_count t.now ≤ most_rows }
    ensures { result ≡ removing.also_names (cap_of t.now) (marking.row_count t.now) row.0 other }
{
    other < row_count(t) && other != row.0 && same_object(cap_at(t, row), cap_at(t, Row(other)))
}

// Another row names the object that a row names. A copy stands beside its source in the list, so the rows beside are asked first.
fn named_elsewhere(t: &[u32], row: Row) -> bool
    requires inside { row.0 < marking.row_count t.now }
    requires few { marking.row_count t.now ≤ most_rows }
    ensures { result ≡ removing.named_elsewhere (cap_of t.now) (marking.row_count t.now) row.0 }
{
    also_names(t, row, word(t, row, Column::Last))
        || also_names(t, row, word(t, row, Column::Next))
        || (0..row_count(t)).any(|other| also_names(t, row, other))
}

// Nothing follows a row that names no CNode, or a CNode that another row names too.
#[tactic(auto, unfolding(crate::specs::Removing::goes_alone))]
pub fn goes_alone(t: &[u32], row: Row) -> bool
    requires inside { row.0 < marking.row_count t.now }
    requires few { marking.row_count t.now ≤ most_rows }
    ensures { result ≡ removing.goes_alone (cap_of t.now) (marking.row_count t.now) row.0 }
{
    !cap_at(t, row).is(Kind::CNode) || named_elsewhere(t, row)
}

// What is below a row goes one up: the rows after it that are deeper.
// The walk is not shared with mark_descendants, which only reads the table: this one writes the table that it walks.
#[tactic(auto, using(crate::proofs::Descent::row_in))]
fn raise_descendants(t: &mut [u32], control: &[u32; 4], row: Row)
    requires formed { well_formed edition32 (lent t.old control.now) ≡ true }
    requires occupied { removing.occupied (lent t.old control.now) row.0 ≡ true }
    ensures { removing.Raises (lent t.old control.now) row.0 t.new }
{
    let [_, _, _, count] = *control;
    let depth = word(t, row, Column::Depth);
    let mut next = word(t, row, Column::Next);
    for _ in 0..count {
        if next == NONE {
            return;
        }
        let deep = word(t, Row(next), Column::Depth);
        if deep <= depth {
            return;
        }
        let after = word(t, Row(next), Column::Next);
        put(t, Row(next), Column::Depth, deep - 1);
        next = after;
    }
}

// One row goes, and what was below it hangs from its nearest ancestor.
#[tactic(auto, using(crate::proofs::Descent::row_in))]
pub fn cut(t: &mut [u32], control: &mut [u32; 4], row: Row)
    requires formed { well_formed edition32 (lent t.old control.old) ≡ true }
    requires occupied { removing.occupied (lent t.old control.old) row.0 ≡ true }
    ensures { lent t.new control.new ≡ removing.without_row (lent t.old control.old) row.0 }
{
    let last = word(t, row, Column::Last);
    let next = word(t, row, Column::Next);
    let [_, _, head, count] = *control;
    raise_descendants(t, control, row);
    unlink(t, row, last, next);
    control[HEAD] = if last == NONE { next } else { head };
    control[COUNT] = count - 1;
}
