// Delete and Revoke on tables that are well-formed.
// Table and control words go as two, as the host lends them: of a struct of two `&mut` each function would owe that both stay the same references.
#![tactic(auto)]

pub mod following; // following.rt: which rows go
pub mod single; // single.rt: a row that goes by itself
pub mod survivors; // survivors.rt: the rows that stay

ghost use Rattle.std.specs.Prelude.{◌≡◌, true, ◌+◌, ◌*◌, ◌≤◌, length};
ghost use Rattle.model.specs.Edition.{edition32};
ghost use Rattle.model.specs.Tables.{lent};
ghost use Rattle.model.specs.Rules.{well_formed};
ghost use Rattle.removal.specs.Marking as marking;
ghost use Rattle.removal.specs.Removing as removing;

use following::Marking;
use model::{Kind, Row};
use single::{cut, goes_alone};
use survivors::thin;
use table::cap_at;

// The marked rows go, with all that follows; how many went.
#[tactic(auto, using(crate::proofs::Removed::sweeps))]
fn sweep(t: &mut [u32], control: &mut [u32; 4], going: &mut Marking) -> u32
    requires formed { well_formed edition32 (lent t.old control.old) ≡ true }
    requires counted { marking.Counted t.old going.old }
    requires waiting { marking.Waiting t.old going.old 0 }
    ensures { removing.Sweeps going.old.mark (lent t.old control.old) (lent t.new control.new) result }
{
    going.spread(t);
    thin(t, control, &going.mark)
}

// A row goes, with all that follows; how many went.
pub fn delete(t: &mut [u32], control: &mut [u32; 4], row: Row) -> u32
    requires formed { well_formed edition32 (lent t.old control.old) ≡ true }
    requires inside { row.0 * 8 + 8 ≤ length t.old }
    ensures { removing.Removes (lent t.old control.old) (lent t.new control.new) (removing.target (lent t.old control.old) row.0) result }
{
    if cap_at(t, row).is(Kind::Empty) {
        return 0;
    }
    if goes_alone(t, row) {
        cut(t, control, row);
        return 1;
    }
    let mut going = Marking::of(t);
    going.mark_row(t, row);
    sweep(t, control, &mut going)
}

// All descendants of a row go, with all that follows; how many went.
pub fn revoke(t: &mut [u32], control: &mut [u32; 4], row: Row) -> u32
    requires formed { well_formed edition32 (lent t.old control.old) ≡ true }
    requires inside { row.0 * 8 + 8 ≤ length t.old }
    ensures { removing.Removes (lent t.old control.old) (lent t.new control.new) (removing.offspring (lent t.old control.old) row.0) result }
{
    let mut going = Marking::of(t);
    going.mark_descendants(t, control, row);
    sweep(t, control, &mut going)
}
