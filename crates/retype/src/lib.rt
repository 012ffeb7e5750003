// Retype on checked tables.
// Table and control words go as two, as the host lends them: of a struct of two `&mut` each function would owe that both stay the same references.
#![tactic(auto)]

pub mod object; // object.rt: sizes and capabilities of new objects
pub mod place; // place.rt: the node and the window of its slots
pub mod memory; // memory.rt: the memory of an Untyped
pub mod laying; // laying.rt: the stores

ghost use Rattle.std.specs.Prelude.{◌≡◌};
ghost use Rattle.model.specs.Edition.{edition32};
ghost use Rattle.model.specs.Operations as spec;
ghost use Rattle.model.specs.Request.{carried_out};
ghost use Rattle.model.specs.Tables.{lent};
ghost use Rattle.retype.specs.Allotting.{Retypable, Vacant, allotting};

use laying::lay_out;
use lookup::SlotTable;
use memory::{memory_for, start};
use model::{Answer, Retyping, Row};
use place::first_slot;
use table::cap_at;

// The memory of the Untyped in a row for the window of empty slots from the first on.
pub fn allot(t: &mut [u32], control: &mut [u32; 4], row: Row, q: Retyping, first: Row) -> Answer
    requires { Vacant (lent t.old control.old) row.0 q first.0 }
    ensures { record { answer = result; tables = lent t.new control.new } ≡ carried_out edition32 (lent t.old control.old) (allotting row.0 first.0 q) }
{
    let u = cap_at(t, row);
    let from = start(t, row, u);
    let at = memory_for(u, from, q)?;
    lay_out(t, control, row, q, first, at);
    Ok(q.window)
}

// Retype, of the Untyped in a row.
#[tactic(auto, using(lookup::proofs::WellFormed::ready_words))]
pub fn retype(t: &mut [u32], control: &mut [u32; 4], row: Row, q: Retyping) -> Answer
    requires { Retypable (lent t.old control.old) row.0 q }
    ensures { record { answer = result; tables = lent t.new control.new } ≡ carried_out edition32 (lent t.old control.old) (λ f. spec.retype edition32 f row.0 q) }
{
    let slots = SlotTable { words: t };
    let first = first_slot(&slots, q)?;
    allot(t, control, row, q, first)
}
