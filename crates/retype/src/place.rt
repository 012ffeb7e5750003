// Where the new capabilities go: the node, and the window of its slots.
ghost use Rattle.std.specs.Prelude.{◌≡◌, true, ◌+◌, ◌*◌, ◌≤◌, length};
ghost use Rattle.model.specs.Edition.{edition32, most_rows};
ghost use Rattle.model.specs.Cap as cap;
ghost use Rattle.model.specs.Tables as tables;
ghost use Rattle.lookup.specs.Finds.{numbered};
ghost use Rattle.lookup.specs.Ready.{Usable};
ghost use Rattle.retype.specs.Window as tests;

use crate::object::sized;
use lookup::SlotTable;
use model::{Cap, Failure, Kind, Place, Refusal, Retyping, Row};
use table::size::slots_of;
use table::{cap_at, row_of};

// What a place names, at depth 0 its root itself.
#[tactic(auto, unfolding(crate::specs::Window::node_by), using(model::proofs::Steps::steps))]
pub fn node(slots: &SlotTable<'_>, p: Place) -> Result<Cap, Refusal>
    requires { cap.is_cnode p.root ≡ true → Usable slots.now.words.now p.root }
    ensures { result ≡ tests.node_by edition32 (tables.cap_of slots.now.words.now) p }
{
    if p.depth == 0 {
        return Ok(p.root);
    }
    let row = slots.find(p)?;
    Ok(cap_at(slots.words, row))
}

// One of the n rows from the first is occupied.
pub fn any_taken(slots: &SlotTable<'_>, first: Row, n: u32) -> bool
    requires { (first.0 + n) * 8 ≤ length slots.now.words.now }
    ensures { result ≡ tests.taken_by (tables.cap_of slots.now.words.now) first.0 n }
{
    (first.0..first.0 + n).any(|k| !cap_at(slots.words, Row(k)).is(Kind::Empty))
}

// The first slot of the window in a node.
#[tactic(auto, unfolding(crate::specs::Window::window_in, model::specs::Cap::first_row), using(model::proofs::Steps::steps))]
pub fn window(n: Cap, q: Retyping) -> Result<Row, Refusal>
    requires { cap.is_cnode n ≡ true → cap.first_row edition32 n + cap.slots n ≤ most_rows }
    ensures { numbered result ≡ tests.window_in edition32 n q }
{
    if !n.is(Kind::CNode) {
        return Err(Refusal::FailedLookup {
            source: false,
            failure: Failure::Missing { bits: q.into.depth },
        });
    }
    let slots = slots_of(n) as u32;
    if slots <= q.offset {
        return Err(Refusal::RangeError {
            least: 0,
            greatest: slots - 1,
        });
    }
    if !(1..=256).contains(&q.window) {
        return Err(Refusal::RangeError {
            least: 1,
            greatest: 256,
        });
    }
    let room = slots - q.offset;
    if room < q.window {
        return Err(Refusal::RangeError {
            least: 1,
            greatest: room,
        });
    }
    Ok(Row(row_of(n.address).0 + q.offset))
}

// The first slot of the window in a node, if all its slots are empty.
#[tactic(auto, unfolding(crate::specs::Window::vacant_in), using(model::proofs::Steps::steps))]
pub fn vacant_window(slots: &SlotTable<'_>, n: Cap, q: Retyping) -> Result<Row, Refusal>
    requires { cap.is_cnode n ≡ true → Usable slots.now.words.now n }
    ensures { numbered result ≡ tests.vacant_in edition32 (tables.cap_of slots.now.words.now) n q }
{
    let first = window(n, q)?;
    if any_taken(slots, first, q.window) {
        return Err(Refusal::DeleteFirst);
    }
    Ok(first)
}

// All tests but that of the memory, and the first slot of the window.
#[tactic(auto, unfolding(crate::specs::Window::first_slot), using(model::proofs::Steps::steps))]
pub fn first_slot(slots: &SlotTable<'_>, q: Retyping) -> Result<Row, Refusal>
    requires { cap.is_cnode q.into.root ≡ true → Usable slots.now.words.now q.into.root }
    ensures { numbered result ≡ tests.first_slot edition32 (tables.cap_of slots.now.words.now) q }
{
    sized(q.object, q.size)?;
    let n = node(slots, q.into)?;
    vacant_window(slots, n, q)
}
