// The stores that make a window's objects.
ghost use Rattle.std.specs.Prelude.{◌≡◌};
ghost use Rattle.model.specs.Stores.{linked_run};
ghost use Rattle.model.specs.Tables.{lent};
ghost use Rattle.retype.specs.Laid.{new_rows, Room, laid_out, Layable};

use crate::object::new_cap;
use model::{Address, Retyping, Row, exponent};
use table::size::pow2;
use table::stores::{link, put};
use table::{COUNT, Column, word};

// The window's new capabilities, in rows from `first`, for objects in a row from `address`, listed after one row and before `next`.
#[tactic(auto, using(crate::proofs::Sizes::exponent_small))]
pub fn link_new(
    t: &mut [u32],
    after: Row,
    next: u32,
    depth: u32,
    q: Retyping,
    first: Row,
    address: Address,
)
    requires { Room t.old after.0 q first.0 address.0 }
    ensures { t.new ≡ linked_run t.old after.0 next (new_rows q depth first.0 address.0 q.window) }
{
    let unit = pow2(exponent(q.object, q.size) as u32);
    let mut last = after.0;
    let mut at = u64::from(address.0);
    for k in first.0..first.0 + q.window {
        let c = new_cap(q.object, q.size, Address(at as u32));
        link(t, last, next, Row(k), c, depth);
        last = k;
        at += unit;
    }
}

// The window's objects made from byte `at` of the Untyped in a row: its watermark at their end, their capabilities straight after it.
#[tactic(auto, using(crate::proofs::Sizes::exponent_small))]
pub fn lay_out(t: &mut [u32], control: &mut [u32; 4], row: Row, q: Retyping, first: Row, at: u32)
    requires { Layable (lent t.old control.old) row.0 first.0 at q }
    ensures { lent t.new control.new ≡ laid_out (lent t.old control.old) row.0 first.0 at q }
{
    let base = word(t, row, Column::Address) + at;
    let next = word(t, row, Column::Next);
    let depth = word(t, row, Column::Depth) + 1;
    let e = exponent(q.object, q.size) as u32;
    let end = u64::from(at) + (u64::from(q.window) << e);
    put(t, row, Column::Third, end as u32);
    link_new(t, row, next, depth, q, first, Address(base));
    control[COUNT] += q.window;
}
