// The memory of an Untyped: the byte from which it is used, and whether it is enough.
ghost use Rattle.std.specs.Prelude.{◌≡◌, cond, ◌+◌, ◌*◌, ◌≤◌, length};
ghost use Rattle.model.specs.Edition.{edition32};
ghost use Rattle.table.specs.Children.{deeper_next};
ghost use Rattle.retype.specs.Allotting.{memory_for, Bounded};

use crate::object::align_up;
use model::{Cap, Refusal, Retyping, Row, exponent};
use table::has_children;
use table::size::bytes_of;

// The byte from which an Untyped is used: its watermark, or 0 where it has no children.
pub fn start(t: &[u32], row: Row, u: Cap) -> u32
    requires { row.0 * 8 + 8 ≤ length t.now }
    ensures { result ≡ cond (deeper_next t.now row.0) u.third 0 }
{
    if has_children(t, row) { u.third } else { 0 }
}

// The byte at which the window's objects begin, if the bytes of an Untyped from `from` on are enough.
#[tactic(auto, unfolding(crate::specs::Allotting::memory_for), using(crate::proofs::Sizes::exponent_small, crate::proofs::Bytes::bytes_small, model::proofs::Steps::steps))]
pub fn memory_for(u: Cap, from: u32, q: Retyping) -> Result<u32, Refusal>
    requires { Bounded u from q }
    ensures { result ≡ memory_for edition32 u from q }
{
    let e = exponent(q.object, q.size) as u32;
    let free = bytes_of(u) - u64::from(from);
    if free >> e < u64::from(q.window) {
        return Err(Refusal::NotEnoughMemory { free: free as u32 });
    }
    Ok(align_up(from, e) as u32)
}
