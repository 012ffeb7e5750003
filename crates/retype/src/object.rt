// The objects that Retype makes: their sizes, and the capabilities that name them.
ghost use Rattle.std.specs.Prelude.{◌≡◌, ◌+◌, ◌≤◌};
ghost use Rattle.model.specs.Edition.{edition32};
ghost use Rattle.model.specs.Operations as spec;
ghost use Rattle.retype.specs.Window as tests;

use model::{Address, Cap, Kind, Refusal, exponent};
use table::caps::rights_of;
use table::size::pow2;

// n rounded up to a multiple of 2^e.
#[tactic(auto, using(crate::proofs::Alignment::cut))]
pub fn align_up(n: u32, e: u32) -> u64
    requires { e ≤ 34 }
    ensures { result ≡ spec.align_up n e }
{
    let above = u64::from(n) + (pow2(e) - 1);
    above >> e << e
}

// A size that no object of the type takes: a CNode's 0, an Untyped's below 4.
#[tactic(auto, unfolding(model::specs::Operations::size_barred, model::specs::Kinds::of_object))]
pub fn size_barred(object: u32, size: u32) -> bool
    ensures { result ≡ spec.size_barred edition32 object size }
{
    match Kind::of_object(object) {
        Some(Kind::Untyped) => matches!(size, 0..=3),
        Some(Kind::CNode) => size == 0,
        _ => false,
    }
}

// A new object's capability: full rights, badge 0, guard size 0, watermark 0.
#[tactic(auto, unfolding(model::specs::Operations::new_cap, model::specs::Kinds::of_object), using(crate::proofs::Sizes::exponent_small))]
pub fn new_cap(object: u32, size: u32, address: Address) -> Cap
    requires { tests.Known object size }
    ensures { result ≡ spec.new_cap edition32 object size address.0 }
{
    let kind = 1 + object;
    let shown = match Kind::of_object(object) {
        Some(Kind::CNode) => size,
        _ => exponent(object, size) as u32,
    };
    Cap {
        kind,
        address,
        size: shown,
        third: 0,
        fourth: rights_of(kind),
    }
}

// The tests of the object type and size.
#[tactic(auto, unfolding(crate::specs::Window::sized, model::specs::Kinds::of_object), using(model::proofs::Steps::steps))]
pub fn sized(object: u32, size: u32) -> Result<(), Refusal>
    ensures { result ≡ tests.sized edition32 object size }
{
    if Kind::of_object(object).is_none() {
        return Err(Refusal::InvalidArgument { argument: 0 });
    }
    if 30 < size {
        return Err(Refusal::RangeError {
            least: 0,
            greatest: 30,
        });
    }
    if size_barred(object, size) {
        return Err(Refusal::InvalidArgument { argument: 1 });
    }
    Ok(())
}
