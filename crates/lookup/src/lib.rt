// The lookup of a capability address in a lent slot table.
#![tactic(auto)]

ghost use Rattle.std.specs.Prelude.{◌≡◌, true, ◌+◌, ◌*◌, ◌≤◌, length, Err};
ghost use Rattle.model.specs.Edition.{edition32};
ghost use Rattle.model.specs.Cap.{is_cnode};
ghost use Rattle.model.specs.Tables as tables;
ghost use Rattle.model.specs.Lookup as spec;
ghost use Rattle.model.specs.Operations.{slot_of};
ghost use Rattle.model.specs.Request.{or_fault};
ghost use Rattle.lookup.specs.Finds.{Finds};
ghost use Rattle.lookup.specs.Ready.{Ready, Usable};

use model::{Cap, Failure, Kind, Miss, Place, Refusal, Row};
use table::size::pow2;
use table::{cap_at, row_of};

// Of the low `left` bits of an address, the top `n`.
pub fn field(address: u32, left: u32, n: u32) -> u32
    requires { (n ≤ left) × (left ≤ 32) }
    ensures { result ≡ spec.field address left n }
{
    let low = u64::from(address) >> (left - n);
    let mask = pow2(n) - 1;
    (low & mask) as u32
}

// With `left` bits left, a CNode's guard is longer than they are or differs from the next of them.
#[tactic(auto, unfolding(model::specs::Lookup::guard_missed))]
fn guard_missed(node: Cap, address: u32, left: u32) -> bool
    requires { left ≤ 32 }
    ensures { result ≡ spec.guard_missed node address left }
{
    left < node.fourth || field(address, left, node.fourth) != node.third
}

// What a request is told where a place is missed.
#[tactic(auto, unfolding(model::specs::Operations::slot_of))]
fn missed_place(source: bool, miss: Miss) -> Refusal
    ensures { slot_of edition32 source (Err miss) ≡ Err result }
{
    match miss {
        Miss::Failed(failure) => Refusal::FailedLookup { source, failure },
        Miss::DepthOutOfRange => Refusal::RangeError {
            least: 1,
            greatest: 32,
        },
    }
}

// What a request is told where the address in message word `at` is missed.
#[tactic(auto, unfolding(model::specs::Request::or_fault))]
fn missed_word(at: u32, miss: Miss) -> Refusal
    ensures { or_fault at (Err miss) ≡ Err result }
{
    let failure = match miss {
        Miss::Failed(failure) => failure,
        Miss::DepthOutOfRange => Failure::InvalidRoot,
    };
    Refusal::CapFault { word: at, failure }
}

// The slot table, of which every CNode can be walked through.
#[derive(Clone, Copy)]
pub struct SlotTable<'a> {
    pub words: &'a [u32],
    ghost ready: { Ready words.now },
}

impl SlotTable<'_> {
    // The slot that an address names, from a root. Only the low `depth` bits of the address count.
    pub fn lookup(&self, root: Cap, address: u32, depth: u32) -> Result<Row, Miss>
        requires { is_cnode root ≡ true → Usable self.now.words.now root }
        ensures { result ≡ spec.lookup edition32 (tables.cap_of self.now.words.now) root address depth }
    {
        if !root.is(Kind::CNode) {
            return Err(Miss::Failed(Failure::InvalidRoot));
        }
        if depth < 1 || 32 < depth {
            return Err(Miss::DepthOutOfRange);
        }
        let mut node = root;
        let mut left = depth;
        // no count of turns: each takes as many bits as its CNode has
        loop {
            let missed = guard_missed(node, address, left);
            let taken = node.fourth + node.size;
            if missed {
                return Err(Miss::Failed(Failure::GuardMismatch {
                    bits: left,
                    guard: node.third,
                    size: node.fourth,
                }));
            }
            if left < taken {
                return Err(Miss::Failed(Failure::DepthMismatch {
                    bits: left,
                    resolved: taken,
                }));
            }
            let first = row_of(node.address);
            let unguarded = left - node.fourth;
            let row = first.0 + field(address, unguarded, node.size);
            let slot = Row(row);
            if left == taken {
                return Ok(slot);
            }
            let rest = left - taken;
            let next = cap_at(self.words, slot);
            if !next.is(Kind::CNode) {
                return Err(Miss::Failed(Failure::DepthMismatch {
                    bits: rest,
                    resolved: 0,
                }));
            }
            node = next;
            left = rest;
        }
    }

    // The row that a place names.
    pub fn find(&self, p: Place) -> Result<Row, Refusal>
        requires { is_cnode p.root ≡ true → Usable self.now.words.now p.root }
        ensures { Finds self.now.words.now (slot_of edition32 p.source (spec.lookup edition32 (tables.cap_of self.now.words.now) p.root p.index p.depth)) result }
    {
        self.lookup(p.root, p.index, p.depth)
            .map_err(|miss| missed_place(p.source, miss))
    }

    // The row that the address in message word `at` names, from a root and at full depth.
    pub fn named(&self, root: Cap, address: u32, at: u32) -> Result<Row, Refusal>
        requires { is_cnode root ≡ true → Usable self.now.words.now root }
        ensures { Finds self.now.words.now (or_fault at (spec.lookup edition32 (tables.cap_of self.now.words.now) root address 32)) result }
    {
        self.lookup(root, address, 32)
            .map_err(|miss| missed_word(at, miss))
    }
}
