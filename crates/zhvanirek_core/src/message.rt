// A request as it comes: who calls, and the words of the message.
ghost use Rattle.std.specs.Prelude.{◌≡◌, ◌+◌, ◌*◌, ◌≤◌, length, slice_index};
ghost use Rattle.lookup.specs.Finds.{Finds};
ghost use Rattle.model.specs.Request as spec;
ghost use Rattle.model.specs.Tables as tables;
ghost use Rattle.zhvanirek_core.specs.Asking as asking;

use lookup::SlotTable;
use model::{Address, Cap, Kind, Operation, Place, Refusal, Retyping, Row};
use table::cap_at;

// Word i of a slice, 0 past its end.
fn word_at(words: &[u32], i: usize) -> u32
    ensures { result ≡ slice_index words.now i }
{
    words.get(i).copied().unwrap_or(0)
}

// The capability in a row, nothing past the table: a caller may name any row, so each word is tested, which `cap_at` need not do.
#[tactic(auto, unfolding(model::specs::Tables::cap_of))]
fn cap_or_nothing(table: &[u32], row: u32) -> Cap
    ensures { result ≡ tables.cap_of table.now row }
{
    let at = row as usize * 8;
    Cap {
        kind: word_at(table, at),
        address: Address(word_at(table, at + 1)),
        size: word_at(table, at + 2),
        third: word_at(table, at + 3),
        fourth: word_at(table, at + 4),
    }
}

// The operation is of the capability's kind: Retype is Untyped's, the rest CNode's.
fn invokes(c: Cap, operation: Operation) -> bool
    ensures { result ≡ spec.invokes c operation }
{
    match operation {
        Operation::Retype => c.is(Kind::Untyped),
        Operation::Unknown => false,
        _ => c.is(Kind::CNode),
    }
}

// The words of a message up to the operation's last.
fn words_of(operation: Operation) -> usize
    ensures { result ≡ spec.words_of operation }
{
    match operation {
        Operation::Copy => 8,
        Operation::Mint => 9,
        Operation::Move => 7,
        Operation::Mutate => 8,
        Operation::Delete => 4,
        Operation::Revoke => 4,
        Operation::Rotate => 12,
        Operation::Retype => 9,
        Operation::Unknown => 0,
    }
}

// Who calls, and the words that are sent.
#[derive(Clone, Copy)]
pub struct Request<'a> {
    pub caller: u32,
    pub message: &'a [u32],
}

impl Request<'_> {
    // Word i of the message, 0 past its end.
    pub fn word(&self, i: usize) -> u32
        ensures { result ≡ slice_index self.now.message.now i }
    {
        word_at(self.message, i)
    }

    // The operation that is asked for.
    pub fn operation(&self) -> Operation
        ensures { result ≡ spec.operation_of (slice_index self.now.message.now 0) }
    {
        Operation::from(self.word(0))
    }

    // The row that message word `at` names, from the caller's.
    #[tactic(auto, unfolding(crate::specs::Asking::row_named_by))]
    pub fn row_named(&self, slots: &SlotTable<'_>, at: u32) -> Result<Row, Refusal>
        ensures { Finds slots.now.words.now (asking.row_named_by (tables.cap_of slots.now.words.now) self.now.caller self.now.message.now at) result }
    {
        let root = cap_or_nothing(slots.words, self.caller);
        slots.named(root, self.word(at as usize), at)
    }

    // The service that the message asks, once it may be asked.
    #[tactic(auto, unfolding(crate::specs::Asking::asked), using(model::proofs::Steps::steps))]
    pub fn service(&self, slots: &SlotTable<'_>) -> Result<Row, Refusal>
        ensures { Finds slots.now.words.now (asking.asked (tables.cap_of slots.now.words.now) self.now.caller self.now.message.now) result }
    {
        if self.message.len() < 2 {
            return Err(Refusal::TruncatedMessage);
        }
        let row = self.row_named(slots, 1)?;
        let service = cap_at(slots.words, row);
        if service.is(Kind::Empty) {
            return Err(Refusal::InvalidCapability);
        }
        let operation = self.operation();
        if !invokes(service, operation) {
            return Err(Refusal::IllegalOperation);
        }
        if self.message.len() < words_of(operation) {
            return Err(Refusal::TruncatedMessage);
        }
        Ok(row)
    }

    // The index and depth at message word `at`, looked up from the capability in a row.
    #[tactic(auto, unfolding(model::specs::Request::place))]
    pub fn place(&self, table: &[u32], root: Row, at: usize, source: bool) -> Place
        requires in_message { at ≤ 16 }
        requires inside { root.0 * 8 + 8 ≤ length table.now }
        ensures { result ≡ spec.place (tables.cap_of table.now root.0) self.now.message.now at source }
    {
        Place {
            root: cap_at(table, root),
            index: self.word(at),
            depth: self.word(at + 1),
            source,
        }
    }

    // The row that Delete and Revoke begin from, which words 2 and 3 name.
    #[tactic(auto, unfolding(crate::specs::Asking::target))]
    pub fn target(&self, slots: &SlotTable<'_>, service: Row) -> Result<Row, Refusal>
        requires { service.0 * 8 + 8 ≤ length slots.now.words.now }
        ensures { Finds slots.now.words.now (asking.target (tables.cap_of slots.now.words.now) self.now.message.now service.0) result }
    {
        slots.find(self.place(slots.words, service, 2, false))
    }

    // What the message asks of Retype, with its root in a row.
    #[tactic(auto, unfolding(crate::specs::Asking::retyping_by))]
    pub fn retyping(&self, table: &[u32], root: Row) -> Retyping
        requires { root.0 * 8 + 8 ≤ length table.now }
        ensures { result ≡ asking.retyping_by (tables.cap_of table.now) self.now.message.now root.0 }
    {
        Retyping {
            object: self.word(2),
            size: self.word(3),
            into: self.place(table, root, 5, false),
            offset: self.word(7),
            window: self.word(8),
        }
    }
}
