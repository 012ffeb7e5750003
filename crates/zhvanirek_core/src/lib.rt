// The core's face: boot, a request, and the six words of an answer.
#![tactic(auto)]

mod booting; // booting.rt: the tables of a fresh host
mod message; // message.rt: a request as it comes
mod performing; // performing.rt: what each operation is asked and does

ghost use Rattle.std.specs.Prelude.{◌≡◌, ◌∷◌};
ghost use Rattle.model.specs.Edition.{edition32};
ghost use Rattle.model.specs.Request as spec;
ghost use Rattle.model.specs.Tables.{lent};

use crate::booting::Fresh;
use crate::message::Request;
use lookup::SlotTable;
use model::{Answer, Failure, Refusal};
use table::figures::{GREATEST_M, LEAST_M, LEAST_R, Memory};

// Boot takes m and r.
#[tactic(auto, unfolding(model::specs::Request::boot, model::specs::Request::concluded), using(model::proofs::Steps::steps, model::proofs::Words::Bounds::radix_room))]
pub fn boot(table: &mut [u32], control: &mut [u32; 4], m: u32, r: u32) -> Answer
    ensures { record { answer = result; tables = lent table.new control.new } ≡ spec.boot edition32 (lent table.old control.old) m r }
{
    let Some(memory) = Memory::of(m) else {
        return Err(Refusal::RangeError {
            least: LEAST_M,
            greatest: GREATEST_M,
        });
    };
    if !memory.takes_radix(r) {
        return Err(Refusal::RangeError {
            least: LEAST_R,
            greatest: memory.greatest_radix(),
        });
    }
    if !memory.fits(table, control) {
        return Err(Refusal::BadTables);
    }
    Fresh { m, r }.fill(table);
    *control = [m, r, 0, m - r - 3];
    Ok(0)
}

// Any tables and any message get an answer.
pub fn request(table: &mut [u32], control: &mut [u32; 4], caller: u32, message: &[u32]) -> Answer
    ensures { record { answer = result; tables = lent table.new control.new } ≡ spec.request edition32 (lent table.old control.old) caller message.now }
{
    if !rules::check(table, control) {
        return Err(Refusal::BadTables);
    }
    let request = Request { caller, message };
    let service = request.service(&SlotTable { words: table })?;
    performing::perform(table, control, &request, service)
}

// Six words of which the last four are a failure's.
fn with_failure(number: u32, detail: u32, failure: Failure) -> [u32; 6]
    ensures { result ≡ number ∷ detail ∷ spec.of_failure failure }
{
    let [kind, bits, first, second]: [u32; 4] = failure.into();
    [number, detail, kind, bits, first, second]
}

// An answer's six words.
pub fn answer_words(answer: Answer) -> [u32; 6]
    ensures { result ≡ spec.six_words answer }
{
    match answer {
        Ok(count) => [0, count, 0, 0, 0, 0],
        Err(Refusal::InvalidArgument { argument }) => [1, argument, 0, 0, 0, 0],
        Err(Refusal::InvalidCapability) => [2, 0, 0, 0, 0, 0],
        Err(Refusal::IllegalOperation) => [3, 0, 0, 0, 0, 0],
        Err(Refusal::RangeError { least, greatest }) => [4, least, greatest, 0, 0, 0],
        Err(Refusal::FailedLookup { source, failure }) => with_failure(6, source.into(), failure),
        Err(Refusal::TruncatedMessage) => [7, 0, 0, 0, 0, 0],
        Err(Refusal::DeleteFirst) => [8, 0, 0, 0, 0, 0],
        Err(Refusal::RevokeFirst) => [9, 0, 0, 0, 0, 0],
        Err(Refusal::NotEnoughMemory { free }) => [10, free, 0, 0, 0, 0],
        Err(Refusal::CapFault { word, failure }) => with_failure(64, word, failure),
        Err(Refusal::BadTables) => [65, 0, 0, 0, 0, 0],
    }
}
