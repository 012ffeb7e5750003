// What each operation is asked: its roots in message order, then what it does.
// Table and control words go as two, as the host lends them: of a struct of two `&mut` each function would owe that both stay the same references.
ghost use Rattle.std.specs.Prelude.{◌≡◌, true, slice_index};
ghost use Rattle.model.specs.Edition.{edition32};
ghost use Rattle.model.specs.Cap as cap;
ghost use Rattle.model.specs.Tables as tables;
ghost use Rattle.model.specs.Tables.{lent};
ghost use Rattle.model.specs.Request as spec;
ghost use Rattle.model.specs.declared.Operation.TheVariants as operations;
ghost use Rattle.zhvanirek_core.specs.Serving as serving;

use crate::message::Request;
use lookup::SlotTable;
use model::{Answer, Change, Operation, Refusal, Row};

// Copy, Mint, Move and Mutate: the source's root, then what is done.
#[tactic(auto, using(lookup::proofs::WellFormed::ready_words))]
fn transferring(
    table: &mut [u32],
    control: &mut [u32; 4],
    request: &Request<'_>,
    service: Row,
    how: Change,
) -> Answer
    requires { serving.Served (lent table.old control.old) service.0 }
    ensures { record { answer = result; tables = lent table.new control.new } ≡ spec.carried_out edition32 (lent table.old control.old) (λ f. serving.two_places (serving.transfer how) f request.now.caller request.now.message.now service.0) }
{
    let root = request.row_named(&SlotTable { words: table }, 4)?;
    let dest = request.place(table, service, 2, false);
    let source = request.place(table, root, 5, true);
    match how {
        Change::Masked { .. } | Change::Minted { .. } => {
            transfer::copy(table, control, dest, source, how)
        }
        Change::Kept | Change::Mutated { .. } => {
            transfer::relocate(table, control, dest, source, how)
        }
    }
}

// Rotate: the pivot's root and the source's, then what is done.
#[tactic(auto, using(lookup::proofs::WellFormed::ready_words))]
fn rotating(
    table: &mut [u32],
    control: &mut [u32; 4],
    request: &Request<'_>,
    service: Row,
) -> Answer
    requires { serving.Served (lent table.old control.old) service.0 }
    ensures { record { answer = result; tables = lent table.new control.new } ≡ spec.carried_out edition32 (lent table.old control.old) (λ f. spec.perform edition32 f request.now.caller request.now.message.now service.0 operations.Rotate) }
{
    let pivot_root = request.row_named(&SlotTable { words: table }, 5)?;
    let source_root = request.row_named(&SlotTable { words: table }, 9)?;
    let dest = request.place(table, service, 2, false);
    let pivot = request.place(table, pivot_root, 6, false);
    let source = request.place(table, source_root, 10, true);
    let datum = request.word(4);
    let pivot_datum = request.word(8);
    transfer::rotate(table, control, dest, pivot, source, datum, pivot_datum)
}

// Retype: its root, then what is done.
#[tactic(auto, using(lookup::proofs::WellFormed::ready_words))]
fn retyping(
    table: &mut [u32],
    control: &mut [u32; 4],
    request: &Request<'_>,
    service: Row,
) -> Answer
    requires served { serving.Served (lent table.old control.old) service.0 }
    requires untyped { cap.is_untyped (tables.cap_of table.old service.0) ≡ true }
    ensures { record { answer = result; tables = lent table.new control.new } ≡ spec.carried_out edition32 (lent table.old control.old) (λ f. spec.perform edition32 f request.now.caller request.now.message.now service.0 operations.Retype) }
{
    let root = request.row_named(&SlotTable { words: table }, 4)?;
    let asked = request.retyping(table, root);
    retype::retype(table, control, service, asked)
}

// The operation that a request asks of its service.
#[tactic(auto, using(lookup::proofs::WellFormed::ready_words))]
pub fn perform(
    table: &mut [u32],
    control: &mut [u32; 4],
    request: &Request<'_>,
    service: Row,
) -> Answer
    requires served { serving.Served (lent table.old control.old) service.0 }
    requires invokes { spec.invokes (tables.cap_of table.old service.0) (spec.operation_of (slice_index request.now.message.now 0)) ≡ true }
    ensures { record { answer = result; tables = lent table.new control.new } ≡ spec.carried_out edition32 (lent table.old control.old) (λ f. spec.perform edition32 f request.now.caller request.now.message.now service.0 (spec.operation_of (slice_index request.now.message.now 0))) }
{
    match request.operation() {
        Operation::Copy => {
            let rights = request.word(7);
            transferring(table, control, request, service, Change::Masked { rights })
        }
        Operation::Mint => {
            let rights = request.word(7);
            let datum = request.word(8);
            transferring(
                table,
                control,
                request,
                service,
                Change::Minted { rights, datum },
            )
        }
        Operation::Move => transferring(table, control, request, service, Change::Kept),
        Operation::Mutate => {
            let datum = request.word(7);
            transferring(table, control, request, service, Change::Mutated { datum })
        }
        Operation::Delete => {
            let row = request.target(&SlotTable { words: table }, service)?;
            Ok(removal::delete(table, control, row))
        }
        Operation::Revoke => {
            let row = request.target(&SlotTable { words: table }, service)?;
            Ok(removal::revoke(table, control, row))
        }
        Operation::Rotate => rotating(table, control, request, service),
        Operation::Retype => retyping(table, control, request, service),
        Operation::Unknown => Err(Refusal::IllegalOperation),
    }
}
