//! The next action of a thread.

ghost use Rattle.std.specs.Prelude.{◌≡◌, []};
ghost use Rattle.ca_tree.specs.declared.numbers.ItemId.{ItemId};
ghost use Rattle.ca_tree.specs.declared.numbers.SiteId.{SiteId as Site};
ghost use Rattle.ca_model.specs.Asks.{Want, Wants, No_result, Faults, Fails};
ghost use Rattle.ca_model.specs.declared.values.FaultKind.TheVariants as fault;
ghost use Rattle.ca_flow.specs.Instructions.{instr_run};
ghost use Rattle.ca_thread.specs.Asked.{last_or, IsText};
ghost use Rattle.ca_wants.specs.Shown.{Shows};

use crate::frames::{Row, register};
use crate::own::{cells_of, number_in, returned};
use crate::silent::displacement;
use ca_flow::Instr;
use ca_model::FaultKind;
use ca_tree::SiteId;
use ca_wants::Next;

// What a failing assertion shows.
fn failing<'a>(retry: Option<SiteId>) -> Next<'a>
    ensures { (s : Site) → Shows result (Fails s) retry }
{
    match retry {
        Some(site) => Next::Retry(site),
        None => Next::Fault(FaultKind::Assert),
    }
}

/// What an instruction asks for. The bytes are those that a print writes; a return of the last frame is an end.
pub(crate) fn asked<'a>(
    instr: &Instr,
    row: &Row,
    text: &'a [u8],
    retry: Option<SiteId>,
    last: bool,
) -> Next<'a>
    ensures wanted { (i : ItemId) (w : Want) → instr_run instr.now i row.now [] ≡ Wants w → IsText instr.now row.now text.now → Shows result (last_or last w) retry }
    ensures none { (i : ItemId) → instr_run instr.now i row.now [] ≡ No_result → Shows result (Faults fault.Arith) retry }
{
    match instr {
        Instr::Load {
            base,
            index,
            field,
            kind,
            ..
        } => Next::Read {
            at: register(row, *base),
            by: displacement(row, index, *field),
            kind: *kind,
        },
        Instr::Store {
            from,
            base,
            index,
            field,
            ..
        } => Next::Write {
            at: register(row, *base),
            by: displacement(row, index, *field),
            value: register(row, *from),
        },
        Instr::Lock { mutex, .. } => Next::Lock(*mutex),
        Instr::Unlock(mutex) => Next::Unlock(*mutex),
        Instr::Malloc { count, size, .. } => Next::Malloc {
            cells: cells_of(row, *count, *size),
        },
        Instr::Free { from, .. } => Next::Free {
            at: register(row, *from),
        },
        Instr::Print { .. } => Next::Print(text),
        Instr::Create {
            function,
            argument,
            ..
        } => Next::Create {
            function: *function,
            argument: register(row, *argument),
        },
        Instr::Join { thread } => Next::Join(number_in(row, *thread)),
        Instr::Call { function, .. } => Next::Call(*function),
        Instr::Return(from) => {
            if last {
                Next::End
            } else {
                Next::Return(returned(row, *from))
            }
        }
        Instr::Turn => Next::Turn,
        Instr::Save => Next::Save,
        Instr::Assert { .. } => failing(retry),
        Instr::Put { .. } | Instr::Copy { .. } | Instr::Not { .. } | Instr::Branch(_) =>
            Next::Ended,
        Instr::Negate { .. } | Instr::Binary { .. } | Instr::Displace { .. } => {
            Next::Fault(FaultKind::Arith)
        }
    }
}
