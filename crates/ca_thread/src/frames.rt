//! Running frames.

ghost use Rattle.std.specs.Prelude.{◌≡◌, ◌<◌, IfOk};
ghost use Rattle.ca_flow.specs.Instructions.{reg, put};

use ca_flow::{NodeId, Reg};
use ca_model::Value;
use ca_tree::{FunId, NoMemory};
use std::alloc::Global;
use std::marker::Model;

/// The registers of a frame. Contracts see the list of their values.
#[derive(Debug, Drop)]
pub(crate) struct Row {
    values: Vec<Value>,
}

impl Model for Row {
    ghost use Rattle.std.specs.Prelude.{List};
    ghost use Rattle.std.specs.Coded.{codes, coded_list};
    ghost use Rattle.ca_model.specs.declared.values.Value as value;
    ghost use Rattle.ca_model.specs.contracts.values.Value as value_contract;

    ghost Value = { List value.Value };

    ghost coded = { coded_list (Prim.hlevel (codes, value_contract.the_row.coded)) };

    ghost view = { λ r. r.values.items };
}

/// A function in progress: the node where it stands, and its registers.
#[derive(Debug, Drop)]
pub(crate) struct RunningFrame {
    pub(crate) function: FunId,
    pub(crate) node: NodeId,
    pub(crate) row: Row,
}

/// Registers with these values.
pub(crate) fn row_with(values: Vec<Value>) -> Row
    ensures { result ≡ values.items }
{
    Row { values }
}

// The value of a register.
pub(crate) fn register(row: &Row, a: Reg) -> Value
    ensures { result ≡ reg row.now a }
{
    match row.values.get(a.0 as usize) {
        Some(value) => *value,
        None => Value::Num(0),
    }
}

// Sets a register.
pub(crate) fn put(row: &mut Row, a: Reg, value: Value)
    ensures { row.new ≡ put row.old a value }
{
    let index = a.0 as usize;
    if index < row.values.len() {
        row.values[index] = value;
    }
}

// The same values again.
fn copy_values(alloc: Global, values: &[Value]) -> Result<Vec<Value>, NoMemory>
    ensures { IfOk result (λ copy. copy.items ≡ values.now) }
{
    let mut copy = Vec::new(alloc);
    'values: for value in values {
        copy.push(*value)?;
    }
    Ok(copy)
}

fn copy_row(alloc: Global, row: &Row) -> Result<Row, NoMemory>
    ensures { IfOk result (λ copy. copy ≡ row.now) }
{
    let values = copy_values(alloc, &row.values)?;
    Ok(Row { values })
}

/// A running frame again.
pub(crate) fn copy_frame(alloc: Global, frame: &RunningFrame) -> Result<RunningFrame, NoMemory>
    ensures { IfOk result (λ copy. copy ≡ frame.now) }
{
    let row = copy_row(alloc, &frame.row)?;
    Ok(RunningFrame {
        function: frame.function,
        node: frame.node,
        row,
    })
}

/// Running frames again.
pub(crate) fn copy_frames(
    alloc: Global,
    frames: &[RunningFrame],
) -> Result<Vec<RunningFrame>, NoMemory>
    ensures { IfOk result (λ copy. copy.items ≡ frames.now) }
{
    let mut copy = Vec::new(alloc);
    'frames: for frame in frames {
        copy.push(copy_frame(alloc, frame)?)?;
    }
    Ok(copy)
}
