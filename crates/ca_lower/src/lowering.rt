//! Lowering of whole sources.

ghost use Rattle.std.specs.Prelude.{◌≡◌, IfOk};
ghost use Rattle.ca_model.specs.Plans.{Fits};

use crate::functions::graph_of;
use ca_flow::Code;
use ca_model::{Checked, Plan};
use ca_tables::Tables;
use ca_tree::{FunId, NoMemory};
use std::alloc::Global;

/// The code of a source under a plan that fits it: for each function a graph, with at most 256 registers. `NoMemory` comes
/// where an allocation is refused, and where the sites of the source or the nodes of a function have no numbers of 32 bits.
/// It takes time in the size of the source and of the plan.
pub fn lower(alloc: Global, checked: &Checked, plan: &Plan) -> Result<Code, NoMemory>
    requires fits { Fits checked.now.typed plan.now }
    ensures source { IfOk result (λ c. c.source ≡ checked.now.typed) }
    ensures plan { IfOk result (λ c. c.plan ≡ plan.now) }
{
    let tables = Tables::new(alloc, checked, plan)?;
    let mut graphs = Vec::new(alloc);
    'functions: for f in 0..checked.functions() {
        let graph = graph_of(alloc, checked, &tables, FunId(f))?;
        graphs.push(graph)?;
    }
    let code = Code::new(alloc, checked, plan, graphs)?;
    Ok(code)
}
