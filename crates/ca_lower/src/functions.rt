//! Lowering of functions.

ghost use Rattle.std.specs.Prelude.{◌≡◌, ◌≤◌, ◌<◌, ℕ, length, IfOk, Some, slice_get, Contains};
ghost use Rattle.ca_model.specs.declared.tree.Function.{Function};
ghost use Rattle.ca_model.specs.Sites.{items_of};
ghost use Rattle.ca_flow.specs.Lowerings.{IsGraphUnder};
ghost use Rattle.ca_lower.specs.Building.{around, Grows};
ghost use Rattle.ca_lower.specs.Control.{AddsEntry, AddsFunction, HaveSites};

use crate::builder::Builder;
use crate::scopes::{InFunction, InItem};
use crate::statements::Ways;
use ca_flow::{Graph, Instr, Links, NodeId};
use ca_model::Checked;
use ca_tables::Tables;
use ca_tree::{FunId, NoMemory};
use std::alloc::Global;

impl Builder {
    // A save where the plan has one at the entry of the function. Its node has the item of the closing brace.
    fn mark_entry(&mut self, at: &InItem<'_>, next: NodeId) -> Result<NodeId, NoMemory>
        requires next { next.0 < length self.old.steps.items }
        ensures adds { IfOk result (λ n. AddsEntry at.now self.new n.0 next.0) }
        ensures grows { IfOk result (λ n. Grows (around at.now) self.old self.new) }
        ensures entry { IfOk result (λ n. n.0 < length self.new.steps.items) }
    {
        if at.saves_at_entry() {
            let node = self.push(at, Instr::Save, 0, Links::One(next))?;
            Ok(node)
        } else {
            Ok(next)
        }
    }

    // A function: the save at its entry, its body, and its closing brace.
    fn function(&mut self, alloc: Global, scope: &InFunction<'_>) -> Result<NodeId, NoMemory>
        ensures adds { IfOk result (λ n. AddsFunction scope.now self.new n.0) }
        ensures grows { IfOk result (λ n. Grows scope.now self.old self.new) }
        ensures sites { IfOk result (λ n. HaveSites scope.now self.new.steps.items (items_of scope.now.function)) }
    {
        scope.known();
        let function = scope.function();
        let at = scope.at(&function.close);
        let close = self.end(&at)?;
        let ways = Ways {
            in_loop: false,
            next: close,
            leave: close,
            again: close,
        };
        let body = function.body.as_slice();
        let begin = self.run_all(body, alloc, scope, ways)?;
        let entry = self.mark_entry(&at, begin)?;
        Ok(entry)
    }
}

/// The graph of a function.
pub(crate) fn graph_of(
    alloc: Global,
    checked: &Checked,
    tables: &Tables<'_>,
    f: FunId,
) -> Result<Graph, NoMemory>
    requires function { f.0 < length checked.now.typed.functions }
    requires source { tables.now.source ≡ checked.now.typed }
    ensures { IfOk result (λ g. (fn : Function) → slice_get checked.now.typed.functions f.0 ≡ Some fn → IsGraphUnder checked.now.typed tables.now.plan fn g) }
{
    let function = checked.function(f);
    let scope = InFunction::new(tables, function);
    let mut builder = Builder {
        steps: Vec::new(alloc),
        registers: function.locals,
        site: 0,
    };
    let entry = builder.function(alloc, &scope)?;
    scope.known();
    if builder.steps.len() > u32::MAX as usize {
        return Err(NoMemory);
    }
    let graph = Graph::new(alloc, checked, f, builder.steps, entry, builder.registers)?;
    Ok(graph)
}
