//! Lowering of statements.

ghost use Rattle.std.specs.Prelude.{◌≡◌, ◌≤◌, ◌<◌, ◌+◌, ◌++◌, ◌∷◌, [], ℕ, length, true, false, IfOk, OnOk, Some, None, slice_get, slice_set, Contains};
ghost use Rattle.ca_model.specs.Sites.{if_any, items_in, items_in_all, items_of};
ghost use Rattle.ca_model.specs.WellFormed.{is_condition};
ghost use Rattle.ca_lower.specs.Scopes.{IsInItem};
ghost use Rattle.ca_lower.specs.Building.{code_at, code_in, around, Grows, HasSites};
ghost use Rattle.ca_lower.specs.Acts.{first_of, behind_of};
ghost use Rattle.ca_model.specs.declared.tree.Stmt.{Stmt};
ghost use Rattle.ca_lower.specs.Control.{StandsThere, StandThere, MayStandThere, IsConditionThere, MayWorkThere, AddsMark, AddsStep, AddsTurn, AddsLoop, AddsRuns, AddsElse, AddsAll, AreWithin, HaveSites, open_turn, closed_turn, Closes};

use crate::builder::Builder;
use crate::scopes::{InFunction, InItem};
use ca_flow::{Instr, Links, Node, NodeId, Step};
use ca_model::{Item, Stmt};
use ca_tree::NoMemory;
use sqlite_items::Boxed;
use std::alloc::Global;

/// Where control goes on from a statement: behind it, and in a loop at `break` and at `continue`.
#[derive(Clone, Copy, Debug)]
pub(crate) struct Ways {
    pub(crate) in_loop: bool,
    pub(crate) next: NodeId,
    pub(crate) leave: NodeId,
    pub(crate) again: NodeId,
}

/// A loop: the node of its turn, and the one where its body begins.
#[derive(Clone, Copy, Debug)]
struct Loop {
    turn: NodeId,
    begin: NodeId,
}

impl Builder {
    // A save where the plan has one after an item.
    fn mark_after(&mut self, at: &InItem<'_>, next: NodeId) -> Result<NodeId, NoMemory>
        requires next { next.0 < length self.old.steps.items }
        ensures adds { IfOk result (λ n. AddsMark at.now self.new n.0 next.0) }
        ensures grows { IfOk result (λ n. Grows (around at.now) self.old self.new) }
        ensures entry { IfOk result (λ n. n.0 < length self.new.steps.items) }
    {
        if at.saves_after() {
            let node = self.push(at, Instr::Save, 0, Links::One(next))?;
            Ok(node)
        } else {
            Ok(next)
        }
    }

    // An item of the head of a `for`, if it is there, with the save after it.
    fn work_if_any(
        &mut self,
        alloc: Global,
        scope: &InFunction<'_>,
        item: &Option<Item>,
        next: NodeId,
    ) -> Result<NodeId, NoMemory>
        requires work { MayWorkThere scope.now item.now }
        requires next { next.0 < length self.old.steps.items }
        ensures adds { IfOk result (λ n. AddsStep scope.now self.new n.0 next.0 item.now) }
        ensures grows { IfOk result (λ n. Grows scope.now self.old self.new) }
        ensures entry { IfOk result (λ n. n.0 < length self.new.steps.items) }
        ensures sites { IfOk result (λ n. HaveSites scope.now self.new.steps.items (if_any item.now)) }
    {
        match item {
            None => Ok(next),
            Some(item) => {
                let at = scope.at(item);
                let after = self.mark_after(&at, next)?;
                let start = self.work(alloc, &at, after)?;
                Ok(start)
            }
        }
    }

    // A turn whose link is still to be made.
    fn open_turn(&mut self, at: &InItem<'_>) -> Result<NodeId, NoMemory>
        ensures steps { IfOk result (λ n. self.new.steps.items ≡ self.old.steps.items ++ (open_turn at.now.item ∷ [])) }
        ensures turn { IfOk result (λ n. n.0 ≡ length self.old.steps.items) }
        ensures registers { IfOk result (λ n. self.new.registers ≡ self.old.registers) }
        ensures there { IfOk result (λ n. IsInItem at.now) }
    {
        let index = u32::try_from(self.steps.len()).map_err(|_| NoMemory)?;
        let item = at.id();
        self.steps.push(Step {
            node: Node {
                item,
                instr: Instr::Turn,
            },
            links: Links::Nowhere,
        })?;
        Ok(NodeId(index))
    }

    // Gives an open turn its link.
    fn close_turn(&mut self, at: &InItem<'_>, turn: NodeId, start: NodeId)
        requires open { slice_get self.old.steps.items turn.0 ≡ Some (open_turn at.now.item) }
        ensures steps { self.new.steps.items ≡ slice_set self.old.steps.items turn.0 (closed_turn at.now.item start) }
        ensures registers { self.new.registers ≡ self.old.registers }
    {
        self.steps[turn.0 as usize].links = Links::One(start);
    }

    // The condition of a loop, whose turn gets its link.
    fn close_loop(
        &mut self,
        at: &InItem<'_>,
        turn: NodeId,
        begin: NodeId,
        next: NodeId,
    ) -> Result<(), NoMemory>
        requires condition { is_condition at.now.item.act ≡ true }
        requires open { slice_get self.old.steps.items turn.0 ≡ Some (open_turn at.now.item) }
        requires next { (begin.0 < length self.old.steps.items) × (next.0 < length self.old.steps.items) }
        ensures adds { OnOk result (AddsTurn at.now self.new turn.0 begin.0 next.0) }
        ensures closes { OnOk result (Closes (around at.now) turn.0 self.old self.new) }
        ensures sites { OnOk result (HasSites self.new.steps.items (first_of at.now) (behind_of at.now)) }
    {
        let inside = self.mark_after(at, begin)?;
        let outside = self.mark_after(at, next)?;
        let start = self.choose(at, inside, outside)?;
        self.close_turn(at, turn, start);
        Ok(())
    }

    #[cycle(control)]
    // A loop from its turn on; behind it control goes on at `next`.
    fn turn_loop<'a>(
        &mut self,
        body: &'a Stmt,
        alloc: Global,
        scope: &InFunction<'a>,
        cond: &'a Item,
        step: &Option<Item>,
        next: NodeId,
    ) -> Result<Loop, NoMemory>
        requires body { StandsThere scope.now body.now true }
        requires condition { IsConditionThere scope.now cond.now }
        requires step { MayWorkThere scope.now step.now }
        requires next { next.0 < length self.old.steps.items }
        ensures adds { IfOk result (λ r. AddsLoop scope.now self.new r.turn.0 r.begin.0 next.0 cond.now body.now step.now) }
        ensures grows { IfOk result (λ r. Grows scope.now self.old self.new) }
        ensures entry { IfOk result (λ r. (r.turn.0 < length self.new.steps.items) × (r.begin.0 < length self.new.steps.items)) }
        ensures sites { IfOk result (λ r. HaveSites scope.now self.new.steps.items (cond.now ∷ (if_any step.now ++ items_in body.now))) }
    {
        let at = scope.at(cond);
        let turn = self.open_turn(&at)?;
        let again = self.work_if_any(alloc, scope, step, turn)?;
        let ways = Ways {
            in_loop: true,
            next: again,
            leave: next,
            again,
        };
        let begin = self.run(body, alloc, scope, ways)?;
        self.close_loop(&at, turn, begin, next)?;
        Ok(Loop { turn, begin })
    }

    #[cycle(control)]
    // A statement.
    fn run<'a>(
        &mut self,
        s: &'a Stmt,
        alloc: Global,
        scope: &InFunction<'a>,
        ways: Ways,
    ) -> Result<NodeId, NoMemory>
        requires there { StandsThere scope.now s.now ways.in_loop }
        requires ways { AreWithin (length self.old.steps.items) ways }
        ensures adds { IfOk result (λ n. AddsRuns scope.now self.new n.0 ways s.now) }
        ensures grows { IfOk result (λ n. Grows scope.now self.old self.new) }
        ensures entry { IfOk result (λ n. n.0 < length self.new.steps.items) }
        ensures sites { IfOk result (λ n. HaveSites scope.now self.new.steps.items (items_in s.now)) }
    {
        match s {
            Stmt::Item(item) => {
                let at = scope.at(item);
                let after = self.mark_after(&at, ways.next)?;
                let start = self.work(alloc, &at, after)?;
                Ok(start)
            }
            Stmt::Block(ss) => {
                let inner = ss.as_slice();
                let start = self.run_all(inner, alloc, scope, ways)?;
                Ok(start)
            }
            Stmt::If { cond, yes, no } => {
                let inner = yes.get();
                let at = scope.at(cond);
                let other = self.run_else(no, alloc, scope, ways)?;
                let one = self.run(inner, alloc, scope, ways)?;
                let after_other = self.mark_after(&at, other)?;
                let after_one = self.mark_after(&at, one)?;
                let start = self.choose(&at, after_one, after_other)?;
                Ok(start)
            }
            Stmt::While { cond, body } => {
                let inner = body.get();
                let found = self.turn_loop(inner, alloc, scope, cond, &None, ways.next)?;
                Ok(found.turn)
            }
            Stmt::Do { body, cond } => {
                let inner = body.get();
                let found = self.turn_loop(inner, alloc, scope, cond, &None, ways.next)?;
                Ok(found.begin)
            }
            Stmt::For {
                first,
                cond,
                step,
                body,
            } => {
                let inner = body.get();
                let found = self.turn_loop(inner, alloc, scope, cond, step, ways.next)?;
                let start = self.work_if_any(alloc, scope, first, found.turn)?;
                Ok(start)
            }
            Stmt::Break => Ok(ways.leave),
            Stmt::Continue => Ok(ways.again),
        }
    }

    #[cycle(control)]
    // The branch of an `else`.
    fn run_else<'a>(
        &mut self,
        no: &'a Option<Boxed<Stmt>>,
        alloc: Global,
        scope: &InFunction<'a>,
        ways: Ways,
    ) -> Result<NodeId, NoMemory>
        requires there { MayStandThere scope.now no.now ways.in_loop }
        requires ways { AreWithin (length self.old.steps.items) ways }
        ensures adds { IfOk result (λ n. AddsElse scope.now self.new n.0 ways no.now) }
        ensures grows { IfOk result (λ n. Grows scope.now self.old self.new) }
        ensures entry { IfOk result (λ n. n.0 < length self.new.steps.items) }
        ensures sites { IfOk result (λ n. (s : Stmt) → no.now ≡ Some s → HaveSites scope.now self.new.steps.items (items_in s)) }
    {
        match no {
            None => Ok(ways.next),
            Some(no) => {
                let inner = no.get();
                let start = self.run(inner, alloc, scope, ways)?;
                Ok(start)
            }
        }
    }

    #[cycle(control)]
    // Statements, from the last to the first.
    pub(crate) fn run_all<'a>(
        &mut self,
        ss: &'a [Stmt],
        alloc: Global,
        scope: &InFunction<'a>,
        ways: Ways,
    ) -> Result<NodeId, NoMemory>
        requires there { StandThere scope.now ss.now ways.in_loop }
        requires ways { AreWithin (length self.old.steps.items) ways }
        ensures adds { IfOk result (λ n. AddsAll scope.now self.new n.0 ways ss.now) }
        ensures grows { IfOk result (λ n. Grows scope.now self.old self.new) }
        ensures entry { IfOk result (λ n. n.0 < length self.new.steps.items) }
        ensures sites { IfOk result (λ n. HaveSites scope.now self.new.steps.items (items_in_all ss.now)) }
    {
        let mut start = ways.next;
        let mut left = ss.len();
        'statements: while left > 0 {
            left -= 1;
            let s = &ss[left];
            let inner = Ways {
                in_loop: ways.in_loop,
                next: start,
                leave: ways.leave,
                again: ways.again,
            };
            start = self.run(s, alloc, scope, inner)?;
        }
        Ok(start)
    }
}
