//! A graph in the making, from the end of a function to its beginning.

ghost use Rattle.std.specs.Prelude.{◌≡◌, ◌≤◌, ◌<◌, ◌+◌, ℕ, List, length, suc, Some, IfOk, slice_get};
ghost use Rattle.ca_flow.specs.Lowerings.{site_in};
ghost use Rattle.ca_flow.specs.Instructions.{site_of};
ghost use Rattle.ca_model.specs.Eval.{access, site_at, site_id};
ghost use Rattle.ca_model.specs.Sites.{act_sites};
ghost use Rattle.ca_lower.specs.Building.{around, code_at, IsSiteMark, HasMarks, LeadBelow, Grows};

use crate::scopes::InItem;
use ca_flow::{AtSite, Instr, Links, Node, NodeId, Step};
use ca_tree::{NoMemory, SiteId};

/// Steps of a function, so many registers, and the number of the site that was lowered last.
#[derive(Drop)]
pub(crate) struct Builder {
    pub(crate) steps: Vec<Step>,
    pub(crate) registers: u32,
    pub(crate) site: u32,
}

impl Builder {
    /// One more step of an item; its registers are up to `top`.
    pub(crate) fn push(
        &mut self,
        at: &InItem<'_>,
        instr: Instr,
        top: u32,
        links: Links,
    ) -> Result<NodeId, NoMemory>
        requires top { top < 256 }
        requires marks { HasMarks at.now instr }
        requires links { LeadBelow (length self.old.steps.items) instr links }
        ensures pushed { IfOk result (λ n. slice_get self.new.steps.items n.0 ≡ Some (record { node = record { item = at.now.item.id; instr = instr }; links = links })) }
        ensures fresh { IfOk result (λ n. n.0 ≡ length self.old.steps.items) }
        ensures length { IfOk result (λ n. length self.new.steps.items ≡ suc (length self.old.steps.items)) }
        ensures grows { IfOk result (λ n. Grows (around at.now) self.old self.new) }
        ensures wide { IfOk result (λ n. top < self.new.registers) }
        ensures site { self.new.site ≡ self.old.site }
    {
        let index = u32::try_from(self.steps.len()).map_err(|_| NoMemory)?;
        let item = at.id();
        self.steps.push(Step {
            node: Node { item, instr },
            links,
        })?;
        self.registers = self.registers.max(top + 1);
        Ok(NodeId(index))
    }

    /// The site before the one that was lowered last.
    pub(crate) fn take_site(&mut self, at: &InItem<'_>) -> AtSite
        requires low { (code_at at.now).first_site at.now.item.id + 1 ≤ self.old.site }
        requires high { self.old.site ≤ (code_at at.now).first_site at.now.item.id + act_sites at.now.item.act }
        ensures number { self.old.site ≡ self.new.site + 1 }
        ensures site { result.site ≡ site_id self.new.site }
        ensures marked { IsSiteMark (code_at at.now) at.now.item (Some result) }
        ensures same { (self.new.steps ≡ self.old.steps) × (self.new.registers ≡ self.old.registers) }
    {
        self.site -= 1;
        let site = SiteId(self.site);
        AtSite {
            site,
            planned: at.is_planned(site),
        }
    }

    /// That site, where an access has one.
    pub(crate) fn take_access(&mut self, at: &InItem<'_>, through: bool) -> Option<AtSite>
        requires low { (code_at at.now).first_site at.now.item.id + access through ≤ self.old.site }
        requires high { self.old.site ≤ (code_at at.now).first_site at.now.item.id + act_sites at.now.item.act }
        ensures number { self.old.site ≡ self.new.site + access through }
        ensures site { site_of result ≡ site_at through self.new.site }
        ensures marked { IsSiteMark (code_at at.now) at.now.item result }
        ensures same { (self.new.steps ≡ self.old.steps) × (self.new.registers ≡ self.old.registers) }
    {
        if !through {
            return None;
        }
        let site = self.take_site(at);
        Some(site)
    }
}
