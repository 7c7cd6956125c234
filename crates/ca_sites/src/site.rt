//! The list of sites.

ghost use Rattle.std.specs.Prelude.{◌≡◌, IfOk, map};
ghost use Rattle.ca_model.specs.Accesses.{all_sites};
ghost use Rattle.ca_sites.specs.SiteLists.{in_tree, in_list, with_numbers};
ghost use Rattle.ca_sites.specs.TextSites.{text_sites};

use crate::items::TextSite;
use crate::statements::sites_in;
use ca_model::Checked;
use ca_tree::{ItemId, NoMemory, Pos, SiteId};
use std::alloc::Global;

/// What can fail at a site: an assertion, a load, a store or a `free` through a pointer or an index, or a lock.
#[derive(Clone, Copy, Debug, PartialEq, Eq)]
pub enum SiteKind {
    Assert,
    Load,
    Store,
    Free,
    Lock,
}

/// A site: its number, its item, its place in the text and its kind. A load and a store have the place of the first
/// character of what they go to, with no parentheses directly round it; an assertion, a `free` and a lock have that of
/// their word.
#[derive(Clone, Copy, Debug, PartialEq, Eq)]
pub struct Site {
    pub id: SiteId,
    pub item: ItemId,
    pub pos: Pos,
    pub kind: SiteKind,
}

// Sites with their numbers.
fn numbered(alloc: Global, shown: &[TextSite]) -> Result<Vec<Site>, NoMemory>
    ensures { IfOk result (λ ss. ss.items ≡ with_numbers 0 shown.now) }
{
    let mut sites = Vec::new(alloc);
    let mut k = 0u32;
    'shown: for one in shown {
        let Some(number) = k.checked_add(1) else {
            return Err(NoMemory);
        };
        sites.push(Site {
            id: SiteId(number),
            item: one.item,
            pos: one.pos,
            kind: one.kind,
        })?;
        k = number;
    }
    Ok(sites)
}

/// The sites of a source, in order of item and evaluation, and numbered from 1: each assertion, each load, store or `free`
/// through a pointer or an index, and each lock. An access to a named global, or to its field by a dot, is none. They are
/// the sites of the typed tree, in order, each with its item and its kind; and they are the sites in the text, each with
/// its item, its kind and its place. The only error is want of memory, which is also the answer where there are more sites
/// than numbers of 32 bits. It takes time in the length of the source: one pass over its text's tree.
pub fn sites(alloc: Global, checked: &Checked) -> Result<Vec<Site>, NoMemory>
    ensures tree { IfOk result (λ ss. map in_list ss.items ≡ map in_tree (all_sites checked.now.typed)) }
    ensures text { IfOk result (λ ss. ss.items ≡ with_numbers 0 (text_sites checked.now.program)) }
{
    let shown = sites_in(alloc, checked.program())?;
    let list = numbered(alloc, &shown)?;
    Ok(list)
}
