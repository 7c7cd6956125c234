//! The lines of the table of sites.

ghost use Rattle.std.specs.Prelude.{◌≡◌, ◌++◌, ◌-◌, [], IfOk, get_or};
ghost use Rattle.std.specs.List.{flat_map};
ghost use Rattle.ca_plan.specs.SiteTables.{after_text, count_line, entry_text, kind_text, reason_text, site_line, state_text};
ghost use Rattle.ca_model.specs.typing.Programs.{first_place};

use crate::state::SiteState;
use ca_flow::{Points, Reason};
use ca_sites::{Site, SiteKind};
use ca_tree::{FunId, ItemId, NoMemory, Pos, Text};
use std::alloc::Global;

fn word_of_kind(kind: SiteKind) -> &'static str
    ensures { result.now ≡ kind_text kind }
{
    match kind {
        SiteKind::Assert => "assert",
        SiteKind::Load => "load",
        SiteKind::Store => "store",
        SiteKind::Free => "free",
        SiteKind::Lock => "lock",
    }
}

fn word_of_reason(reason: Reason) -> &'static str
    ensures { result.now ≡ reason_text reason }
{
    match reason {
        Reason::Local => "pruned:local",
        Reason::Lock => "pruned:lock",
    }
}

fn word_of_state(state: SiteState) -> &'static str
    ensures { result.now ≡ state_text state }
{
    match state {
        SiteState::Pruned(reason) => word_of_reason(reason),
        SiteState::Left => "left",
        SiteState::Planned => "planned",
    }
}

/// Adds the line that counts the sites.
pub(crate) fn add_count(alloc: Global, text: &mut Vec<u8>, sites: usize) -> Result<(), NoMemory>
    ensures { IfOk result (λ u. text.new.items ≡ text.old.items ++ count_line sites) }
{
    let words = format!(in alloc; "sites {sites}\n")?;
    text.extend_from_slice(words.as_bytes())?;
    Ok(())
}

/// Adds the line of a site, with the words of its points.
pub(crate) fn add_line(
    alloc: Global,
    text: &mut Vec<u8>,
    site: &Site,
    state: SiteState,
    points: &[u8],
) -> Result<(), NoMemory>
    ensures { IfOk result (λ u. text.new.items ≡ text.old.items ++ site_line site.now state points.now) }
{
    let number = site.id.0;
    let line = site.pos.line;
    let column = site.pos.column;
    let kind = word_of_kind(site.kind);
    let becomes = word_of_state(state);
    let words = format!(in alloc; "s{number} {line}:{column} {kind} {becomes}")?;
    text.extend_from_slice(words.as_bytes())?;
    text.extend_from_slice(points)?;
    text.push(b'\n')?;
    Ok(())
}

// The name of a function.
fn name_at(names: &[Text], f: FunId) -> &[u8]
    ensures { result.now ≡ get_or names.now f.0 [] }
{
    match names.get(f.0 as usize) {
        None => &[],
        Some(name) => name.as_slice(),
    }
}

// The place of an item.
fn place_at(places: &[Pos], item: ItemId) -> Pos
    ensures { result ≡ get_or places.now (item.0 - 1) first_place }
{
    match places.get(item.0.saturating_sub(1) as usize) {
        None => Pos { line: 1, column: 1 },
        Some(place) => *place,
    }
}

// Adds the words of an entry.
fn add_entry(words: &mut Vec<u8>, name: &[u8]) -> Result<(), NoMemory>
    ensures { IfOk result (λ u. words.new.items ≡ words.old.items ++ entry_text name.now) }
{
    words.extend_from_slice(b" entry:")?;
    words.extend_from_slice(name)?;
    Ok(())
}

// Adds the words of the place behind an item.
fn add_after(alloc: Global, words: &mut Vec<u8>, place: Pos) -> Result<(), NoMemory>
    ensures { IfOk result (λ u. words.new.items ≡ words.old.items ++ after_text place) }
{
    let line = place.line;
    let column = place.column;
    let more = format!(in alloc; " after:{line}:{column}")?;
    words.extend_from_slice(more.as_bytes())?;
    Ok(())
}

// Adds the words of entries.
fn add_entries(words: &mut Vec<u8>, names: &[Text], entries: &[FunId]) -> Result<(), NoMemory>
    ensures { IfOk result (λ u. words.new.items ≡ words.old.items ++ flat_map (λ f. entry_text (get_or names.now f.0 [])) entries.now) }
{
    'entries: for f in entries {
        add_entry(words, name_at(names, *f))?;
    }
    Ok(())
}

// Adds the words of the places behind items.
fn add_all_after(
    alloc: Global,
    words: &mut Vec<u8>,
    places: &[Pos],
    items: &[ItemId],
) -> Result<(), NoMemory>
    ensures { IfOk result (λ u. words.new.items ≡ words.old.items ++ flat_map (λ i. after_text (get_or places.now (i.0 - 1) first_place)) items.now) }
{
    'items: for item in items {
        add_after(alloc, words, place_at(places, *item))?;
    }
    Ok(())
}

/// The words of points: entries first, and then the places behind items.
pub(crate) fn words_of(
    alloc: Global,
    names: &[Text],
    places: &[Pos],
    points: &Points,
) -> Result<Vec<u8>, NoMemory>
    ensures { IfOk result (λ words. words.items ≡ flat_map (λ f. entry_text (get_or names.now f.0 [])) points.now.entries ++ flat_map (λ i. after_text (get_or places.now (i.0 - 1) first_place)) points.now.after) }
{
    let mut words = Vec::new(alloc);
    add_entries(&mut words, names, points.entries.as_slice())?;
    add_all_after(alloc, &mut words, places, points.after.as_slice())?;
    Ok(words)
}
