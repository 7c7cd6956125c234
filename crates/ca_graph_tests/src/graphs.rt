//! Graphs of sources, walked from their entries: the nodes that ask for something or branch, by item and site, worked by
//! hand from the order of evaluation.
use crate::plans::{Planned, plan_of};
use crate::typed_trees::LIST;
use ca_flow::{AtSite, Code, Graph, Instr, Links, Step};
use ca_lower::lower;
use ca_model::fits;
use ca_sources::{LOOP_POINTS, NULL_POINTER, OPPOSED_LOCKS, PRINTED_SUM, WATCH};
use ca_worked::typing;
use std::alloc::{AllocError, Global};
use std::test::Fail;

// A site, and a `!` where the plan has it.
fn site_shown(alloc: Global, at: &AtSite) -> Result<String, AllocError> {
    let mark = if at.planned { "!" } else { "" };
    format!(in alloc; " s{}{mark}", at.site.0)
}

fn site_if_any(alloc: Global, at: &Option<AtSite>) -> Result<String, AllocError> {
    match at {
        Some(at) => site_shown(alloc, at),
        None => Ok(String::new(alloc)),
    }
}

// What a node asks for, or that it branches; nothing for a silent one.
fn kind_shown(alloc: Global, instr: &Instr) -> Result<Option<String>, AllocError> {
    let shown = match instr {
        Instr::Load { at, .. } => {
            let at = site_if_any(alloc, at)?;
            format!(in alloc; "Load{at}")?
        }
        Instr::Store { at, .. } => {
            let at = site_if_any(alloc, at)?;
            format!(in alloc; "Store{at}")?
        }
        Instr::Lock { at, acquiring, .. } => {
            let at = site_shown(alloc, at)?;
            let taken = if *acquiring { " taken" } else { "" };
            format!(in alloc; "Lock{at}{taken}")?
        }
        Instr::Malloc { acquiring, .. } => {
            let taken = if *acquiring { " taken" } else { "" };
            format!(in alloc; "Malloc{taken}")?
        }
        Instr::Free { at, .. } => {
            let at = site_shown(alloc, at)?;
            format!(in alloc; "Free{at}")?
        }
        Instr::Assert { at, .. } => {
            let at = site_shown(alloc, at)?;
            format!(in alloc; "Assert{at}")?
        }
        Instr::Unlock(_) => format!(in alloc; "Unlock")?,
        Instr::Print { .. } => format!(in alloc; "Print")?,
        Instr::Create { .. } => format!(in alloc; "Create")?,
        Instr::Join { .. } => format!(in alloc; "Join")?,
        Instr::Call { .. } => format!(in alloc; "Call")?,
        Instr::Branch(_) => format!(in alloc; "Branch")?,
        Instr::Turn => format!(in alloc; "Turn")?,
        Instr::Save => format!(in alloc; "Save")?,
        Instr::Return(_) => format!(in alloc; "Return")?,
        _ => return Ok(None),
    };
    Ok(Some(shown))
}

fn show(alloc: Global, step: &Step, text: &mut String) -> Result<(), AllocError> {
    if let Some(kind) = kind_shown(alloc, &step.node.instr)? {
        let one = format!(in alloc; "{} {kind}, ", step.node.item.0)?;
        text.push_str(one.as_str())?;
    }
    Ok(())
}

// The nodes from the entry on, with these ways at branches, up to a node without a link or a branch behind the last way.
fn walked(alloc: Global, graph: &Graph, ways: &[bool]) -> Result<String, AllocError> {
    let mut text = String::new(alloc);
    let mut node = graph.entry();
    let mut branches = 0usize;
    for _ in 0..200 {
        let Some(step) = graph.steps().get(node.0 as usize) else {
            return Ok(text);
        };
        show(alloc, step, &mut text)?;
        match step.links {
            Links::Nowhere => return Ok(text),
            Links::One(next) => node = next,
            Links::Two { yes, no } => {
                let Some(way) = ways.get(branches) else {
                    return Ok(text);
                };
                node = if *way { yes } else { no };
                branches += 1;
            }
        }
    }
    Ok(text)
}

// The code of a text under a plan, if it is typed and the plan fits it.
pub(crate) fn lowered(
    alloc: Global,
    text: &[u8],
    plan: Planned<'static>,
) -> Result<Option<Code>, Fail> {
    let Ok(source) = typing(alloc, text)? else {
        return Ok(None);
    };
    let plan = plan_of(alloc, plan)?;
    if !fits(&source, &plan) {
        return Ok(None);
    }
    let code = lower(alloc, &source, &plan)?;
    Ok(Some(code))
}

fn answer(
    alloc: Global,
    text: &[u8],
    plan: Planned<'static>,
    function: usize,
    ways: &[bool],
) -> Result<String, Fail> {
    let Some(code) = lowered(alloc, text, plan)? else {
        return Ok(format!(in alloc; "no code")?);
    };
    match code.graphs().get(function) {
        Some(graph) => Ok(walked(alloc, graph, ways)?),
        None => Ok(format!(in alloc; "no graph")?),
    }
}

pub(crate) const NO_PLAN: Planned<'static> = (0, &[], &[], &[], &[]);

// An empty function, `&&` as a value, `continue`, code behind a `break` and behind a `return`, a `for` without parts.
const FORMS: &[u8] = b"int g;
void nothing(void) { }
int all(int x, int y) {
  int b = x && y;
  while (x) {
    if (g) continue;
    x = x + (y * x);
    break;
    g = 1;
  }
  for (;;) { return g; }
  g = 2;
  return b;
}
int main(void) { nothing(); return 0; g = 3; }
";

// Every other statement, call of the library and form of an item.
const EVERY: &[u8] = b"pthread_mutex_t m;
int g;
int *p;
void *work(void *w) { return w; }
int two(int a, int b) { return a - b; }
int main(void) {
  pthread_t t;
  int x, *q = NULL;
  x = 3;
  g += x;
  q = malloc(2 * sizeof(int));
  q[1] = x;
  q[0]++;
  p = q;
  x = two(*p, g);
  two(x, 1);
  if (x || g) x--; else g = 0;
  while (x) { x = 0; continue; }
  do ++x; while (x < g && *q);
  for (x = 0; x < 2; x++) { if (x) break; }
  pthread_mutex_lock(&m);
  pthread_mutex_unlock(&m);
  pthread_create(&t, NULL, work, p);
  pthread_join(t, NULL);
  assert(q[0] == 3 || !g);
  printf(\"%d %d\\n\", q[1], -g);
  free(q);
  ;
  { }
  return x;
}
";

type Walk<'a> = (&'a [u8], usize, &'a [bool], &'a str);

const WALKS: [Walk<'static>; 17] = [
    (PRINTED_SUM, 0, &[], "1 Store, 2 Load, 2 Print, 3 Return, "),
    (WATCH, 0, &[], "1 Load, 1 Assert s1, 2 Return, "),
    (WATCH, 1, &[], "5 Create, 6 Store, 7 Join, 8 Return, "),
    (
        NULL_POINTER,
        0,
        &[],
        "1 Load, 1 Load s1, 1 Print, 2 Return, ",
    ),
    (
        NULL_POINTER,
        1,
        &[],
        "5 Create, 6 Malloc, 6 Store, 7 Load, 7 Store s2, 8 Join, 9 Return, ",
    ),
    (
        LOOP_POINTS,
        0,
        &[true, false],
        "2 Turn, 2 Load, 2 Load s1, 2 Branch, 4 Store, 2 Turn, 2 Load, 2 Load s1, 2 Branch, 5 Return, ",
    ),
    (
        LIST,
        0,
        &[true, true, false, true, true, false],
        "4 Turn, 4 Branch, 6 Malloc, 6 Store s1, 7 Load s2, 7 Store s3, 9 Turn, 9 Branch, 11 Branch, 12 Load s4, 12 Load s5, 12 Store s6, 9 Turn, 9 Branch, 11 Branch, 4 Turn, 4 Branch, 13 Load s7, 13 Call, 14 Return, ",
    ),
    (
        LIST,
        1,
        &[true, true, false],
        "17 Turn, 17 Load s8, 17 Branch, 17 Load s9, 17 Branch, 17 Turn, 17 Load s8, 17 Branch, 18 Return, ",
    ),
    (
        LIST,
        1,
        &[true, false],
        "17 Turn, 17 Load s8, 17 Branch, 17 Load s9, 17 Branch, 18 Return, ",
    ),
    (FORMS, 0, &[], "1 Return, "),
    (
        FORMS,
        1,
        &[true, true, true, true, true, false, true],
        "2 Branch, 2 Branch, 3 Turn, 3 Branch, 4 Load, 4 Branch, 3 Turn, 3 Branch, 4 Load, 4 Branch, 7 Turn, 7 Branch, 8 Load, 8 Return, ",
    ),
    (
        FORMS,
        1,
        &[false, false, false],
        "2 Branch, 3 Turn, 3 Branch, 7 Turn, 7 Branch, 9 Store, 10 Return, ",
    ),
    (
        FORMS,
        1,
        &[true, false, false, false],
        "2 Branch, 2 Branch, 3 Turn, 3 Branch, 7 Turn, 7 Branch, 9 Store, 10 Return, ",
    ),
    (FORMS, 2, &[], "12 Call, 13 Return, "),
    (
        EVERY,
        2,
        &[
            false, true, true, false, true, false, true, false, true, true, false, true,
        ],
        "9 Load, 9 Store, 10 Malloc, 11 Store s1, 12 Load s2, 12 Store s3, 13 Store, 14 Load, 14 Load s4, 14 Load, 14 Call, 15 Call, 16 Branch, 16 Load, 16 Branch, 19 Turn, 19 Branch, 19 Turn, 19 Branch, 22 Turn, 22 Load, 22 Branch, 22 Load s5, 22 Branch, 24 Turn, 24 Branch, 26 Branch, 24 Turn, 24 Branch, 26 Branch, 27 Lock s6, 28 Unlock, 29 Load, 29 Create, 30 Join, 31 Load s7, 31 Branch, 31 Load, 31 Branch, 31 Assert s8, 32 Load s9, 32 Load, 32 Print, 33 Free s10, 34 Return, ",
    ),
    (
        EVERY,
        2,
        &[false, false, false, false, false, true],
        "9 Load, 9 Store, 10 Malloc, 11 Store s1, 12 Load s2, 12 Store s3, 13 Store, 14 Load, 14 Load s4, 14 Load, 14 Call, 15 Call, 16 Branch, 16 Load, 16 Branch, 18 Store, 19 Turn, 19 Branch, 22 Turn, 22 Load, 22 Branch, 24 Turn, 24 Branch, 27 Lock s6, 28 Unlock, 29 Load, 29 Create, 30 Join, 31 Load s7, 31 Branch, 31 Assert s8, 32 Load s9, 32 Load, 32 Print, 33 Free s10, 34 Return, ",
    ),
    (EVERY, 1, &[], "3 Return, "),
];

#[test]
fn graphs_go_through_their_items_and_sites_in_order(rt: HostRuntime) -> Result<(), Fail> {
    let alloc = rt.alloc();
    for (text, function, ways, walk) in WALKS {
        assert_eq!(rt;
            answer(alloc, text, NO_PLAN, function, ways)?.as_str(),
            walk
        );
    }
    Ok(())
}

type PlannedWalk<'a> = (&'a [u8], Planned<'a>, usize, &'a [bool], &'a str);

// A save behind the last item of a loop's body comes before the turn.
const PLANNED: [PlannedWalk<'static>; 4] = [
    (
        LOOP_POINTS,
        (3, &[4], &[0], &[1], &[]),
        0,
        &[true, false],
        "6 Save, 2 Turn, 2 Load, 2 Load s1!, 2 Branch, 4 Store, 4 Save, 2 Turn, 2 Load, 2 Load s1!, 2 Branch, 5 Return, ",
    ),
    (
        OPPOSED_LOCKS,
        (9, &[], &[0, 1], &[2, 4], &[1, 8]),
        0,
        &[],
        "7 Save, 1 Lock s1 taken, 2 Lock s2!, 3 Load, 3 Store, 4 Unlock, 5 Unlock, 6 Return, ",
    ),
    (
        OPPOSED_LOCKS,
        (9, &[10], &[], &[3], &[9]),
        1,
        &[],
        "8 Lock s3!, 9 Lock s4 taken, 10 Load, 10 Store, 10 Save, 11 Unlock, 12 Unlock, 13 Return, ",
    ),
    (
        LIST,
        (1, &[6, 13], &[], &[6], &[6]),
        0,
        &[false],
        "4 Turn, 4 Branch, 13 Load s7, 13 Call, 13 Save, 14 Return, ",
    ),
];

#[test]
fn a_plan_puts_saves_and_marks_into_graphs(rt: HostRuntime) -> Result<(), Fail> {
    let alloc = rt.alloc();
    for (text, plan, function, ways, walk) in PLANNED {
        assert_eq!(rt; answer(alloc, text, plan, function, ways)?.as_str(), walk);
    }
    Ok(())
}
