//! The typed tree, the plain types, and the definitions of the machine.
#![tactic(auto)]

mod attempt_laws;
mod checked;
mod frame_laws;
mod item_laws;
mod lists;
mod plan;
mod plan_fits;
mod plan_laws;
mod run_laws;
mod runner_laws;
mod tree;
mod types;
mod typing_laws;
mod values;

pub use attempt_laws::{projections_have_no_marks, retries_are_bounded};
pub use checked::{Checked, checked_sources_and_plans_cross_threads};
pub use frame_laws::{
    control_follows_links, frames_are_in_progress, items_begin_once, silent_steps_end,
};
pub use item_laws::{
    answers_in_order, items_answer_in_order, other_items_destroy_nothing, sites_are_their_own,
    sites_come_in_order, sites_have_their_numbers, the_destroying_effect_is_last,
};
pub use lists::{Events, Exps, FunList, Gives, ItemList, Numbers, SiteList};
pub use plan::Plan;
pub use plan_fits::fits;
pub use plan_laws::{the_empty_plan_is_sound, the_plan_of_a_source_is_sound};
pub use run_laws::{
    a_run_has_matched_parts, a_write_changes_its_cell_alone, entries_tell_the_frames,
    matched_parts_make_a_run, none_waits_in_vain, nothing_is_taken_back, parts_make_a_run,
    runs_come_apart, steps_are_fixed, without_a_plan_it_is_the_source,
};
pub use runner_laws::{the_runner_gives_a_run, the_runner_is_a_function};
pub use tree::{
    Act, BinOp, Exp, Function, GlobalStart, Item, LoadKind, Place, Stmt, Stmts, Target,
};
pub use types::{Kind, Meaning, ObjectType, Operand, TypeFault, TypeKind, ValueType, Wanted};
pub use typing_laws::{
    a_program_has_a_typing_or_a_fault, typed_programs_are_printable, typed_programs_are_well_formed,
};
pub use values::{Addr, Ending, Event, EventAct, FaultKind, Given, Value};
