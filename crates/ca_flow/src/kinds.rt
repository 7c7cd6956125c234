//! Which instructions destroy, and which acquire.

ghost use Rattle.std.specs.Prelude.{◌≡◌, MatchBool};
ghost use Rattle.ca_model.specs.Destroying.{ends_item};
ghost use Rattle.ca_flow.specs.Kinds.{AlwaysWants, NeverWants, is_acquisition, destroys_by_kind, acquires_by_kind};

use crate::instr::Instr;

fn destroys_by_kind(instr: &Instr) -> bool
    ensures { result ≡ destroys_by_kind instr.now }
{
    match instr {
        Instr::Store { .. } | Instr::Unlock(_) | Instr::Free { .. } | Instr::Print { .. } => true,
        Instr::Create { .. } | Instr::Join { .. } | Instr::Call { .. } | Instr::Return(_) => true,
        _ => false,
    }
}

fn acquires_by_kind(instr: &Instr) -> bool
    ensures { result ≡ acquires_by_kind instr.now }
{
    match instr {
        Instr::Lock { .. } | Instr::Malloc { .. } => true,
        _ => false,
    }
}

/// Whether an instruction makes its item a destroying one: a store to a global or through a pointer or index, an unlock, a
/// `free`, a `printf`, a create, a join, a call and a return do. An attempt that has made it can't be undone. It takes no
/// memory.
pub fn is_destroying(instr: &Instr) -> bool
    ensures { MatchBool result (AlwaysWants ends_item instr.now) (NeverWants ends_item instr.now) }
{
    destroys_by_kind(instr)
}

/// Whether an instruction acquires: it is a lock or a `malloc`, whatever the plan is. It takes no memory.
pub fn is_acquiring(instr: &Instr) -> bool
    ensures { MatchBool result (AlwaysWants is_acquisition instr.now) (NeverWants is_acquisition instr.now) }
{
    acquires_by_kind(instr)
}
