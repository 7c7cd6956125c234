//! Expressions whose trees are made by hand, where `g` is a global and `x` a local.
use crate::{Faults, INT, Scope, operand, value_in};
use ca_model::{Exp as TypedExp, Meaning, Operand, TypeFault, TypeKind, ValueType, Wanted};
use ca_tree::tree::{BinaryOp, Exp, Name, UnaryOp};
use ca_tree::{GlobalId, Listed, NoMemory, Pos, Text, VarId};
use sqlite_items::Boxed;
use std::alloc::Global;
use std::test::Fail;

#[derive(Drop)]
struct Case {
    global: Text,
    local: Text,
    exp: Exp,
}

fn at(column: u32) -> Pos {
    Pos { line: 1, column }
}

fn text(alloc: Global, bytes: &[u8]) -> Result<Text, NoMemory> {
    Ok(Listed::from_vec(bytes.to_vec(alloc)?))
}

fn name(alloc: Global, column: u32, bytes: &[u8]) -> Result<Exp, NoMemory> {
    let text = text(alloc, bytes)?;
    Ok(Exp::Name(Name {
        pos: at(column),
        text,
    }))
}

fn binary(
    alloc: Global,
    column: u32,
    op: BinaryOp,
    left: Exp,
    right: Exp,
) -> Result<Exp, NoMemory> {
    let (left, right) = (Boxed::new(alloc, left)?, Boxed::new(alloc, right)?);
    Ok(Exp::Binary(at(column), op, left, right))
}

fn case_of(alloc: Global, exp: Exp) -> Result<Case, NoMemory> {
    Ok(Case {
        global: text(alloc, b"g".as_slice())?,
        local: text(alloc, b"x".as_slice())?,
        exp,
    })
}

fn scope_of(alloc: Global, case: &Case) -> Result<Scope<'_>, NoMemory> {
    let mut scope = Scope::new(alloc);
    let global = Meaning::Global(GlobalId(0), Some(INT));
    scope.declare_global(case.global.as_slice(), global)?;
    scope.push_local(case.local.as_slice(), Meaning::Local(VarId(0), Some(INT)))?;
    Ok(scope)
}

fn operand_of(
    alloc: Global,
    case: &Case,
    faults: &mut Faults,
) -> Result<Option<Operand>, NoMemory> {
    let scope = scope_of(alloc, case)?;
    operand(alloc, &scope, &case.exp, faults)
}

fn scalar_of(alloc: Global, case: &Case, faults: &mut Faults) -> Result<TypedExp, NoMemory> {
    let scope = scope_of(alloc, case)?;
    value_in(alloc, &scope, Wanted::Scalar, &case.exp, faults)
}

fn is_binary_int(operand: &Option<Operand>) -> bool {
    match operand {
        Some(Operand::Value(ValueType::Int, TypedExp::Binary(..))) => true,
        _ => false,
    }
}

#[test]
fn a_sum_of_a_global_and_a_local_is_an_int(rt: HostRuntime) -> Result<(), Fail> {
    let alloc = rt.alloc();
    let (left, right) = (name(alloc, 1, b"g")?, name(alloc, 5, b"x")?);
    let case = case_of(alloc, binary(alloc, 1, BinaryOp::Add, left, right)?)?;
    let mut faults = Faults::none();
    let operand = operand_of(alloc, &case, &mut faults)?;
    assert!(rt; is_binary_int(&operand));
    assert_eq!(rt; faults.answer(), None);
    Ok(())
}

// `&(x * z)`: `z` isn't declared, and `x * z` is no place, which stands before it.
#[test]
fn the_first_fault_is_told_where_a_later_one_is_found_before_it(
    rt: HostRuntime,
) -> Result<(), Fail> {
    let alloc = rt.alloc();
    let (left, right) = (name(alloc, 3, b"x")?, name(alloc, 7, b"z")?);
    let product = Boxed::new(alloc, binary(alloc, 3, BinaryOp::Mul, left, right)?)?;
    let case = case_of(alloc, Exp::Unary(at(1), UnaryOp::AddressOf, product))?;
    let mut faults = Faults::none();
    let _zero = scalar_of(alloc, &case, &mut faults)?;
    let first = TypeFault {
        pos: at(3),
        kind: TypeKind::NotLvalue,
    };
    assert_eq!(rt; faults.answer(), Some(first));
    Ok(())
}
