//! The widest function, and as many functions as there may be.
use crate::graphs::{NO_PLAN, lowered};
use ca_flow::Code;
use ca_lower::lower;
use ca_model::{Plan, fits};
use ca_tree::{FunId, ItemId};
use ca_worked::{repeated, typing};
use std::alloc::{AllocError, Global};
use std::test::Fail;

// Some text, and behind it another one for each number below a count, with the number in it.
fn numbered(
    alloc: Global,
    text: &mut Vec<u8>,
    front: &str,
    count: u32,
    back: &str,
) -> Result<(), AllocError> {
    for number in 0..count {
        let one = format!(in alloc; "{front}{number}{back}")?;
        text.extend_from_slice(one.as_bytes())?;
    }
    Ok(())
}

// A sum of so many parts and one more, and as deep.
fn sum(alloc: Global, parts: u32) -> Result<Vec<u8>, AllocError> {
    let open = repeated(alloc, b"", b"(1+", parts, b"1")?;
    repeated(alloc, &open, b")", parts, b"")
}

// A call of 16 arguments, a print of 8 and an update of an element, each expression 64 deep, behind 128 locals.
fn widest(alloc: Global) -> Result<Vec<u8>, AllocError> {
    let deepest = sum(alloc, 63)?;
    let index = sum(alloc, 62)?;
    let more = repeated(alloc, b",", &deepest, 1, b"")?;
    let mut text = Vec::from_slice(alloc, b"int g[2]; int f(int b")?;
    numbered(alloc, &mut text, ", int b", 15, "")?;
    text.extend_from_slice(b") { return b; } int main(void) {")?;
    numbered(alloc, &mut text, "int a", 128, ";")?;
    text.extend_from_slice(b"a0 = f(")?;
    let call = repeated(alloc, &deepest, &more, 15, b"); printf(\"")?;
    text.extend_from_slice(&call)?;
    let print = repeated(alloc, b"", b"%d", 8, b"\"")?;
    text.extend_from_slice(&print)?;
    let arguments = repeated(alloc, b"", &more, 8, b"); g[")?;
    text.extend_from_slice(&arguments)?;
    let update = repeated(alloc, &index, b"] += ", 1, &deepest)?;
    text.extend_from_slice(&update)?;
    text.extend_from_slice(b"; return 0; }")?;
    Ok(text)
}

#[test]
fn the_widest_function_has_at_most_256_registers(rt: HostRuntime) -> Result<(), Fail> {
    let alloc = rt.alloc();
    let text = widest(alloc)?;
    match lowered(alloc, &text, NO_PLAN)? {
        Some(code) => {
            assert_eq!(rt; code.graphs().len(), 2);
            for graph in code.graphs() {
                assert!(rt; graph.registers() <= 256);
                assert!(rt; graph.registers() >= 16);
            }
        }
        None => assert!(rt; false),
    }
    Ok(())
}

// 255 functions each of which calls the first 254, and a `main` that calls the first.
fn called_from_everywhere(alloc: Global) -> Result<Vec<u8>, AllocError> {
    let mut calls = Vec::new(alloc);
    numbered(alloc, &mut calls, "f", 254, "();")?;
    calls.extend_from_slice(b"}\n")?;
    let mut text = Vec::new(alloc);
    numbered(alloc, &mut text, "void f", 255, "(void);\n")?;
    for number in 0..255 {
        let head = format!(in alloc; "void f{number}(void) {{")?;
        text.extend_from_slice(head.as_bytes())?;
        text.extend_from_slice(&calls)?;
    }
    text.extend_from_slice(b"int main(void) { f0(); return 0; }")?;
    Ok(text)
}

// A function `k` below 255 that doesn't have the items from `255 k + 1` to `255 k + 255`: a call of each of the first 254
// functions, and its closing brace.
fn wrong_function(code: &Code) -> Option<usize> {
    let mut lowest = 1u32;
    for (k, graph) in code.graphs().iter().enumerate() {
        if k < 255 && (graph.lowest() != lowest || graph.count() != 255) {
            return Some(k);
        }
        lowest = lowest.saturating_add(255);
    }
    None
}

// An item among those that call a function that isn't as expected: there is one in each function, in the same place.
fn wrong_call(calls: &[ItemId], function: u32) -> Option<ItemId> {
    let mut expected = function.saturating_add(1);
    for item in calls {
        if item.0 != expected {
            return Some(*item);
        }
        expected = expected.saturating_add(255);
    }
    None
}

// How many items call a function, from what to what.
fn count_of_calls(function: u32) -> usize {
    match function {
        0 => 256,
        1..254 => 255,
        _ => 0,
    }
}

#[test]
fn each_of_256_functions_is_called_from_everywhere(rt: HostRuntime) -> Result<(), Fail> {
    let alloc = rt.alloc();
    let text = called_from_everywhere(alloc)?;
    let Ok(source) = typing(alloc, &text)? else {
        assert!(rt; false);
        return Ok(());
    };
    let plan = Plan::empty(alloc);
    let does_fit = fits(&source, &plan);
    assert!(rt; does_fit);
    if !does_fit {
        return Ok(());
    }
    let code = lower(alloc, &source, &plan)?;
    assert_eq!(rt; code.graphs().len(), 256);
    assert_eq!(rt; code.main(), FunId(255));
    assert_eq!(rt; wrong_function(&code), None);
    for function in 0..source.functions() {
        let calls = code.calls_of(FunId(function));
        assert_eq!(rt; calls.len(), count_of_calls(function));
        assert_eq!(rt; wrong_call(calls, function), None);
        assert_eq!(rt; code.is_start(FunId(function)), function == 255);
    }
    Ok(())
}
