// Edges of the operators, worked by hand from C11 6.5.
use super::{Arith, binary, displace, negate, operated, same, suits, truth};
use ca_model::{Addr, BinOp, LoadKind, Value};

const MOST: i32 = i32::MAX;

const LEAST: i32 = i32::MIN;

fn at(block: u32, offset: i32) -> Value {
    Value::Addr(Addr { block, offset })
}

#[test]
fn operators_have_no_result_outside_32_bits_and_at_a_divisor_0(rt: HostRuntime) {
    for (op, a, b, want) in [
        (BinOp::Add, MOST, 1, Err(Arith)),
        (BinOp::Add, MOST, 0, Ok(MOST)),
        (BinOp::Sub, LEAST, 1, Err(Arith)),
        (BinOp::Sub, 0, LEAST, Err(Arith)),
        (BinOp::Mul, 46341, 46341, Err(Arith)),
        (BinOp::Mul, -65536, 32768, Ok(LEAST)),
        (BinOp::Div, LEAST, -1, Err(Arith)),
        (BinOp::Div, -7, 2, Ok(-3)),
        (BinOp::Div, 1, 0, Err(Arith)),
        (BinOp::Rem, LEAST, -1, Err(Arith)),
        (BinOp::Rem, -7, 2, Ok(-1)),
        (BinOp::Rem, 7, -2, Ok(1)),
        (BinOp::Rem, 0, 0, Err(Arith)),
        (BinOp::Less, -1, 0, Ok(1)),
        (BinOp::MoreSame, -1, 0, Ok(0)),
        (BinOp::Differs, 5, 5, Ok(0)),
    ] {
        assert_eq!(rt; binary(op, a, b), want, "{op:?} {a} {b}");
    }
    assert_eq!(rt; negate(LEAST), Err(Arith));
    assert_eq!(rt; negate(MOST), Ok(-MOST));
}

#[test]
fn values_are_compared_moved_and_tested(rt: HostRuntime) {
    assert!(rt; !truth(Value::Num(0)) && truth(Value::Num(-1)) && truth(at(0, 0)));
    assert!(rt;
        same(at(3, -1), at(3, -1)) && !same(at(3, 0), at(4, 0)) && !same(at(0, 0), Value::Num(0))
    );
    assert_eq!(rt; displace(at(3, -1), 1), Ok(at(3, 0)));
    assert_eq!(rt; displace(at(3, MOST), 1), Err(Arith));
    assert_eq!(rt; displace(at(3, 0), i64::MAX), Err(Arith));
    assert_eq!(rt; displace(Value::Num(7), 0), Ok(Value::Num(7)));
    assert_eq!(rt; displace(Value::Num(0), 1), Err(Arith));
    assert!(rt;
        suits(LoadKind::Pointer, Value::Num(0)) && !suits(LoadKind::Pointer, Value::Num(1))
    );
    assert!(rt; suits(LoadKind::Int, Value::Num(1)) && !suits(LoadKind::Thread, at(0, 0)));
    assert_eq!(rt;
        operated(BinOp::Same, at(1, 0), Value::Num(0)),
        Ok(Value::Num(0))
    );
    assert_eq!(rt;
        operated(BinOp::Sub, Value::Num(5), Value::Num(7)),
        Ok(Value::Num(-2))
    );
}
