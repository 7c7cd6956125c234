//! The text that a print writes (C11 7.21.6.1), put where there is room for it.

ghost use Rattle.std.specs.Prelude.{◌≡◌, ◌++◌, ◌≤◌, ◌<◌, ◌+◌, ◌*◌, [], List, map, length, vec_capacity};
ghost use Rattle.std.specs.Fmt.{signed_decimal};
ghost use Rattle.ca_model.specs.Printed.{written, first_written, rest_of};
ghost use Rattle.ca_model.specs.Arith.{number};
ghost use Rattle.ca_flow.specs.Instructions.{reg};
ghost use Rattle.ca_flow.specs.Lowerings.{IsShort};
ghost use Rattle.ca_thread.specs.Asked.{IsText};

use crate::frames::Row;
use crate::own::number_in;
use ca_flow::{Instr, Reg};
use itoa::Buffer;

// Bytes at the end of a text with room for them.
fn put_bytes(text: &mut Vec<u8>, bytes: &[u8])
    requires { length text.old.items + length bytes.now ≤ vec_capacity text.old }
    ensures items { text.new.items ≡ text.old.items ++ bytes.now }
    ensures room { vec_capacity text.old ≤ vec_capacity text.new }
{
    let _ = text.extend_from_slice(bytes);
}

// A number in decimal.
fn put_number(text: &mut Vec<u8>, n: i32)
    requires { length text.old.items + 11 ≤ vec_capacity text.old }
    ensures items { text.new.items ≡ text.old.items ++ signed_decimal n }
    ensures short { length (signed_decimal n) ≤ 11 }
    ensures room { vec_capacity text.old ≤ vec_capacity text.new }
{
    let mut buffer = Buffer::new();
    let digits = buffer.format(n);
    put_bytes(text, digits.as_bytes());
}

// The next argument, if there is one; the others are left.
fn put_argument<'a>(text: &mut Vec<u8>, row: &Row, arguments: &'a [Reg]) -> &'a [Reg]
    requires { length text.old.items + 2 + 9 * length arguments.now ≤ vec_capacity text.old }
    ensures items { text.new.items ≡ text.old.items ++ first_written (map (reg row.now) arguments.now) }
    ensures rest { map (reg row.now) result.now ≡ rest_of (map (reg row.now) arguments.now) }
    ensures fits { length text.new.items + 9 * length result.now ≤ length text.old.items + 2 + 9 * length arguments.now }
    ensures room { vec_capacity text.old ≤ vec_capacity text.new }
{
    match arguments.split_first() {
        None => arguments,
        Some((first, rest)) => {
            put_number(text, number_in(row, *first));
            rest
        }
    }
}

// The next part of a format; the format and the arguments that are left.
fn put_next<'a>(
    text: &mut Vec<u8>,
    format: &'a [u8],
    row: &Row,
    arguments: &'a [Reg],
) -> (&'a [u8], &'a [Reg])
    requires some { 0 < length format.now }
    requires room { length text.old.items + length format.now + 9 * length arguments.now ≤ vec_capacity text.old }
    ensures written { text.new.items ++ written result.0.now (map (reg row.now) result.1.now) ≡ text.old.items ++ written format.now (map (reg row.now) arguments.now) }
    ensures less { length result.0.now < length format.now }
    ensures fits { length text.new.items + length result.0.now + 9 * length result.1.now ≤ length text.old.items + length format.now + 9 * length arguments.now }
    ensures room { vec_capacity text.old ≤ vec_capacity text.new }
{
    let first = format[0];
    if format.len() == 1 {
        put_bytes(text, &[first]);
        return (&format[1..], arguments);
    }
    if first != b'%' {
        put_bytes(text, &[first]);
        return (&format[1..], arguments);
    }
    if format[1] == b'%' {
        put_bytes(text, &[first]);
        return (&format[2..], arguments);
    }
    let left = put_argument(text, row, arguments);
    (&format[2..], left)
}

/// The text that a print writes, in the place of another one.
pub(crate) fn write_text(text: &mut Vec<u8>, format: &[u8], row: &Row, arguments: &[Reg])
    requires { length format.now + 9 * length arguments.now ≤ vec_capacity text.old }
    ensures text { text.new.items ≡ written format.now (map (reg row.now) arguments.now) }
    ensures room { vec_capacity text.old ≤ vec_capacity text.new }
{
    text.clear();
    let mut format = format;
    let mut arguments = arguments;
    'parts: while !format.is_empty() {
        let (rest, left) = put_next(text, format, row, arguments);
        format = rest;
        arguments = left;
    }
}

/// The text that an instruction writes, if it writes one.
pub(crate) fn write_asked(text: &mut Vec<u8>, instr: &Instr, row: &Row)
    requires room { 328 ≤ vec_capacity text.old }
    requires short { IsShort instr.now }
    ensures text { IsText instr.now row.now text.new.items }
    ensures room { vec_capacity text.old ≤ vec_capacity text.new }
{
    let Instr::Print { format, arguments } = instr else {
        return;
    };
    write_text(text, format.as_slice(), row, arguments.as_slice());
}
