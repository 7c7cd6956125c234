//! A program as it is read, in the order of its text.

use crate::listed::Listed;
use crate::numbers::ItemId;
use crate::text::{Pos, Text};
use sqlite_items::Boxed;

/// A name, and the place of its first character.
#[derive(Drop)]
pub struct Name {
    pub pos: Pos,
    pub text: Text,
}

/// An operator of one operand (C11 6.5.3).
#[derive(Clone, Copy, Debug, PartialEq, Eq)]
pub enum UnaryOp {
    /// `-`
    Negate,
    /// `!`
    Not,
    /// `*`
    Deref,
    /// `&`
    AddressOf,
}

/// An operator of two operands (C11 6.5.5, 6.5.6, 6.5.8, 6.5.9, 6.5.13, 6.5.14).
#[derive(Clone, Copy, Debug, PartialEq, Eq)]
pub enum BinaryOp {
    /// `*`
    Mul,
    /// `/`
    Div,
    /// `%`
    Rem,
    /// `+`
    Add,
    /// `-`
    Sub,
    /// `<`
    Less,
    /// `>`
    More,
    /// `<=`
    LessSame,
    /// `>=`
    MoreSame,
    /// `==`
    Same,
    /// `!=`
    Differs,
    /// `&&`
    And,
    /// `||`
    Or,
}

/// An expression (C11 6.5) and the place of its first character. Parentheses directly round an expression are no part
/// of it: `(a + b)` begins at `a`, and `(a + b) % c` at its `(`.
#[derive(Drop)]
pub enum Exp {
    Number(Pos, i32),
    /// `NULL`
    Null(Pos),
    Name(Name),
    Unary(Pos, UnaryOp, Boxed<Exp>),
    Binary(Pos, BinaryOp, Boxed<Exp>, Boxed<Exp>),
    /// `a[i]`
    Index(Pos, Boxed<Exp>, Boxed<Exp>),
    /// `a.f`
    Field(Pos, Boxed<Exp>, Name),
    /// `a->f`
    Arrow(Pos, Boxed<Exp>, Name),
}

/// `int`, or a struct by its tag.
#[derive(Drop)]
pub enum Base {
    Int,
    Struct(Name),
}

/// A base and the number of stars behind it.
#[derive(Drop)]
pub struct Type {
    pub base: Base,
    pub stars: usize,
}

/// An item: its number, from 1 in the order of the text, and the place of its first character.
#[derive(Clone, Copy, Debug, PartialEq, Eq)]
pub struct ItemAt {
    pub id: ItemId,
    pub pos: Pos,
}

/// A call of a function of the source.
#[derive(Drop)]
pub struct Call {
    pub name: Name,
    pub arguments: Listed<Exp>,
}

/// `malloc` of a count of elements of a type, one where no count is written, with the place of its first character,
/// that of its cast where it has one.
#[derive(Drop)]
pub struct Malloc {
    pub pos: Pos,
    pub cast: Option<Type>,
    pub count: Option<Exp>,
    pub of: Type,
}

/// The right side of an assignment, or of a local's declaration.
#[derive(Drop)]
pub enum Right {
    Value(Exp),
    Call(Call),
    Malloc(Malloc),
}

/// A call of the library.
#[derive(Drop)]
pub enum Library {
    /// `pthread_mutex_lock` of a mutex.
    Lock(Name),
    /// `pthread_mutex_unlock` of a mutex.
    Unlock(Name),
    /// `pthread_create`: the local for the thread's number, the function, and its argument.
    Create(Name, Name, Exp),
    /// `pthread_join`
    Join(Exp),
    Free(Exp),
    Assert(Exp),
    /// `printf`: its format with the format's place, and the arguments behind it.
    Print(Pos, Text, Listed<Exp>),
}

/// The operator of an assignment that reads its target first (C11 6.5.16.2).
#[derive(Clone, Copy, Debug, PartialEq, Eq)]
pub enum UpdateOp {
    /// `+=`
    Add,
    /// `-=`
    Sub,
    /// `*=`
    Mul,
    /// `/=`
    Div,
    /// `%=`
    Rem,
}

/// A simple statement. `x++` and `++x` are `x += 1`, and `x--` and `--x` are `x -= 1`, with the 1 at the place of the
/// mark.
#[derive(Drop)]
pub enum Simple {
    Set(Exp, Right),
    Update(Exp, UpdateOp, Exp),
    Call(Call),
    Library(Library),
}

/// A local that is no `pthread_t`. Its item begins at the declaration's first word for the first declarator, and at
/// the declarator's first token for the others.
#[derive(Drop)]
pub struct LocalDeclarator {
    pub item: ItemAt,
    pub stars: usize,
    pub name: Name,
    pub value: Option<Right>,
}

/// A `pthread_t` local. Its item begins as that of another local does.
#[derive(Drop)]
pub struct ThreadLocal {
    pub item: ItemAt,
    pub name: Name,
}

/// A declaration of locals.
#[derive(Drop)]
pub enum Locals {
    Threads(Listed<ThreadLocal>),
    Variables(Base, Listed<LocalDeclarator>),
}

/// What a `for` does first.
#[derive(Drop)]
pub enum ForFirst {
    Simple(ItemAt, Simple),
    Local(Base, LocalDeclarator),
}

/// The head of a `for`. An absent condition is an item, at the `;` behind it, that is true.
#[derive(Drop)]
pub struct ForHead {
    pub first: Option<ForFirst>,
    pub item: ItemAt,
    pub condition: Option<Exp>,
    pub step: Option<(ItemAt, Simple)>,
}

/// A statement, or a declaration of locals, which stands directly in a block alone. A condition is an item at its
/// expression's place.
#[derive(Drop)]
pub enum Stmt {
    Block(Listed<Stmt>),
    Locals(Locals),
    /// `;`
    Empty,
    Simple(ItemAt, Simple),
    Return(ItemAt, Option<Exp>),
    Break(Pos),
    Continue(Pos),
    If(ItemAt, Exp, Boxed<Stmt>, Option<Boxed<Stmt>>),
    While(ItemAt, Exp, Boxed<Stmt>),
    Do(Boxed<Stmt>, ItemAt, Exp),
    For(ForHead, Boxed<Stmt>),
}

/// A name with the stars before it.
#[derive(Drop)]
pub struct Declarator {
    pub stars: usize,
    pub name: Name,
}

/// Fields of one base.
#[derive(Drop)]
pub struct Fields {
    pub base: Base,
    pub declarators: Listed<Declarator>,
}

/// The definition of a struct.
#[derive(Drop)]
pub struct Struct {
    pub name: Name,
    pub fields: Listed<Fields>,
}

/// A mutex, and whether `PTHREAD_MUTEX_INITIALIZER` stands behind it.
#[derive(Drop)]
pub struct MutexDeclarator {
    pub name: Name,
    pub has_initializer: bool,
}

/// A global `pthread_t`, or an array of them with its length.
#[derive(Drop)]
pub struct ThreadDeclarator {
    pub name: Name,
    pub length: Option<i32>,
}

/// The constant of a global.
#[derive(Clone, Copy, Debug, PartialEq, Eq)]
pub enum Constant {
    Number(i32),
    /// `NULL`
    Null,
}

/// What stands behind the name of a global that is neither a mutex nor a `pthread_t`.
#[derive(Clone, Copy, Debug, PartialEq, Eq)]
pub enum GlobalForm {
    Plain,
    /// An array, with its length.
    Array(i32),
    Constant(Constant),
}

/// A global that is neither a mutex nor a `pthread_t`.
#[derive(Drop)]
pub struct GlobalDeclarator {
    pub stars: usize,
    pub name: Name,
    pub form: GlobalForm,
}

/// A declaration of globals.
#[derive(Drop)]
pub enum Globals {
    Mutexes(Listed<MutexDeclarator>),
    Threads(Listed<ThreadDeclarator>),
    Variables(Base, Listed<GlobalDeclarator>),
}

/// What a function gives.
#[derive(Drop)]
pub enum ResultType {
    Void,
    /// `void *`
    Pointer,
    Value(Type),
}

/// The type of a parameter.
#[derive(Drop)]
pub enum ParameterType {
    /// `void *`
    Pointer,
    Value(Type),
}

/// A parameter. A prototype may leave its name out.
#[derive(Drop)]
pub struct Parameter {
    pub of: ParameterType,
    pub name: Option<Name>,
}

/// The body of a function. Its closing brace is an item.
#[derive(Drop)]
pub struct Body {
    pub statements: Listed<Stmt>,
    pub close: ItemAt,
}

/// A function, or a prototype, which has no body. `()` and `(void)` are no parameters.
#[derive(Drop)]
pub struct Function {
    pub result: ResultType,
    pub name: Name,
    pub parameters: Listed<Parameter>,
    pub body: Option<Body>,
}

/// A declaration outside of functions.
#[derive(Drop)]
pub enum Top {
    Struct(Struct),
    Globals(Globals),
    Function(Function),
}

/// A program: its declarations in order.
#[derive(Drop)]
pub struct Program {
    pub tops: Listed<Top>,
}
