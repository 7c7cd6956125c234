//! The typed tree.

use crate::lists::Exps;
use crate::values::Value;
use ca_tree::listed::Listed;
use ca_tree::{FunId, GlobalId, ItemId, MutexId, Pos, Text, VarId};
use sqlite_items::Boxed;

/// The type that a cell is loaded at, which its value has to fit.
#[derive(Clone, Copy, Debug, PartialEq, Eq)]
pub enum LoadKind {
    Int,
    Pointer,
    Thread,
}

/// An operator of two operands (C11 6.5.5, 6.5.6, 6.5.8, 6.5.9).
#[derive(Clone, Copy, Debug, PartialEq, Eq)]
pub enum BinOp {
    Add,
    Sub,
    Mul,
    Div,
    Rem,
    Less,
    LessSame,
    More,
    MoreSame,
    Same,
    Differs,
}

/// A cell: an address, displaced by an index times a number of cells, and by a field.
#[cycle(exp)]
#[derive(Drop)]
pub struct Place {
    pub base: Boxed<Exp>,
    /// The index, and the cells of one element.
    pub index: Option<(Boxed<Exp>, u32)>,
    /// The cells before the field.
    pub field: u32,
    /// Whether an access to it is a site: it goes through a pointer or an index.
    pub through: bool,
}

/// An expression of a type that fits.
#[cycle(exp)]
#[derive(Drop)]
pub enum Exp {
    Num(i32),
    Null,
    Local(VarId),
    /// The address of the first cell of a global.
    Global(GlobalId),
    Load(Place, LoadKind),
    /// An `&`, or a pointer plus an `int`.
    AddressOf(Place),
    Negate(Boxed<Exp>),
    Not(Boxed<Exp>),
    Binary(BinOp, Boxed<Exp>, Boxed<Exp>),
    And(Boxed<Exp>, Boxed<Exp>),
    Or(Boxed<Exp>, Boxed<Exp>),
}

/// What a value is stored to.
#[derive(Drop)]
pub enum Target {
    Local(VarId),
    Place(Place),
}

/// What an item does.
#[derive(Drop)]
pub enum Act {
    /// A declaration without an initialiser.
    Zero(VarId),
    Set(Target, Exp),
    /// `op=`, `++` or `--`.
    Update(Target, BinOp, Exp),
    /// A `malloc` of a count of elements, with the cells of one.
    Malloc(Target, Exp, u32),
    /// A call of a function of the source, and the local that takes its result.
    Call(Option<VarId>, FunId, Exps),
    Lock(MutexId),
    Unlock(MutexId),
    Create(VarId, FunId, Exp),
    Join(Exp),
    Free(Exp),
    Assert(Exp),
    Print(Text, Exps),
    Return(Option<Exp>),
    /// The condition of an `if` or a loop.
    Cond(Exp),
    /// The closing brace of a function.
    Close,
}

/// An item of the program: its number, the place of its first character, and what it does.
#[derive(Drop)]
pub struct Item {
    pub id: ItemId,
    pub pos: Pos,
    pub act: Act,
}

/// Statements in order.
pub type Stmts = Listed<Stmt>;

/// A statement. A condition is an item whose act is `Cond`; an absent one is true.
#[derive(Drop)]
pub enum Stmt {
    Item(Item),
    Block(Stmts),
    If {
        cond: Item,
        yes: Boxed<Stmt>,
        no: Option<Boxed<Stmt>>,
    },
    While {
        cond: Item,
        body: Boxed<Stmt>,
    },
    Do {
        body: Boxed<Stmt>,
        cond: Item,
    },
    For {
        first: Option<Item>,
        cond: Item,
        step: Option<Item>,
        body: Boxed<Stmt>,
    },
    Break,
    Continue,
}

/// A function of the source.
#[derive(Drop)]
pub struct Function {
    pub id: FunId,
    pub parameters: u32,
    /// The number of its locals, parameters included.
    pub locals: u32,
    pub body: Stmts,
    pub close: Item,
}

/// A global's size, and the value with which its first cell opens.
#[derive(Clone, Copy, Debug, PartialEq, Eq)]
pub struct GlobalStart {
    pub cells: u32,
    pub first: Value,
}
