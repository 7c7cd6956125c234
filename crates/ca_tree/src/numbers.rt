//! Numbers of the things of a source.

/// A function, from 0 in order of definition.
#[derive(Clone, Copy, Debug, PartialEq, Eq)]
pub struct FunId(pub u32);

/// A mutex, from 0 in order of declaration.
#[derive(Clone, Copy, Debug, PartialEq, Eq)]
pub struct MutexId(pub u32);

/// A global that is no mutex, from 0 in order of declaration. It is also the number of its block.
#[derive(Clone, Copy, Debug, PartialEq, Eq)]
pub struct GlobalId(pub u32);

/// A parameter or local of a function, from 0, parameters first and then in order of declaration.
#[derive(Clone, Copy, Debug, PartialEq, Eq)]
pub struct VarId(pub u32);

/// An item of the program, from 1 in the order of the text.
#[derive(Clone, Copy, Debug, PartialEq, Eq)]
pub struct ItemId(pub u32);

/// A site where the program can fail, from 1 in order of item and evaluation.
#[derive(Clone, Copy, Debug, PartialEq, Eq)]
pub struct SiteId(pub u32);

/// A struct, from 0 in order of definition.
#[derive(Clone, Copy, Debug, PartialEq, Eq)]
pub struct StructId(pub u32);
