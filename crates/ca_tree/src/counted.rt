//! What a program has a limited number of.

/// What a program has at most a number of, in the order in which limits that are exceeded at one token are answered.
#[derive(Clone, Copy, Debug, PartialEq, Eq)]
pub enum Counted {
    /// 65,536 items.
    Items,
    /// 256 functions that are defined.
    Functions,
    /// 1,024 globals that are no mutexes.
    Globals,
    /// 64 mutexes.
    Mutexes,
    /// 64 structs.
    Structs,
    /// 64 fields in a struct.
    Fields,
    /// 16 parameters of a function.
    Parameters,
    /// 8 arguments of a `printf` behind its format.
    Arguments,
    /// Statements within statements, and expressions within expressions, to a depth of 64 each.
    Nesting,
    /// 256 bytes in a string, after its escapes.
    StringBytes,
    /// 63 bytes in a name.
    NameBytes,
}
