// The words of faults.
ghost use Rattle.std.specs.Prelude.{◌≡◌};
ghost use Rattle.ca_cmd.specs.FaultTexts.{lex_words, left_out_words, too_many_words, read_words, type_words};

use ca_grammar::{Counted, LeftOut, ReadKind};
use ca_model::TypeKind;
use ca_tree::LexKind;

/// The name of a kind of faults of a text without tokens.
pub fn lex_words(kind: LexKind) -> &'static str
    ensures { result.now ≡ lex_words kind }
{
    match kind {
        LexKind::TooLong => "TooLong",
        LexKind::NotUtf8 => "NotUtf8",
        LexKind::BadChar => "BadChar",
        LexKind::OpenComment => "OpenComment",
        LexKind::OpenString => "OpenString",
        LexKind::NumberForm => "NumberForm",
        LexKind::NumberTooLarge => "NumberTooLarge",
    }
}

fn left_out_words(part: LeftOut) -> &'static str
    ensures { result.now ≡ left_out_words part }
{
    match part {
        LeftOut::Preprocessor => "LeftOut Preprocessor",
        LeftOut::Keyword => "LeftOut Keyword",
        LeftOut::InnerCall => "LeftOut InnerCall",
        LeftOut::Operator => "LeftOut Operator",
    }
}

fn too_many_words(of: Counted) -> &'static str
    ensures { result.now ≡ too_many_words of }
{
    match of {
        Counted::Items => "TooMany Items",
        Counted::Functions => "TooMany Functions",
        Counted::Globals => "TooMany Globals",
        Counted::Mutexes => "TooMany Mutexes",
        Counted::Structs => "TooMany Structs",
        Counted::Fields => "TooMany Fields",
        Counted::Parameters => "TooMany Parameters",
        Counted::Arguments => "TooMany Arguments",
        Counted::Nesting => "TooMany Nesting",
        Counted::StringBytes => "TooMany StringBytes",
        Counted::NameBytes => "TooMany NameBytes",
    }
}

/// The name of a kind of faults of tokens that are no program, with the inner name behind a space.
pub fn read_words(kind: ReadKind) -> &'static str
    ensures { result.now ≡ read_words kind }
{
    match kind {
        ReadKind::Grammar => "Grammar",
        ReadKind::LeftOut(part) => left_out_words(part),
        ReadKind::TooMany(of) => too_many_words(of),
    }
}

/// The name of a kind of faults of a program without a typing.
pub fn type_words(kind: TypeKind) -> &'static str
    ensures { result.now ≡ type_words kind }
{
    match kind {
        TypeKind::Unknown => "Unknown",
        TypeKind::Twice => "Twice",
        TypeKind::ThreadForm => "ThreadForm",
        TypeKind::NotLvalue => "NotLvalue",
        TypeKind::Directive => "Directive",
        TypeKind::Mismatch => "Mismatch",
        TypeKind::TooManyLocals => "TooManyLocals",
        TypeKind::TooManyCells => "TooManyCells",
        TypeKind::NoMain => "NoMain",
    }
}
