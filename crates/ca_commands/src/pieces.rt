// Words, read one after another into pieces.
ghost use Rattle.std.specs.Prelude.{◌≡◌, ◌++◌, ◌∷◌, [], List, map, Some, None, cond, string_bytes, IfOk, OnOk, IsErrOf};
ghost use Rattle.std.specs.Option.{option_map};
ghost use Rattle.ca_commands.specs.Words.{Piece as A_piece, Name, Plain, Valued, Spell, names_of, plains_of, values_of};
ghost use Rattle.ca_commands.specs.Gathering.{start, in_mode, with_piece, with_option, with_word, taken, gathered, is_bare, list_of};

use crate::key::{Key, key_of};
use crate::words::WordsNo;
use ca_tree::NoMemory;
use std::alloc::Global;
use std::marker::Model;

// What a piece is.
#[derive(Clone, Copy, Debug, PartialEq, Eq)]
enum PieceKind {
    Name,
    Plain,
    Value(Key),
}

/// What one word says, or two of an option and its value.
#[derive(Drop)]
pub(crate) struct Piece<'a> {
    kind: PieceKind,
    // the name or the value
    text: &'a str,
}

impl<'a> Model for Piece<'a> {
    ghost use Rattle.ca_commands.specs.Words as words;
    ghost use Rattle.ca_commands.specs.Gathering as gathering;

    ghost Value = { words.Piece };

    ghost view = { λ p. gathering.piece_of p.kind p.text.now };
}

impl<'a> Piece<'a> {
    fn name(text: &'a str) -> Piece<'a>
        ensures { result ≡ Name text.now }
    {
        Piece {
            kind: PieceKind::Name,
            text,
        }
    }

    fn plain() -> Piece<'a>
        ensures { result ≡ Plain }
    {
        Piece {
            kind: PieceKind::Plain,
            text: "",
        }
    }

    fn value(key: Key, text: &'a str) -> Piece<'a>
        ensures { result ≡ Valued key text.now }
    {
        Piece {
            kind: PieceKind::Value(key),
            text,
        }
    }

    /// The name, if it is one.
    pub(crate) fn as_name(&self) -> Option<&'a str>
        ensures { list_of (option_map (λ x. x.now) result) ≡ names_of (self.now ∷ []) }
    {
        match self.kind {
            PieceKind::Name => Some(self.text),
            PieceKind::Plain | PieceKind::Value(_) => None,
        }
    }

    /// Whether it is `--plain`.
    pub(crate) fn is_plain(&self) -> bool
        ensures { plains_of (self.now ∷ []) ≡ cond result 1 0 }
    {
        match self.kind {
            PieceKind::Plain => true,
            PieceKind::Name | PieceKind::Value(_) => false,
        }
    }

    /// The value of an option, if it is one.
    pub(crate) fn as_value(&self, key: Key) -> Option<&'a str>
        ensures { list_of (option_map (λ x. x.now) result) ≡ values_of key (self.now ∷ []) }
    {
        match self.kind {
            PieceKind::Value(found) => {
                if found.spelling() == key.spelling() {
                    Some(self.text)
                } else {
                    None
                }
            }
            PieceKind::Name | PieceKind::Plain => None,
        }
    }
}

// What the next word is.
#[derive(Clone, Copy, Debug, PartialEq, Eq)]
enum Mode {
    /// An option, a flag, a name or `--`.
    Options,
    /// The value of this option.
    Value(Key),
    /// A name, behind `--`.
    Names,
}

// What was read so far.
#[derive(Drop)]
struct Reader<'a> {
    mode: Mode,
    pieces: Vec<Piece<'a>>,
}

impl<'a> Model for Reader<'a> {
    ghost use Rattle.ca_commands.specs.Gathering as gathering;

    ghost Value = { gathering.Gathered };

    ghost view = { λ r. gathering.gathered_as r.mode r.pieces.items };
}

impl<'a> Reader<'a> {
    fn new(alloc: Global) -> Reader<'a>
        ensures { result ≡ start }
    {
        Reader {
            mode: Mode::Options,
            pieces: Vec::new(alloc),
        }
    }

    fn add(&mut self, piece: Piece<'a>) -> Result<(), WordsNo>
        ensures added { OnOk result (self.new ≡ with_piece self.old piece.entry) }
        ensures never { IsErrOf result WordsNo.Misworded → ⊥ }
    {
        match self.pieces.push(piece) {
            Ok(()) => Ok(()),
            Err(_) => Err(WordsNo::NoMemory),
        }
    }

    fn option(&mut self, word: &'a str) -> Result<(), WordsNo>
        ensures taken { OnOk result (with_option self.old word.now ≡ Some self.new) }
        ensures refused { IsErrOf result WordsNo.Misworded → with_option self.old word.now ≡ None }
    {
        match word.split_once('=') {
            Some((front, text)) => match key_of(front) {
                Some(key) => self.add(Piece::value(key, text)),
                None => Err(WordsNo::Misworded),
            },
            None => match key_of(word) {
                Some(key) => {
                    self.mode = Mode::Value(key);
                    Ok(())
                }
                None => Err(WordsNo::Misworded),
            },
        }
    }

    // A word before `--` that is no value.
    fn word(&mut self, word: &'a str) -> Result<(), WordsNo>
        ensures taken { OnOk result (with_word self.old word.now ≡ Some self.new) }
        ensures refused { IsErrOf result WordsNo.Misworded → with_word self.old word.now ≡ None }
    {
        if is_bare(word) {
            self.add(Piece::name(word))
        } else if word == "--" {
            self.mode = Mode::Names;
            Ok(())
        } else if word == "--plain" {
            self.add(Piece::plain())
        } else {
            self.option(word)
        }
    }

    fn take(&mut self, word: &'a str) -> Result<(), WordsNo>
        ensures taken { OnOk result (taken self.old word.now ≡ Some self.new) }
        ensures refused { IsErrOf result WordsNo.Misworded → taken self.old word.now ≡ None }
    {
        match self.mode {
            Mode::Options => self.word(word),
            Mode::Value(key) => {
                self.mode = Mode::Options;
                self.add(Piece::value(key, word))
            }
            Mode::Names => {
                if word == "-" {
                    Err(WordsNo::Misworded)
                } else {
                    self.add(Piece::name(word))
                }
            }
        }
    }

    fn gather(&mut self, words: &'a [String]) -> Result<(), WordsNo>
        ensures taken { OnOk result (gathered self.old (map string_bytes words.now) ≡ Some self.new) }
        ensures refused { IsErrOf result WordsNo.Misworded → gathered self.old (map string_bytes words.now) ≡ None }
    {
        'words: for word in words {
            match self.take(word.as_str()) {
                Ok(()) => {}
                Err(no) => return Err(no),
            }
        }
        Ok(())
    }
}

// A word that doesn't begin with `-`.
fn is_bare(word: &str) -> bool
    ensures { result ≡ is_bare word.now }
{
    match word.as_bytes().split_first() {
        Some((first, _)) => *first != b'-',
        None => true,
    }
}

/// The pieces that words are.
pub(crate) fn pieces<'a>(alloc: Global, words: &'a [String]) -> Result<Vec<Piece<'a>>, WordsNo>
    ensures found { IfOk result (λ ps. Spell ps.items (map string_bytes words.now)) }
    ensures misworded { IsErrOf result WordsNo.Misworded → (ps : List A_piece) → Spell ps (map string_bytes words.now) → ⊥ }
{
    let mut reader = Reader::new(alloc);
    match reader.gather(words) {
        Ok(()) => {}
        Err(WordsNo::Misworded) => return Err(WordsNo::Misworded),
        Err(WordsNo::NoMemory) => return Err(WordsNo::NoMemory),
    }
    match reader.mode {
        Mode::Value(_) => Err(WordsNo::Misworded),
        Mode::Options => Ok(reader.pieces),
        Mode::Names => Ok(reader.pieces),
    }
}
