//! The words that are no names.

ghost use Rattle.std.specs.Prelude.{◌≡◌};
ghost use Rattle.ca_tree.specs.Names.{is_left_out, is_library_word, is_one_of, is_reserved, kept_keywords, library_words, plain_left_out, reserved_names, underscored_left_out};

fn is_kept_keyword(word: &[u8]) -> bool
    ensures { result ≡ is_one_of kept_keywords word.now }
{
    word == b"int".as_slice()
        || word == b"struct".as_slice()
        || word == b"void".as_slice()
        || word == b"static".as_slice()
        || word == b"volatile".as_slice()
        || word == b"return".as_slice()
        || word == b"break".as_slice()
        || word == b"continue".as_slice()
        || word == b"if".as_slice()
        || word == b"else".as_slice()
        || word == b"while".as_slice()
        || word == b"do".as_slice()
        || word == b"for".as_slice()
        || word == b"sizeof".as_slice()
}

fn is_plain_left_out(word: &[u8]) -> bool
    ensures { result ≡ is_one_of plain_left_out word.now }
{
    word == b"auto".as_slice()
        || word == b"case".as_slice()
        || word == b"char".as_slice()
        || word == b"const".as_slice()
        || word == b"default".as_slice()
        || word == b"double".as_slice()
        || word == b"enum".as_slice()
        || word == b"extern".as_slice()
        || word == b"float".as_slice()
        || word == b"goto".as_slice()
        || word == b"inline".as_slice()
        || word == b"long".as_slice()
        || word == b"register".as_slice()
        || word == b"restrict".as_slice()
        || word == b"short".as_slice()
        || word == b"signed".as_slice()
        || word == b"switch".as_slice()
        || word == b"typedef".as_slice()
        || word == b"union".as_slice()
        || word == b"unsigned".as_slice()
}

fn is_underscored_left_out(word: &[u8]) -> bool
    ensures { result ≡ is_one_of underscored_left_out word.now }
{
    word == b"_Alignas".as_slice()
        || word == b"_Alignof".as_slice()
        || word == b"_Atomic".as_slice()
        || word == b"_Bool".as_slice()
        || word == b"_Complex".as_slice()
        || word == b"_Generic".as_slice()
        || word == b"_Imaginary".as_slice()
        || word == b"_Noreturn".as_slice()
        || word == b"_Static_assert".as_slice()
        || word == b"_Thread_local".as_slice()
}

fn is_reserved_name(word: &[u8]) -> bool
    ensures { result ≡ is_one_of reserved_names word.now }
{
    word == b"NULL".as_slice()
        || word == b"PTHREAD_MUTEX_INITIALIZER".as_slice()
        || word == b"pthread_t".as_slice()
        || word == b"pthread_mutex_t".as_slice()
}

/// Whether a word is a keyword of C11 that the grammar doesn't have.
#[tactic(auto, unfolding(ca_tree::specs::Names::is_left_out))]
pub fn is_left_out(word: &[u8]) -> bool
    ensures { result ≡ is_left_out word.now }
{
    is_plain_left_out(word) || is_underscored_left_out(word)
}

/// Whether a word is no name: a keyword of C11, or a word of the libraries that names no call.
#[tactic(auto, unfolding(ca_tree::specs::Names::is_reserved))]
pub fn is_reserved(word: &[u8]) -> bool
    ensures { result ≡ is_reserved word.now }
{
    is_kept_keyword(word) || is_left_out(word) || is_reserved_name(word)
}

fn is_call_word(word: &[u8]) -> bool
    ensures { result ≡ is_one_of library_words word.now }
{
    word == b"malloc".as_slice()
        || word == b"free".as_slice()
        || word == b"assert".as_slice()
        || word == b"printf".as_slice()
        || word == b"pthread_mutex_lock".as_slice()
        || word == b"pthread_mutex_unlock".as_slice()
        || word == b"pthread_create".as_slice()
        || word == b"pthread_join".as_slice()
}

/// Whether a word calls a function of the library.
#[tactic(auto, unfolding(ca_tree::specs::Names::is_library_word))]
pub fn is_library_word(word: &[u8]) -> bool
    ensures { result ≡ is_library_word word.now }
{
    is_call_word(word)
}
