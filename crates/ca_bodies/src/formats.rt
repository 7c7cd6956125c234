//! The formats of `printf` (C11 7.21.6.1).

ghost use Rattle.std.specs.Prelude.{◌≡◌};
ghost use Rattle.ca_bodies.specs.Formats as bytes;
ghost use Rattle.ca_model.specs.typing.Formats as formats;

fn begins_with(text: &[u8], byte: u8) -> bool
    ensures { result ≡ bytes.begins_with text.now byte }
{
    match text.split_first() {
        Some((first, _)) => *first == byte,
        None => false,
    }
}

// What stands behind a byte of a format; behind a percent the next byte is passed too.
fn past(byte: u8, more: &[u8]) -> &[u8]
    ensures { result.now ≡ bytes.past byte more.now }
{
    match more.split_first() {
        Some((_, behind)) if byte == b'%' => behind,
        _ => more,
    }
}

fn directive(byte: u8, more: &[u8]) -> usize
    ensures { result ≡ bytes.directive byte more.now }
{
    if byte == b'%' && begins_with(more, b'd') {
        1
    } else {
        0
    }
}

// Whether a byte that is a percent stands before a `d` or a percent.
fn is_known(byte: u8, more: &[u8]) -> bool
    ensures { result ≡ bytes.is_known byte more.now }
{
    byte != b'%' || (begins_with(more, b'd') || begins_with(more, b'%'))
}

/// How many `%d` a format has.
pub(crate) fn directives(format: &[u8]) -> usize
    ensures { result ≡ formats.directives format.now }
{
    let mut rest = format;
    let mut count = 0;
    'bytes: while let Some((first, more)) = rest.split_first() {
        count += directive(*first, more);
        rest = past(*first, more);
    }
    count
}

/// Whether each percent of a format begins a `%d` or stands before another percent.
pub(crate) fn is_format(format: &[u8]) -> bool
    ensures { result ≡ formats.is_format format.now }
{
    let mut rest = format;
    'bytes: while let Some((first, more)) = rest.split_first() {
        if !is_known(*first, more) {
            return false;
        }
        rest = past(*first, more);
    }
    true
}
