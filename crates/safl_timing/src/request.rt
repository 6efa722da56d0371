//! What the words of a command line ask for.

ghost use Rattle.std.specs.Prelude.{◌≡◌, map, option_map, string_bytes};
ghost use Rattle.safl_timing.specs.Requests as plain;
ghost use Rattle.safl_timing.specs.Requests.{shown_request};

/// What is asked for, by the source in the file of this name.
#[derive(Clone, Copy)]
pub struct Request<'a> {
    pub input: &'a str,
    pub asked: Asked<'a>,
}

#[derive(Clone, Copy)]
pub enum Asked<'a> {
    /// The time of main on these arguments.
    Time(&'a [String]),
    /// Whether the time of main tells nothing of its secret parameters: those in a list of names, or those that are not in it.
    Blind(bool, &'a str),
}

/// The request that the words make: the name of a file, and then arguments, or an option with a list of names.
pub fn request_of(words: &[String]) -> Option<Request<'_>>
    ensures { option_map shown_request result ≡ plain.request_of (map string_bytes words.now) }
{
    let (input, rest) = words.split_first()?;
    if input.is_empty() || is_option(input.as_bytes()) {
        return None;
    }
    let asked = asked_of(rest)?;
    Some(Request { input, asked })
}

// What the words after the file's name ask for.
fn asked_of(words: &[String]) -> Option<Asked<'_>>
    ensures { option_map plain.shown_asked result ≡ plain.asked_of (map string_bytes words.now) }
{
    match words {
        [option, names] => match kind_of(option.as_bytes()) {
            Some(listed) => Some(Asked::Blind(listed, names)),
            None => time_of(words),
        },
        _ => time_of(words),
    }
}

// The time on these arguments, if they have no option.
fn time_of(words: &[String]) -> Option<Asked<'_>>
    ensures { option_map plain.shown_asked result ≡ plain.time_of (map string_bytes words.now) }
{
    if has_option(words) {
        None
    } else {
        Some(Asked::Time(words))
    }
}

// Whether an option has the names of the secret parameters, or of the others.
fn kind_of(word: &[u8]) -> Option<bool>
    ensures { result ≡ plain.kind_of word.now }
{
    if word == b"--secret".as_slice() {
        return Some(true);
    }
    if word == b"--public".as_slice() {
        return Some(false);
    }
    None
}

// Whether one of the words is an option.
fn has_option(words: &[String]) -> bool
    ensures { result ≡ plain.has_option (map string_bytes words.now) }
{
    for word in words {
        if is_option(word.as_bytes()) {
            return true;
        }
    }
    false
}

// Whether a word has a hyphen, and more after it.
fn is_option(word: &[u8]) -> bool
    ensures { result ≡ plain.is_option word.now }
{
    match word {
        [b'-', _, ..] => true,
        _ => false,
    }
}
