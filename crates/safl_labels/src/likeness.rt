//! How far two terms are alike.

ghost use Rattle.std.specs.Prelude.{◌≡◌};
ghost use Rattle.safl_calls.specs.Labels.{all_public};
ghost use Rattle.safl_labels.specs.Likeness.{least_of, or_time_of, is_word_of, is_apart_of, suffices_for, same_if};

/// How far two terms are alike wherever the public slots hold the same.
#[derive(Clone, Copy, Debug, PartialEq, Eq)]
pub enum Likeness {
    /// Nothing is known of them.
    Apart,
    /// They take the same time.
    SameTime,
    /// They take the same time and give the same word.
    SameWord,
}

impl Likeness {
    /// The lesser of two.
    pub fn least(self, other: Likeness) -> Likeness
        ensures { result ≡ least_of self other }
    {
        match self {
            Likeness::Apart => Likeness::Apart,
            Likeness::SameTime => match other {
                Likeness::Apart => Likeness::Apart,
                _ => Likeness::SameTime,
            },
            Likeness::SameWord => other,
        }
    }

    /// At least the same time, if both terms are plain.
    pub fn or_time(self, plain: bool) -> Likeness
        ensures { result ≡ or_time_of self plain }
    {
        match self {
            Likeness::Apart => {
                if plain {
                    Likeness::SameTime
                } else {
                    Likeness::Apart
                }
            }
            other => other,
        }
    }

    pub fn is_word(self) -> bool
        ensures { result ≡ is_word_of self }
    {
        match self {
            Likeness::SameWord => true,
            _ => false,
        }
    }

    pub fn is_apart(self) -> bool
        ensures { result ≡ is_apart_of self }
    {
        match self {
            Likeness::Apart => true,
            _ => false,
        }
    }

    /// Whether the terms are as much alike as a result with this label has to be.
    pub fn suffices(self, public: bool) -> bool
        ensures { result ≡ suffices_for self public }
    {
        match self {
            Likeness::Apart => false,
            Likeness::SameTime => !public,
            Likeness::SameWord => true,
        }
    }
}

/// The same word if all of it is public, and otherwise the same time.
pub fn word_if(public: bool) -> Likeness
    ensures { result ≡ same_if public }
{
    if public {
        Likeness::SameWord
    } else {
        Likeness::SameTime
    }
}

/// Whether all labels are public.
pub fn are_public(labels: &[bool]) -> bool
    ensures { result ≡ all_public labels.now }
{
    if let Some((first, rest)) = labels.split_first() {
        return *first && are_public(rest);
    }
    true
}
