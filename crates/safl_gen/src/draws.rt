//! Pseudo-random draws from a seed.

ghost use Rattle.std.specs.Prelude.{◌≡◌, ◌/◌, ◌<◌, ◌^◌};
ghost use Rattle.safl_word.specs.Naturals.{number_after};

/// A sequence of draws: the number that the next draw follows from.
#[derive(Drop)]
pub struct Draws {
    pub number: u32,
    ghost small: { number < 2 ^ 31 },
}

impl Draws {
    ghost use Rattle.std.specs.Prelude.{◌≡◌, ◌/◌, ◌%◌, ◌^◌};
    ghost use Rattle.safl_word.specs.Naturals.{number_after};

    /// The draws that follow from a seed.
    pub fn new(seed: u64) -> Draws
        ensures { result.number ≡ seed % 2 ^ 31 }
    {
        Draws {
            number: (seed % (1 << 31)) as u32,
        }
    }

    /// The next draw.
    pub fn next(&mut self) -> u32
        ensures number { self.new.number ≡ number_after self.old.number }
        ensures draw { result ≡ self.new.number / 65536 }
    {
        let next = (u64::from(self.number) * 1_103_515_245 + 12_345) % (1 << 31);
        self.number = next as u32;
        self.number / 65536
    }
}

/// The three draws that make a function.
#[derive(Drop)]
pub struct Drawn {
    pub form: u32,
    pub constant: u32,
    pub first: u32,
}

/// The draws for the next function.
pub fn draw_function(draws: &mut Draws) -> Drawn
    ensures form { result.form ≡ number_after draws.old.number / 65536 }
    ensures constant { result.constant ≡ number_after (number_after draws.old.number) / 65536 }
    ensures first { result.first ≡ draws.new.number / 65536 }
    ensures number { draws.new.number ≡ number_after (number_after (number_after draws.old.number)) }
{
    let form = draws.next();
    let constant = draws.next();
    let first = draws.next();
    Drawn {
        form,
        constant,
        first,
    }
}
