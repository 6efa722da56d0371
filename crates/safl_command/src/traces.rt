//! The files for the traces of a run.

ghost use Rattle.std.specs.Prelude.{◌≡◌, true, option_map, string_bytes};
ghost use Rattle.safl_command.specs.Apart.{are_apart, files, is_named, differ};

/// The files for the traces of a run, one for each kind of trace; each may be left out. No name is empty, and no two
/// are the same.
#[derive(Drop)]
pub struct Traces {
    /// The file for a value change dump.
    pub vcd: Option<String>,
    /// The file for the cycles in which calls start.
    pub starts: Option<String>,
    /// The file for the numbers of register bits that change.
    pub toggles: Option<String>,
    pub ghost separate: { are_apart (files vcd starts toggles) ≡ true },
}

impl Traces {
    ghost use Rattle.std.specs.Prelude.{◌≡◌, option_map};
    ghost use Rattle.safl_command.specs.Traces.{files, shown_traces, if_apart};

    /// The traces with these files. None exactly if a name is empty or two are the same.
    pub fn new(
        vcd: Option<String>,
        starts: Option<String>,
        toggles: Option<String>,
    ) -> Option<Traces>
        ensures { option_map shown_traces result ≡ if_apart (files vcd starts toggles) }
    {
        let are_apart = is_named(&vcd)
            && is_named(&starts)
            && is_named(&toggles)
            && differ(&vcd, &starts)
            && differ(&vcd, &toggles)
            && differ(&starts, &toggles);
        if !are_apart {
            return None;
        }
        Some(Traces {
            vcd,
            starts,
            toggles,
        })
    }
}

fn is_named(name: &Option<String>) -> bool
    ensures { result ≡ is_named (option_map string_bytes name.now) }
{
    match name {
        Some(name) => !name.is_empty(),
        None => true,
    }
}

fn differ(first: &Option<String>, second: &Option<String>) -> bool
    ensures { result ≡ differ (option_map string_bytes first.now) (option_map string_bytes second.now) }
{
    match (first, second) {
        (Some(first), Some(second)) => first.as_str() != second.as_str(),
        _ => true,
    }
}
