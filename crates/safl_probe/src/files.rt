//! Writing the texts of probes to the files of a shelf.

ghost use Rattle.std.specs.Prelude.{◌≡◌, OnOk, OnErr, IsErrOf, []};
ghost use Rattle.safl_io.specs.Counts.{Rose};
ghost use Rattle.safl_io.specs.Shelf.{SameReads, UsesNoStray};
ghost use Rattle.safl_io.specs.Told.{TellsOn};
ghost use Rattle.safl_probe.specs.Growth.{Grows, Longer, LongerPart, OldOrPart, Opens, IsThere};
ghost use Rattle.safl_probe.specs.declared.moment.Moment.TheVariants as moments;

use crate::moment::Moment;
use safl_io::{OutErr, Shelf};

/// Creates the file if this is the beginning of the run.
pub(crate) fn open<S: Shelf>(moment: Moment, name: &str, shelf: &mut S) -> Result<(), OutErr>
    ensures opened { OnOk result (Opens moment name.now (S.told shelf.old).holds (S.told shelf.new).holds) }
    ensures not_opened { OnErr result (TellsOn (Grows OldOrPart name.now []) (S.told shelf.old).holds (S.told shelf.new).holds) }
    ensures at_beginning { OnErr result (moment ≡ moments.Beginning) }
    ensures failed { IsErrOf result OutErr.Failed → Rose (S.told shelf.old).write_faults (S.told shelf.new).write_faults }
    ensures quiet { OnOk result ((S.told shelf.new).write_faults ≡ (S.told shelf.old).write_faults) }
    ensures reads { SameReads (S.told shelf.old) (S.told shelf.new) }
    ensures strays { (S.told shelf.new).strays ≡ (S.told shelf.old).strays }
{
    match moment {
        Moment::Beginning => shelf.create(name),
        Moment::Frame(_) | Moment::End => Ok(()),
    }
}

/// Appends a text as one piece, if it is not empty.
pub(crate) fn append<S: Shelf>(name: &str, text: &[u8], shelf: &mut S) -> Result<(), OutErr>
    ensures appended { OnOk result (TellsOn (Grows Longer name.now text.now) (S.told shelf.old).holds (S.told shelf.new).holds) }
    ensures not_appended { OnErr result (TellsOn (Grows LongerPart name.now text.now) (S.told shelf.old).holds (S.told shelf.new).holds) }
    ensures failed { IsErrOf result OutErr.Failed → Rose (S.told shelf.old).write_faults (S.told shelf.new).write_faults }
    ensures quiet { OnOk result ((S.told shelf.new).write_faults ≡ (S.told shelf.old).write_faults) }
    ensures reads { SameReads (S.told shelf.old) (S.told shelf.new) }
    ensures strays { IsThere moments.End name.now (S.told shelf.old).holds → UsesNoStray (S.told shelf.old) (S.told shelf.new) }
{
    if text.is_empty() {
        return Ok(());
    }
    shelf.append(name, text)
}
