//! Laws of nets and bit-level circuits, over the definitions alone.

ghost use Rattle.safl_aig.specs.Laws.{MirrorLaw};

/// If a circuit mirrors a net in every cycle, it mirrors the net's runs, for every list of inputs.
pub fn mirror_law()
    ensures { MirrorLaw }
{}
