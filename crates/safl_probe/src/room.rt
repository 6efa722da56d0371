//! The room for frames, and for the texts that probes write.

ghost use Rattle.std.specs.Prelude.{◌≡◌, length, IfOk};
ghost use Rattle.safl_probe.specs.Watching.{shown_frame};
ghost use Rattle.safl_probe.specs.Rooms.{HasWidths};

use safl_net::Sig;
use safl_sim::Sim;
use safl_word::Word;
use std::alloc::{AllocError, Global};

/// Room for the words of one frame, and for one text.
#[derive(Drop)]
pub struct Room {
    pub frame: Vec<Word>,
    pub text: Vec<u8>,
}

/// Room for the frames of a simulator's net.
pub(crate) fn make_room(alloc: Global, sim: &Sim) -> Result<Room, AllocError>
    ensures { IfOk result (λ room. HasWidths sim.now.net room.frame.items) }
{
    let mut frame = Vec::new(alloc);
    'signals: for i in 0..sim.net().signals() {
        frame.push(sim.value(Sig(i)))?;
    }
    Ok(Room {
        frame,
        text: Vec::new(alloc),
    })
}

/// Fills a frame with the values of the last cycle.
pub(crate) fn fill(frame: &mut [Word], sim: &Sim)
    requires frame { HasWidths sim.now.net frame.old }
    requires values { length sim.now.values ≡ length sim.now.net.signals }
    ensures values { shown_frame frame.new ≡ sim.now.values }
    ensures frame { HasWidths sim.now.net frame.new }
{
    'signals: for i in 0..sim.net().signals() {
        renew(&mut frame[i as usize], sim.value(Sig(i)));
    }
}

// Replaces the number of a word by that of a word of the same width. The width is not written, so it need not be looked
// up.
#[inline(always)]
fn renew(word: &mut Word, now: Word)
    requires { word.old.width ≡ now.width }
    ensures { word.new ≡ now }
{
    *word = Word::from_parts(word.width(), now.bits());
}
