//! Short AIGER texts, and what is written for the circuits that they spell.

use safl_aiger::{Aig, aig_text, read_aig};
use std::alloc::Global;
use std::test::Fail;

// The numbers of a circuit's inputs, latches, outputs and ANDs.
#[derive(Clone, Copy, Debug, PartialEq, Eq)]
struct Numbers {
    inputs: u32,
    latches: u32,
    outputs: u32,
    ands: u32,
}

// A text, the text that is written for its circuit, and the circuit's numbers.
struct Right {
    text: &'static [u8],
    written: &'static [u8],
    numbers: Numbers,
}

static RIGHT: [Right; 3] = [
    Right {
        text: b"aag 2 1 1 1 0\n2\n4 5\n4\ni0 start[0]\nl0 t[0]\no0 q[0]\n",
        written: b"aag 2 1 1 1 0\n2\n4 5\n4\ni0 start[0]\nl0 t[0]\no0 q[0]\n",
        numbers: Numbers {
            inputs: 1,
            latches: 1,
            outputs: 1,
            ands: 0,
        },
    },
    Right {
        text: b"aag 0004 1 1 2 2\n2\n4 9\n8\n05\n6 2 4\n8 7 3\no1 b c\ni0 a\nc\nanything",
        written: b"aag 4 1 1 2 2\n2\n4 9\n8\n5\n6 2 4\n8 7 3\ni0 a\no1 b c\n",
        numbers: Numbers {
            inputs: 1,
            latches: 1,
            outputs: 2,
            ands: 2,
        },
    },
    Right {
        text: b"aag 0 0 0 0 0",
        written: b"aag 0 0 0 0 0\n",
        numbers: Numbers {
            inputs: 0,
            latches: 0,
            outputs: 0,
            ands: 0,
        },
    },
];

fn numbers_of(circuit: &Aig) -> Numbers {
    Numbers {
        inputs: circuit.inputs(),
        latches: circuit.latches(),
        outputs: circuit.outputs(),
        ands: circuit.ands(),
    }
}

fn is_read(alloc: Global, row: &Right) -> Result<bool, Fail> {
    if row.text.len() >= 4294967296 {
        return Ok(false);
    }
    let circuit = read_aig(alloc, row.text)?;
    let written = aig_text(alloc, &circuit)?;
    Ok(written.as_slice() == row.written && numbers_of(&circuit) == row.numbers)
}

#[test]
fn right_texts(rt: HostRuntime) -> Result<(), Fail> {
    for row in RIGHT.iter() {
        assert!(rt; is_read(rt.alloc(), row)?);
    }
    Ok(())
}
