//! Traces of a net, by each kind of probe.

ghost use Rattle.safl_probe.specs.Probing.{IsWaiting};

use safl_net::{Net, NetErr};
use safl_probe::{Probe, ProbeErr, StartsProbe, StubProbe, ToggleProbe, VcdProbe};
use safl_word::{Raw, Word};
use std::alloc::{AllocError, Global};
use std::test::Fail;

#[derive(Clone, Copy, Debug, PartialEq, Eq)]
enum TraceErr {
    Probe(ProbeErr),
    // A frame has another length than the net has signals.
    Frame,
}

// The whole trace of some frames by any probe. Only the contracts of the trait are known of the probe.
fn trace<P: Probe>(
    probe: &mut P,
    net: &Net,
    frames: &[Vec<Word>],
    out: &mut Vec<u8>,
) -> Result<(), TraceErr>
    requires { IsWaiting (P.state probe.old) }
{
    let count = net.signals() as usize;
    probe.begin(net, out).map_err(TraceErr::Probe)?;
    'frames: for i in 0..frames.len() {
        if frames[i].len() != count {
            return Err(TraceErr::Frame);
        }
        probe
            .cycle(i as u64, &frames[i], out)
            .map_err(TraceErr::Probe)?;
    }
    probe.finish(out).map_err(TraceErr::Probe)
}

// A net with the signals of a function that takes nothing and gives 7. It has no cells.
fn seven(alloc: Global) -> Result<Net, NetErr> {
    let mut net = Net::new(alloc);
    let bit = Word::from_low_bits(1, 0);
    let byte = Word::from_low_bits(8, 0);
    let _ = net.input("start", 1)?;
    let _ = net.reg("run$main", bit)?;
    let done = net.reg("fin$main", bit)?;
    let result = net.reg("res$main", byte)?;
    let _ = net.wire("end$main", 1)?;
    let _ = net.wire("loop$main", 1)?;
    let _ = net.wire("go$main", 1)?;
    let _ = net.wire("n$3", 8)?;
    net.output("done", done)?;
    net.output("result", result)?;
    Ok(net)
}

fn frame(alloc: Global, numbers: &[Raw]) -> Result<Vec<Word>, AllocError> {
    let mut words = Vec::new(alloc);
    for number in numbers {
        words.push(Word::from_low_bits(128, *number))?;
    }
    Ok(words)
}

// The numbers of the net's signals in its three cycles.
const CYCLES: [[Raw; 8]; 3] = [
    [1, 0, 0, 0, 0, 0, 1, 7],
    [0, 1, 0, 0, 1, 0, 0, 7],
    [0, 0, 1, 7, 0, 0, 0, 7],
];

fn frames(alloc: Global) -> Result<Vec<Vec<Word>>, AllocError> {
    let mut all = Vec::new(alloc);
    for numbers in &CYCLES {
        all.push(frame(alloc, numbers)?)?;
    }
    Ok(all)
}

const DUMP: &[u8] = b"$timescale 1 ns $end
$scope module safl $end
$var wire 1 ! start $end
$var wire 1 \" run$main $end
$var wire 1 # fin$main $end
$var wire 8 $ res$main $end
$var wire 1 % end$main $end
$var wire 1 & loop$main $end
$var wire 1 ' go$main $end
$var wire 1 ( done $end
$var wire 8 ) result $end
$upscope $end
$enddefinitions $end
#0
$dumpvars
1!
0\"
0#
b0 $
0%
0&
1'
0(
b0 )
$end
#1
0!
1\"
1%
0'
#2
0\"
1#
b111 $
0%
1(
b111 )
#3
";

#[test]
fn a_dump(rt: HostRuntime) -> Result<(), Fail> {
    let alloc = rt.alloc();
    let mut out = Vec::new(alloc);
    let mut probe = VcdProbe::new(alloc);
    trace(&mut probe, &seven(alloc)?, &frames(alloc)?, &mut out)?;
    assert_eq!(rt; out.as_slice(), DUMP);
    Ok(())
}

#[test]
fn starts_and_toggles(rt: HostRuntime) -> Result<(), Fail> {
    let alloc = rt.alloc();
    let mut starts = Vec::new(alloc);
    let mut probe = StartsProbe::new(alloc);
    trace(&mut probe, &seven(alloc)?, &frames(alloc)?, &mut starts)?;
    assert_eq!(rt; starts.as_slice(), b"0 go$main\n".as_slice());
    let mut toggles = Vec::new(alloc);
    let mut probe = ToggleProbe::new(alloc);
    trace(&mut probe, &seven(alloc)?, &frames(alloc)?, &mut toggles)?;
    assert_eq!(rt; toggles.as_slice(), b"0 0\n1 1\n2 5\n".as_slice());
    Ok(())
}

#[test]
fn a_call_that_fails(rt: HostRuntime) -> Result<(), Fail> {
    let alloc = rt.alloc();
    for call in 1..7 {
        let mut out = Vec::new(alloc);
        let mut probe = StubProbe::new(alloc, 1, call);
        let ended = trace(&mut probe, &seven(alloc)?, &frames(alloc)?, &mut out);
        if call == 6 {
            assert_eq!(rt; ended, Ok(()));
            assert_eq!(rt; out.as_slice(), DUMP);
        } else {
            assert_eq!(rt;
                ended,
                Err(TraceErr::Probe(ProbeErr::Failed)),
                "call {call}"
            );
            assert!(rt; DUMP.starts_with(&out), "call {call}");
        }
    }
    Ok(())
}

// A net of `count` inputs of a width.
fn wide(alloc: Global, count: u32, width: u8) -> Result<Net, NetErr> {
    let mut net = Net::new(alloc);
    for i in 0..count {
        if net.signals() < 100_000 && width >= 1 && width <= 128 {
            let Ok(name) = format!(in alloc; "x{i}") else {
                return Err(NetErr::NoMemory);
            };
            let _ = net.input(&name, width)?;
        }
    }
    Ok(net)
}

#[test]
fn a_wide_signal(rt: HostRuntime) -> Result<(), Fail> {
    let alloc = rt.alloc();
    let mut out = Vec::new(alloc);
    let mut probe = VcdProbe::new(alloc);
    let mut frames = Vec::new(alloc);
    frames.push(frame(alloc, &[Raw::MAX])?)?;
    trace(&mut probe, &wide(alloc, 1, 128)?, &frames, &mut out)?;
    let want =
        b"#0\n$dumpvars\nb11111111111111111111111111111111111111111111111111111111111111111111111111111111111111111111111111111111111111111111111111111111 !\n$end\n#1\n";
    assert!(rt; out.ends_with(want));
    Ok(())
}

#[test]
fn codes_of_many(rt: HostRuntime) -> Result<(), Fail> {
    let alloc = rt.alloc();
    let mut out = Vec::new(alloc);
    let mut probe = VcdProbe::new(alloc);
    let none = Vec::new(alloc);
    trace(&mut probe, &wide(alloc, 8838, 1)?, &none, &mut out)?;
    let lines: [&[u8]; 5] = [
        b" ~ x93 $end\n",
        b" !\" x94 $end\n",
        b" ~~ x8835 $end\n",
        b" !!\" x8836 $end\n",
        b" \"!\" x8837 $end\n",
    ];
    for line in lines {
        assert!(rt; out.windows(line.len()).any(|w| w == line));
    }
    Ok(())
}
