//! The circuit of a function's body, and what it shows for given words of its ports.

ghost use Rattle.std.specs.Prelude.{◌≡◌, suc, ◌+◌, ◌<◌, ◌≤◌, [], ◌∷◌, map, length, IsTrue, IfSome};
ghost use Rattle.safl_net.specs.Names.{IsTidy};
ghost use Rattle.safl_lower.specs.Sources.{IsSource};
ghost use Rattle.safl_lower.specs.Lowering.{Sited};
ghost use Rattle.safl_net_tests.specs.Choices.{ChoosesCall, ArePorts};

use crate::smaller_nets::Line::Input;
use crate::smaller_nets::{Fault, Line, made};
use safl_check::check_defs;
use safl_lower::loads::Load;
use safl_lower::{Body, Ports, SitePorts, lower};
use safl_net::{Cell, Net, Op, Sig, SigKind};
use safl_parse::parse_program;
use safl_term::Checked;
use safl_tree::laws::{printable_law, shallow_law};
use safl_word::limits::SOURCE_MAX;
use safl_word::{Primitive, Raw, Word, apply, result_width};
use std::alloc::Global;
use std::test::Fail;

const CHOICE: &[u8] =
    b"fun f(x:8):8 = x + 1 fun g(x:8):8 = x fun main(a:8):8 = if a == 0 then f(a) else g(a)";

// The inputs of main's circuit: the bit that says whether main runs, and its parameter; then for both sites the bits
// that say whether the call was sent and whether it has returned, and the returned word.
static PORTS: [Line; 8] = [
    Input("run", 1),
    Input("a", 8),
    Input("sent1", 1),
    Input("returned1", 1),
    Input("value1", 8),
    Input("sent2", 1),
    Input("returned2", 1),
    Input("value2", 8),
];

// The words of the ports, whether each site is wanted, and the body's word if it ends.
struct Row {
    given: [Raw; 8],
    wants: [bool; 2],
    gives: Option<Raw>,
}

static ROWS: [Row; 4] = [
    Row {
        given: [1, 0, 0, 0, 0, 0, 0, 0],
        wants: [true, false],
        gives: None,
    },
    Row {
        given: [1, 0, 1, 1, 9, 0, 0, 0],
        wants: [false, false],
        gives: Some(9),
    },
    Row {
        given: [1, 5, 0, 0, 0, 0, 0, 0],
        wants: [false, true],
        gives: None,
    },
    Row {
        given: [0, 0, 0, 0, 0, 0, 0, 0],
        wants: [false, false],
        gives: None,
    },
];

// The checked form of a source.
fn checked(alloc: Global, source: &[u8]) -> Result<Checked, Fault> {
    printable_law();
    shallow_law();
    if source.len() > SOURCE_MAX {
        return Err(Fault::Unfit);
    }
    match parse_program(alloc, source) {
        Ok(program) => check_defs(alloc, &program.defs).map_err(|_| Fault::Unfit),
        Err(_) => Err(Fault::Unfit),
    }
}

// The input at a place, which has to have this width.
#[tactic(auto, using(crate::proofs::Lowerable::input_source))]
fn port(net: &Net, place: u32, width: u8) -> Option<Sig>
    ensures { IfSome result (λ s. IsSource net.now s width) }
{
    let s = Sig(place);
    if place < net.signals() && net.kind(s) == SigKind::Input && net.width(s) == width {
        Some(s)
    } else {
        None
    }
}

// The ports of a site whose word has 8 bits, from these three inputs.
fn site(net: &Net, places: [u32; 3]) -> Option<SitePorts>
    ensures { IfSome result (λ p. Sited net.now p 8) }
{
    let sent = port(net, places[0], 1)?;
    let returned = port(net, places[1], 1)?;
    let value = port(net, places[2], 8)?;
    Some(SitePorts {
        sent,
        returned,
        value,
    })
}

// Whether main has one parameter, of 8 bits, and the first two sites of the program, whose calls give 8 bits.
#[tactic(auto, using(crate::proofs::Lowerable::one_byte))]
fn chooses_a_call(c: &Checked, main: u32) -> bool
    requires { main < c.now.program.functions }
    ensures params { IsTrue result → c.now.program.params main ≡ 8 ∷ [] }
    ensures first { IsTrue result → c.now.first_site main ≡ 1 }
    ensures own { IsTrue result → c.now.first_site main + 2 ≡ c.now.first_site (suc main) }
    ensures one { IsTrue result → c.now.program.result (c.now.program.callee 1) ≡ 8 }
    ensures two { IsTrue result → c.now.program.result (c.now.program.callee 2) ≡ 8 }
{
    if c.params(main) != 1 || c.param_width(main, 0) != 8 {
        return false;
    }
    if c.first_site(main) != 1 || c.own_sites(main) != 2 || c.sites() != 2 {
        return false;
    }
    c.width(c.callee(1)) == 8 && c.width(c.callee(2)) == 8
}

// The ports of main's body: the bit that says whether it runs, its parameter, and the ports of both sites.
#[derive(Clone, Copy)]
struct Inputs {
    run: Sig,
    a: Sig,
    first: SitePorts,
    second: SitePorts,
}

fn inputs_of(net: &Net) -> Option<Inputs>
    ensures { IfSome result (λ p. ArePorts net.now p.run p.a p.first p.second) }
{
    let run = port(net, 0, 1)?;
    let a = port(net, 1, 8)?;
    let first = site(net, [2, 3, 4])?;
    let second = site(net, [5, 6, 7])?;
    Some(Inputs {
        run,
        a,
        first,
        second,
    })
}

// The circuit of main's body.
fn lowered(alloc: Global, c: &Checked, net: &mut Net) -> Result<Body, Fault>
    requires { IsTidy net.old }
{
    let main = c.main();
    if net.signals() > 1000 || !chooses_a_call(c, main) {
        return Err(Fault::Unfit);
    }
    match inputs_of(net) {
        Some(inputs) => lowered_between(alloc, c, main, net, inputs),
        None => Err(Fault::Unfit),
    }
}

// The circuit of main's body between these ports.
fn lowered_between(
    alloc: Global,
    c: &Checked,
    main: u32,
    net: &mut Net,
    inputs: Inputs,
) -> Result<Body, Fault>
    requires main { main < c.now.program.functions }
    requires tidy { IsTidy net.old }
    requires few { length net.old.signals ≤ 1000 }
    requires ports { ArePorts net.old inputs.run inputs.a inputs.first inputs.second }
    requires chooses { ChoosesCall c.now main }
{
    let _count = c.functions();
    let Inputs {
        run,
        a,
        first,
        second,
    } = inputs;
    let Ok(args) = vec![in alloc; a] else {
        return Err(Fault::NoMemory);
    };
    let Ok(sites) = vec![in alloc; first, second] else {
        return Err(Fault::NoMemory);
    };
    lower(alloc, c, main, net, Ports { run, args, sites }).map_err(|_| Fault::NoMemory)
}

// The word of each signal for these words of the inputs. No cell may read a later signal.
fn words_of(alloc: Global, net: &Net, given: &[Raw]) -> Result<Vec<Word>, Fault> {
    let mut words: Vec<Word> = Vec::new(alloc);
    for i in 0..net.signals() {
        let word = word_of(net, Sig(i), given, &words).ok_or(Fault::Unfit)?;
        words.push(word).map_err(|_| Fault::NoMemory)?;
    }
    Ok(words)
}

fn word_of(net: &Net, s: Sig, given: &[Raw], words: &[Word]) -> Option<Word> {
    if s.0 >= net.signals() {
        return None;
    }
    match net.kind(s) {
        SigKind::Input => Word::new(net.width(s), *given.get(s.0 as usize)?),
        SigKind::Reg => None,
        SigKind::Wire => value_of(net.cell(s)?, words),
    }
}

// The word that a cell gives.
fn value_of(cell: &Cell, words: &[Word]) -> Option<Word> {
    let operands = cell.operands.as_slice();
    match cell.op {
        Op::Const(word) => Some(word),
        Op::Copy => at(words, *operands.first()?),
        Op::Mux => chosen(operands, words),
        Op::Apply(p) => applied(p, operands, words),
    }
}

fn chosen(operands: &[Sig], words: &[Word]) -> Option<Word> {
    if operands.len() != 3 {
        return None;
    }
    let test = at(words, operands[0])?;
    if test.bits() == 1 {
        at(words, operands[1])
    } else {
        at(words, operands[2])
    }
}

fn applied(p: Primitive, operands: &[Sig], words: &[Word]) -> Option<Word> {
    match operands.len() {
        1 => {
            let a = at(words, operands[0])?;
            given(p, &[a], &[a.width()])
        }
        2 => {
            let a = at(words, operands[0])?;
            let b = at(words, operands[1])?;
            given(p, &[a, b], &[a.width(), b.width()])
        }
        _ => None,
    }
}

fn at(words: &[Word], s: Sig) -> Option<Word> {
    words.get(s.0 as usize).copied()
}

// The result of a primitive on these words of these widths.
fn given(p: Primitive, args: &[Word], widths: &[u8]) -> Option<Word>
    requires { widths.now ≡ map (λ w. w.width) args.now }
{
    match result_width(p, widths) {
        Some(_) => Some(apply(p, args)),
        None => None,
    }
}

// The first word of a load, if the load is taken.
fn taken(load: &Load, words: &[Word]) -> Option<Raw> {
    if at(words, load.bit)?.bits() == 1 {
        Some(at(words, *load.words.first()?)?.bits())
    } else {
        None
    }
}

#[test]
fn a_choice_between_calls(rt: HostRuntime) -> Result<(), Fail> {
    let program = checked(rt.alloc(), CHOICE)?;
    let mut net = made(rt.alloc(), &PORTS)?;
    let body = lowered(rt.alloc(), &program, &mut net)?;
    assert_eq!(rt; (body.wants.len(), body.loops.len()), (2, 1));
    assert!(rt; body.loops.iter().all(|load| load.is_none()));
    for row in &ROWS {
        let words = words_of(rt.alloc(), &net, &row.given)?;
        assert_eq!(rt; taken(&body.end, &words), row.gives);
        for (load, wanted) in body.wants.iter().zip(row.wants) {
            assert_eq!(rt; taken(load, &words).is_some(), wanted);
        }
    }
    Ok(())
}
