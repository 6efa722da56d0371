//! Faulty texts with their places, and the public calls on sources. More texts are cases (`docs/CASES.md`).

use safl_parse::{ParseErr, Parsed, parse};
use safl_tree::laws::printable_law;
use safl_tree::print;
use safl_word::limits::SOURCE_MAX;
use safl_word::{Fault, Rule};
use std::alloc::Global;
use std::process::Abort;
use std::test::Fail;

// A text, and the rule and the place of its first fault.
static WRONG: [(&[u8], Rule, u32); 4] = [
    (b"fun m(x:8", Rule::E02, 9),
    (b"fun m():8 = bits(1,1,128", Rule::E05, 21),
    (b"fun m():8 = 1 == 1 == 1", Rule::E02, 19),
    (b"fun m():8 = 1 + $", Rule::E01, 16),
];

// The first fault of a source, if it has one.
fn fault(rt: &impl Abort, alloc: Global, source: &[u8]) -> Option<(Rule, u32)> {
    assert!(rt; source.len() <= SOURCE_MAX);
    match parse(alloc, source) {
        Ok(_) => None,
        Err(ParseErr::Refused(fault)) => Some((fault.rule, fault.place)),
        Err(ParseErr::NoMemory) => Some((Rule::E16, 0)),
    }
}

#[test]
fn wrong_texts(rt: HostRuntime) {
    let rows: &[(&[u8], Rule, u32)] = &WRONG;
    for (text, rule, place) in rows {
        assert_eq!(rt; fault(&rt, rt.alloc(), text), Some((*rule, *place)));
    }
}

#[test]
fn a_group_and_a_definition(rt: HostRuntime) -> Result<(), Fail> {
    match parse(
        rt.alloc(),
        b"fun f():8 = 1 and g(x:4):8 = f(); fun main():8 = f()",
    ) {
        Ok(parsed) => {
            assert_eq!(rt; parsed.program().defs.len(), 3);
            let program = parsed.into_program();
            assert_eq!(rt; program.defs.len(), 3);
            for def in &program.defs {
                assert_eq!(rt; def.joined, def.name.bytes() == b"g".as_slice());
            }
        }
        Err(_) => assert!(rt; false),
    }
    Ok(())
}

// Sources, and the texts of their programs with as few parentheses as possible.
static PRINTED: [(&[u8], &[u8]); 4] = [
    (b"fun main():8=7;", b"fun main ( ) : 8 = 7\n"),
    (
        b"fun main(op:2, a:8, b:8):8 = case op { 0 => a + b, 1 => a - b, 2 => a & b, default => a ^ b }",
        b"fun main ( op : 2 , a : 8 , b : 8 ) : 8 = case op { 0 => a + b , 1 => a - b , 2 => a & b , default => a ^ b }\n",
    ),
    (
        b"fun mul(x:8, y:8, acc:8):8 = if (x==0)|(y==0) then acc else mul(x<<1, y>>1, if bits(y,0,0)==1 then acc+x else acc) fun main(a:8, b:8):8 = mul(a, b, 0)",
        b"fun mul ( x : 8 , y : 8 , acc : 8 ) : 8 = if x == 0 | y == 0 then acc else mul ( x << 1 , y >> 1 , if bits ( y , 0 , 0 ) == 1 then acc + x else acc )\nfun main ( a : 8 , b : 8 ) : 8 = mul ( a , b , 0 )\n",
    ),
    (
        b"fun f(a:8):8 = case a - (a - 1) { 1 => ~(a + 1), 8'hff => (a + 1) * 2, default => let b:4 = 3, c = a in (b < c) == 1 } and g(x:1):8 = (1 + 2) - (3 + x)",
        b"fun f ( a : 8 ) : 8 = case a - ( a - 1 ) { 1 => ~ ( a + 1 ) , 8'd255 => ( a + 1 ) * 2 , default => let b : 4 = 3 , c = a in ( b < c ) == 1 }\nand g ( x : 1 ) : 8 = 1 + 2 - ( 3 + x )\n",
    ),
];

// The text of the program that a source spells, if it spells one.
fn printed(alloc: Global, source: &[u8]) -> Option<Vec<u8>> {
    if source.len() > SOURCE_MAX {
        return None;
    }
    printable_law();
    match parse(alloc, source) {
        Ok(parsed) => print(alloc, parsed.program()).ok(),
        Err(_) => None,
    }
}

#[test]
fn printed_texts(rt: HostRuntime) {
    let rows: &[(&[u8], &[u8])] = &PRINTED;
    for (source, text) in rows {
        for read in [*source, *text] {
            match printed(rt.alloc(), read) {
                Some(written) => assert_eq!(rt; written.as_slice(), *text),
                None => assert!(rt; false),
            }
        }
    }
}
