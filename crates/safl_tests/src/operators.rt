//! Words: the results of operators, and the texts of numbers and faults.

use safl_word::{
    Fault, Key, Primitive, Raw, Rule, Sym, Word, apply, argument, decimal, numeral, push_decimal,
    push_fault, result_width,
};
use std::process::Abort;
use std::test::Fail;

// A width and a number below 2 to that width.
type Pair = (u8, Raw);

// An operator, its two operands, and its result, worked out with Python's whole numbers. More of these are cases
// (`docs/CASES.md`).
static TWO: [(Primitive, Pair, Pair, Pair); 15] = [
    (Primitive::Add, (1, 0x0), (1, 0x1), (1, 0x1)),
    (Primitive::Sub, (1, 0x1), (1, 0x1), (1, 0x0)),
    (Primitive::Mul, (1, 0x0), (1, 0x1), (1, 0x0)),
    (Primitive::And, (7, 0x4a), (7, 0x76), (7, 0x42)),
    (Primitive::Or, (7, 0x70), (7, 0x2b), (7, 0x7b)),
    (Primitive::Xor, (7, 0x3e), (7, 0x35), (7, 0xb)),
    (
        Primitive::Eq,
        (127, 0x66008e6e9474031b7f26144b98289fcd),
        (127, 0x66008e6e9474031b7f26144b98289fcd),
        (1, 0x1),
    ),
    (
        Primitive::Ne,
        (127, 0xbfaf41bd70820fe119a72d174c9df6a),
        (127, 0xbfaf41bd70820fe119a72d174c9df6a),
        (1, 0x0),
    ),
    (
        Primitive::Lt,
        (127, 0x5938aca2795e8229451abd81f1d69ed6),
        (127, 0x5938aca2795e8229451abd81f1d69ed6),
        (1, 0x0),
    ),
    (
        Primitive::Le,
        (127, 0x5d96a1070f88080b10a3d6b2aa05e11a),
        (127, 0x5d96a1070f88080b10a3d6b2aa05e11a),
        (1, 0x1),
    ),
    (
        Primitive::Gt,
        (127, 0x49fa2459a5aa3c814f426dcbb394fb36),
        (127, 0x49fa2459a5aa3c814f426dcbb394fb36),
        (1, 0x0),
    ),
    (
        Primitive::Ge,
        (127, 0x390ac1b8d269a9a5ae658f33fe3b890b),
        (127, 0x390ac1b8d269a9a5ae658f33fe3b890b),
        (1, 0x1),
    ),
    (Primitive::Shl, (8, 0xff), (8, 0x8), (8, 0x0)),
    (Primitive::Shr, (8, 0xff), (8, 0x8), (8, 0x0)),
    (
        Primitive::Cat,
        (1, 0x1),
        (127, 0x1fb1d7c1bd0561e6211c70cf49952399),
        (128, 0x9fb1d7c1bd0561e6211c70cf49952399),
    ),
];

// An operator, its operand, and its result.
static ONE: [(Primitive, Pair, Pair); 3] = [
    (Primitive::Not, (1, 0x1), (1, 0x0)),
    (
        Primitive::Bits(127, 0),
        (128, 0x26a2c0bd3b1287fff52ddf5d616499c9),
        (128, 0x26a2c0bd3b1287fff52ddf5d616499c9),
    ),
    (Primitive::Ext(128), (1, 0x1), (128, 0x1)),
];

fn word(rt: &impl Abort, pair: Pair) -> Word {
    Word::new(pair.0, pair.1).expect(rt, "a word")
}

fn check_two(rt: &impl Abort, rows: &[(Primitive, Pair, Pair, Pair)]) {
    for (p, a, b, wanted) in rows {
        let (a, b) = (word(rt, *a), word(rt, *b));
        assert_eq!(rt;
            result_width(*p, &[a.width(), b.width()]),
            Some(wanted.0),
            "{p:?}"
        );
        assert_eq!(rt; apply(*p, &[a, b]), word(rt, *wanted), "{p:?}");
    }
}

fn check_one(rt: &impl Abort, rows: &[(Primitive, Pair, Pair)]) {
    for (p, a, wanted) in rows {
        let a = word(rt, *a);
        assert_eq!(rt; result_width(*p, &[a.width()]), Some(wanted.0), "{p:?}");
        assert_eq!(rt; apply(*p, &[a]), word(rt, *wanted), "{p:?}");
    }
}

#[test]
fn operators_give_what_python_gives(rt: HostRuntime) {
    check_two(&rt, &TWO);
    check_one(&rt, &ONE);
}

#[test]
fn the_product_of_two_extensions(rt: HostRuntime) {
    let a = word(&rt, (64, 18446744073709551615));
    let wide = apply(Primitive::Ext(128), &[a]);
    let product = apply(Primitive::Mul, &[wide, wide]);
    assert_eq!(rt;
        product,
        word(&rt, (128, 340282366920938463426481119284349108225))
    );
}

#[test]
fn numbers_are_read_and_written(rt: HostRuntime) -> Result<(), Fail> {
    assert_eq!(rt; decimal(b"00018446744073709551"), Some(18446744073709551));
    assert_eq!(rt;
        decimal(b"18446744073709551615"),
        Some(18446744073709551615)
    );
    assert_eq!(rt; decimal(b"18446744073709551616"), None);
    assert_eq!(rt; decimal(b"000000000000000000001"), None);
    assert_eq!(rt; decimal(b""), None);
    assert_eq!(rt;
        argument(b"340282366920938463463374607431768211455"),
        Some(Raw::MAX)
    );
    assert_eq!(rt; argument(b"340282366920938463463374607431768211456"), None);
    assert_eq!(rt; argument(b"0000000000000000000000000000000000000001"), None);
    assert_eq!(rt; argument(b"1a"), None);
    assert_eq!(rt; numeral(16, 128, b"fF"), Some(255));
    let mut out = b"n=".to_vec(rt.alloc())?;
    push_decimal(Raw::MAX, &mut out)?;
    push_decimal(0, &mut out)?;
    assert_eq!(rt;
        out.as_slice(),
        b"n=3402823669209384634633746074317682114550".as_slice()
    );
    Ok(())
}

#[test]
fn texts_of_faults_and_tokens(rt: HostRuntime) -> Result<(), Fail> {
    let mut out = Vec::new(rt.alloc());
    push_fault(Fault::with(Rule::E12, 3, 8, 4), &mut out)?;
    assert_eq!(rt; out.as_slice(), b"E12 widths differ: 8 and 4".as_slice());
    push_fault(Fault::with(Rule::E16, 3, 2, 16), &mut out)?;
    assert_eq!(rt;
        out.as_slice(),
        b"E12 widths differ: 8 and 4E16 limit: parameters 16".as_slice()
    );
    out.clear();
    push_fault(Fault::new(Rule::E03, 0), &mut out)?;
    assert_eq!(rt; out.as_slice(), b"E03 name or number too long".as_slice());
    assert_eq!(rt; Key::Default.text(), "default");
    assert_eq!(rt; Sym::ShiftRight.text(), ">>");
    Ok(())
}
