//! Printing expressions as tokens.

ghost use Rattle.std.specs.Prelude.{OnOk, nat_le};
ghost use Rattle.safl_tree.specs.Tree.{Op, Call, trees_of, binds_of};
ghost use Rattle.safl_tree.specs.Printable.{layers_of};
ghost use Rattle.safl_tree.specs.Shown.{shown_tree, shown_trees, shown_bounds, shown_labelled};
ghost use Rattle.safl_tree.specs.Printed.{Writes, words, separated, enclosed, part_words, bind_words, bound_words, labelled_words, sym};
ghost use Rattle.safl_word.specs.declared.token.Sym.TheVariants as syms;
ghost use Rattle.safl_word.specs.declared.primitive.Primitive.TheVariants as prims;

use crate::precedence::{layers_of, left_context, right_context};
use crate::print_words::{push_key, push_name, push_number, push_sized, push_sym, symbol_of};
use crate::{Arm, Bind, Expr, Name, Opened, top};
use safl_word::{Key, NoMemory, Primitive, Raw, Sym};

/// Appends an expression without parentheses around it.
#[cycle(print)]
pub(crate) fn push_expr(e: &Expr, out: &mut Vec<u8>) -> Result<(), NoMemory>
    ensures { OnOk result (Writes out.old.items out.new.items (words (shown_tree e.now))) }
{
    match top(e) {
        Opened::Num(n) => push_number(n, out),
        Opened::Sized(w, n) => push_sized(w, n, out),
        Opened::Var(x) => push_name(x, out),
        Opened::If(c, a, b) => {
            push_key(Key::If, out)?;
            push_expr(c, out)?;
            push_key(Key::Then, out)?;
            push_expr(a, out)?;
            push_key(Key::Else, out)?;
            push_expr(b, out)
        }
        Opened::Let(bs, body) => {
            push_key(Key::Let, out)?;
            push_bindings(bs, out)?;
            push_key(Key::In, out)?;
            push_expr(body, out)
        }
        Opened::Case(scrutinee, arms, default) => {
            push_key(Key::Case, out)?;
            push_expr(scrutinee, out)?;
            push_sym(Sym::OpenBrace, out)?;
            push_arms(arms, out)?;
            push_key(Key::Default, out)?;
            push_sym(Sym::Arrow, out)?;
            push_expr(default, out)?;
            push_sym(Sym::CloseBrace, out)
        }
        Opened::Op(p, es) => push_operation(p, es, out),
        Opened::Call(f, es) => push_call(f, es, out),
    }
}

#[cycle(print)]
fn push_bindings(bs: &[Bind], out: &mut Vec<u8>) -> Result<(), NoMemory>
    ensures { OnOk result (Writes out.old.items out.new.items (separated (sym syms.Comma) (bind_words (binds_of (shown_bounds bs.now))))) }
{
    if let [first, rest @ ..] = bs {
        push_binding(first, out)?;
        for b in rest {
            push_sym(Sym::Comma, out)?;
            push_binding(b, out)?;
        }
    }
    Ok(())
}

#[cycle(print)]
fn push_binding(b: &Bind, out: &mut Vec<u8>) -> Result<(), NoMemory>
    ensures { OnOk result (Writes out.old.items out.new.items (bound_words b.now.name b.now.width (words (shown_tree b.now.value)))) }
{
    push_name(&b.name, out)?;
    if let Some(width) = b.width {
        push_sym(Sym::Colon, out)?;
        push_number(Raw::from(width), out)?;
    }
    push_sym(Sym::Assign, out)?;
    push_expr(&b.value, out)
}

// Appends the labelled arms of a case.
#[cycle(print)]
fn push_arms(arms: &[Arm], out: &mut Vec<u8>) -> Result<(), NoMemory>
    ensures { OnOk result (Writes out.old.items out.new.items (labelled_words (shown_labelled arms.now))) }
{
    for arm in arms {
        push_expr(&arm.label, out)?;
        push_sym(Sym::Arrow, out)?;
        push_expr(&arm.value, out)?;
        push_sym(Sym::Comma, out)?;
    }
    Ok(())
}

#[cycle(print)]
fn push_call(f: &Name, es: &[Expr], out: &mut Vec<u8>) -> Result<(), NoMemory>
    ensures { OnOk result (Writes out.old.items out.new.items (words (Call 0 f.now (trees_of (shown_trees es.now))))) }
{
    push_name(f, out)?;
    push_sym(Sym::OpenParen, out)?;
    push_parts(es, 8, 8, Sym::Comma, out)?;
    push_sym(Sym::CloseParen, out)
}

#[cycle(print)]
fn push_operation(p: Primitive, es: &[Expr], out: &mut Vec<u8>) -> Result<(), NoMemory>
    ensures { OnOk result (Writes out.old.items out.new.items (words (Op 0 p (trees_of (shown_trees es.now))))) }
{
    match p {
        Primitive::Not => {
            push_sym(Sym::Tilde, out)?;
            push_parts(es, 0, 0, Sym::Comma, out)
        }
        Primitive::Cat => {
            push_key(Key::Cat, out)?;
            push_sym(Sym::OpenParen, out)?;
            push_parts(es, 8, 8, Sym::Comma, out)?;
            push_sym(Sym::CloseParen, out)
        }
        Primitive::Bits(high, low) => push_bits(high, low, es, out),
        Primitive::Ext(width) => push_ext(width, es, out),
        _ => push_parts(es, left_context(p), right_context(p), symbol_of(p), out),
    }
}

#[cycle(print)]
fn push_bits(high: u8, low: u8, es: &[Expr], out: &mut Vec<u8>) -> Result<(), NoMemory>
    ensures { OnOk result (Writes out.old.items out.new.items (words (Op 0 (prims.Bits high low) (trees_of (shown_trees es.now))))) }
{
    push_key(Key::Bits, out)?;
    push_sym(Sym::OpenParen, out)?;
    push_parts(es, 8, 8, Sym::Comma, out)?;
    push_sym(Sym::Comma, out)?;
    push_number(Raw::from(high), out)?;
    push_sym(Sym::Comma, out)?;
    push_number(Raw::from(low), out)?;
    push_sym(Sym::CloseParen, out)
}

#[cycle(print)]
fn push_ext(width: u8, es: &[Expr], out: &mut Vec<u8>) -> Result<(), NoMemory>
    ensures { OnOk result (Writes out.old.items out.new.items (words (Op 0 (prims.Ext width) (trees_of (shown_trees es.now))))) }
{
    push_key(Key::Ext, out)?;
    push_sym(Sym::OpenParen, out)?;
    push_parts(es, 8, 8, Sym::Comma, out)?;
    push_sym(Sym::Comma, out)?;
    push_number(Raw::from(width), out)?;
    push_sym(Sym::CloseParen, out)
}

// Appends several expressions with a symbol between them. The context of the first has `left` layers, that of the
// others `right`.
#[cycle(print)]
fn push_parts(
    es: &[Expr],
    left: u8,
    right: u8,
    between: Sym,
    out: &mut Vec<u8>,
) -> Result<(), NoMemory>
    ensures { OnOk result (Writes out.old.items out.new.items (separated (sym between) (part_words left right (trees_of (shown_trees es.now))))) }
{
    if let [first, rest @ ..] = es {
        push_part(first, left, out)?;
        for e in rest {
            push_sym(between, out)?;
            push_part(e, right, out)?;
        }
    }
    Ok(())
}

// Appends an expression in a context of `place` layers, with parentheses if it needs more.
#[cycle(print)]
fn push_part(e: &Expr, place: u8, out: &mut Vec<u8>) -> Result<(), NoMemory>
    ensures { OnOk result (Writes out.old.items out.new.items (enclosed (nat_le (layers_of (shown_tree e.now)) place) (words (shown_tree e.now)))) }
{
    if layers_of(e) <= place {
        push_expr(e, out)
    } else {
        push_sym(Sym::OpenParen, out)?;
        push_expr(e, out)?;
        push_sym(Sym::CloseParen, out)
    }
}
