//! Printing programs as text.

ghost use Rattle.std.specs.Prelude.{◌≡◌, [], ◌∷◌, ◌++◌, IfOk, OnOk};
ghost use Rattle.safl_word.specs.declared.token.Sym.TheVariants as syms;
ghost use Rattle.safl_tree.specs.Printable.{IsPrintable};
ghost use Rattle.safl_tree.specs.Shown.{shown_parameters, shown_definition, shown_program};
ghost use Rattle.safl_tree.specs.Printed.{Writes, sym, name, number_word, separated, param_words, one_words, line, printed};
ghost use Rattle.safl_tree.specs.Laws.{SpelledBy};

use crate::print_expression::push_expr;
use crate::print_words::{push_name, push_number, push_sym};
use crate::{Def, Param, Program};
use safl_word::{Key, NoMemory, Raw, Sym};
use std::alloc::Global;

/// The text of a program, with as few parentheses as possible. A space follows each token, and a line feed each
/// definition. The text reads as the program, apart from places.
pub fn print(alloc: Global, p: &Program) -> Result<Vec<u8>, NoMemory>
    requires { IsPrintable (shown_program p.now) }
    ensures text { IfOk result (λ text. text.items ≡ printed (shown_program p.now)) }
    ensures spells { IfOk result (λ text. SpelledBy text.items (shown_program p.now)) }
{
    let mut out = Vec::new(alloc);
    for def in &p.defs {
        push_def(def, &mut out)?;
    }
    Ok(out)
}

fn push_def(def: &Def, out: &mut Vec<u8>) -> Result<(), NoMemory>
    ensures { OnOk result (out.new.items ≡ out.old.items ++ line (shown_definition def.now)) }
{
    let opening = if def.joined { Key::And } else { Key::Fun };
    out.extend_from_slice(opening.text().as_bytes())?;
    push_one(def, out)?;
    out.push(b'\n')?;
    Ok(())
}

// Appends a definition without its `fun` or `and`.
fn push_one(def: &Def, out: &mut Vec<u8>) -> Result<(), NoMemory>
    ensures { OnOk result (Writes out.old.items out.new.items (one_words (shown_definition def.now))) }
{
    push_name(&def.name, out)?;
    push_sym(Sym::OpenParen, out)?;
    push_params(&def.params, out)?;
    push_sym(Sym::CloseParen, out)?;
    push_sym(Sym::Colon, out)?;
    push_number(Raw::from(def.width), out)?;
    push_sym(Sym::Assign, out)?;
    push_expr(&def.body, out)
}

fn push_params(params: &[Param], out: &mut Vec<u8>) -> Result<(), NoMemory>
    ensures { OnOk result (Writes out.old.items out.new.items (separated (sym syms.Comma) (param_words (shown_parameters params.now)))) }
{
    if let [first, rest @ ..] = params {
        push_param(first, out)?;
        for param in rest {
            push_sym(Sym::Comma, out)?;
            push_param(param, out)?;
        }
    }
    Ok(())
}

fn push_param(param: &Param, out: &mut Vec<u8>) -> Result<(), NoMemory>
    ensures { OnOk result (Writes out.old.items out.new.items (name param.now.name ∷ (sym syms.Colon ∷ (number_word param.now.width ∷ [])))) }
{
    push_name(&param.name, out)?;
    push_sym(Sym::Colon, out)?;
    push_number(Raw::from(param.width), out)
}
