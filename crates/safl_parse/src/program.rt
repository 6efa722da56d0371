//! Reading whole programs.

ghost use Rattle.std.specs.Prelude.{◌≡◌, [], ◌∷◌, ◌++◌, true, false, IfOk};
ghost use Rattle.safl_tree.specs.Shown.{shown_parameter, shown_parameters, shown_definition, shown_definitions, shown_program};
ghost use Rattle.safl_tree.specs.Reader.{read_param, read_another_param, read_params, read_one, read_another_one, read_group, read_another_group, read_program, read_source, expr_at};
ghost use Rattle.safl_parse.specs.Reads.{Reads, ReadsDefinitions};

use crate::error::{Cause, Read, ReadError};
use crate::parser::Parser;
use safl_tree::{Def, Param, Program};
use safl_word::{Key, Sym, Token, TokenKind};
use std::alloc::AllocError;

/// How many levels of nesting a body may have.
const LEVELS: u8 = 100;

/// The parameters with one more at the end.
fn push_param(params: Vec<Param>, next: Param) -> Result<Vec<Param>, AllocError>
    ensures { IfOk result (λ x. shown_parameters x.items ≡ shown_parameters params.items ++ shown_parameter next ∷ []) }
{
    let mut params = params;
    params.push(next)?;
    Ok(params)
}

/// The definitions with one more at the end.
fn push_def(defs: Vec<Def>, next: Def) -> Result<Vec<Def>, AllocError>
    ensures { IfOk result (λ x. shown_definitions x.items ≡ shown_definitions defs.items ++ shown_definition next ∷ []) }
{
    let mut defs = defs;
    defs.push(next)?;
    Ok(defs)
}

impl<'s> Parser<'s> {
    #[tactic(auto, unfolding(safl_tree::specs::Reader::read_param))]
    fn param<'a>(&self, tokens: &'a [Token]) -> Read<'a, Param>
        ensures { Reads self.now tokens.now (λ x. (shown_parameter x.0, x.1.now)) result read_param }
    {
        let ((place, name), rest) = self.name(tokens)?;
        let (_, rest) = self.symbol(rest, Sym::Colon)?;
        let ((_, width), rest) = self.width(rest)?;
        Ok((Param { place, name, width }, rest))
    }

    /// Reads one more parameter, after a comma.
    #[tactic(auto, unfolding(safl_tree::specs::Reader::read_another_param))]
    fn another_param<'a>(&self, params: Vec<Param>, tokens: &'a [Token]) -> Read<'a, Vec<Param>>
        ensures { Reads self.now tokens.now (λ x. (shown_parameters x.0.items, x.1.now)) result (read_another_param (shown_parameters params.items)) }
    {
        let (_, rest) = self.symbol(tokens, Sym::Comma)?;
        let (next, rest) = self.param(rest)?;
        Ok((push_param(params, next)?, rest))
    }

    /// Reads parameters with commas between them, or none.
    #[tactic(auto, unfolding(safl_tree::specs::Reader::read_params))]
    fn params<'a>(&self, tokens: &'a [Token]) -> Read<'a, Vec<Param>>
        ensures { Reads self.now tokens.now (λ x. (shown_parameters x.0.items, x.1.now)) result read_params }
    {
        if !self.comes(tokens, TokenKind::Name) {
            return Ok((Vec::new(self.alloc), tokens));
        }
        let (first, rest) = self.param(tokens)?;
        let mut params = vec![in self.alloc; first]?;
        let mut rest = rest;
        'list: while self.comes(rest, TokenKind::Sym(Sym::Comma)) {
            let (next, after) = self.another_param(params, rest)?;
            params = next;
            rest = after;
        }
        Ok((params, rest))
    }

    /// Reads a definition after its `fun` or `and`. `joined` says that it was `and`.
    #[tactic(auto, unfolding(safl_tree::specs::Reader::read_one))]
    fn one<'a>(&self, joined: bool, tokens: &'a [Token]) -> Read<'a, Def>
        ensures { Reads self.now tokens.now (λ x. (shown_definition x.0, x.1.now)) result (read_one joined (expr_at 100)) }
    {
        let ((place, name), rest) = self.name(tokens)?;
        let (_, rest) = self.symbol(rest, Sym::OpenParen)?;
        let (params, rest) = self.params(rest)?;
        let (_, rest) = self.symbol(rest, Sym::CloseParen)?;
        let (_, rest) = self.symbol(rest, Sym::Colon)?;
        let ((_, width), rest) = self.width(rest)?;
        let (_, rest) = self.symbol(rest, Sym::Assign)?;
        let (body, rest) = self.expr(LEVELS, rest)?;
        let def = Def {
            joined,
            place,
            name,
            params,
            width,
            body: body.into_expr(),
        };
        Ok((def, rest))
    }

    /// Reads one more definition of a group, after `and`.
    #[tactic(auto, unfolding(safl_tree::specs::Reader::read_another_one))]
    fn another_one<'a>(&self, defs: Vec<Def>, tokens: &'a [Token]) -> Read<'a, Vec<Def>>
        ensures { ReadsDefinitions self.now tokens.now result (read_another_one (expr_at 100) (shown_definitions defs.items)) }
    {
        let (_, rest) = self.word(tokens, Key::And)?;
        let (next, rest) = self.one(true, rest)?;
        Ok((push_def(defs, next)?, rest))
    }

    /// Reads a group of definitions, and appends them to `defs`.
    #[tactic(auto, unfolding(safl_tree::specs::Reader::read_group))]
    fn group<'a>(&self, defs: Vec<Def>, tokens: &'a [Token]) -> Read<'a, Vec<Def>>
        ensures { ReadsDefinitions self.now tokens.now result (read_group (expr_at 100) (shown_definitions defs.items)) }
    {
        let (_, rest) = self.word(tokens, Key::Fun)?;
        let (first, rest) = self.one(false, rest)?;
        let mut defs = push_def(defs, first)?;
        let mut rest = rest;
        'members: while self.comes(rest, TokenKind::Key(Key::And)) {
            let (next, after) = self.another_one(defs, rest)?;
            defs = next;
            rest = after;
        }
        Ok((defs, rest))
    }

    /// Reads one more group, with a semicolon after it if there is one, and appends its definitions to `defs`.
    #[tactic(auto, unfolding(safl_tree::specs::Reader::read_another_group, safl_tree::specs::Reader::read_ended))]
    fn another_group<'a>(&self, defs: Vec<Def>, tokens: &'a [Token]) -> Read<'a, Vec<Def>>
        ensures { ReadsDefinitions self.now tokens.now result (read_another_group (expr_at 100) (shown_definitions defs.items)) }
    {
        let (defs, rest) = self.group(defs, tokens)?;
        if self.comes(rest, TokenKind::Sym(Sym::Semicolon)) {
            let (_, rest) = self.symbol(rest, Sym::Semicolon)?;
            Ok((defs, rest))
        } else {
            Ok((defs, rest))
        }
    }

    /// Reads all groups that come next.
    #[tactic(auto, unfolding(safl_tree::specs::Reader::read_program))]
    fn groups<'a>(&self, tokens: &'a [Token]) -> Read<'a, Vec<Def>>
        ensures { ReadsDefinitions self.now tokens.now result (read_program (expr_at 100)) }
    {
        let mut defs = Vec::new(self.alloc);
        let mut rest = tokens;
        'list: while self.comes(rest, TokenKind::Key(Key::Fun)) {
            let (next, after) = self.another_group(defs, rest)?;
            defs = next;
            rest = after;
        }
        Ok((defs, rest))
    }

    /// Reads the whole text.
    #[tactic(auto, unfolding(safl_tree::specs::Reader::read_source))]
    pub fn whole<'a>(&self, tokens: &'a [Token]) -> Read<'a, Program>
        ensures { Reads self.now tokens.now (λ x. (shown_program x.0, x.1.now)) result read_source }
    {
        let (defs, rest) = self.groups(tokens)?;
        match rest {
            [] => Ok((Program { defs }, rest)),
            [_, ..] => Err(ReadError::Refused(Cause::Unexpected, rest)),
        }
    }
}
