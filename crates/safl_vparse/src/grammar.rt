//! Reading expressions, declarations, statements and whole files.

ghost use Rattle.std.specs.Prelude.{◌≡◌, [], ◌∷◌, IfOk};
ghost use Rattle.safl_verilog.specs.Reader.{read_constant, read_inverted, read_binary, read_choice, read_joined, read_slice, read_named, read_cell, read_written_range, read_range, read_decl, read_assign, read_at_reset, read_always, read_stmt, read_another_id, read_ids, read_another_decl, read_decls, read_another_stmt, read_stmts, read_body, read_file, read_text};
ghost use Rattle.safl_vparse.specs.Shown.{shown_spots, shown_declarations, shown_statements};
ghost use Rattle.safl_vparse.specs.Reads.{spot_in, otherwise_in, ReadsExpression, ReadsRange, ReadsDeclaration, ReadsStatement, ReadsNames, ReadsDeclarations, ReadsStatements, ReadsFile};

use crate::file::{Declaration, Expression, File, Range, Span, Statement, Update};
use crate::parser::{Parser, Read, ReadError};
use safl_verilog::{Keyword, Symbol, Token, TokenKind};
use std::alloc::{AllocError, Global};

impl<'s> Parser<'s> {
    #[tactic(auto, unfolding(safl_verilog::specs::Reader::read_constant))]
    fn constant<'a>(&self, tokens: &'a [Token]) -> Read<'a, Expression>
        ensures { ReadsExpression self.now tokens.now result read_constant }
    {
        let (l, rest) = self.literal(tokens)?;
        Ok((Expression::Literal(l), rest))
    }

    #[tactic(auto, unfolding(safl_verilog::specs::Reader::read_inverted))]
    fn inverted<'a>(&self, tokens: &'a [Token]) -> Read<'a, Expression>
        ensures { ReadsExpression self.now tokens.now result read_inverted }
    {
        let (_, rest) = self.symbol(tokens, Symbol::Tilde)?;
        let (a, rest) = self.identifier(rest)?;
        Ok((Expression::Inverted(a), rest))
    }

    #[tactic(auto, unfolding(safl_verilog::specs::Reader::read_binary))]
    fn binary<'a>(&self, a: Span, tokens: &'a [Token]) -> Read<'a, Expression>
        ensures { ReadsExpression self.now tokens.now result (read_binary (spot_in self.now a)) }
    {
        let (operator, rest) = self.operator(tokens)?;
        let (b, rest) = self.identifier(rest)?;
        Ok((Expression::Binary(operator, a, b), rest))
    }

    #[tactic(auto, unfolding(safl_verilog::specs::Reader::read_choice))]
    fn choice<'a>(&self, a: Span, tokens: &'a [Token]) -> Read<'a, Expression>
        ensures { ReadsExpression self.now tokens.now result (read_choice (spot_in self.now a)) }
    {
        let (_, rest) = self.symbol(tokens, Symbol::Question)?;
        let (b, rest) = self.identifier(rest)?;
        let (_, rest) = self.symbol(rest, Symbol::Colon)?;
        let (c, rest) = self.identifier(rest)?;
        Ok((Expression::Choice(a, b, c), rest))
    }

    #[tactic(auto, unfolding(safl_verilog::specs::Reader::read_joined))]
    fn joined<'a>(&self, tokens: &'a [Token]) -> Read<'a, Expression>
        ensures { ReadsExpression self.now tokens.now result read_joined }
    {
        let (_, rest) = self.symbol(tokens, Symbol::OpenBrace)?;
        let (a, rest) = self.identifier(rest)?;
        let (_, rest) = self.symbol(rest, Symbol::Comma)?;
        let (b, rest) = self.identifier(rest)?;
        let (_, rest) = self.symbol(rest, Symbol::CloseBrace)?;
        Ok((Expression::Joined(a, b), rest))
    }

    #[tactic(auto, unfolding(safl_verilog::specs::Reader::read_slice))]
    fn slice<'a>(&self, a: Span, tokens: &'a [Token]) -> Read<'a, Expression>
        ensures { ReadsExpression self.now tokens.now result (read_slice (spot_in self.now a)) }
    {
        let (_, rest) = self.symbol(tokens, Symbol::OpenBracket)?;
        let (high, rest) = self.number(rest)?;
        let (_, rest) = self.symbol(rest, Symbol::Colon)?;
        let (low, rest) = self.number(rest)?;
        let (_, rest) = self.symbol(rest, Symbol::CloseBracket)?;
        Ok((Expression::Slice(a, high, low), rest))
    }

    // Reads an expression that begins with a name.
    #[tactic(auto, unfolding(safl_verilog::specs::Reader::read_named))]
    fn named<'a>(&self, tokens: &'a [Token]) -> Read<'a, Expression>
        ensures { ReadsExpression self.now tokens.now result read_named }
    {
        let (a, rest) = self.identifier(tokens)?;
        if self.comes_operator(rest) {
            self.binary(a, rest)
        } else if self.comes(rest, TokenKind::Symbol(Symbol::Question)) {
            self.choice(a, rest)
        } else if self.comes(rest, TokenKind::Symbol(Symbol::OpenBracket)) {
            self.slice(a, rest)
        } else {
            Ok((Expression::Plain(a), rest))
        }
    }

    #[tactic(auto, unfolding(safl_verilog::specs::Reader::read_cell))]
    fn expression<'a>(&self, tokens: &'a [Token]) -> Read<'a, Expression>
        ensures { ReadsExpression self.now tokens.now result read_cell }
    {
        if self.comes(tokens, TokenKind::Sized) {
            self.constant(tokens)
        } else if self.comes(tokens, TokenKind::Identifier) {
            self.named(tokens)
        } else if self.comes(tokens, TokenKind::Symbol(Symbol::Tilde)) {
            self.inverted(tokens)
        } else {
            self.joined(tokens)
        }
    }

    #[tactic(auto, unfolding(safl_verilog::specs::Reader::read_written_range))]
    fn written_range<'a>(&self, tokens: &'a [Token]) -> Read<'a, Option<Range>>
        ensures { ReadsRange self.now tokens.now result read_written_range }
    {
        let (_, rest) = self.symbol(tokens, Symbol::OpenBracket)?;
        let (high, rest) = self.number(rest)?;
        let (_, rest) = self.symbol(rest, Symbol::Colon)?;
        let (low, rest) = self.number(rest)?;
        let (_, rest) = self.symbol(rest, Symbol::CloseBracket)?;
        Ok((Some(Range { high, low }), rest))
    }

    #[tactic(auto, unfolding(safl_verilog::specs::Reader::read_range))]
    fn range<'a>(&self, tokens: &'a [Token]) -> Read<'a, Option<Range>>
        ensures { ReadsRange self.now tokens.now result read_range }
    {
        if self.comes(tokens, TokenKind::Symbol(Symbol::OpenBracket)) {
            self.written_range(tokens)
        } else {
            Ok((None, tokens))
        }
    }

    #[tactic(auto, unfolding(safl_verilog::specs::Reader::read_decl))]
    fn declaration<'a>(&self, tokens: &'a [Token]) -> Read<'a, Declaration>
        ensures { ReadsDeclaration self.now tokens.now result read_decl }
    {
        let (sort, rest) = self.sort(tokens)?;
        let (range, rest) = self.range(rest)?;
        let (name, rest) = self.identifier(rest)?;
        let (_, rest) = self.symbol(rest, Symbol::Semicolon)?;
        Ok((Declaration { sort, range, name }, rest))
    }

    #[tactic(auto, unfolding(safl_verilog::specs::Reader::read_assign))]
    fn assign<'a>(&self, tokens: &'a [Token]) -> Read<'a, Statement>
        ensures { ReadsStatement self.now tokens.now result read_assign }
    {
        let (_, rest) = self.word(tokens, Keyword::Assign)?;
        let (target, rest) = self.identifier(rest)?;
        let (_, rest) = self.symbol(rest, Symbol::Becomes)?;
        let (expression, rest) = self.expression(rest)?;
        let (_, rest) = self.symbol(rest, Symbol::Semicolon)?;
        Ok((Statement::Assign(target, expression), rest))
    }

    // Reads an update from after its assignment at reset.
    #[tactic(auto, unfolding(safl_verilog::specs::Reader::read_otherwise))]
    fn otherwise<'a>(
        &self,
        clock: Span,
        reset: Span,
        target: Span,
        initial: Span,
        tokens: &'a [Token],
    ) -> Read<'a, Statement>
        ensures { ReadsStatement self.now tokens.now result (otherwise_in self.now clock reset target initial) }
    {
        let (_, rest) = self.word(tokens, Keyword::Else)?;
        let (second, rest) = self.identifier(rest)?;
        let (_, rest) = self.symbol(rest, Symbol::LessEqual)?;
        let (source, rest) = self.identifier(rest)?;
        let (_, rest) = self.symbol(rest, Symbol::Semicolon)?;
        Ok((
            Statement::Always(Update {
                clock,
                reset,
                target,
                initial,
                second,
                source,
            }),
            rest,
        ))
    }

    // Reads an update from after the clock in its header.
    #[tactic(auto, unfolding(safl_verilog::specs::Reader::read_at_reset))]
    fn at_reset<'a>(&self, clock: Span, tokens: &'a [Token]) -> Read<'a, Statement>
        ensures { ReadsStatement self.now tokens.now result (read_at_reset (spot_in self.now clock)) }
    {
        let (_, rest) = self.word(tokens, Keyword::If)?;
        let (_, rest) = self.symbol(rest, Symbol::OpenParen)?;
        let (reset, rest) = self.identifier(rest)?;
        let (_, rest) = self.symbol(rest, Symbol::CloseParen)?;
        let (target, rest) = self.identifier(rest)?;
        let (_, rest) = self.symbol(rest, Symbol::LessEqual)?;
        let (initial, rest) = self.literal(rest)?;
        let (_, rest) = self.symbol(rest, Symbol::Semicolon)?;
        self.otherwise(clock, reset, target, initial, rest)
    }

    #[tactic(auto, unfolding(safl_verilog::specs::Reader::read_always))]
    fn always<'a>(&self, tokens: &'a [Token]) -> Read<'a, Statement>
        ensures { ReadsStatement self.now tokens.now result read_always }
    {
        let (_, rest) = self.word(tokens, Keyword::Always)?;
        let (_, rest) = self.symbol(rest, Symbol::At)?;
        let (_, rest) = self.symbol(rest, Symbol::OpenParen)?;
        let (_, rest) = self.word(rest, Keyword::Posedge)?;
        let (clock, rest) = self.identifier(rest)?;
        let (_, rest) = self.symbol(rest, Symbol::CloseParen)?;
        self.at_reset(clock, rest)
    }

    #[tactic(auto, unfolding(safl_verilog::specs::Reader::read_stmt))]
    fn statement<'a>(&self, tokens: &'a [Token]) -> Read<'a, Statement>
        ensures { ReadsStatement self.now tokens.now result read_stmt }
    {
        if self.comes(tokens, TokenKind::Keyword(Keyword::Assign)) {
            self.assign(tokens)
        } else {
            self.always(tokens)
        }
    }

    #[tactic(auto, unfolding(safl_verilog::specs::Reader::read_another_id))]
    fn another_name<'a>(&self, mut names: Vec<Span>, tokens: &'a [Token]) -> Read<'a, Vec<Span>>
        ensures { ReadsNames self.now tokens.now result (read_another_id (shown_spots self.now.text.now names.items)) }
    {
        let (_, rest) = self.symbol(tokens, Symbol::Comma)?;
        let (name, rest) = self.identifier(rest)?;
        names.push(name)?;
        Ok((names, rest))
    }

    // Reads the names of the header.
    #[tactic(auto, unfolding(safl_verilog::specs::Reader::read_ids))]
    fn names<'a>(&self, tokens: &'a [Token]) -> Read<'a, Vec<Span>>
        ensures { ReadsNames self.now tokens.now result read_ids }
    {
        let (first, rest) = self.identifier(tokens)?;
        let mut names = single(self.alloc, first)?;
        let mut rest = rest;
        'list: while self.comes(rest, TokenKind::Symbol(Symbol::Comma)) {
            let (next, after) = self.another_name(names, rest)?;
            names = next;
            rest = after;
        }
        Ok((names, rest))
    }

    #[tactic(auto, unfolding(safl_verilog::specs::Reader::read_another_decl))]
    fn another_declaration<'a>(
        &self,
        mut declarations: Vec<Declaration>,
        tokens: &'a [Token],
    ) -> Read<'a, Vec<Declaration>>
        ensures { ReadsDeclarations self.now tokens.now result (read_another_decl (shown_declarations self.now.text.now declarations.items)) }
    {
        let (declaration, rest) = self.declaration(tokens)?;
        declarations.push(declaration)?;
        Ok((declarations, rest))
    }

    #[tactic(auto, unfolding(safl_verilog::specs::Reader::read_decls))]
    fn declarations<'a>(&self, tokens: &'a [Token]) -> Read<'a, Vec<Declaration>>
        ensures { ReadsDeclarations self.now tokens.now result read_decls }
    {
        let mut declarations = Vec::new(self.alloc);
        let mut rest = tokens;
        'list: while self.comes_declaration(rest) {
            let (next, after) = self.another_declaration(declarations, rest)?;
            declarations = next;
            rest = after;
        }
        Ok((declarations, rest))
    }

    #[tactic(auto, unfolding(safl_verilog::specs::Reader::read_another_stmt))]
    fn another_statement<'a>(
        &self,
        mut statements: Vec<Statement>,
        tokens: &'a [Token],
    ) -> Read<'a, Vec<Statement>>
        ensures { ReadsStatements self.now tokens.now result (read_another_stmt (shown_statements self.now.text.now statements.items)) }
    {
        let (statement, rest) = self.statement(tokens)?;
        statements.push(statement)?;
        Ok((statements, rest))
    }

    #[tactic(auto, unfolding(safl_verilog::specs::Reader::read_stmts))]
    fn statements<'a>(&self, tokens: &'a [Token]) -> Read<'a, Vec<Statement>>
        ensures { ReadsStatements self.now tokens.now result read_stmts }
    {
        let mut statements = Vec::new(self.alloc);
        let mut rest = tokens;
        'list: while self.comes_statement(rest) {
            let (next, after) = self.another_statement(statements, rest)?;
            statements = next;
            rest = after;
        }
        Ok((statements, rest))
    }

    // Reads what follows the header.
    #[tactic(auto, unfolding(safl_verilog::specs::Reader::read_body))]
    fn body<'a>(&self, header: Vec<Span>, tokens: &'a [Token]) -> Read<'a, File>
        ensures { ReadsFile self.now tokens.now result (read_body (shown_spots self.now.text.now header.items)) }
    {
        let (declarations, rest) = self.declarations(tokens)?;
        let (statements, rest) = self.statements(rest)?;
        let (_, rest) = self.word(rest, Keyword::Endmodule)?;
        Ok((
            File {
                header,
                declarations,
                statements,
            },
            rest,
        ))
    }

    #[tactic(auto, unfolding(safl_verilog::specs::Reader::read_file))]
    fn file<'a>(&self, tokens: &'a [Token]) -> Read<'a, File>
        ensures { ReadsFile self.now tokens.now result read_file }
    {
        let (_, rest) = self.word(tokens, Keyword::Module)?;
        let (_, rest) = self.identifier(rest)?;
        let (_, rest) = self.symbol(rest, Symbol::OpenParen)?;
        let (header, rest) = self.names(rest)?;
        let (_, rest) = self.symbol(rest, Symbol::CloseParen)?;
        let (_, rest) = self.symbol(rest, Symbol::Semicolon)?;
        self.body(header, rest)
    }

    /// Reads all tokens as a file.
    #[tactic(auto, unfolding(safl_verilog::specs::Reader::read_text))]
    pub fn whole<'a>(&self, tokens: &'a [Token]) -> Read<'a, File>
        ensures { ReadsFile self.now tokens.now result read_text }
    {
        let (file, rest) = self.file(tokens)?;
        match rest {
            [] => Ok((file, rest)),
            [_, ..] => Err(ReadError::Unexpected(rest)),
        }
    }
}

// A list of one name.
fn single(alloc: Global, name: Span) -> Result<Vec<Span>, AllocError>
    ensures { IfOk result (λ v. v.items ≡ name ∷ []) }
{
    let mut names = Vec::new(alloc);
    names.push(name)?;
    Ok(names)
}
