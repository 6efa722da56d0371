//! Expressions, by recursive descent: one function for each symbol of the grammar.

ghost use Rattle.std.specs.Prelude.{◌≡◌, min, IfOk};
ghost use Rattle.safl_tree.specs.Tree.{depth as tree_depth};
ghost use Rattle.safl_tree.specs.Shown.{shown_tree, shown_trees, shown_bind, shown_bounds, shown_labelled};
ghost use Rattle.safl_tree.specs.Reader.{read_literal, read_sized_literal, read_another, read_exprs, read_call, read_named, read_parenthesised, read_cat, read_bits, read_ext, read_primary, read_inverted, read_unary, read_joined, read_chained, read_compared, read_chain, read_choice, read_written, read_bind, read_another_bind, read_binds, read_binding, read_label, read_arm, read_last_arm, read_cases, operand_at, expr_at, arm_value_at, more_arms_at, arms_at};
ghost use Rattle.safl_parse.specs.Reads.{Reads, ReadsTree, ReadsTrees, ReadsBindings, ReadsArms};

use crate::error::{Cause, Read, ReadError};
use crate::parser::Parser;
use crate::part::{
    AllArms, Bindings, DEPTH_LIMIT, Labels, Part, Parts, applied, bound, called, cased, chosen,
    no_labels, push, push_arm, push_bind, single, single_bind, with_default,
};
use safl_tree::{Bind, Expr, Name, Node};
use safl_word::{Key, Primitive, Sym, Token, TokenKind};

/// The number of layers of binary operators.
const LAYERS: u8 = 7;

/// The layer of the comparisons, which do not chain.
const COMPARISONS: u8 = 3;

impl<'s> Parser<'s> {
    /// Reads a number.
    #[tactic(auto, unfolding(safl_tree::specs::Reader::read_literal))]
    fn literal<'a>(&self, tokens: &'a [Token]) -> Read<'a, Part>
        ensures { ReadsTree self.now tokens.now result read_literal }
    {
        let ((place, value), rest) = self.number(tokens)?;
        let node = Node::Num(value);
        Ok((
            Part {
                expr: Expr { place, node },
                depth: 1,
            },
            rest,
        ))
    }

    /// Reads a sized number.
    #[tactic(auto, unfolding(safl_tree::specs::Reader::read_sized_literal))]
    fn sized_literal<'a>(&self, tokens: &'a [Token]) -> Read<'a, Part>
        ensures { ReadsTree self.now tokens.now result read_sized_literal }
    {
        let ((place, width, value), rest) = self.sized(tokens)?;
        let node = Node::Sized(width, value);
        Ok((
            Part {
                expr: Expr { place, node },
                depth: 1,
            },
            rest,
        ))
    }

    /// Reads an expression. `levels` more levels of nesting are allowed.
    #[cycle(descent)]
    #[tactic(auto, unfolding(safl_tree::specs::Reader::expr_at, safl_tree::specs::Reader::read_expr))]
    pub fn expr<'a>(&self, levels: u8, tokens: &'a [Token]) -> Read<'a, Part>
        ensures { ReadsTree self.now tokens.now result (expr_at levels) }
    {
        if levels == 0 {
            return Err(ReadError::Refused(Cause::Deep, tokens));
        }
        let below = levels - 1;
        if self.comes(tokens, TokenKind::Key(Key::If)) {
            self.choice(below, tokens)
        } else if self.comes(tokens, TokenKind::Key(Key::Let)) {
            self.binding(below, tokens)
        } else if self.comes(tokens, TokenKind::Key(Key::Case)) {
            self.cases(below, tokens)
        } else {
            self.chain(LAYERS, below, tokens)
        }
    }

    /// Reads the operand of `~`.
    #[cycle(descent)]
    #[tactic(auto, unfolding(safl_tree::specs::Reader::operand_at))]
    fn operand<'a>(&self, levels: u8, tokens: &'a [Token]) -> Read<'a, Part>
        ensures { ReadsTree self.now tokens.now result (operand_at levels) }
    {
        if levels == 0 {
            return Err(ReadError::Refused(Cause::Deep, tokens));
        }
        self.unary(levels - 1, tokens)
    }

    /// Reads an if.
    #[cycle(descent)]
    #[tactic(auto, unfolding(safl_tree::specs::Reader::read_choice))]
    fn choice<'a>(&self, levels: u8, tokens: &'a [Token]) -> Read<'a, Part>
        ensures { ReadsTree self.now tokens.now result (read_choice (expr_at levels)) }
    {
        let (place, rest) = self.word(tokens, Key::If)?;
        let (condition, rest) = self.expr(levels, rest)?;
        let (_, rest) = self.word(rest, Key::Then)?;
        let (first, rest) = self.expr(levels, rest)?;
        let (_, rest) = self.word(rest, Key::Else)?;
        let (second, rest) = self.expr(levels, rest)?;
        Ok((chosen(self.alloc, place, condition, first, second)?, rest))
    }

    /// Reads an expression with the operators of `layers` layers, those that bind the closest.
    #[cycle(descent)]
    fn chain<'a>(&self, layers: u8, levels: u8, tokens: &'a [Token]) -> Read<'a, Part>
        ensures { ReadsTree self.now tokens.now result (read_chain layers (read_unary (operand_at levels) (expr_at levels))) }
    {
        if layers == 0 {
            return self.unary(levels, tokens);
        }
        let layer = layers - 1;
        if layer == COMPARISONS {
            self.compared(layer, levels, tokens)
        } else {
            self.chained(layer, levels, tokens)
        }
    }

    /// Reads an operator of this layer and its right operand, after its left operand.
    #[cycle(descent)]
    #[tactic(auto, unfolding(safl_tree::specs::Reader::read_joined))]
    fn joined<'a>(&self, layer: u8, levels: u8, left: Part, tokens: &'a [Token]) -> Read<'a, Part>
        ensures { ReadsTree self.now tokens.now result
            (read_joined layer (read_chain layer (read_unary (operand_at levels) (expr_at levels))) (shown_tree left.expr)) }
    {
        let (op, rest) = self.operator(tokens, layer)?;
        if DEPTH_LIMIT <= left.depth {
            return Err(ReadError::Refused(Cause::Deep, tokens));
        }
        let (right, rest) = self.chain(layer, levels, rest)?;
        let place = left.expr.place;
        let operands = push(single(self.alloc, left)?, right)?;
        Ok((applied(place, op, operands), rest))
    }

    /// Reads an expression with at most one comparison.
    #[cycle(descent)]
    #[tactic(auto, unfolding(safl_tree::specs::Reader::read_compared))]
    fn compared<'a>(&self, layer: u8, levels: u8, tokens: &'a [Token]) -> Read<'a, Part>
        ensures { ReadsTree self.now tokens.now result (read_compared layer (read_chain layer (read_unary (operand_at levels) (expr_at levels)))) }
    {
        let (left, rest) = self.chain(layer, levels, tokens)?;
        if self.comes_operator(rest, layer) {
            self.joined(layer, levels, left, rest)
        } else {
            Ok((left, rest))
        }
    }

    /// Reads operands and operators of one layer, grouped to the left.
    #[cycle(descent)]
    #[tactic(auto, unfolding(safl_tree::specs::Reader::read_chained))]
    fn chained<'a>(&self, layer: u8, levels: u8, tokens: &'a [Token]) -> Read<'a, Part>
        ensures { ReadsTree self.now tokens.now result (read_chained layer (read_chain layer (read_unary (operand_at levels) (expr_at levels)))) }
    {
        let (mut left, mut rest) = self.chain(layer, levels, tokens)?;
        'chain: while self.comes_operator(rest, layer) {
            let (next, after) = self.joined(layer, levels, left, rest)?;
            left = next;
            rest = after;
        }
        Ok((left, rest))
    }

    /// Reads `~` and its operand, or a primary expression.
    #[cycle(descent)]
    #[tactic(auto, unfolding(safl_tree::specs::Reader::read_unary))]
    fn unary<'a>(&self, levels: u8, tokens: &'a [Token]) -> Read<'a, Part>
        ensures { ReadsTree self.now tokens.now result (read_unary (operand_at levels) (expr_at levels)) }
    {
        if self.comes(tokens, TokenKind::Sym(Sym::Tilde)) {
            self.inverted(levels, tokens)
        } else {
            self.primary(levels, tokens)
        }
    }

    #[cycle(descent)]
    #[tactic(auto, unfolding(safl_tree::specs::Reader::read_inverted))]
    fn inverted<'a>(&self, levels: u8, tokens: &'a [Token]) -> Read<'a, Part>
        ensures { ReadsTree self.now tokens.now result (read_inverted (operand_at levels)) }
    {
        let (place, rest) = self.symbol(tokens, Sym::Tilde)?;
        let (inner, rest) = self.operand(levels, rest)?;
        let operands = single(self.alloc, inner)?;
        Ok((applied(place, Primitive::Not, operands), rest))
    }

    /// Reads a primary expression: one that no operator divides.
    #[cycle(descent)]
    #[tactic(auto, unfolding(safl_tree::specs::Reader::read_primary))]
    fn primary<'a>(&self, levels: u8, tokens: &'a [Token]) -> Read<'a, Part>
        ensures { ReadsTree self.now tokens.now result (read_primary (expr_at levels)) }
    {
        if self.comes_number(tokens) {
            self.literal(tokens)
        } else if self.comes_sized(tokens) {
            self.sized_literal(tokens)
        } else if self.comes(tokens, TokenKind::Name) {
            self.named(levels, tokens)
        } else if self.comes(tokens, TokenKind::Sym(Sym::OpenParen)) {
            self.parenthesised(levels, tokens)
        } else if self.comes(tokens, TokenKind::Key(Key::Cat)) {
            self.cat(levels, tokens)
        } else if self.comes(tokens, TokenKind::Key(Key::Bits)) {
            self.bits(levels, tokens)
        } else {
            self.ext(levels, tokens)
        }
    }

    #[cycle(descent)]
    #[tactic(auto, unfolding(safl_tree::specs::Reader::read_parenthesised))]
    fn parenthesised<'a>(&self, levels: u8, tokens: &'a [Token]) -> Read<'a, Part>
        ensures { ReadsTree self.now tokens.now result (read_parenthesised (expr_at levels)) }
    {
        let (place, rest) = self.symbol(tokens, Sym::OpenParen)?;
        let (inner, rest) = self.expr(levels, rest)?;
        let (_, rest) = self.symbol(rest, Sym::CloseParen)?;
        let node = inner.expr.into_node();
        Ok((
            Part {
                expr: Expr { place, node },
                depth: inner.depth,
            },
            rest,
        ))
    }

    /// Reads a concatenation.
    #[cycle(descent)]
    #[tactic(auto, unfolding(safl_tree::specs::Reader::read_cat))]
    fn cat<'a>(&self, levels: u8, tokens: &'a [Token]) -> Read<'a, Part>
        ensures { ReadsTree self.now tokens.now result (read_cat (expr_at levels)) }
    {
        let (place, rest) = self.word(tokens, Key::Cat)?;
        let (_, rest) = self.symbol(rest, Sym::OpenParen)?;
        let (high, rest) = self.expr(levels, rest)?;
        let (_, rest) = self.symbol(rest, Sym::Comma)?;
        let (low, rest) = self.expr(levels, rest)?;
        let (_, rest) = self.symbol(rest, Sym::CloseParen)?;
        let operands = push(single(self.alloc, high)?, low)?;
        Ok((applied(place, Primitive::Cat, operands), rest))
    }

    /// Reads a slice of bits.
    #[cycle(descent)]
    #[tactic(auto, unfolding(safl_tree::specs::Reader::read_bits))]
    fn bits<'a>(&self, levels: u8, tokens: &'a [Token]) -> Read<'a, Part>
        ensures { ReadsTree self.now tokens.now result (read_bits (expr_at levels)) }
    {
        let (place, rest) = self.word(tokens, Key::Bits)?;
        let (_, rest) = self.symbol(rest, Sym::OpenParen)?;
        let (word, rest) = self.expr(levels, rest)?;
        let (_, rest) = self.symbol(rest, Sym::Comma)?;
        let ((_, high), rest) = self.index(rest)?;
        let (_, rest) = self.symbol(rest, Sym::Comma)?;
        let ((_, low), rest) = self.index(rest)?;
        let (_, rest) = self.symbol(rest, Sym::CloseParen)?;
        let operands = single(self.alloc, word)?;
        Ok((applied(place, Primitive::Bits(high, low), operands), rest))
    }

    /// Reads an extension with zeros.
    #[cycle(descent)]
    #[tactic(auto, unfolding(safl_tree::specs::Reader::read_ext))]
    fn ext<'a>(&self, levels: u8, tokens: &'a [Token]) -> Read<'a, Part>
        ensures { ReadsTree self.now tokens.now result (read_ext (expr_at levels)) }
    {
        let (place, rest) = self.word(tokens, Key::Ext)?;
        let (_, rest) = self.symbol(rest, Sym::OpenParen)?;
        let (word, rest) = self.expr(levels, rest)?;
        let (_, rest) = self.symbol(rest, Sym::Comma)?;
        let ((_, width), rest) = self.width(rest)?;
        let (_, rest) = self.symbol(rest, Sym::CloseParen)?;
        let operands = single(self.alloc, word)?;
        Ok((applied(place, Primitive::Ext(width), operands), rest))
    }

    /// Reads a variable or a call.
    #[cycle(descent)]
    #[tactic(auto, unfolding(safl_tree::specs::Reader::read_named))]
    fn named<'a>(&self, levels: u8, tokens: &'a [Token]) -> Read<'a, Part>
        ensures { ReadsTree self.now tokens.now result (read_named (expr_at levels)) }
    {
        let ((place, name), rest) = self.name(tokens)?;
        if self.comes(rest, TokenKind::Sym(Sym::OpenParen)) {
            self.call(levels, place, name, rest)
        } else {
            let node = Node::Var(name);
            Ok((
                Part {
                    expr: Expr { place, node },
                    depth: 1,
                },
                rest,
            ))
        }
    }

    /// Reads the arguments of a call, in their parentheses.
    #[cycle(descent)]
    #[tactic(auto, unfolding(safl_tree::specs::Reader::read_call, safl_tree::specs::Reader::read_arguments, safl_tree::specs::Reader::read_no_arguments))]
    fn call<'a>(&self, levels: u8, place: u32, name: Name, tokens: &'a [Token]) -> Read<'a, Part>
        ensures { ReadsTree self.now tokens.now result (read_call (expr_at levels) (record { place = place; name = name })) }
    {
        let (_, rest) = self.symbol(tokens, Sym::OpenParen)?;
        if self.comes(rest, TokenKind::Sym(Sym::CloseParen)) {
            let (_, rest) = self.symbol(rest, Sym::CloseParen)?;
            let none = Parts {
                exprs: Vec::new(self.alloc),
                depth: 0,
            };
            Ok((called(place, name, none), rest))
        } else {
            let (arguments, rest) = self.exprs(levels, rest)?;
            let (_, rest) = self.symbol(rest, Sym::CloseParen)?;
            Ok((called(place, name, arguments), rest))
        }
    }

    /// Reads expressions with commas between them.
    #[cycle(descent)]
    #[tactic(auto, unfolding(safl_tree::specs::Reader::read_exprs))]
    fn exprs<'a>(&self, levels: u8, tokens: &'a [Token]) -> Read<'a, Parts>
        ensures { ReadsTrees self.now tokens.now result (read_exprs (expr_at levels)) }
    {
        let (first, rest) = self.expr(levels, tokens)?;
        let mut parts = single(self.alloc, first)?;
        let mut rest = rest;
        'list: while self.comes(rest, TokenKind::Sym(Sym::Comma)) {
            let (next, after) = self.another(levels, parts, rest)?;
            parts = next;
            rest = after;
        }
        Ok((parts, rest))
    }

    /// Reads one more expression, after a comma.
    #[cycle(descent)]
    #[tactic(auto, unfolding(safl_tree::specs::Reader::read_another))]
    fn another<'a>(&self, levels: u8, parts: Parts, tokens: &'a [Token]) -> Read<'a, Parts>
        ensures { ReadsTrees self.now tokens.now result (read_another (expr_at levels) (shown_trees parts.exprs.items)) }
    {
        let (_, rest) = self.symbol(tokens, Sym::Comma)?;
        let (next, rest) = self.expr(levels, rest)?;
        Ok((push(parts, next)?, rest))
    }

    /// Reads a let.
    #[cycle(descent)]
    #[tactic(auto, unfolding(safl_tree::specs::Reader::read_binding))]
    fn binding<'a>(&self, levels: u8, tokens: &'a [Token]) -> Read<'a, Part>
        ensures { ReadsTree self.now tokens.now result (read_binding (expr_at levels)) }
    {
        let (place, rest) = self.word(tokens, Key::Let)?;
        let (bindings, rest) = self.binds(levels, rest)?;
        let (_, rest) = self.word(rest, Key::In)?;
        let (body, rest) = self.expr(levels, rest)?;
        Ok((bound(self.alloc, place, bindings, body)?, rest))
    }

    /// Reads a colon and a width, if a colon comes next.
    #[tactic(auto, unfolding(safl_tree::specs::Reader::read_written))]
    fn written<'a>(&self, tokens: &'a [Token]) -> Read<'a, Option<u8>>
        ensures { Reads self.now tokens.now (λ x. (x.0, x.1.now)) result read_written }
    {
        if self.comes(tokens, TokenKind::Sym(Sym::Colon)) {
            let (_, rest) = self.symbol(tokens, Sym::Colon)?;
            let ((_, width), rest) = self.width(rest)?;
            Ok((Some(width), rest))
        } else {
            Ok((None, tokens))
        }
    }

    /// Reads a binding. The second result is the depth of its value, up to the limit.
    #[cycle(descent)]
    #[tactic(auto, unfolding(safl_tree::specs::Reader::read_bind))]
    fn bind<'a>(&self, levels: u8, tokens: &'a [Token]) -> Read<'a, (Bind, u8)>
        ensures reads { Reads self.now tokens.now (λ x. (shown_bind x.0.0, x.1.now)) result (read_bind (expr_at levels)) }
        ensures depth { IfOk result (λ x. x.0.1 ≡ min (tree_depth (shown_tree x.0.0.value)) 100) }
    {
        let ((place, name), rest) = self.name(tokens)?;
        let (width, rest) = self.written(rest)?;
        let (_, rest) = self.symbol(rest, Sym::Assign)?;
        let (value, rest) = self.expr(levels, rest)?;
        let depth = value.depth;
        let bind = Bind {
            place,
            name,
            width,
            value: value.expr,
        };
        Ok(((bind, depth), rest))
    }

    /// Reads bindings with commas between them.
    #[cycle(descent)]
    #[tactic(auto, unfolding(safl_tree::specs::Reader::read_binds))]
    fn binds<'a>(&self, levels: u8, tokens: &'a [Token]) -> Read<'a, Bindings>
        ensures { ReadsBindings self.now tokens.now result (read_binds (expr_at levels)) }
    {
        let ((first, depth), rest) = self.bind(levels, tokens)?;
        let mut bindings = single_bind(self.alloc, first, depth)?;
        let mut rest = rest;
        'bound: while self.comes(rest, TokenKind::Sym(Sym::Comma)) {
            let (next, after) = self.another_bind(levels, bindings, rest)?;
            bindings = next;
            rest = after;
        }
        Ok((bindings, rest))
    }

    /// Reads one more binding, after a comma.
    #[cycle(descent)]
    #[tactic(auto, unfolding(safl_tree::specs::Reader::read_another_bind))]
    fn another_bind<'a>(
        &self,
        levels: u8,
        bindings: Bindings,
        tokens: &'a [Token],
    ) -> Read<'a, Bindings>
        ensures { ReadsBindings self.now tokens.now result (read_another_bind (expr_at levels) (shown_bounds bindings.binds.items)) }
    {
        let (_, rest) = self.symbol(tokens, Sym::Comma)?;
        let ((next, depth), rest) = self.bind(levels, rest)?;
        Ok((push_bind(bindings, next, depth)?, rest))
    }

    /// Reads the label of an arm.
    #[tactic(auto, unfolding(safl_tree::specs::Reader::read_label))]
    fn label<'a>(&self, tokens: &'a [Token]) -> Read<'a, Part>
        ensures { ReadsTree self.now tokens.now result read_label }
    {
        if self.comes_number(tokens) {
            self.literal(tokens)
        } else {
            self.sized_literal(tokens)
        }
    }

    /// Reads a case.
    #[cycle(descent)]
    #[tactic(auto, unfolding(safl_tree::specs::Reader::read_cases))]
    fn cases<'a>(&self, levels: u8, tokens: &'a [Token]) -> Read<'a, Part>
        ensures { ReadsTree self.now tokens.now result (read_cases (expr_at levels) (arms_at levels)) }
    {
        let (place, rest) = self.word(tokens, Key::Case)?;
        let (scrutinee, rest) = self.expr(levels, rest)?;
        let (_, rest) = self.symbol(rest, Sym::OpenBrace)?;
        let (arms, rest) = self.arms(levels, no_labels(self.alloc), rest)?;
        let (_, rest) = self.symbol(rest, Sym::CloseBrace)?;
        Ok((cased(self.alloc, place, scrutinee, arms)?, rest))
    }

    /// Reads the arms of a case after those in `so_far`. `levels` more levels are allowed above the value of the next
    /// arm.
    #[cycle(descent)]
    #[tactic(auto, unfolding(safl_tree::specs::Reader::arms_at, safl_tree::specs::Reader::read_arms))]
    fn arms<'a>(&self, levels: u8, so_far: Labels, tokens: &'a [Token]) -> Read<'a, AllArms>
        ensures { ReadsArms self.now tokens.now result (arms_at levels (shown_labelled so_far.arms.items)) }
    {
        if self.comes_number(tokens) || self.comes_sized(tokens) {
            self.arm(levels, so_far, tokens)
        } else {
            self.last_arm(levels, so_far, tokens)
        }
    }

    /// Reads a labelled arm and the arms after it.
    #[cycle(descent)]
    #[tactic(auto, unfolding(safl_tree::specs::Reader::arm_value_at, safl_tree::specs::Reader::read_arm, safl_tree::specs::Reader::arms_at))]
    fn arm<'a>(&self, levels: u8, so_far: Labels, tokens: &'a [Token]) -> Read<'a, AllArms>
        ensures { ReadsArms self.now tokens.now result (read_arm (arm_value_at levels) (more_arms_at levels) (shown_labelled so_far.arms.items)) }
    {
        let (label, rest) = self.label(tokens)?;
        let (_, rest) = self.symbol(rest, Sym::Arrow)?;
        if levels == 0 {
            return Err(ReadError::Refused(Cause::Deep, rest));
        }
        let below = levels - 1;
        let (value, rest) = self.expr(below, rest)?;
        let (_, rest) = self.symbol(rest, Sym::Comma)?;
        let labels = push_arm(so_far, label.expr, value)?;
        self.arms(below, labels, rest)
    }

    /// Reads the default of a case.
    #[cycle(descent)]
    #[tactic(auto, unfolding(safl_tree::specs::Reader::arm_value_at, safl_tree::specs::Reader::read_last_arm))]
    fn last_arm<'a>(&self, levels: u8, so_far: Labels, tokens: &'a [Token]) -> Read<'a, AllArms>
        ensures { ReadsArms self.now tokens.now result (read_last_arm (arm_value_at levels) (shown_labelled so_far.arms.items)) }
    {
        let (_, rest) = self.word(tokens, Key::Default)?;
        let (_, rest) = self.symbol(rest, Sym::Arrow)?;
        if levels == 0 {
            return Err(ReadError::Refused(Cause::Deep, rest));
        }
        let (value, rest) = self.expr(levels - 1, rest)?;
        Ok((with_default(so_far, value), rest))
    }
}
