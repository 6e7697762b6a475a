// Expressions that were read, and what may still follow them.
ghost use Rattle.std.specs.Prelude.{◌≡◌, IfOk};
ghost use Rattle.gno_rules.specs.Shapes as spec;

use crate::TypeEnd;
use gno_base::{Boxed, List};
use gno_scan::{Pos, Token, TokenKind};
use gno_tree::{BinaryOperator, Element, Expr, Name, Operation, Step, UnaryOperator};
use std::alloc::{AllocError, Global};

/// Where an expression stands.
#[derive(Clone, Copy, Debug, PartialEq, Eq)]
pub enum Place {
    /// In no header: a `{` behind a type begins its elements.
    Plain,
    /// In the header of an `if`, `for` or `switch`: a `{` behind a name begins the body.
    Header,
    /// In the header of a `switch`, where `.(type)` may end it.
    Guard,
}

/// What an expression is, for what may follow it.
#[derive(Clone, Copy, Debug, PartialEq, Eq)]
pub enum Shape {
    Name,
    /// `name.name`, which may be a type
    Qualified,
    /// A type that is no name, and how it ends.
    Type(TypeEnd),
    /// The type of a function, and how it ends.
    Function(TypeEnd),
    /// `*` before what may be a type, and how it ends.
    Pointer(TypeEnd),
    /// What may be a type, in parentheses.
    Paren,
    /// No type; how the type ends in which it ends, if it ends in one.
    Other(TypeEnd),
    /// `operand.(type)`
    Guard,
}

/// An expression that was read.
#[derive(Drop)]
pub enum Found {
    Name(Name),
    Expr { expr: Expr, shape: Shape },
    /// `operand.(type)`, with the place of its `.`
    Guard { of: Expr, pos: Pos },
}

/// An operand and the steps behind it so far.
#[derive(Drop)]
pub enum Operand {
    Alone(Found),
    Stepped {
        operand: Expr,
        steps: List<Step>,
        shape: Shape,
    },
}

/// What may stand behind an operand.
#[derive(Drop)]
pub enum Suffix {
    /// `.name`
    Selector { pos: Pos, name: Name },
    /// Another step.
    Step(Step),
    /// `{elements}`
    Elements(Elements),
    /// `.(type)`
    Guard { pos: Pos },
}

/// `{elements}`, with the place of its `{`.
#[derive(Drop)]
pub struct Elements {
    pub pos: Pos,
    pub elements: List<Element>,
}

/// Operands with operators of one level between them so far, and how the last one ends.
#[derive(Drop)]
pub struct Operands {
    pub first: Found,
    pub rest: List<Operation>,
    pub end: TypeEnd,
}

/// One expression or more, with commas between them.
#[derive(Drop)]
pub struct Exprs {
    pub first: Found,
    pub rest: List<Found>,
}

impl Place {
    /// Where the operands behind the first one stand.
    pub fn within(self) -> Place
        ensures { result ≡ spec.within_place self }
    {
        match self {
            Place::Plain => Place::Plain,
            Place::Header | Place::Guard => Place::Header,
        }
    }
}

impl Shape {
    /// How the type ends in which the expression ends.
    pub fn end(self) -> TypeEnd
        ensures { result ≡ spec.end_of self }
    {
        match self {
            Shape::Type(end) | Shape::Function(end) | Shape::Pointer(end) | Shape::Other(end) => {
                end
            }
            Shape::Name | Shape::Qualified | Shape::Paren | Shape::Guard => TypeEnd::Closed,
        }
    }

    pub fn may_be_type(self) -> bool
        ensures { result ≡ spec.may_be_type self }
    {
        !matches!(self, Shape::Other(_) | Shape::Guard)
    }

    pub fn is_guard(self) -> bool
        ensures { result ≡ spec.is_guard self }
    {
        matches!(self, Shape::Guard)
    }
}

impl Found {
    /// An expression that is no type.
    pub fn other(expr: Expr) -> Found
        ensures { result ≡ spec.other expr }
    {
        Found::Expr {
            expr,
            shape: Shape::Other(TypeEnd::Closed),
        }
    }

    pub fn shape(&self) -> Shape
        ensures { result ≡ spec.shape_of self.now }
    {
        match self {
            Found::Name(_) => Shape::Name,
            Found::Expr { shape, .. } => *shape,
            Found::Guard { .. } => Shape::Guard,
        }
    }

    pub fn into_expr(self) -> Expr
        ensures { result ≡ spec.expr_of self }
    {
        match self {
            Found::Name(name) => Expr::Name(name),
            Found::Expr { expr, .. } => expr,
            Found::Guard { of, .. } => of,
        }
    }

    // What a selector makes of it.
    fn selected(&self) -> Shape
        ensures { result ≡ spec.selected self.now }
    {
        match self {
            Found::Name(_) => Shape::Qualified,
            Found::Expr { .. } | Found::Guard { .. } => Shape::Other(TypeEnd::Closed),
        }
    }
}

impl Operand {
    pub fn shape(&self) -> Shape
        ensures { result ≡ spec.shape_of_operand self.now }
    {
        match self {
            Operand::Alone(found) => found.shape(),
            Operand::Stepped { shape, .. } => *shape,
        }
    }

    /// The operand with its steps.
    pub fn into_found(self, alloc: Global) -> Result<Found, AllocError>
        ensures { IfOk result (λ found. found ≡ spec.found_of self) }
    {
        match self {
            Operand::Alone(found) => Ok(found),
            Operand::Stepped {
                operand,
                steps,
                shape,
            } => Ok(Found::Expr {
                expr: Expr::Primary {
                    operand: Boxed::new(alloc, operand)?,
                    steps,
                },
                shape,
            }),
        }
    }

    fn with_step(self, alloc: Global, step: Step) -> Result<Operand, AllocError>
        ensures { IfOk result (λ operand. operand ≡ spec.with_step self step) }
    {
        let shape = Shape::Other(TypeEnd::Closed);
        let (operand, mut steps) = match self {
            Operand::Alone(found) => (found.into_expr(), List::new(alloc)),
            Operand::Stepped { operand, steps, .. } => (operand, steps),
        };
        steps.push(step)?;
        Ok(Operand::Stepped {
            operand,
            steps,
            shape,
        })
    }

    fn with_selector(self, alloc: Global, pos: Pos, name: Name) -> Result<Operand, AllocError>
        ensures { IfOk result (λ operand. operand ≡ spec.with_selector self pos name) }
    {
        let (operand, mut steps, shape) = match self {
            Operand::Alone(found) => {
                let shape = found.selected();
                (found.into_expr(), List::new(alloc), shape)
            }
            Operand::Stepped { operand, steps, .. } => {
                (operand, steps, Shape::Other(TypeEnd::Closed))
            }
        };
        steps.push(Step::Selector { pos, name })?;
        Ok(Operand::Stepped {
            operand,
            steps,
            shape,
        })
    }

    fn with_elements(self, alloc: Global, elements: Elements) -> Result<Operand, AllocError>
        ensures { IfOk result (λ operand. operand ≡ spec.with_elements self elements) }
    {
        let Elements { pos, elements } = elements;
        let of = self.into_found(alloc)?.into_expr();
        Ok(Operand::Alone(Found::other(Expr::Composite {
            of: Boxed::new(alloc, of)?,
            pos,
            elements,
        })))
    }

    /// The operand with one more suffix.
    pub fn with_suffix(self, alloc: Global, suffix: Suffix) -> Result<Operand, AllocError>
        ensures { IfOk result (λ operand. operand ≡ spec.with_suffix self suffix) }
    {
        match suffix {
            Suffix::Selector { pos, name } => self.with_selector(alloc, pos, name),
            Suffix::Step(step) => self.with_step(alloc, step),
            Suffix::Elements(elements) => self.with_elements(alloc, elements),
            Suffix::Guard { pos } => {
                let of = self.into_found(alloc)?.into_expr();
                Ok(Operand::Alone(Found::Guard { of, pos }))
            }
        }
    }
}

/// The operator before an operand, of a token that may be one.
fn unary_operator(kind: TokenKind) -> UnaryOperator
    ensures { result ≡ spec.unary_operator kind }
{
    match kind {
        TokenKind::Plus => UnaryOperator::Plus,
        TokenKind::Minus => UnaryOperator::Minus,
        TokenKind::Not => UnaryOperator::Not,
        TokenKind::Caret => UnaryOperator::Complement,
        TokenKind::Star => UnaryOperator::Dereference,
        _ => UnaryOperator::Address,
    }
}

/// The operator between operands, of a token that may be one.
fn binary_operator(kind: TokenKind) -> BinaryOperator
    ensures { result ≡ spec.binary_operator kind }
{
    match kind {
        TokenKind::Star => BinaryOperator::Mul,
        TokenKind::Slash => BinaryOperator::Quo,
        TokenKind::Percent => BinaryOperator::Rem,
        TokenKind::ShiftLeft => BinaryOperator::ShiftLeft,
        TokenKind::ShiftRight => BinaryOperator::ShiftRight,
        TokenKind::And => BinaryOperator::And,
        TokenKind::AndNot => BinaryOperator::AndNot,
        TokenKind::Plus => BinaryOperator::Add,
        TokenKind::Minus => BinaryOperator::Sub,
        TokenKind::Or => BinaryOperator::Or,
        TokenKind::Caret => BinaryOperator::Xor,
        TokenKind::Equal => BinaryOperator::Equal,
        TokenKind::NotEqual => BinaryOperator::NotEqual,
        TokenKind::Less => BinaryOperator::Less,
        TokenKind::LessEqual => BinaryOperator::LessEqual,
        TokenKind::Greater => BinaryOperator::Greater,
        TokenKind::GreaterEqual => BinaryOperator::GreaterEqual,
        TokenKind::BothTrue => BinaryOperator::BothTrue,
        _ => BinaryOperator::OneTrue,
    }
}

fn prefixed_shape(kind: TokenKind, shape: Shape) -> Shape
    ensures { result ≡ spec.prefixed_shape kind shape }
{
    let is_star = matches!(kind, TokenKind::Star);
    if is_star && shape.may_be_type() {
        Shape::Pointer(shape.end())
    } else {
        Shape::Other(shape.end())
    }
}

/// An operand with an operator before it.
pub fn prefixed(alloc: Global, token: Token, operand: Found) -> Result<Found, AllocError>
    ensures { IfOk result (λ found. found ≡ spec.prefixed token operand) }
{
    let shape = prefixed_shape(token.kind, operand.shape());
    Ok(Found::Expr {
        expr: Expr::Unary {
            pos: token.pos,
            operator: unary_operator(token.kind),
            operand: Boxed::new(alloc, operand.into_expr())?,
        },
        shape,
    })
}

impl Operands {
    /// One operand.
    pub fn new(alloc: Global, first: Found) -> Operands
        ensures { result ≡ spec.operands first }
    {
        let end = first.shape().end();
        Operands {
            first,
            rest: List::new(alloc),
            end,
        }
    }

    pub fn shape(&self) -> Shape
        ensures { result ≡ spec.shape_of_operands self.now }
    {
        if self.rest.is_empty() {
            self.first.shape()
        } else {
            Shape::Other(self.end)
        }
    }

    /// The operands with one more, behind an operator.
    pub fn with_operation(self, token: Token, operand: Found) -> Result<Operands, AllocError>
        ensures { IfOk result (λ operands. operands ≡ spec.with_operation self (token, operand)) }
    {
        let Operands {
            first,
            mut rest,
            ..
        } = self;
        let end = operand.shape().end();
        rest.push(Operation {
            pos: token.pos,
            operator: binary_operator(token.kind),
            operand: operand.into_expr(),
        })?;
        Ok(Operands { first, rest, end })
    }

    pub fn into_found(self, alloc: Global) -> Result<Found, AllocError>
        ensures { IfOk result (λ found. found ≡ spec.found_of_operands self) }
    {
        let Operands { first, rest, end } = self;
        if rest.is_empty() {
            return Ok(first);
        }
        Ok(Found::Expr {
            expr: Expr::Binary {
                first: Boxed::new(alloc, first.into_expr())?,
                rest,
            },
            shape: Shape::Other(end),
        })
    }
}

impl Exprs {
    /// One expression.
    pub fn new(alloc: Global, first: Found) -> Exprs
        ensures { result ≡ spec.exprs_alone first }
    {
        Exprs {
            first,
            rest: List::new(alloc),
        }
    }

    /// The expressions with one more.
    pub fn with(self, expr: Found) -> Result<Exprs, AllocError>
        ensures { IfOk result (λ exprs. exprs ≡ spec.with_expr self expr) }
    {
        let Exprs { first, mut rest } = self;
        rest.push(expr)?;
        Ok(Exprs { first, rest })
    }

    pub fn into_list(self, alloc: Global) -> Result<List<Expr>, AllocError>
        ensures { IfOk result (λ exprs. exprs ≡ spec.exprs_of self) }
    {
        let Exprs { first, rest } = self;
        let mut all = List::new(alloc);
        all.push(first.into_expr())?;
        for found in rest.into_vec() {
            all.push(found.into_expr())?;
        }
        Ok(all)
    }
}
