// The bodies of functions. Each method reads one production of the grammar.
ghost use Rattle.std.specs.Prelude.{◌≡◌, Some};
ghost use Rattle.gno_first.specs.Form as form;
ghost use Rattle.gno_first.specs.Gives.{Gives};
ghost use Rattle.gno_first.specs.Options.{each};

use crate::fault::FirstFault;
use crate::literals::literal_of;
use crate::operand::Operand;
use crate::parts::{argument_of, is_println, name_of, only, operator_of};
use crate::scope::Scope;
use crate::tree::{FirstExpr, FirstStmt};
use gno_base::List;
use gno_tree::{
    AssignOperator, Block, Expr, Literal, LiteralKind, Operation, Simple, Statement, Step,
    StepOperator,
};
use std::alloc::Global;

// Whether a `return` stands at the end of a body with a result, and nowhere else.
fn ends_well(has_int: bool, body: &[FirstStmt]) -> bool
    ensures { result ≡ form.ends_well has_int body.now }
{
    for (at, statement) in body.iter().enumerate() {
        if let FirstStmt::Return(_) = statement {
            return has_int && at + 1 == body.len();
        }
    }
    !has_int
}

/// Reads what may name the variables of a file.
#[derive(Clone, Copy)]
pub struct BodyReader<'a, 'n> {
    pub alloc: Global,
    pub variables: &'a Scope<'n>,
}

impl<'a, 'n> BodyReader<'a, 'n> {
    // name
    fn variable(&self, expression: &Expr) -> Result<usize, FirstFault>
        ensures { Gives (form.variable_of self.now.variables.now expression.now) result }
    {
        let Some(name) = name_of(expression) else {
            return Err(FirstFault::NotFirst);
        };
        match self.variables.number(name) {
            Some(number) => Ok(number),
            None => Err(FirstFault::NotFirst),
        }
    }

    // number
    fn number(&self, literal: &Literal) -> Result<u64, FirstFault>
        ensures { Gives (form.number_of literal.now) result }
    {
        let LiteralKind::Integer = literal.kind else {
            return Err(FirstFault::NotFirst);
        };
        match literal_of(self.alloc, literal.spelling.as_slice()) {
            Ok(Some(number)) => Ok(number),
            Ok(None) => Err(FirstFault::NotFirst),
            Err(_) => Err(FirstFault::NoMemory),
        }
    }

    // name | number
    #[tactic(auto, unfolding(crate::specs::Form::operand_of))]
    fn operand(&self, expression: &Expr) -> Result<Operand, FirstFault>
        ensures { Gives (form.operand_of self.now.variables.now expression.now) result }
    {
        match expression {
            Expr::Name(name) => match self.variables.number(name.text.as_slice()) {
                Some(number) => Ok(Operand::Name(number)),
                None => Err(FirstFault::NotFirst),
            },
            Expr::Literal(literal) => Ok(Operand::Number(self.number(literal)?)),
            _ => Err(FirstFault::NotFirst),
        }
    }

    // Operand op Operand
    #[tactic(auto, unfolding(crate::specs::Form::operation_of))]
    fn operation(&self, first: &Expr, operation: &Operation) -> Result<FirstExpr, FirstFault>
        ensures { Gives (form.operation_of self.now.variables.now first.now operation.now) result }
    {
        let left = self.operand(first)?;
        let Some(op) = operator_of(operation.operator) else {
            return Err(FirstFault::NotFirst);
        };
        let right = self.operand(&operation.operand)?;
        match left.joined(op, right) {
            Some(expression) => Ok(expression),
            None => Err(FirstFault::NotFirst),
        }
    }

    // Operand | Operand op Operand
    #[tactic(auto, unfolding(crate::specs::Form::expression_of))]
    fn expression(&self, expression: &Expr) -> Result<FirstExpr, FirstFault>
        ensures { Gives (form.expression_of self.now.variables.now expression.now) result }
    {
        match expression {
            Expr::Binary { first, rest } => match only(rest.as_slice()) {
                Some(operation) => self.operation(first.get(), operation),
                None => Err(FirstFault::NotFirst),
            },
            _ => Ok(self.operand(expression)?.alone()),
        }
    }

    // The expression that stands alone.
    fn only_expression(&self, expressions: &List<Expr>) -> Result<FirstExpr, FirstFault>
        ensures { Gives (form.only_expression_of self.now.variables.now expressions.now) result }
    {
        match only(expressions.as_slice()) {
            Some(expression) => self.expression(expression),
            None => Err(FirstFault::NotFirst),
        }
    }

    // name "++"
    fn increment(&self, operand: &Expr, operator: StepOperator) -> Result<FirstStmt, FirstFault>
        ensures { Gives (form.increment_of self.now.variables.now operand.now operator) result }
    {
        match operator {
            StepOperator::Increment => Ok(FirstStmt::Increment(self.variable(operand)?)),
            StepOperator::Decrement => Err(FirstFault::NotFirst),
        }
    }

    // name "=" Expr
    fn assignment(
        &self,
        left: &List<Expr>,
        operator: AssignOperator,
        right: &List<Expr>,
    ) -> Result<FirstStmt, FirstFault>
        ensures { Gives (form.assignment_of self.now.variables.now left.now operator right.now) result }
    {
        let AssignOperator::Assign = operator else {
            return Err(FirstFault::NotFirst);
        };
        let Some(name) = only(left.as_slice()) else {
            return Err(FirstFault::NotFirst);
        };
        let variable = self.variable(name)?;
        Ok(FirstStmt::Assign(variable, self.only_expression(right)?))
    }

    // "println" "(" Expr ")"
    #[tactic(auto, unfolding(crate::specs::Form::called_print_of))]
    fn called_print(&self, called: &Expr, steps: &List<Step>) -> Result<FirstStmt, FirstFault>
        ensures { Gives (form.called_print_of self.now.variables.now called.now steps.now) result }
    {
        if !is_println(called) {
            return Err(FirstFault::NotFirst);
        }
        let Some(step) = only(steps.as_slice()) else {
            return Err(FirstFault::NotFirst);
        };
        match argument_of(step) {
            Some(argument) => Ok(FirstStmt::Print(self.expression(argument)?)),
            None => Err(FirstFault::NotFirst),
        }
    }

    #[tactic(auto, unfolding(crate::specs::Form::print_of))]
    fn print(&self, expression: &Expr) -> Result<FirstStmt, FirstFault>
        ensures { Gives (form.print_of self.now.variables.now expression.now) result }
    {
        match expression {
            Expr::Primary { operand, steps } => self.called_print(operand.get(), steps),
            _ => Err(FirstFault::NotFirst),
        }
    }

    #[tactic(auto, unfolding(crate::specs::Form::simple_of))]
    fn simple(&self, statement: &Simple) -> Result<FirstStmt, FirstFault>
        ensures { Gives (form.simple_of self.now.variables.now statement.now) result }
    {
        match statement {
            Simple::Expr(expression) => self.print(expression),
            Simple::Step {
                operand,
                operator,
                ..
            } => self.increment(operand, *operator),
            Simple::Assign {
                left,
                operator,
                right,
                ..
            } => self.assignment(left, *operator, right),
            _ => Err(FirstFault::NotFirst),
        }
    }

    // name "++" | name "=" Expr | "println" "(" Expr ")" | "return" Expr
    #[tactic(auto, unfolding(crate::specs::Form::statement_of))]
    fn statement(&self, statement: &Statement) -> Result<FirstStmt, FirstFault>
        ensures { Gives (form.statement_of self.now.variables.now statement.now) result }
    {
        match statement {
            Statement::Simple(simple) => self.simple(simple),
            Statement::Return { values, .. } => {
                Ok(FirstStmt::Return(self.only_expression(values)?))
            }
            _ => Err(FirstFault::NotFirst),
        }
    }

    fn statements(&self, statements: &[Statement]) -> Result<List<FirstStmt>, FirstFault>
        ensures { Gives (each (form.statement_of self.now.variables.now) statements.now) result }
    {
        let mut body = List::new(self.alloc);
        for statement in statements {
            let statement = self.statement(statement)?;
            let Ok(()) = body.push(statement) else {
                return Err(FirstFault::NoMemory);
            };
        }
        Ok(body)
    }

    /// The body of a function, where `has_int` says whether it has a result.
    pub fn body(&self, has_int: bool, block: &Block) -> Result<List<FirstStmt>, FirstFault>
        ensures { Gives (form.body_of self.now.variables.now has_int block.now) result }
    {
        let body = self.statements(block.statements.as_slice())?;
        if !ends_well(has_int, body.as_slice()) {
            return Err(FirstFault::NotFirst);
        }
        Ok(body)
    }
}
