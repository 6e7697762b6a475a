// The machine of the first form.
ghost use Rattle.std.specs.Prelude.{◌≡◌, ◌<◌, ◌≤◌, ◌-◌, ◌∷◌, ◌++◌, [], List, length, slice_get, Some, None, false, ◌^◌, IfOk, IfErr, IsErrOf, OnErr, OnOk};
ghost use Rattle.std.specs.Prelude.{ℕ};
ghost use Rattle.gno_base.specs.Number.{Number};
ghost use Rattle.gno_machine.specs.Meaning.{Ended, State, after_step, body_meaning, call_meaning, done_end, evaluated, int_of, line_of, operated, printing, run_meaning, spent_at, spent_end, value_at};
ghost use Rattle.gno_machine.specs.Ints.{AreInts, IsInt};
ghost use Rattle.gno_first.specs.Lawful.{AreFuncsIn, IsBodyIn, IsExprIn, IsStmtIn};

use gno_base::{Bytes, Cycles, List, Spent, Whole};
use gno_first::{FirstExpr, FirstFile, FirstFunc, FirstOp, FirstStmt};
use std::alloc::{AllocError, Global};

/// There is no memory.
#[derive(Clone, Copy, Debug, PartialEq, Eq)]
pub struct NoMemory;

/// The end of a run: the bytes that it printed, its result, whether its budget was spent, and what is left of that.
#[derive(Drop)]
pub struct FirstEnd {
    pub printed: Bytes,
    pub result: Option<Whole>,
    pub spent: bool,
    pub left: u64,
}

/// How a statement ended: whether the function returns, and with which value.
#[derive(Drop)]
pub struct Step {
    pub returns: bool,
    pub value: Option<Whole>,
}

/// Why a statement was not run to its end.
#[derive(Clone, Copy, Debug, PartialEq, Eq)]
enum Stop {
    Spent,
    NoMemory,
}

/// Calls the function of that number of a file. `values` holds one `int` for each variable, in order of declaration;
/// what the run wrote stays there, also where the budget was spent.
pub fn run_first(
    alloc: Global,
    file: &FirstFile,
    function: usize,
    values: &mut List<Whole>,
    cycles: Cycles,
) -> Result<FirstEnd, NoMemory>
    requires lawful { AreFuncsIn (length file.now.variables) file.now.functions }
    requires function { function < length file.now.functions }
    requires count { length values.old ≡ length file.now.variables }
    requires ints { AreInts values.old }
    ensures end { IfOk result (λ end. end ≡ (run_meaning file.now function values.old cycles.left).end) }
    ensures values { OnOk result (values.new ≡ (run_meaning file.now function values.old cycles.left).values) }
    ensures still_ints { AreInts values.new }
    ensures same_count { length values.new ≡ length values.old }
{
    let called = function_at(file, function);
    run_function(alloc, called, values, cycles)
}

fn function_at(file: &FirstFile, function: usize) -> &FirstFunc
    requires lawful { AreFuncsIn (length file.now.variables) file.now.functions }
    requires function { function < length file.now.functions }
    ensures found { slice_get file.now.functions function ≡ Some result.now }
    ensures lawful { IsBodyIn (length file.now.variables) result.now.has_int result.now.body }
{
    &file.functions.as_slice()[function]
}

fn run_function(
    alloc: Global,
    called: &FirstFunc,
    values: &mut List<Whole>,
    cycles: Cycles,
) -> Result<FirstEnd, NoMemory>
    requires lawful { IsBodyIn (length values.old) called.now.has_int called.now.body }
    requires ints { AreInts values.old }
    ensures end { IfOk result (λ end. end ≡ (call_meaning called.now (record { values = values.old; printed = []; left = cycles.left })).end) }
    ensures values { OnOk result (values.new ≡ (call_meaning called.now (record { values = values.old; printed = []; left = cycles.left })).values) }
    ensures still_ints { AreInts values.new }
    ensures same_count { length values.new ≡ length values.old }
{
    let mut left = cycles;
    match left.charge(1) {
        Ok(()) => run_body(alloc, called.has_int, called.body.as_slice(), values, left),
        Err(Spent) => Ok(spent(Bytes::new(alloc), left)),
    }
}

fn run_body(
    alloc: Global,
    has_int: bool,
    body: &[FirstStmt],
    values: &mut List<Whole>,
    cycles: Cycles,
) -> Result<FirstEnd, NoMemory>
    requires lawful { IsBodyIn (length values.old) has_int body.now }
    requires ints { AreInts values.old }
    ensures end { IfOk result (λ end. end ≡ (body_meaning body.now (record { values = values.old; printed = []; left = cycles.left })).end) }
    ensures values { OnOk result (values.new ≡ (body_meaning body.now (record { values = values.old; printed = []; left = cycles.left })).values) }
    ensures still_ints { AreInts values.new }
    ensures same_count { length values.new ≡ length values.old }
{
    let mut left = cycles;
    let mut printed = Bytes::new(alloc);
    for statement in body {
        match run_statement(alloc, statement, values, &mut printed, &mut left) {
            Ok(step) => {
                if step.returns {
                    return Ok(done(printed, step.value, left));
                }
            }
            Err(Stop::Spent) => return Ok(spent(printed, left)),
            Err(Stop::NoMemory) => return Err(NoMemory),
        }
    }
    Ok(done(printed, None, left))
}

// Runs one statement, whatever follows it.
#[tactic(auto, using(crate::proofs::Sets::on_ints))]
fn run_statement(
    alloc: Global,
    statement: &FirstStmt,
    values: &mut List<Whole>,
    printed: &mut Bytes,
    cycles: &mut Cycles,
) -> Result<Step, Stop>
    requires within { IsStmtIn (length values.old) statement.now }
    requires ints { AreInts values.old }
    ensures goes { IfOk result (λ step. (rest : List FirstStmt) → body_meaning (statement.now ∷ rest) (record { values = values.old; printed = printed.old; left = cycles.old.left })
        ≡ after_step step (record { values = values.new; printed = printed.new; left = cycles.new.left }) rest) }
    ensures spent { IsErrOf result Stop.Spent → (rest : List FirstStmt) → body_meaning (statement.now ∷ rest) (record { values = values.old; printed = printed.old; left = cycles.old.left })
        ≡ spent_at (record { values = values.new; printed = printed.new; left = cycles.new.left }) }
    ensures still_ints { AreInts values.new }
    ensures same_count { length values.new ≡ length values.old }
{
    charge(cycles, 1)?;
    match statement {
        FirstStmt::Increment(n) => {
            charge(cycles, 1)?;
            let value = value_of(values, *n);
            values.set(*n, value.add(Whole::int(1)));
            Ok(goes_on())
        }
        FirstStmt::Assign(n, expression) => {
            charge(cycles, 1)?;
            let value = evaluate(expression, values, cycles)?;
            values.set(*n, value);
            Ok(goes_on())
        }
        FirstStmt::Print(expression) => {
            charge(cycles, 1)?;
            let value = evaluate(expression, values, cycles)?;
            match print(alloc, value, printed, cycles) {
                Ok(()) => Ok(goes_on()),
                Err(stop) => Err(stop),
            }
        }
        FirstStmt::Return(expression) => {
            let value = evaluate(expression, values, cycles)?;
            Ok(Step {
                returns: true,
                value: Some(value),
            })
        }
    }
}

fn goes_on() -> Step
    ensures { result ≡ record { returns = false; value = None } }
{
    Step {
        returns: false,
        value: None,
    }
}

fn charge(cycles: &mut Cycles, n: u64) -> Result<(), Stop>
    ensures fits { OnOk result ((n ≤ cycles.old.left) × (cycles.new ≡ record { left = cycles.old.left - n })) }
    ensures spent { IfErr result (λ stop. (stop ≡ Stop.Spent) × (cycles.old.left < n) × (cycles.new ≡ cycles.old)) }
{
    match cycles.charge(n) {
        Ok(()) => Ok(()),
        Err(Spent) => Err(Stop::Spent),
    }
}

// The value of an expression, whatever is done with it.
#[tactic(auto, using(crate::proofs::Sets::on_ints))]
fn evaluate(
    expression: &FirstExpr,
    values: &List<Whole>,
    cycles: &mut Cycles,
) -> Result<Whole, Stop>
    requires within { IsExprIn (length values.now) expression.now }
    requires ints { AreInts values.now }
    ensures value { IfOk result (λ value. (printed : List ℕ) (go : Number → State → Ended) → evaluated expression.now (record { values = values.now; printed = printed; left = cycles.old.left }) go
        ≡ go value (record { values = values.now; printed = printed; left = cycles.new.left })) }
    ensures int { IfOk result (λ value. IsInt value) }
    ensures stop { IfErr result (λ stop. stop ≡ Stop.Spent) }
    ensures spent { OnErr result ((printed : List ℕ) (go : Number → State → Ended) → evaluated expression.now (record { values = values.now; printed = printed; left = cycles.old.left }) go
        ≡ spent_at (record { values = values.now; printed = printed; left = cycles.new.left })) }
{
    charge(cycles, 1)?;
    match expression {
        FirstExpr::Name(n) => Ok(value_of(values, *n)),
        FirstExpr::Number(number) => Ok(literal(*number)),
        FirstExpr::NameName(n, operator, m) => {
            charge(cycles, 1)?;
            charge(cycles, 1)?;
            Ok(operate(*operator, value_of(values, *n), value_of(values, *m)))
        }
        FirstExpr::NameNumber(n, operator, number) => {
            charge(cycles, 1)?;
            charge(cycles, 1)?;
            Ok(operate(*operator, value_of(values, *n), literal(*number)))
        }
        FirstExpr::NumberName(number, operator, n) => {
            charge(cycles, 1)?;
            charge(cycles, 1)?;
            Ok(operate(*operator, literal(*number), value_of(values, *n)))
        }
    }
}

fn value_of(values: &List<Whole>, n: usize) -> Whole
    requires within { n < length values.now }
    requires ints { AreInts values.now }
    ensures value { result ≡ value_at values.now n }
    ensures int { IsInt result }
{
    values.as_slice()[n]
}

fn literal(number: u64) -> Whole
    requires { number < 10 ^ 18 }
    ensures value { result ≡ int_of number }
    ensures int { IsInt result }
{
    Whole::int(number as i64)
}

fn operate(operator: FirstOp, left: Whole, right: Whole) -> Whole
    requires left { IsInt left }
    requires right { IsInt right }
    ensures value { result ≡ operated operator left right }
    ensures int { IsInt result }
{
    match operator {
        FirstOp::Add => left.add(right),
        FirstOp::Sub => left.sub(right),
        FirstOp::Mul => left.mul(right),
    }
}

// Prints a value on a line of its own, whatever follows.
fn print(alloc: Global, value: Whole, printed: &mut Bytes, cycles: &mut Cycles) -> Result<(), Stop>
    ensures printed { OnOk result ((values : List Number) (go : State → Ended) → printing value (record { values = values; printed = printed.old; left = cycles.old.left }) go
        ≡ go (record { values = values; printed = printed.new; left = cycles.new.left })) }
    ensures spent { IsErrOf result Stop.Spent → (values : List Number) (go : State → Ended) → printing value (record { values = values; printed = printed.old; left = cycles.old.left }) go
        ≡ spent_at (record { values = values; printed = printed.new; left = cycles.new.left }) }
{
    let Ok(line) = line_of(alloc, value) else {
        return Err(Stop::NoMemory);
    };
    charge(cycles, line.len() as u64 / 16)?;
    let Ok(()) = printed.append(line) else {
        return Err(Stop::NoMemory);
    };
    Ok(())
}

fn line_of(alloc: Global, value: Whole) -> Result<Bytes, AllocError>
    ensures { IfOk result (λ line. line ≡ line_of value) }
{
    let digits = value.value().to_string(alloc)?;
    let mut line = Bytes::from_slice(alloc, digits.as_bytes())?;
    line.push(b'\n')?;
    Ok(line)
}

fn spent(printed: Bytes, cycles: Cycles) -> FirstEnd
    ensures { result ≡ spent_end printed cycles.left }
{
    FirstEnd {
        printed,
        result: None,
        spent: true,
        left: cycles.left,
    }
}

fn done(printed: Bytes, outcome: Option<Whole>, cycles: Cycles) -> FirstEnd
    ensures { result ≡ done_end outcome printed cycles.left }
{
    FirstEnd {
        printed,
        result: outcome,
        spent: false,
        left: cycles.left,
    }
}
