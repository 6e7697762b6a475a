// What holds of every rule.
ghost use Rattle.std.specs.Prelude.{ℕ, Bool, List, Option, Some, map};
ghost use Rattle.gno_embedding.specs.Walking.{HasOneDefinition};
ghost use Rattle.gno_scan.specs.declared.token.Pos.{Pos};
ghost use Rattle.gno_terms.specs.declared.term.GoType.{GoType};
ghost use Rattle.gno_terms.specs.Tables.{Table};
ghost use Rattle.gno_tree.specs.declared.operator.BinaryOperator.{BinaryOperator};
ghost use Rattle.gno_tree.specs.declared.operator.UnaryOperator.{UnaryOperator};
ghost use Rattle.gno_typing.specs.Assertions.{assertion};
ghost use Rattle.gno_typing.specs.Binary.{binary};
ghost use Rattle.gno_typing.specs.Builtins.{Builtin, builtin};
ghost use Rattle.gno_typing.specs.Calls.{call};
ghost use Rattle.gno_typing.specs.Conversions.{conversion};
ghost use Rattle.gno_typing.specs.Giving.{given};
ghost use Rattle.gno_typing.specs.Indexes.{index};
ghost use Rattle.gno_typing.specs.Laws.{HasForm, HasOne};
ghost use Rattle.gno_typing.specs.Names.{Meaning, exported, named};
ghost use Rattle.gno_typing.specs.Operands.{as_value};
ghost use Rattle.gno_typing.specs.Pointers.{address, dereference};
ghost use Rattle.gno_typing.specs.Selectors.{selector};
ghost use Rattle.gno_typing.specs.Slices.{Bounds, slice};
ghost use Rattle.gno_typing.specs.Unary.{unary};
ghost use Rattle.gno_typing.specs.declared.operand.OperandOf.{OperandOf};
ghost use Rattle.gno_typing.specs.declared.value.ValueOf.{ValueOf};

/// A value that is given to a place takes a form there, or has a fault. This states a law and does nothing.
pub fn each_given_value_has_a_form()
    ensures { (table : Table) (code : ℕ) (at : Pos) (u : GoType) (x : ValueOf GoType) → HasForm (given table code at u x) }
{}

/// An operator on values gives a value, or has a fault. This states a law and does nothing.
pub fn each_operator_has_a_form()
    ensures unary { (table : Table) (place : Pos) (operator : UnaryOperator) (x : ValueOf GoType) → HasForm (unary table place operator x) }
    ensures binary { (table : Table) (place : Pos) (operator : BinaryOperator) (l r : ValueOf GoType) → HasForm (binary table place operator l r) }
{}

/// What stands before or behind an operand gives an operand, or has a fault. This states a law and does nothing.
pub fn each_step_has_a_form()
    ensures value { (x : OperandOf GoType) → HasForm (as_value x) }
    ensures dereference { (table : Table) (place : Pos) (x : OperandOf GoType) → HasForm (dereference table place x) }
    ensures address { (place : Pos) (x : OperandOf GoType) → HasForm (address place x) }
    ensures index { (table : Table) (place : Pos) (x i : OperandOf GoType) → HasForm (index table place x i) }
    ensures slice { (table : Table) (place : Pos) (x : OperandOf GoType) (bounds : Bounds (OperandOf GoType)) → HasForm (slice table place x bounds) }
    ensures selector { (exports : List ℕ → List Meaning) (path : List ℕ) (table : Table) (place : Pos) (name : List ℕ) (x : OperandOf GoType) → HasForm (selector exports path table place name x) }
    ensures conversion { (table : Table) (place : Pos) (u : GoType) (x : OperandOf GoType) → HasForm (conversion table place u x) }
    ensures assertion { (table : Table) (place : Pos) (x : OperandOf GoType) (u : GoType) → HasForm (assertion table place x u) }
{}

/// A call of operands that were found gives an operand, or has a fault. This states a law and does nothing.
pub fn each_call_has_a_form()
    ensures call { (path : List ℕ) (direct : Bool) (table : Table) (place : Pos) (spread : Bool) (x : OperandOf GoType) (xs : List (OperandOf GoType)) → HasForm (call path direct table place spread x (map Some xs)) }
    ensures builtin { (table : Table) (place : Pos) (function : Builtin) (spread : Bool) (xs : List (OperandOf GoType)) → HasForm (builtin function table place spread (map Some xs)) }
{}

/// A name gives an operand, or has a fault. This states a law and does nothing.
pub fn each_name_has_a_form()
    ensures named { (ms : List Meaning) (at : Pos) (name : List ℕ) → HasForm (named ms at name) }
    ensures exported { (ms : List Meaning) (at : Pos) (name : List ℕ) → HasForm (exported ms at name) }
{}

/// Each rule allows one verdict at most, also of operands of which some were not found; where it looks into a type, in a table in
/// which a type has one definition at most. This states a law and does nothing.
pub fn each_rule_has_one_verdict()
    ensures given { (table : Table) (code : ℕ) (at : Pos) (u : GoType) (x : ValueOf GoType) → HasOne (given table code at u x) }
    ensures unary { (table : Table) → HasOneDefinition table → (place : Pos) (operator : UnaryOperator) (x : ValueOf GoType) → HasOne (unary table place operator x) }
    ensures binary { (table : Table) (place : Pos) (operator : BinaryOperator) (l r : ValueOf GoType) → HasOne (binary table place operator l r) }
    ensures value { (x : OperandOf GoType) → HasOne (as_value x) }
    ensures dereference { (table : Table) → HasOneDefinition table → (place : Pos) (x : OperandOf GoType) → HasOne (dereference table place x) }
    ensures address { (place : Pos) (x : OperandOf GoType) → HasOne (address place x) }
    ensures index { (table : Table) → HasOneDefinition table → (place : Pos) (x i : OperandOf GoType) → HasOne (index table place x i) }
    ensures slice { (table : Table) → HasOneDefinition table → (place : Pos) (x : OperandOf GoType) (bounds : Bounds (OperandOf GoType)) → HasOne (slice table place x bounds) }
    ensures assertion { (table : Table) (place : Pos) (x : OperandOf GoType) (u : GoType) → HasOne (assertion table place x u) }
    ensures conversion { (table : Table) → HasOneDefinition table → (place : Pos) (u : GoType) (x : OperandOf GoType) → HasOne (conversion table place u x) }
    ensures call { (path : List ℕ) (direct : Bool) (table : Table) → HasOneDefinition table → (place : Pos) (spread : Bool) (x : OperandOf GoType) (xs : List (Option (OperandOf GoType))) → HasOne (call path direct table place spread x xs) }
    ensures builtin { (function : Builtin) (table : Table) → HasOneDefinition table → (place : Pos) (spread : Bool) (xs : List (Option (OperandOf GoType))) → HasOne (builtin function table place spread xs) }
    ensures named { (ms : List Meaning) (at : Pos) (name : List ℕ) → HasOne (named ms at name) }
    ensures exported { (ms : List Meaning) (at : Pos) (name : List ℕ) → HasOne (exported ms at name) }
    ensures selector { (exports : List ℕ → List Meaning) (path : List ℕ) (table : Table) → HasOneDefinition table → (place : Pos) (name : List ℕ) (x : OperandOf GoType) → HasOne (selector exports path table place name x) }
{}
