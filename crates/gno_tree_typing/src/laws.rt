// What holds of every tree.
ghost use Rattle.std.specs.Prelude.{ℕ, Bool, List, Option};
ghost use Rattle.gno_embedding.specs.Walking.{HasOneDefinition};
ghost use Rattle.gno_scan.specs.declared.token.Pos.{Pos};
ghost use Rattle.gno_terms.specs.declared.term.FieldOf.{FieldOf};
ghost use Rattle.gno_terms.specs.declared.term.GoType.{GoType};
ghost use Rattle.gno_terms.specs.declared.term.MethodOf.{MethodOf};
ghost use Rattle.gno_terms.specs.Tables.{Table};
ghost use Rattle.gno_tree.specs.declared.expr.Expr.{Expr};
ghost use Rattle.gno_tree.specs.declared.type_expr.TypeExpr.{TypeExpr};
ghost use Rattle.gno_tree.specs.declared.word.Literal.{Literal};
ghost use Rattle.gno_tree.specs.declared.word.Name.{Name};
ghost use Rattle.gno_tree_typing.specs.Composites.{FieldPlace, Gathered, Item, Key, ListKind, MapItem, elided, field_given, filled, key_found, list_literal, map_key, map_literal, struct_literal};
ghost use Rattle.gno_tree_typing.specs.Judging.{Context, Judges, JudgesType, LiteralType, as_literal_type, literal, pointed_literal};
ghost use Rattle.gno_tree_typing.specs.WrittenTypes.{array_length, array_type, distinct, embedded_field, embedded_methods, interface_method, map_type, qualified_type, struct_type, type_named, with_embedded};
ghost use Rattle.gno_typed.specs.declared.elements.FieldValueOf.{FieldValueOf};
ghost use Rattle.gno_typing.specs.Laws.{HasForm, HasOne};
ghost use Rattle.gno_typing.specs.Names.{Meaning};
ghost use Rattle.gno_typing.specs.declared.operand.OperandOf.{OperandOf};
ghost use Rattle.gno_typing.specs.declared.value.ValueOf.{ValueOf};

/// An expression gives an operand, or has a fault in it. This states a law and does nothing.
pub fn each_expression_has_a_form()
    ensures { (context : Context) (e : Expr) → HasForm (Judges context e) }
{}

/// A type as it is written is a type, or has a fault in it. This states a law and does nothing.
pub fn each_written_type_has_a_form()
    ensures { (context : Context) (x : TypeExpr) → HasForm (JudgesType context x) }
{}

/// Of an expression one verdict is right at most, in a table in which a type has one definition at most. This states a law and does
/// nothing.
pub fn each_expression_has_one_verdict()
    ensures { (context : Context) → HasOneDefinition context.table → (e : Expr) → HasOne (Judges context e) }
{}

/// Of a type as it is written one verdict is right at most, in a table in which a type has one definition at most. This states a law
/// and does nothing.
pub fn each_written_type_has_one_verdict()
    ensures { (context : Context) → HasOneDefinition context.table → (x : TypeExpr) → HasOne (JudgesType context x) }
{}

/// Of each rule on types as they are written one verdict is right at most; where an interface is embedded, in a table in which a type
/// has one definition at most. This states a law and does nothing.
pub fn each_rule_of_types_has_one_verdict()
    ensures name { (ms : List Meaning) (name : Name) → HasOne (type_named ms name) }
    ensures qualified { (exports : List ℕ → List Meaning) (ms : List Meaning) (qualifier name : Name) → HasOne (qualified_type exports ms qualifier name) }
    ensures names { (before ns : List Name) → HasOne (distinct before ns) }
    ensures length { (table : Table) (place : Pos) (x : OperandOf GoType) → HasOne (array_length table place x) }
    ensures array { (table : Table) (place : Pos) (count : ℕ) (element : GoType) → HasOne (array_type table place count element) }
    ensures map { (table : Table) (place : Pos) (key value : GoType) → HasOne (map_type table place key value) }
    ensures fields { (table : Table) (place : Pos) (fs : List (FieldOf GoType)) → HasOne (struct_type table place fs) }
    ensures embedded { (table : Table) (place : Pos) (path : List ℕ) (star : Bool) (name : List ℕ) (s : GoType) → HasOne (embedded_field table path place star name s) }
    ensures method { (path : List ℕ) (name : Name) (s : GoType) → HasOne (interface_method path name s) }
    ensures methods { (table : Table) → HasOneDefinition table → (place : Pos) (s : GoType) → HasOne (embedded_methods table place s) }
    ensures together { (place : Pos) (before ms : List (MethodOf GoType)) → HasOne (with_embedded place before ms) }
{}

/// Of each rule on literals, and on the elements of composite ones, one verdict is right at most. This states a law and does nothing.
pub fn each_rule_of_literals_has_one_verdict()
    ensures literal { (l : Literal) → HasOne (literal l) }
    ensures of { (at : Pos) (x : OperandOf GoType) → HasOne (as_literal_type at x) }
    ensures pointed { (at : Pos) (x : LiteralType) → HasOne (pointed_literal at x) }
    ensures filled { (table : Table) (u : GoType) (x : ValueOf GoType) → HasOne (filled table u x) }
    ensures field { (table : Table) (place : Option FieldPlace) (x : OperandOf GoType) → HasOne (field_given table place x) }
    ensures index { (table : Table) (x : OperandOf GoType) → HasOne (key_found table x) }
    ensures key { (table : Table) (key : GoType) (x : ValueOf GoType) → HasOne (map_key table key x) }
    ensures fields { (place : Pos) (s : GoType) (path : List ℕ) (fs : List (FieldOf GoType)) (ks : List Key) (x : Gathered (FieldValueOf GoType)) → HasOne (struct_literal place s path fs ks x) }
    ensures list { (table : Table) (place : Pos) (s : GoType) (kind : ListKind) (element : GoType) (x : Gathered Item) → HasOne (list_literal table place s kind element x) }
    ensures map { (place : Pos) (s : GoType) (x : Gathered MapItem) → HasOne (map_literal place s x) }
    ensures elided { (at : Pos) (u : GoType) (x : ValueOf GoType) → HasOne (elided at u x) }
{}
