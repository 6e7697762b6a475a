// What a term is looked up by.
ghost use Rattle.std.specs.Prelude.{◌≡◌, [], ◌∷◌, ◌++◌, IfOk, OnOk, length};
ghost use Rattle.gno_type_rows.specs.Keys as keys;

use gno_base::{Bytes, Kind, List};
use gno_terms::{Field, Method, Term, TypeRef};
use std::alloc::{AllocError, Global};

/// A term as the table is asked for it: its form, its numbers and its texts, in order. Different terms have different keys.
#[derive(Debug, PartialEq, Eq, PartialOrd, Ord, Drop)]
pub struct Key {
    pub form: u8,
    pub numbers: List<u64>,
    pub texts: List<Bytes>,
}

impl Key {
    /// The key of a term.
    pub fn of(alloc: Global, term: &Term) -> Result<Key, AllocError>
        ensures { IfOk result (λ key. key ≡ keys.key_of term.now) }
    {
        Ok(Key {
            form: form_of(term),
            numbers: numbers_of(alloc, term)?,
            texts: texts_of(alloc, term)?,
        })
    }
}

fn form_of(term: &Term) -> u8
    ensures { result ≡ keys.form_of term.now }
{
    match term {
        Term::Basic(_) => 0,
        Term::UntypedBool => 1,
        Term::UntypedWhole => 2,
        Term::UntypedRune => 3,
        Term::UntypedText => 4,
        Term::UntypedNil => 5,
        Term::Error => 6,
        Term::Realm => 7,
        Term::Defined { .. } => 8,
        Term::Pointer(_) => 9,
        Term::Slice(_) => 10,
        Term::Array(_, _) => 11,
        Term::Map(_, _) => 12,
        Term::Function { .. } => 13,
        Term::Struct(_) => 14,
        Term::Interface(_) => 15,
    }
}

fn kind_number(kind: Kind) -> u64
    ensures { result ≡ keys.kind_number kind }
{
    match kind {
        Kind::Bool => 0,
        Kind::Text => 1,
        Kind::Int => 2,
        Kind::Int8 => 3,
        Kind::Int16 => 4,
        Kind::Int32 => 5,
        Kind::Int64 => 6,
        Kind::Uint => 7,
        Kind::Uint8 => 8,
        Kind::Uint16 => 9,
        Kind::Uint32 => 10,
        Kind::Uint64 => 11,
    }
}

fn flag(is: bool) -> u64
    ensures { result ≡ keys.flag is }
{
    if is { 1 } else { 0 }
}

fn numbers_of(alloc: Global, term: &Term) -> Result<List<u64>, AllocError>
    ensures { IfOk result (λ numbers. numbers ≡ keys.numbers_of term.now) }
{
    match term {
        Term::Basic(kind) => List::from_slice(alloc, &[kind_number(*kind)]),
        Term::Defined { local, .. } => List::from_slice(alloc, &[*local]),
        Term::Pointer(of) | Term::Slice(of) => List::from_slice(alloc, &[of.0]),
        Term::Array(length, of) => List::from_slice(alloc, &[*length, of.0]),
        Term::Map(key, of) => List::from_slice(alloc, &[key.0, of.0]),
        Term::Function {
            params,
            variadic,
            results,
        } => function_numbers(alloc, params, *variadic, results),
        Term::Struct(fields) => field_numbers(alloc, fields.as_slice()),
        Term::Interface(methods) => method_numbers(alloc, methods.as_slice()),
        _ => Ok(List::new(alloc)),
    }
}

fn function_numbers(
    alloc: Global,
    params: &List<TypeRef>,
    variadic: bool,
    results: &List<TypeRef>,
) -> Result<List<u64>, AllocError>
    ensures { IfOk result (λ numbers. numbers ≡ keys.flag variadic ∷ length params.now ∷ (keys.refs params.now ++ keys.refs results.now)) }
{
    let mut numbers = List::from_slice(alloc, &[flag(variadic), params.len() as u64])?;
    push_refs(&mut numbers, params.as_slice())?;
    push_refs(&mut numbers, results.as_slice())?;
    Ok(numbers)
}

fn push_refs(numbers: &mut List<u64>, types: &[TypeRef]) -> Result<(), AllocError>
    ensures { OnOk result (numbers.new ≡ numbers.old ++ keys.refs types.now) }
{
    for of in types {
        numbers.push(of.0)?;
    }
    Ok(())
}

fn field_numbers(alloc: Global, fields: &[Field]) -> Result<List<u64>, AllocError>
    ensures { IfOk result (λ numbers. numbers ≡ keys.field_numbers fields.now) }
{
    let mut numbers = List::new(alloc);
    for field in fields {
        numbers.push(flag(field.embedded))?;
        numbers.push(field.of.0)?;
    }
    Ok(numbers)
}

fn method_numbers(alloc: Global, methods: &[Method]) -> Result<List<u64>, AllocError>
    ensures { IfOk result (λ numbers. numbers ≡ keys.method_numbers methods.now) }
{
    let mut numbers = List::new(alloc);
    for method in methods {
        numbers.push(flag(method.pointer))?;
        numbers.push(method.of.0)?;
    }
    Ok(numbers)
}

fn texts_of(alloc: Global, term: &Term) -> Result<List<Bytes>, AllocError>
    ensures { IfOk result (λ texts. texts ≡ keys.texts_of term.now) }
{
    match term {
        Term::Defined { path, name, .. } => {
            let mut texts = List::new(alloc);
            push_copy(alloc, &mut texts, path)?;
            push_copy(alloc, &mut texts, name)?;
            Ok(texts)
        }
        Term::Struct(fields) => field_texts(alloc, fields.as_slice()),
        Term::Interface(methods) => method_texts(alloc, methods.as_slice()),
        _ => Ok(List::new(alloc)),
    }
}

fn push_copy(alloc: Global, texts: &mut List<Bytes>, text: &Bytes) -> Result<(), AllocError>
    ensures { OnOk result (texts.new ≡ texts.old ++ text.now ∷ []) }
{
    texts.push(Bytes::from_slice(alloc, text.as_slice())?)
}

fn field_texts(alloc: Global, fields: &[Field]) -> Result<List<Bytes>, AllocError>
    ensures { IfOk result (λ texts. texts ≡ keys.field_texts fields.now) }
{
    let mut texts = List::new(alloc);
    for field in fields {
        push_copy(alloc, &mut texts, &field.name)?;
        push_copy(alloc, &mut texts, &field.package)?;
    }
    Ok(texts)
}

fn method_texts(alloc: Global, methods: &[Method]) -> Result<List<Bytes>, AllocError>
    ensures { IfOk result (λ texts. texts ≡ keys.method_texts methods.now) }
{
    let mut texts = List::new(alloc);
    for method in methods {
        push_copy(alloc, &mut texts, &method.name)?;
        push_copy(alloc, &mut texts, &method.package)?;
    }
    Ok(texts)
}
