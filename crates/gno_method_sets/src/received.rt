// The methods that a value of a type, or a pointer to it, has.
ghost use Rattle.std.specs.Prelude.{◌≡◌, ◌↔◌, ◌++◌, ◌∷◌, [], IfErr, IfOk, IsTrue, OnOk, Some, map, slice_get};
ghost use Rattle.gno_embedding.specs.Reaching.{In};
ghost use Rattle.gno_method_sets.specs.Receiving.{HasLike, received, receives};
ghost use Rattle.gno_promotion.specs.MethodSets.{Ascend, method_in};
ghost use Rattle.gno_promotion.specs.declared.found.PromotedOf.{PromotedOf};
ghost use Rattle.gno_terms.specs.Normal.{by_name};
ghost use Rattle.gno_terms.specs.declared.term.TypeRef.{TypeRef};
ghost use Rattle.std.specs.declared.cmp.Ordering.TheVariants.{Equal};

use gno_base::List;
use gno_promotion::Promoted;
use gno_terms::Method;
use std::alloc::{AllocError, Global};
use std::cmp::Ordering;

/// Whether a value, or a pointer, has a method.
pub(crate) fn receives(pointer: bool, promoted: &Promoted) -> bool
    ensures { result ≡ receives pointer promoted.now }
{
    !promoted.method.pointer || pointer || promoted.followed
}

/// The methods that a value of a type has, or a pointer to one, in their order.
pub(crate) fn received(
    alloc: Global,
    pointer: bool,
    promoted: &[Promoted],
) -> Result<List<Method>, AllocError>
    ensures { IfOk result (λ methods. methods ≡ received pointer promoted.now) }
{
    let mut methods = List::new(alloc);
    for one in promoted {
        push_received(&mut methods, pointer, one)?;
    }
    Ok(methods)
}

fn push_received(
    methods: &mut List<Method>,
    pointer: bool,
    one: &Promoted,
) -> Result<(), AllocError>
    ensures { OnOk result (methods.new ≡ methods.old ++ received pointer (one.now ∷ [])) }
{
    if receives(pointer, one) {
        methods.push(one.method.clone()?)?;
    }
    Ok(())
}

/// Whether a value of a type has a method of this name and type, or a pointer to one. Takes time by the logarithm of their number.
pub(crate) fn has_like(pointer: bool, promoted: &[Promoted], wanted: &Method) -> bool
    requires { Ascend (map method_in promoted.now) }
    ensures { IsTrue result ↔ HasLike pointer promoted.now wanted.now }
{
    match place(promoted, wanted) {
        Ok(at) => is_like(pointer, &promoted[at], wanted),
        Err(_) => false,
    }
}

fn is_like(pointer: bool, promoted: &Promoted, wanted: &Method) -> bool
    ensures { IsTrue result ↔ ((promoted.now.method.of ≡ wanted.now.of) × IsTrue (receives pointer promoted.now)) }
{
    promoted.method.of == wanted.of && receives(pointer, promoted)
}

// Where the method of a name stands, or would stand.
fn place(promoted: &[Promoted], wanted: &Method) -> Result<usize, usize>
    requires { Ascend (map method_in promoted.now) }
    ensures found { IfOk result (λ at. (p : PromotedOf TypeRef) × (slice_get promoted.now at ≡ Some p) × (by_name p.method wanted.now ≡ Equal)) }
    ensures absent { IfErr result (λ at. (p : PromotedOf TypeRef) → In p promoted.now → by_name p.method wanted.now ≡ Equal → ⊥) }
{
    promoted.binary_search_by(
        |one: &Promoted| -> Ordering
            ensures { result ≡ by_name one.now.method wanted.entry.now }
        { by_name(&one.method, wanted) },
    )
}

// The byte order of the names, then of the packages.
fn by_name(a: &Method, b: &Method) -> Ordering
    ensures { result ≡ by_name a.now b.now }
{
    a.name.cmp(&b.name).then_with(|| a.package.cmp(&b.package))
}
