// Which members are selected.
ghost use Rattle.std.specs.Prelude.{◌≡◌, ◌++◌, IfOk, IsSorted, OnOk, false};
ghost use Rattle.std.specs.Option.{option_copied};
ghost use Rattle.gno_promotion.specs.Candidates.{by_member, goes_on, has_rival, picked, picked_one, stands_out};

use crate::candidate::Candidate;
use crate::found::{Promoted, PromotedOf};
use crate::gather::copy_method;
use gno_base::List;
use std::alloc::{AllocError, Global};
use std::cmp::Ordering;

/// The methods that are selected among candidates of which those of one name stand together, the nearest first.
pub(crate) fn pick(alloc: Global, candidates: &[Candidate]) -> Result<List<Promoted>, AllocError>
    ensures { IfOk result (λ it. it ≡ picked false candidates.now) }
{
    let mut methods = List::new(alloc);
    let mut behind = false;
    for at in 0..candidates.len() {
        let candidate = &candidates[at];
        let next = candidates.get(at + 1);
        push_picked(alloc, &mut methods, behind, candidate, next)?;
        behind = goes_on(candidate, next);
    }
    Ok(methods)
}

fn push_picked(
    alloc: Global,
    methods: &mut List<Promoted>,
    behind: bool,
    candidate: &Candidate,
    next: Option<&Candidate>,
) -> Result<(), AllocError>
    ensures { OnOk result (methods.new ≡ methods.old ++ picked_one behind candidate.now (option_copied next.entry)) }
{
    if !behind && stands_out(candidate, next) {
        methods.push(PromotedOf {
            method: copy_method(alloc, &candidate.member)?,
            followed: candidate.way.followed,
        })?;
    }
    Ok(())
}

// Whether it is a method, and no other of its name is as near.
fn stands_out(candidate: &Candidate, next: Option<&Candidate>) -> bool
    ensures { result ≡ stands_out candidate.now (option_copied next.entry) }
{
    (candidate.is_method && !candidate.way.twice)
        && (candidate.member.name.as_slice() != b"_".as_slice() && !has_rival(candidate, next))
}

// Whether the next one has the same name and package.
fn goes_on(candidate: &Candidate, next: Option<&Candidate>) -> bool
    ensures { result ≡ goes_on candidate.now (option_copied next.entry) }
{
    match next {
        Some(next) => by_member(candidate, next).is_eq(),
        None => false,
    }
}

// Whether the next one has the same name and package, and is not deeper.
fn has_rival(candidate: &Candidate, next: Option<&Candidate>) -> bool
    ensures { result ≡ has_rival candidate.now (option_copied next.entry) }
{
    match next {
        Some(next) => {
            by_member(candidate, next).is_eq() && !(candidate.way.depth < next.way.depth)
        }
        None => false,
    }
}

/// The byte order of the names, then of the packages.
pub(crate) fn by_member(a: &Candidate, b: &Candidate) -> Ordering
    ensures { result ≡ by_member a.now b.now }
{
    a.member
        .name
        .cmp(&b.member.name)
        .then_with(|| a.member.package.cmp(&b.member.package))
}
