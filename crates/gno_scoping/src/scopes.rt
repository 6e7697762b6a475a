// Names that stand in one scope.
ghost use Rattle.std.specs.Prelude.{◌≡◌, ◌++◌, ◌∷◌, [], IfOk, List};
ghost use Rattle.gno_judging.specs.Answers.{Answers};
ghost use Rattle.gno_scoping.specs.Scopes.{AreDistinct, Holds, does_repeat};
ghost use Rattle.gno_tree.specs.declared.word.Name.{Name};
ghost use Rattle.gno_tree_typing.specs.WrittenTypes.{distinct};

use gno_judging::Faults;
use gno_names::is_blank;
use gno_tree::Name;
use std::alloc::{AllocError, Global};
use std::collections::BTreeMap;

/// Names that are distinct.
#[derive(Clone, Copy, Debug)]
pub struct Distinct;

/// The names that were met in one scope.
#[derive(Drop)]
pub struct Scoped {
    met: BTreeMap<Vec<u8>, ()>,
}

impl Scoped {
    /// No name.
    pub fn new(alloc: Global) -> Scoped
        ensures { Holds result [] }
    {
        Scoped {
            met: BTreeMap::new(alloc),
        }
    }

    // Whether a name repeats one that was met. It is met from then on.
    fn repeats(&mut self, alloc: Global, name: &Name) -> Result<bool, AllocError>
        ensures { (before : List Name) → Holds self.old before → IfOk result (λ again. (again ≡ does_repeat before name.now) × Holds self.new (before ++ name.now ∷ [])) }
    {
        let blank = is_blank(name.text.as_slice());
        let key = Vec::from_slice(alloc, name.text.as_slice())?;
        match self.met.insert(key, ())? {
            Some(()) => Ok(!blank),
            None => Ok(false),
        }
    }

    /// Further names of the scope; `None` where one of them, which is not `_`, was met before, which is noted. Takes time by the names and
    /// the logarithm of those that were met. Go specification, "Declarations and scope". An `Err` comes where there is no memory.
    pub fn distinct(
        &mut self,
        alloc: Global,
        faults: &mut Faults,
        names: &[Name],
    ) -> Result<Option<Distinct>, AllocError>
        ensures answers { (before : List Name) → Holds self.old before → IfOk result (λ r. Answers (distinct before names.now) AreDistinct faults.old faults.new r) }
        ensures holds { (before : List Name) → Holds self.old before → IfOk result (λ r. Holds self.new (before ++ names.now)) }
    {
        let mut found = Some(Distinct);
        for name in names {
            if self.repeats(alloc, name)? {
                faults.note(64, name.pos);
                found = None;
            }
        }
        Ok(found)
    }
}
