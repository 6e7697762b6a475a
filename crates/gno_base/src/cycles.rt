// A budget of cycles.
ghost use Rattle.std.specs.Prelude.{◌≡◌, ◌<◌, ◌-◌, ◌≤◌, OnOk, OnErr};

/// Less is left than a charge takes.
#[derive(Clone, Copy, Debug, PartialEq, Eq)]
pub struct Spent;

/// What is left of a budget, in cycles.
#[derive(Clone, Copy, Debug, PartialEq, Eq)]
pub struct Cycles {
    pub left: u64,
}

impl Cycles {
    /// Takes n cycles. `Spent` comes exactly where fewer are left, and then none are taken.
    pub fn charge(&mut self, n: u64) -> Result<(), Spent>
        ensures fits { OnOk result (n ≤ self.old.left) }
        ensures taken { OnOk result (self.new ≡ record { left = self.old.left - n }) }
        ensures spent { OnErr result (self.old.left < n) }
        ensures unchanged { OnErr result (self.new ≡ self.old) }
    {
        if self.left < n {
            return Err(Spent);
        }
        self.left -= n;
        Ok(())
    }
}
