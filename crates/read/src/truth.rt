// Two truth values at once, as functions: a contract says of each what it is, which no operator has.
ghost use Rattle.std.specs.Prelude.{◌≡◌, ◌||◌};
ghost use Rattle.read.specs.Machine.{same as same_rule};

pub fn either(a: bool, b: bool) -> bool
    ensures { result ≡ (a || b) }
{
    a || b
}

#[tactic(auto, using(crate::proofs::Same::same_beq))]
pub fn same(a: bool, b: bool) -> bool
    ensures { result ≡ same_rule a b }
{
    a == b
}
