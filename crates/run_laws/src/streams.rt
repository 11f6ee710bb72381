//! What passed between a run and its streams.
ghost use Rattle.std.specs.Prelude.{ℕ, List, [], ◌++◌, Option, None, Some, codes};
ghost use Rattle.m3_program.specs.Passing.{Gives, Takes, outflow};

/// A byte was taken that reads didn't give, or one of those that they gave wasn't, whether the source tells what is left or not.
pub fn taken_not_given()
    ensures nothing { (left left2 : Option (List ℕ)) (gave : List ℕ) → ¬ Gives left gave (codes "x") left2 gave }
    ensures skipped { (left left2 : Option (List ℕ)) (gave : List ℕ) → ¬ Gives left gave (codes "y") left2 (gave ++ codes "xy") }
{}

/// A source that tells gave what wasn't in front, or loses more than it gave, or tells nothing more.
pub fn given_not_left()
    ensures behind { (gave : List ℕ) → ¬ Gives (Some (codes "xy")) gave (codes "y") (Some (codes "x")) (gave ++ codes "y") }
    ensures lost { (gave : List ℕ) → ¬ Gives (Some (codes "xy")) gave (codes "x") (Some []) (gave ++ codes "x") }
    ensures silent { (gave : List ℕ) → ¬ Gives (Some (codes "x")) gave (codes "x") None (gave ++ codes "x") }
{}

/// What is said to be written was taken by no write, or twice, or before what was written earlier, whether the sink tells what was
/// written or not.
pub fn written_not_taken()
    ensures nothing { (told told2 : Option (List ℕ)) (took : List ℕ) → ¬ Takes (outflow told took) (outflow told2 took) (codes "r") }
    ensures twice { (told told2 : Option (List ℕ)) (took : List ℕ) → ¬ Takes (outflow told took) (outflow told2 (took ++ codes "rr")) (codes "r") }
    ensures order { (told told2 : Option (List ℕ)) → ¬ Takes (outflow told (codes "r")) (outflow told2 (codes "sr")) (codes "s") }
{}

/// A sink that tells doesn't tell what its writes took, or lost what was there, or tells nothing more.
pub fn taken_not_told()
    ensures nothing { (took : List ℕ) → ¬ Takes (outflow (Some []) took) (outflow (Some []) (took ++ codes "r")) (codes "r") }
    ensures lost { (took : List ℕ) → ¬ Takes (outflow (Some (codes "r")) took) (outflow (Some (codes "s")) (took ++ codes "s")) (codes "s") }
    ensures silent { (took : List ℕ) → ¬ Takes (outflow (Some []) took) (outflow None (took ++ codes "r")) (codes "r") }
{}
