//! How far a run of a script got.
ghost use Rattle.std.specs.Prelude.{ℕ, List, [], ◌∷◌, Option, None, Some, codes};
ghost use Rattle.m3_model.specs.declared.act.Act.TheVariants as act;
ghost use Rattle.m3_model.specs.declared.turn.Request.{Request as Asked};
ghost use Rattle.m3_program.specs.Scripts.{Deferred, IsPart, IsTaken, ScriptPart, PlayedTo, Served};
ghost use Rattle.m3_program.specs.declared.status.Status.TheVariants as status;
ghost use Rattle.run_laws.specs.Samples.{ask, misanswered};
ghost use Rattle.run_laws.specs.States.{go_to};

/// With status 0, or where the sink failed, requests are left; the meta disk failed, and something is written, or no request
/// was taken; or memory was wanted, and something is written.
pub fn script_not_played()
    ensures done { (parts : List ScriptPart) (asked : Option Asked) (written : List ℕ) → ¬ PlayedTo status.Done parts (ask ∷ []) asked written }
    ensures sink { (parts : List ScriptPart) (asked : Option Asked) (written : List ℕ) → ¬ PlayedTo status.WriteFault parts (ask ∷ []) asked written }
    ensures disk { (parts : List ScriptPart) (later : List Asked) (asked : Option Asked) → ¬ PlayedTo status.DiskFault parts later asked (codes "r") }
    ensures untaken { (parts : List ScriptPart) (later : List Asked) (written : List ℕ) → ¬ PlayedTo status.DiskFault parts later None written }
    ensures memory { (parts : List ScriptPart) (later : List Asked) (asked : Option Asked) → ¬ PlayedTo status.Memory parts later asked (codes "r") }
{}

/// A request that is served is put off, or answered in another shape; or one was taken behind the script's end, or another one
/// than the next.
pub fn request_not_served()
    ensures put_off { ¬ IsPart (Deferred ask) }
    ensures shape { ¬ IsPart (Served (misanswered (act.Now 5))) }
    ensures behind { ¬ IsTaken (Some ask) [] }
    ensures another { ¬ IsTaken (Some ask) (go_to 7 ∷ []) }
{}
