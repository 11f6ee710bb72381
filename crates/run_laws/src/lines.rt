//! What came of lines.
ghost use Rattle.std.specs.Prelude.{◌≡◌, ◌<◌, ℕ, List, [], ◌∷◌, length, Option, None, Some, true, codes};
ghost use Rattle.m3_model.specs.declared.act.Act.{Act as Asked};
ghost use Rattle.m3_model.specs.declared.answer.Answer.TheVariants as answer;
ghost use Rattle.m3_model.specs.declared.rules.MetaState.{MetaState as State};
ghost use Rattle.m3_model.specs.declared.turn.Turn.{Turn as Line};
ghost use Rattle.m3_program.specs.Exchanges.{Answered, IsOutcome, Passed, Refused, is_blank};
ghost use Rattle.m3_program.specs.Long.{IsOutcomeByLength};
ghost use Rattle.m3_program.specs.Runs.{TakesLines};
ghost use Rattle.run_laws.specs.Samples.{ask, both_lines, gets, misanswered, one};

/// A line is answered that wasn't read, or one is passed over in silence, or a request was taken behind the last line.
pub fn lines_not_read()
    ensures another { ¬ TakesLines both_lines (gets (codes "z") (codes "r") ∷ []) None }
    ensures left_out { ¬ TakesLines both_lines (gets (codes "y") (codes "s") ∷ []) None }
    ensures behind { ¬ TakesLines (120 ∷ 10 ∷ []) one (Some ask) }
{}

/// A blank line is answered or refused, or gets a text.
pub fn blank_line_answered()
    ensures answered { (start : Option State) (turns : List Line) (turn : Line) (text : List ℕ) → ¬ IsOutcome start turns (codes " ") (Answered turn) text }
    ensures refused { (start : Option State) (turns : List Line) (text : List ℕ) → ¬ IsOutcome start turns (codes " ") (Refused answer.Form) text }
    ensures text { (start : Option State) (turns : List Line) → ¬ IsOutcome start turns (codes " ") Passed (codes "r") }
{}

/// A line that isn't blank is passed over, or refused for want of memory without a turn, or its turn gets no text.
pub fn line_without_reply()
    ensures passed { (start : Option State) (turns : List Line) → ¬ IsOutcome start turns (codes "x") Passed [] }
    ensures refused { (start : Option State) (turns : List Line) (text : List ℕ) → ¬ IsOutcome start turns (codes "x") (Refused answer.Memory) text }
    ensures silent { (start : Option State) (turns : List Line) (turn : Line) → ¬ IsOutcome start turns (codes "x") (Answered turn) [] }
{}

/// A reply has another shape than its request.
pub fn reply_of_another_shape()
    ensures { (start : Option State) (turns : List Line) (line text : List ℕ) (asked : Asked) → ¬ IsOutcome start turns line (Answered (misanswered asked)) text }
{}

/// Where long lines are told apart, one of 65,536 bytes is refused as long, or one of more isn't, unless it is blank.
pub fn long_line_told_apart()
    ensures short { (start : Option State) (turns : List Line) (line text : List ℕ) → length line ≡ 65536 → ¬ IsOutcomeByLength start turns line (Refused answer.Long) text }
    ensures form { (start : Option State) (turns : List Line) (line text : List ℕ) → 65536 < length line → ¬ IsOutcomeByLength start turns line (Refused answer.Form) text }
    ensures answered { (start : Option State) (turns : List Line) (turn : Line) (line text : List ℕ) → 65536 < length line → ¬ IsOutcomeByLength start turns line (Answered turn) text }
    ensures blank { (start : Option State) (turns : List Line) (line : List ℕ) → is_blank line ≡ true → IsOutcomeByLength start turns line Passed [] }
{}
