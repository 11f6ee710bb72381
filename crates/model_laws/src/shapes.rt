//! Replies of the shape of their request, and of another one.
ghost use Rattle.std.specs.Prelude.{◌≡◌, ◌≢◌, List, [], ◌∷◌, length, true};
ghost use Rattle.transcripts.specs.Caused.{Caused};
ghost use Rattle.transcripts.specs.Record.{IsAnsweredBy};
ghost use Rattle.m3_model.specs.declared.act.Act.{Act};
ghost use Rattle.m3_model.specs.declared.answer.Answer.{Answer};
ghost use Rattle.m3_model.specs.declared.answer.Answer.TheVariants as answer;
ghost use Rattle.m3_model.specs.declared.turn.Request.TheVariants as request;
ghost use Rattle.m3_model.specs.declared.turn.Reply.TheVariants as reply;
ghost use Rattle.model_laws.specs.Building.{life_of};
ghost use Rattle.model_laws.specs.Shapes.{AreAnswered, refused_whole_late, refused_whole_early};

/// One act has one answer, and never lists of answers, empty ones neither.
pub fn lists_for_one_act()
    ensures one { (a : Act) → (b : Answer) → IsAnsweredBy (request.One a) (reply.One b) }
    ensures lists { (a : Act) → (for_clients for_workers : List (List Answer)) → ¬ IsAnsweredBy (request.One a) (reply.Par for_clients for_workers) }
{}

/// Each list of acts has a list of answers: with one too few or too many the reply is another's.
pub fn list_left_out()
    ensures as_many { (a b : Act) → (c d : Answer) → AreAnswered ((a ∷ []) ∷ (b ∷ []) ∷ []) [] ((c ∷ []) ∷ (d ∷ []) ∷ []) [] }
    ensures one_too_few { (a b : Act) → (c : Answer) → ¬ AreAnswered ((a ∷ []) ∷ (b ∷ []) ∷ []) [] ((c ∷ []) ∷ []) [] }
    ensures clients { (clients workers : List (List Act)) → (for_clients for_workers : List (List Answer)) → length for_clients ≢ length clients → ¬ AreAnswered clients workers for_clients for_workers }
    ensures workers { (clients workers : List (List Act)) → (for_clients for_workers : List (List Answer)) → length for_workers ≢ length workers → ¬ AreAnswered clients workers for_clients for_workers }
{}

/// Each act of a list has an answer: with one too few or too many the reply is another's.
pub fn answer_left_out()
    ensures as_many { (a b : Act) → (c d : Answer) → AreAnswered ((a ∷ b ∷ []) ∷ []) [] ((c ∷ d ∷ []) ∷ []) [] }
    ensures one_too_few { (a b : Act) → (c : Answer) → ¬ AreAnswered ((a ∷ b ∷ []) ∷ []) [] ((c ∷ []) ∷ []) [] }
    ensures first_list { (acts : List Act) → (clients workers : List (List Act)) → (answers : List Answer) → (for_clients for_workers : List (List Answer)) → length answers ≢ length acts → ¬ AreAnswered (acts ∷ clients) workers (answers ∷ for_clients) for_workers }
{}

/// Lists of acts are refused as a whole for their position among the lines or for want of memory alone.
pub fn lists_answered_once()
    ensures order { (clients workers : List (List Act)) → IsAnsweredBy (request.Par clients workers) (reply.One answer.Order) }
    ensures memory { (clients workers : List (List Act)) → IsAnsweredBy (request.Par clients workers) (reply.One answer.Memory) }
    ensures done { (clients workers : List (List Act)) → ¬ IsAnsweredBy (request.Par clients workers) (reply.One answer.Done) }
    ensures full { (clients workers : List (List Act)) → ¬ IsAnsweredBy (request.Par clients workers) (reply.One answer.Full) }
{}

/// A line of several clients is refused as a whole with `order` where no cluster was made, and not where one was.
pub fn refused_whole_with_cluster()
    ensures before { Caused true (life_of refused_whole_early) [] }
    ensures memory { Caused true (life_of (refused_whole_late answer.Memory)) [] }
    ensures after { ¬ Caused true (life_of (refused_whole_late answer.Order)) [] }
{}
