ghost use Rattle.std.specs.Prelude.{ℕ, List};
ghost use Rattle.serde_json.specs.Data.{Data};
ghost use Rattle.m3_model.specs.declared.act.Fate.{Fate};
ghost use Rattle.m3_json.specs.Laws.{HasOneMeaning, TellsNamesApart, TellsMessagesApart, PutsOffExactly};

/// No line has two meanings: it is one request, or put off, or of no form.
pub fn one_meaning()
    ensures { (line : List ℕ) → HasOneMeaning line }
{}

/// The names of nodes pass the grammar's test exactly where each two of them differ.
pub fn names_apart()
    ensures { (nodes : List (List ℕ × List ℕ)) → TellsNamesApart nodes }
{}

/// The fates pass the grammar's test exactly where each two of them are of different messages.
pub fn messages_apart()
    ensures { (list : List (ℕ × ℕ × List ℕ × Fate)) → TellsMessagesApart list }
{}

/// An object is put off exactly where its op is, whatever else it has, or where it is in the grammar of its row, in a
/// form that is put off.
pub fn puts_off_exactly()
    ensures { (d : Data) → PutsOffExactly d }
{}
