ghost use Rattle.block_buffer.specs.Laws.{ExpiresAsRulesSay, NamesAllMatched};

/// A law: without matchers a pick asks for exactly the points that it names.
pub fn names_all_matched()
    ensures { NamesAllMatched }
{}

/// A law: what leaves at expiry is what has expired by the rules.
pub fn expires_as_rules_say()
    ensures { ExpiresAsRulesSay }
{}
