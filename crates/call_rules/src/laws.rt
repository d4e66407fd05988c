ghost use Rattle.call_rules.specs.Rules.{OneAnswer};
ghost use Rattle.call_rules.specs.WorkedRules.{WorkedRules};

/// No list of statements with links has two answers by the rules of texts with calls.
pub fn one_answer()
    ensures { OneAnswer }
{}

/// What is found at some calls, worked out by hand.
pub fn worked_rules()
    ensures { WorkedRules }
{}
