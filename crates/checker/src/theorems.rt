// What the outcomes of checks have in common, as promises of functions that only state them.
ghost use Rattle.checker.specs.Theorems.{OutcomesExclusive, OutcomesComplete};

// The cases of the outcome exclude each other.
pub fn outcomes_exclusive()
    ensures { OutcomesExclusive }
{}

// They leave none out, once the text is read.
pub fn outcomes_complete()
    ensures { OutcomesComplete }
{}
