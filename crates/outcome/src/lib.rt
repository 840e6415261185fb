// Any two outcomes that a promise allows are equal, for each public function: theorems alone, in specs/. No code.
#![tactic(auto)]
