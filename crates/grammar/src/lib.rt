#![tactic(auto)]

// The grammar of programs of prioritized tasks.
