// No code: laws of lists, lent bytes and tests that every crate can use.

#![tactic(auto)]
