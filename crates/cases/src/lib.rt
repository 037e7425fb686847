// No code: document 01's starred cases (specs/Rows), and one theorem that the definitions compute every row (proofs/Computed) (D-38).

#![tactic(auto)]
