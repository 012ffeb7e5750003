// What tenants are promised. There is no code here: specs/ holds the statements, over what the core promises of each request, and proofs/
// their proofs.
#![tactic(auto)]
